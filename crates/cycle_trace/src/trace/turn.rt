//! Whose row comes next: rows stand by cycle, and in each cycle by stream.

ghost use Rattle.std.specs.Prelude.{◌≡◌, ◌+◌, ◌%◌, ◌<◌, ◌≤◌, ◌==◌, if◌then◌else◌};
ghost use Rattle.cycle_trace.specs.Trace.{most_cycles};

/// The stream after this one of so many, which is the first after the last.
pub(crate) fn next_stream(stream: usize, count: usize) -> usize
    requires { stream < count }
    ensures { result ≡ (if stream + 1 == count then 0 else stream + 1) }
{
    let next = stream + 1;
    if next == count { 0 } else { next }
}

/// The cycle of the row after one of this cycle, where that is a row of this stream.
pub(crate) fn next_cycle(cycle: u32, stream: usize) -> u32
    requires { cycle < most_cycles }
    ensures { result ≡ (if stream == 0 then cycle + 1 else cycle) }
{
    if stream == 0 { cycle + 1 } else { cycle }
}
