//! The heads of the streams of a port, as a trace has them.

ghost use Rattle.std.specs.Prelude.{◌≡◌, ◌≤◌, true, map, IfOk};
ghost use Rattle.std.specs.List.{All};
ghost use Rattle.tydi_base.specs.Level.{IsLevel};
ghost use Rattle.physical_stream.specs.StreamLine.{IsHead};
ghost use Rattle.cycle_trace.specs.Spelling.{header_text};
ghost use Rattle.cycle_trace.specs.Trace.{are_heads, most_cycles, params_of_heads};
ghost use Rattle.cycle_trace.specs.Version.{version_of};
ghost use Rattle.type_split.specs.Streams.{IsPortSplit, plain_split};
ghost use Rattle.port_drive.specs.Drives as spec;
ghost use Rattle.port_drive.specs.Drives.{head_of_stream};
ghost use Rattle.port_drive.specs.Text.{AreHeadsInForm};

use cycle_trace::write_header;
use physical_stream::{Head, Header, Params};
use std::alloc::Global;
use tydi_base::{Level, List, Memory, TryClone};
use type_split::{Phys, Split};

/// The heads of the streams of a port can stand in one trace: each is in form, since its type says so, and no two have one path.
pub fn heads_stand_together(split: &Split<'_>)
    requires { IsPortSplit (plain_split split.now) }
    ensures form { AreHeadsInForm (plain_split split.now) }
    ensures apart { are_heads (spec.heads_of (plain_split split.now)) ≡ true }
{
    streams_are_in_form(split.streams.as_slice());
}

fn streams_are_in_form(streams: &[Phys])
    ensures { All (λ stream. IsHead (head_of_stream stream)) streams.now }
{
    'streams: for stream in streams {
        stream_is_in_form(stream);
    }
}

fn stream_is_in_form(stream: &Phys)
    ensures { IsHead (head_of_stream stream.now) }
{
    let _names = stream.path.names();
    level_is_in_form(stream.params.level);
    let _lanes = stream.params.lanes;
}

fn level_is_in_form(level: Level)
    ensures { IsLevel level }
{
    let _numbers = level.numbers();
}

/// The text of the header of a trace of these streams and of so many cycles.
pub(crate) fn header_of(alloc: Global, streams: &[Phys], cycles: u32) -> Result<List<u8>, Memory>
    requires streams { are_heads (map head_of_stream streams.now) ≡ true }
    requires few { cycles ≤ most_cycles }
    ensures { IfOk result (λ text. text ≡ header_text (version_of (map head_of_stream streams.now)) cycles (map head_of_stream streams.now)) }
{
    let heads = heads_of(alloc, streams)?;
    let mut text = List::new(alloc);
    write_header(alloc, &mut text, &Header { cycles, heads })?;
    Ok(text)
}

/// The head of a stream.
fn head_of(alloc: Global, stream: &Phys) -> Result<Head, Memory>
    ensures { IfOk result (λ head. head ≡ head_of_stream stream.now) }
{
    Ok(Head {
        path: stream.path.try_clone(alloc)?,
        params: stream.params,
        reversed: stream.reversed,
    })
}

/// The heads of these streams, as a trace and a bench have them. Want of memory is the one error.
pub fn heads_of(alloc: Global, streams: &[Phys]) -> Result<List<Head>, Memory>
    ensures { IfOk result (λ heads. heads ≡ map head_of_stream streams.now) }
{
    let mut heads = List::with_capacity(alloc, streams.len())?;
    'streams: for stream in streams {
        heads.push(head_of(alloc, stream)?)?;
    }
    Ok(heads)
}

/// The parameters of these streams.
pub(crate) fn params_of(alloc: Global, streams: &[Phys]) -> Result<List<Params>, Memory>
    ensures { IfOk result (λ params. params ≡ params_of_heads (map head_of_stream streams.now)) }
{
    let mut params = List::with_capacity(alloc, streams.len())?;
    'streams: for stream in streams {
        params.push(stream.params)?;
    }
    Ok(params)
}
