//! The laws of the bench that drives a port.

ghost use Rattle.port_bench.specs.Laws.{BenchesShowTheirRuns, DrivenPortsHaveBenches};

use port_drive::driven_texts_are_traces;
use testbench::port_benches_keep_their_laws;
use vhdl_text::benches_are_read_as_printed;

/// The laws of the bench that drives a port. It is well formed, and its text is read as this bench and no other. Under the cycles and the
/// ready bits of the plan, and under any orders of its processes, the text of its trace is that of the trace that drives the port.
pub fn benches_show_their_runs()
    ensures benches { DrivenPortsHaveBenches }
    ensures runs { BenchesShowTheirRuns }
{
    port_benches_keep_their_laws();
    driven_texts_are_traces();
    benches_are_read_as_printed();
}
