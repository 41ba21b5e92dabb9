use bench_run::BenchRows;
use handshake::PortRun;
use scheduler::Planner;
use testbench::BenchPieces;
use trace_pieces::TracePieces;
use tydi_base::List;
use value_text::ValuePieces;
use vcd_read::DumpText;
use vhdl_writer::DesignPieces;
use watch_text::WatchPieces;

/// Where the pieces of a text come from.
#[derive(Drop)]
pub(crate) enum Source {
    /// One piece, which is there.
    Whole(List<u8>),
    /// The trace of a port, whose rows are made one after another.
    Rows(TracePieces<PortRun<Planner>>),
    /// The trace of a bench, whose rows are made one after another.
    Cycles(TracePieces<BenchRows>),
    /// Entities and architectures, whose text is made one after another.
    Design(DesignPieces),
    /// The testbench of a port, whose statements are made one after another.
    Lines(BenchPieces<Planner>),
    /// The trace that a dump shows: its header, and its rows.
    Dump(DumpText),
    /// The value of a port, whose text is made part after part.
    Value(ValuePieces),
    /// The monitor of a port, whose tables and processes are made part after part.
    Watch(WatchPieces),
}
