//! The laws of dumps.

ghost use Rattle.vcd_read.specs.Laws.{DumpsShowTraces, FaultsNameStreams};

/// Each error of a dump names a stream that is there, where it names one, and is no want of memory.
pub fn faults_name_streams()
    ensures { FaultsNameStreams }
{}

/// The trace that a dump shows is a trace of the wanted streams: each row shows what its stream can show.
pub fn dumps_show_traces()
    ensures { DumpsShowTraces }
{}
