//! The laws of the rows of a port's runs.

ghost use Rattle.trace_pieces.specs.Laws.{RowsAreSpelled, RowsCanBeMade, RunsAreTraces, StreamsAreRuns};

/// The laws of rows that are made one by one. Their text is that of the rows of a trace. The rows of the runs of a port's streams are a
/// trace, where each stream can show its transfers and has a ready bit for each cycle; and the cycles of each stream of it are its run.
pub fn rows_keep_their_laws()
    ensures spelled { RowsAreSpelled }
    ensures made { RowsCanBeMade }
    ensures traces { RunsAreTraces }
    ensures runs { StreamsAreRuns }
{}
