//! The laws of the traces of benches.

ghost use Rattle.bench_run.specs.Laws.{BenchesMakeTraces, TextsAreConfluent};

/// The laws of the traces of benches. A well-formed bench and a run that fits it make a trace. Its text is read as that trace, and each of
/// its streams shows its signals in the meaning of the bench. Runs of the same cycles and ready bits make the same text, whatever their
/// orders are.
pub fn traces_of_benches()
    ensures traces { BenchesMakeTraces }
    ensures confluent { TextsAreConfluent }
{}
