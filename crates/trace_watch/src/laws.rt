//! A law of what is said of texts.

ghost use Rattle.trace_watch.specs.Laws.{OneWatching, SomeWatching};

/// Exactly one thing is said of each text: its first error, the first place at which its heads are not those of the monitor, or what each process
/// says of its stream.
pub fn texts_have_one_watching()
    ensures one { OneWatching }
    ensures some { SomeWatching }
{}
