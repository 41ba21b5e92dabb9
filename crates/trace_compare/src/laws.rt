//! Laws of comparisons, for all texts.

ghost use Rattle.trace_compare.specs.Laws.{NoneSaidWhereSame, NoneWhereSame, OneComparison, SomeComparison};

/// Exactly one thing is said of each text: its first fault, the first place at which its heads are not those of the port, or the first
/// difference of each stream that has one.
pub fn texts_have_one_comparison()
    ensures one { OneComparison }
    ensures some { SomeComparison }
{}

/// There are no differences exactly where the items done on all streams are the expected ones, of all streams of traces and of all texts that
/// spell a trace of the port.
pub fn no_differences_where_same()
    ensures streams { NoneWhereSame }
    ensures texts { NoneSaidWhereSame }
{}
