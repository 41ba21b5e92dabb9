//! Laws of traces against a port's type, for all traces.

ghost use Rattle.trace_decode.specs.Laws.{DisagreeingCarryNone, DrivenIsCarried, ItemsCarryOne, OffencesFallWithTags, OneOutcome, OneTextOutcome, SomeOutcome, SomeTextOutcome};

/// A trace has exactly one outcome against a port's type: it has one at most, and is not without one where the levels of its heads are in
/// form, as those of each trace that was read. So two answers of `decode` for a trace are the same, want of memory aside. The outcome names
/// the value where items are carried, and items carry one value at most; a place at which they disagree where they carry none.
pub fn traces_have_one_outcome()
    ensures outcome { OneOutcome }
    ensures some { SomeOutcome }
    ensures none { DisagreeingCarryNone }
    ensures one { ItemsCarryOne }
{}

/// Each list of bytes has exactly one outcome against a port's type: the first error of a text, or the outcome of the trace that it spells.
pub fn texts_have_one_outcome()
    ensures outcome { OneTextOutcome }
    ensures some { SomeTextOutcome }
{}

/// The outcome of the rows that drive a port with a value is this value. So `decode` of what drives a port gives the value that was driven,
/// and the user words of the transfers done.
pub fn driven_values_are_carried()
    ensures { DrivenIsCarried }
{}

/// Every greater level allows what a level allows, by rules 1 to 11. The items done and the ends of streams do not depend on levels.
pub fn offences_fall_with_tags()
    ensures { OffencesFallWithTags }
{}
