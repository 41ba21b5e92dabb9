//! The laws of the reshaping run.

ghost use Rattle.reshape_laws.specs.Laws.{DueFrontsStay, OneReshapingIs, ReshapingFinishes, ReshapingIsLegal};

/// The laws of the reshaping run. There is one run of a source under gaps and far ready bits. The front of a due buffer is the same, whatever comes behind it. So the far cycles are steady for the
/// transfers that are planned at the far side: those done are the first of them, the stream breaks no rule, and where none is left, it
/// ends whole with the items of the source. None is left where as many far ready bits are 1 as there are far transfers, source transfers
/// and cycles of the source's effective gaps.
pub fn reshaping_keeps_its_laws()
    ensures one { OneReshapingIs }
    ensures front { DueFrontsStay }
    ensures legal { ReshapingIsLegal }
    ensures finish { ReshapingFinishes }
{}
