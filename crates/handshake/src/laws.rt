//! The laws of all runs.

ghost use Rattle.handshake.specs.Laws.{OneRunIs, RunsAreLegal, RunsEndWhole, RunsFinish};

/// The laws of runs. There is one run of transfers under gaps and ready bits. It breaks no rule, where each transfer obeys the rules
/// on what is shown, and it ends whole where all transfers are done. All are done where as many ready bits are 1 as there are
/// transfers and cycles of effective gaps.
pub fn runs_keep_their_laws()
    ensures one { OneRunIs }
    ensures legal { RunsAreLegal }
    ensures whole { RunsEndWhole }
    ensures finish { RunsFinish }
{}
