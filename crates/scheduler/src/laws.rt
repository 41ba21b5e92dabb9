//! The laws of all plans.

ghost use Rattle.scheduler.specs.Laws.{OneIsPlanned, PlannedAreShown, PlannedRunsAreLegal};

/// The laws of plans. For items that can be planned there is one list of transfers by the wishes. It carries these items, and it has
/// at most as many transfers as there are items and wishes together. Each fits the stream, with absent signals at their
/// defaults. Under all gaps and ready bits its run breaks no rule, and it ends whole where all transfers are done.
pub fn plans_keep_their_laws()
    ensures planned { OneIsPlanned }
    ensures shown { PlannedAreShown }
    ensures legal { PlannedRunsAreLegal }
{}
