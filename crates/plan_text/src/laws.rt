//! The laws of plans that texts spell.

ghost use Rattle.plan_text.specs.Laws.{PlansFit};

/// A plan that is read has a plan for each stream, with a ready bit for each cycle, and keeps the limits of cycles, gaps, masks and user
/// words.
pub fn plans_fit_their_streams()
    ensures { PlansFit }
{}
