//! Schedules: how the items of a stream become transfers. `specs/Planned.antt` says which transfers a plan's wishes make of items, as
//! a relation on whole lists; `specs/Lanes.antt` says what a transfer is by what its lanes carry. A `Planner` gives these transfers one
//! after another, as a feed of `handshake`, and `schedule` gives them as a list. `plans_keep_their_laws` says that there is one such
//! list, that it carries the items, and that no run of it breaks a rule. The crate stands on `handshake`, whose runs put transfers into
//! cycles, and on `plan_text`, which has the plans.
#![tactic(auto)]

mod allowing;
mod closing;
mod fault;
mod filling;
mod laws;
mod meeting;
mod multiple;
mod passing;
mod planner;
mod planning;
mod scheduling;
mod stepping;
mod way;

pub use fault::ScheduleFault;
pub use laws::plans_keep_their_laws;
pub use planner::Planner;
pub use scheduling::schedule;
