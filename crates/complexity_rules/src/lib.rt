//! The checker of a physical stream. A `Checker` takes one cycle after another, and `step` names the lowest of rules 1 to 10 that the
//! cycle breaks. It keeps no list of the cycles: only the kind of the last item, counts, and the transfer that waits. The rules
//! themselves are definitions of `physical_stream`; `specs/Table.antt` has the levels at which each binds. The crate stands on
//! `physical_stream`.
#![tactic(auto)]

mod breaking;
mod checker;
mod checking;
mod effect;
mod last_item;
mod levels;
mod nesting;
mod one_lane;
mod pauses;
mod table;
mod tails;
mod unmarked;
mod walk;

pub use checker::Checker;
pub use levels::levels_are_kept;
pub use nesting::items_are_nested;
pub use pauses::{may_pause, pauses_are_as_tested};
pub use table::{BINDS, RuleTable, binds, table_is_monotone, table_says_what_binds};
pub use tails::tail_after;
