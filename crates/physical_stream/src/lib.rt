//! A physical stream: its parameters, its transfers and the items that they carry, its cycles, and the rules on them. The definitions
//! in `specs/` hold for all lanes, dimensions and levels. Every crate above that speaks of streams is proved against them. The crate
//! stands on `tydi_base`.
#![tactic(auto)]

mod end;
mod head;
mod item;
mod items;
mod lane;
mod levels;
mod misspelling;
mod params;
mod row;
mod rule;
mod stream_line;
mod transfer;
mod width;

pub use end::End;
pub use head::{Head, Header};
pub use item::{Item, Tail};
pub use items::{items_of, lane_word};
pub use lane::{all_lanes, is_active, is_last};
pub use levels::shown_at_greater_levels;
pub use misspelling::{Misspelling, NotForm};
pub use params::Params;
pub use row::Row;
pub use rule::Rule;
pub use stream_line::{StreamLine, head_of, header_number};
pub use transfer::Transfer;
pub use width::index_limit;
