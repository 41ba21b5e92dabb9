//! From a project and its nets to VHDL or to Verilog: an entity for each streamlet, and an architecture for each implementation that has
//! instances and links. `architecture` makes them, and `design_text` their text in either language. Where the type of some port has two
//! physical streams of one path there are none, and `first_clash` finds the first such port without nets. `specs/Components.antt` says
//! which signals an entity has, and `specs/Architecture.antt` which signals, instances and assignments an architecture has. `laws.rt` says
//! how the assignments carry a cycle from one end of a net to the other. The crate stands on `link_check`, whose nets it writes, and on
//! `vhdl_text`, which has the types of entities and architectures and their text.
#![tactic(auto)]

mod archs;
mod clash;
mod component;
mod defaults;
mod design;
mod directives;
mod end_stream;
mod ends;
mod entity;
mod fault;
mod inside;
mod instances;
mod laws;
mod least;
mod measured;
mod names;
mod pieces;
mod sets;
mod signals;
mod splitting;
mod tables;

pub use archs::{architecture, design_text};
pub use clash::{Clash, first_clash};
pub use fault::ArchFault;
pub use laws::{
    assignments_carry_cycles, checked_nets_carry, each_signal_is_assigned_once,
    first_clash_is_reported,
};
pub use pieces::{DesignPieces, DesignText};
