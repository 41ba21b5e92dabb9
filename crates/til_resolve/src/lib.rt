//! A project with its names looked up: streamlets with their ports, bodies and instances, and tests. `resolve` makes the project of a
//! tree, or names its first error; three look-ups find ports, streamlets and tests by their paths. `specs/Project.antt` says which
//! project a tree stands for, and `specs/Faults.antt` which errors it has, over the list of all declarations in text order and without
//! a table. The crate stands on `til_parser` and `logical_types`.
#![tactic(auto)]

mod bad_types;
mod bodies;
mod certificate;
mod chains;
mod containment;
mod cycles;
mod declared;
mod earliest;
mod fault;
mod first;
mod firsts;
mod folding;
mod implementing;
mod keeping;
mod kinds;
mod last;
mod laws;
mod lookup;
mod making;
mod misshapen;
mod names;
mod numbering;
mod ordered;
mod paths;
mod placing;
mod port_types;
mod ports;
mod project;
mod ranks;
mod replacing;
mod resolving;
mod scope;
mod search;
mod shape;
mod shapes;
mod shared_types;
mod statements;
mod streamlets;
mod summaries;
mod tables;
mod twice;
mod type_graph;
mod written;
mod written_tests;

pub use fault::ResolveFault;
pub use keeping::{keep_first, note};
pub use laws::{faults_are_told, port_types_are_valid, projects_are_plain, projects_are_sound};
pub use ordered::OrderedName;
pub use project::{Impl, Instance, Link, LinkEnd, Port, Project, Streamlet, Test};
pub use resolving::resolve;
