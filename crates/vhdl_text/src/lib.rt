//! Benches: the testbenches, in VHDL of a few fixed forms, that drive the streams of a port (this project's own). A `Bench` has the heads
//! of the streams and the statements of each process. `specs/WellFormed.antt` says which benches have a text, and `specs/Text.antt` is the
//! text. `read_bench` reads it again: `specs/Reading.antt` says which texts are benches, and which line makes a text none. The crate stands
//! on `tydi_reading`, which has the lines of a text, and on `signal_layout`, which says which signals a stream has and how wide they are.
//!
//! Entities and architectures: an `Arch` is a streamlet with the signals, instances and assignments of its architecture. `print_in` writes
//! it in either `Language`, and `length_in` counts the bytes beforehand. `specs/ArchText.antt` is the text in VHDL, and
//! `specs/VerilogText.antt` is that in Verilog.
//!
//! What other texts of this kind share is public too: the comments of streams and the names of signals, written and counted, and lines that
//! are to be those of a text.
#![tactic(auto)]

mod arch;
mod arch_lines;
mod arch_printing;
mod bench;
mod constants;
mod counted;
mod cuts;
mod drivers;
mod fault;
mod form;
mod frame;
mod language;
mod languages;
mod laws;
mod lines;
mod parts;
mod place;
mod printing;
mod processes;
mod reading;
mod refusal;
mod separated;
mod signal_name;
mod stage;
mod statements;
mod stream_comments;
mod streams;
mod verilog_lines;
mod verilog_names;
mod verilog_printing;

pub use arch::{Arch, ArchMap, ArchPart, ArchPort, ArchSet, ArchSource, ArchWire};
pub use arch_printing::{arch_length, print_arch};
pub use bench::{Bench, Stmt};
pub use counted::Counted;
pub use cuts::{cut_last, is_same};
pub use fault::VhdlFault;
pub use frame::HighestBit;
pub use language::Language;
pub use languages::{length_in, print_in};
pub use laws::benches_are_read_as_printed;
pub use lines::{Lines, expect_line, expect_lines};
pub use parts::{
    begin_process, benches_have_parts, end_process, write_back, write_front, write_stmts,
};
pub use printing::{StreamComments, print_bench};
pub use reading::read_bench;
pub use refusal::{Fault, Refusal};
pub use signal_name::{SignalName, signal_word};
pub use stream_comments::read_heads;
pub use verilog_printing::{print_verilog, verilog_length};
