//! Value change dumps (VCD, IEEE 1364), as simulators write them. A `VcdReader` reads a text in pieces, and gives the text of the trace that
//! the signals of a port show just before each rising edge of the clock, or the first error. `specs/Profile.antt` says which texts are read,
//! what each token of one says, and which token of another text is the first against the profile; `specs/History.antt` says what is known
//! after the parts of a text: scopes, codes, signals, times, values and the edges of the clock; `specs/Wanted.antt` and `specs/Sampled.antt`
//! say which signals are wanted and which rows they make; `specs/Shown.antt` puts the errors in their order. The reader keeps one value for
//! each code, and no list of changes: what it keeps is the text of the rows. Codes are found by a hash with a fixed seed, so that a text that
//! is made for it can make each search as long as there are codes.
#![tactic(auto)]

mod dump;
mod dump_text;
mod fault;
mod finder;
mod kept_rows;
mod keyword;
mod laws;
mod mark;
mod names;
mod parser;
mod place;
mod probe;
mod reader;
mod sampler;
mod samples;
mod scopes;
mod state;
mod texts;
mod times;
mod tokens;
mod variables;
mod wire;
mod wires;
mod words;

pub use dump_text::DumpText;
pub use fault::VcdFault;
pub use laws::{dumps_show_traces, faults_name_streams};
pub use reader::VcdReader;
