//! The tool. `run` reads the words, asks for the files, and writes the answer. Each command is one value of `specs/Ask.antt`: the files
//! that it asks for, how each is read, and its end. `specs/Run.antt` has the clauses of `run`. The crate stands on those that read and
//! write traces, projects and splits, and on `tydi_io`.
#![tactic(auto)]

mod answer;
mod arrivals;
mod asking;
mod benches;
mod carry;
mod commands;
mod compare;
mod compare_file;
mod compare_lines;
mod declared_test;
mod decode;
mod decode_file;
mod decoding;
mod delivery;
mod designs;
mod drive;
mod driven_text;
mod driving;
mod ending;
mod entities;
mod expect;
mod gather;
mod jobs;
mod laws;
mod link;
mod loading;
mod making;
mod monitor_text;
mod output;
mod ports;
mod projects;
mod reader;
mod refusal;
mod reports;
mod running;
mod sim;
mod source;
mod status;
mod texts;
mod traces;
mod trees;
mod vcd;
mod vcd_file;
mod watch;
mod watch_file;
mod watch_lines;
mod words;

pub use answer::{Answer, Reply};
pub use laws::{
    answers_are_one, benches_drive_ports, carried_traces_arrive, causes_are_told, drives_are_legal,
    dumps_are_sampled, jobs_are_reported, monitors_are_watched, traces_are_compared,
    values_are_read_back, written_designs_are_wired,
};
pub use output::Output;
pub use running::run;
pub use status::Status;
pub use words::{Command, words_of};
