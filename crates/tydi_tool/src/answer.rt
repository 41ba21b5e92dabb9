use crate::output::Output;
use tydi_base::List;

/// The answer of the tool about the files that the words name.
#[derive(Drop)]
pub enum Answer {
    /// The input is refused; the line goes to err.
    Refused(List<u8>),
    /// The trace has a violation, or a stream of it does not end whole; the line goes to out.
    Verdict(List<u8>),
    /// The text goes to out.
    Done(Output),
}

/// The reply of a command, before anything is written.
#[derive(Drop)]
pub enum Reply {
    /// The answer to the command.
    Says(Answer),
    /// A call of the store failed; the line goes to err.
    ReadFault(List<u8>),
    /// There was no memory.
    Memory,
}
