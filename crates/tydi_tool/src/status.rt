ghost use Rattle.std.specs.Prelude.{◌≡◌};
ghost use Rattle.tydi_tool.specs.Outcome.{exit_code};

/// How a run ends; its number is the exit status of the program.
#[derive(Clone, Copy, Debug, PartialEq, Eq)]
pub enum Status {
    /// The text was written.
    Done,
    /// The input was refused, with a line to err.
    Refused,
    /// The words spell no command.
    Usage,
    /// A file could not be read.
    ReadFault,
    /// Out or err could not be written.
    WriteFault,
    /// The run needed memory and there was none.
    Memory,
    /// An offence, an unfinished trace or a disagreement was found, with a line to out.
    Verdict,
}

impl Status {
    /// The exit status, 0 to 6.
    pub fn number(self) -> u8
        ensures { result ≡ exit_code self }
    {
        match self {
            Status::Done => 0,
            Status::Refused => 1,
            Status::Usage => 2,
            Status::ReadFault => 3,
            Status::WriteFault => 4,
            Status::Memory => 5,
            Status::Verdict => 6,
        }
    }
}
