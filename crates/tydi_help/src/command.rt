//! The commands by name.

ghost use Rattle.std.specs.Prelude.{◌≡◌};
ghost use Rattle.std.specs.Option.{option_copied};
ghost use Rattle.tydi_help.specs.Commands.{command_among, command_named, name_of, page_of, sentence_of, words_of};

use crate::of_benches::{BENCH, GEN, SIM, TESTBENCH};
use crate::of_designs::{CARRY, LINK, VERILOG, VHDL};
use crate::of_itself::{HELP, VERSION};
use crate::of_monitors::{COMPARE, EXPECT, WATCH};
use crate::of_traces::{CHECK, READ, SPLIT, VCD};
use crate::of_values::{DECODE, DRIVE, ELASTIC, RESHAPE};

/// A command of the tool, without its words.
#[derive(Clone, Copy, Debug, PartialEq, Eq)]
pub enum Command {
    /// Check a trace.
    Check,
    /// Make a trace from a dump.
    Vcd,
    /// Write the streams of a port.
    Split,
    /// Write a project in its canonical text.
    Read,
    /// Drive a port with a value.
    Drive,
    /// Drive a stream through a converter of lanes and level.
    Reshape,
    /// Drive a port through stages.
    Elastic,
    /// Read a trace as a value.
    Decode,
    /// Compare a trace with a value.
    Compare,
    /// Write the monitor of a value.
    Expect,
    /// Run a monitor over a trace.
    Watch,
    /// Check the links of a project.
    Link,
    /// Carry a trace through a design.
    Carry,
    /// Write a project in VHDL.
    Vhdl,
    /// Write a project in Verilog.
    Verilog,
    /// Write the testbench of a value.
    Bench,
    /// Write the testbench of a declared test.
    Testbench,
    /// Run a testbench.
    Sim,
    /// Make a job from two numbers.
    Gen,
    /// Say what commands there are.
    Help,
    /// Say the version.
    Version,
}

impl Command {
    /// All commands, in the order of the help.
    pub const ALL: [Command; 21] = [
        Command::Check,
        Command::Vcd,
        Command::Split,
        Command::Read,
        Command::Drive,
        Command::Reshape,
        Command::Elastic,
        Command::Decode,
        Command::Compare,
        Command::Expect,
        Command::Watch,
        Command::Link,
        Command::Carry,
        Command::Vhdl,
        Command::Verilog,
        Command::Bench,
        Command::Testbench,
        Command::Sim,
        Command::Gen,
        Command::Help,
        Command::Version,
    ];

    /// The command of this name. None exactly where no command has it.
    pub fn named(name: &str) -> Option<Command>
        ensures { result ≡ command_named name.now }
    {
        command_among(&Command::ALL, name).copied()
    }

    /// The word that spells the command.
    pub fn name(self) -> &'static str
        ensures { result.now ≡ name_of self }
    {
        match self {
            Command::Check => "check",
            Command::Vcd => "vcd",
            Command::Split => "split",
            Command::Read => "read",
            Command::Drive => "drive",
            Command::Reshape => "reshape",
            Command::Elastic => "elastic",
            Command::Decode => "decode",
            Command::Compare => "compare",
            Command::Expect => "expect",
            Command::Watch => "watch",
            Command::Link => "link",
            Command::Carry => "carry",
            Command::Vhdl => "vhdl",
            Command::Verilog => "verilog",
            Command::Bench => "bench",
            Command::Testbench => "testbench",
            Command::Sim => "sim",
            Command::Gen => "gen",
            Command::Help => "help",
            Command::Version => "version",
        }
    }

    /// The command as it is written: `drive PROJECT PORT VALUE PLAN`.
    pub fn words(self) -> &'static str
        ensures { result.now ≡ words_of self }
    {
        match self {
            Command::Check => "check TRACE",
            Command::Vcd => "vcd PROJECT PORT SCOPE FILE",
            Command::Split => "split PROJECT PORT",
            Command::Read => "read PROJECT",
            Command::Drive => "drive PROJECT PORT VALUE PLAN",
            Command::Reshape => "reshape PROJECT PORT LANES LEVEL VALUE PLAN",
            Command::Elastic => "elastic PROJECT PORT VALUE PLAN NET",
            Command::Decode => "decode PROJECT PORT TRACE",
            Command::Compare => "compare PROJECT PORT VALUE TRACE",
            Command::Expect => "expect PROJECT PORT VALUE",
            Command::Watch => "watch MONITOR TRACE",
            Command::Link => "link PROJECT",
            Command::Carry => "carry PROJECT TOP FROM TO TRACE",
            Command::Vhdl => "vhdl PROJECT",
            Command::Verilog => "verilog PROJECT",
            Command::Bench => "bench PROJECT PORT VALUE PLAN",
            Command::Testbench => "testbench PROJECT TEST",
            Command::Sim => "sim BENCH RUN",
            Command::Gen => "gen PROJECT PORT SEED COUNT",
            Command::Help => "help [NAME]",
            Command::Version => "version",
        }
    }

    /// What it does, in one line that begins with a verb and has no full stop.
    pub fn sentence(self) -> &'static str
        ensures { result.now ≡ sentence_of self }
    {
        match self {
            Command::Check => "finds the first violation in a trace, or says that it is legal",
            Command::Vcd => "writes the trace of a port that a value change dump shows",
            Command::Split =>
                "writes the physical streams of a port, with their signals and widths",
            Command::Read => "writes a project in its canonical layout, or its first error",
            Command::Drive => "writes the trace of a source that sends a value",
            Command::Reshape => "writes the trace behind a converter of a stream's lanes and level",
            Command::Elastic => "writes the trace behind the register slices and queues of a port",
            Command::Decode => "writes the value that a trace of a port carries",
            Command::Compare => "says whether a trace carries a value, or where it first differs",
            Command::Expect =>
                "writes a monitor in VHDL, which raises a fault at the first wrong item",
            Command::Watch => "says when a monitor raises its faults over a trace",
            Command::Link => "checks that the components of a design understand each other",
            Command::Carry => "writes the trace that arrives at the other end of a chain of links",
            Command::Vhdl =>
                "writes a project in VHDL: entities, and the architectures that wire them",
            Command::Verilog => "writes the same in Verilog: a module for each streamlet",
            Command::Bench => "writes a VHDL testbench that sends a value",
            Command::Testbench => "writes the testbench of a test that the project declares",
            Command::Sim => "runs such a testbench without a simulator, and writes its trace",
            Command::Gen =>
                "makes a value from a seed, sends it, reads it back, and writes a summary",
            Command::Help => "writes what commands there are, or what one takes and answers",
            Command::Version => "writes the version of tydi, and the kit that proves it",
        }
    }

    /// What it takes, answers and writes, with an example: lines of at most 80 columns, each ended by LF.
    pub fn page(self) -> &'static str
        ensures { result.now ≡ page_of self }
    {
        match self {
            Command::Check => CHECK,
            Command::Vcd => VCD,
            Command::Split => SPLIT,
            Command::Read => READ,
            Command::Drive => DRIVE,
            Command::Reshape => RESHAPE,
            Command::Elastic => ELASTIC,
            Command::Decode => DECODE,
            Command::Compare => COMPARE,
            Command::Expect => EXPECT,
            Command::Watch => WATCH,
            Command::Link => LINK,
            Command::Carry => CARRY,
            Command::Vhdl => VHDL,
            Command::Verilog => VERILOG,
            Command::Bench => BENCH,
            Command::Testbench => TESTBENCH,
            Command::Sim => SIM,
            Command::Gen => GEN,
            Command::Help => HELP,
            Command::Version => VERSION,
        }
    }
}

/// The first of these commands that has the name.
fn command_among<'a>(commands: &'a [Command], name: &str) -> Option<&'a Command>
    ensures { option_copied result ≡ command_among commands.now name.now }
{
    commands.iter().find(|command| command.name() == name)
}
