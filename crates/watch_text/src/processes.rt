//! The processes of a monitor.

ghost use Rattle.std.specs.Prelude.{map};
ghost use Rattle.watch_text.specs.Statements.{plain_statements};
ghost use Rattle.watch_text.specs.Text.{process_back, process_front, process_text, processes_text, wait_line};

use crate::statements::Statements;
use crate::watch::WStmt;
use physical_stream::Head;
use signal_layout::Signal;
use tydi_base::{List, Memory, Written, emit, parts};
use vhdl_text::{Counted, SignalName};

/// The lines of the processes of these streams.
#[derive(Clone, Copy)]
pub(crate) struct Processes<'a>(pub(crate) &'a [Head], pub(crate) &'a [List<WStmt>]);

impl Written for Processes<'_> {
    ghost text = { λ processes. processes_text processes.0.now (map plain_statements processes.1.now) };

    fn write_to(&self, out: &mut List<u8>) -> Result<(), Memory> {
        'procs: for (head, process) in self.0.iter().zip(self.1) {
            out.emit(&Process(head, process.as_slice()))?;
        }
        Ok(())
    }
}

impl Counted for Processes<'_> {
    fn count(&self) -> u64 {
        let mut count: u64 = 0;
        'procs: for (head, process) in self.0.iter().zip(self.1) {
            count = count.saturating_add(Process(head, process.as_slice()).count());
        }
        count
    }
}

/// The lines of the process of a stream.
#[derive(Clone, Copy)]
pub(crate) struct Process<'a>(pub(crate) &'a Head, pub(crate) &'a [WStmt]);

impl Written for Process<'_> {
    ghost text = { λ process. process_text process.0.now (plain_statements process.1.now) };

    fn write_to(&self, out: &mut List<u8>) -> Result<(), Memory> {
        emit!(out; ProcessFront(self.0), Statements(self.0, self.1), "    end loop;\n  end process;\n")
    }
}

impl Counted for Process<'_> {
    fn count(&self) -> u64 {
        parts!(
            ProcessFront(self.0),
            Statements(self.0, self.1),
            "    end loop;\n  end process;\n"
        )
        .count()
    }
}

/// The lines before the statements of a process.
#[derive(Clone, Copy)]
struct ProcessFront<'a>(&'a Head);

impl Written for ProcessFront<'_> {
    ghost text = { λ front. process_front front.0.now };

    fn write_to(&self, out: &mut List<u8>) -> Result<(), Memory> {
        emit!(
            out;
            "  process\n    variable place : natural := 0;\n  begin\n    loop\n", WaitLine(self.0),
            "\n",
        )
    }
}

impl Counted for ProcessFront<'_> {
    fn count(&self) -> u64 {
        parts!(
            "  process\n    variable place : natural := 0;\n  begin\n    loop\n",
            WaitLine(self.0),
            "\n"
        )
        .count()
    }
}

/// The line that waits for a transfer.
#[derive(Clone, Copy)]
pub(crate) struct WaitLine<'a>(pub(crate) &'a Head);

impl Written for WaitLine<'_> {
    ghost text = { λ line. wait_line line.0.now };

    fn write_to(&self, out: &mut List<u8>) -> Result<(), Memory> {
        emit!(
            out;
            "      wait until rising_edge(clk) and ", SignalName(self.0, Signal::Valid), " = '1' and ",
            SignalName(self.0, Signal::Ready), " = '1';",
        )
    }
}

impl Counted for WaitLine<'_> {
    fn count(&self) -> u64 {
        parts!(
            "      wait until rising_edge(clk) and ",
            SignalName(self.0, Signal::Valid),
            " = '1' and ",
            SignalName(self.0, Signal::Ready),
            " = '1';"
        )
        .count()
    }
}
