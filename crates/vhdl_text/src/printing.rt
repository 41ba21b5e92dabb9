//! The text of a bench.

ghost use Rattle.std.specs.Prelude.{◌≡◌, [], ◌∷◌, ◌++◌, IfOk, OnOk, OnErr, option_map};
ghost use Rattle.std.specs.List.{flat_map};
ghost use Rattle.vhdl_text.specs.Text.{await_line, await_text, bench_text, constant_text, pause_line, process_text, put_line, put_text, quote_of, stmt_text, stream_comment};

use crate::bench::{Bench, Stmt};
use crate::frame::Frame;
use crate::signal_name::SignalName;
use physical_stream::{Head, StreamLine};
use signal_layout::Signal;
use std::alloc::Global;
use tydi_base::{Binary, Bits, List, Memory, Written, emit};

/// The text of a bench. A statement for a stream that is not there has no line. Memory comes where there is none for the text.
pub fn print_bench(alloc: Global, bench: &Bench) -> Result<List<u8>, Memory>
    ensures { IfOk result (λ text. text ≡ bench_text bench.now) }
{
    let heads = bench.heads.as_slice();
    let mut text = List::new(alloc);
    emit!(
        text;
        "-- tydi-bench 1\n", StreamComments(heads), Frame(heads), "\n",
        Processes(heads, bench.procs.as_slice()), "end architecture;\n",
    )?;
    Ok(text)
}

/// The lines of streams, as comments.
#[derive(Clone, Copy)]
pub struct StreamComments<'a>(pub &'a [Head]);

impl Written for StreamComments<'_> {
    ghost text = { λ comments. flat_map stream_comment comments.0.now };

    fn write_to(&self, out: &mut List<u8>) -> Result<(), Memory> {
        'heads: for head in self.0 {
            let line = StreamLine {
                path: &head.path,
                params: &head.params,
                reversed: head.reversed,
            };
            emit!(out; "-- ", line)?;
        }
        Ok(())
    }
}

/// Processes beside these streams.
#[derive(Clone, Copy)]
struct Processes<'a>(&'a [Head], &'a [List<Stmt>]);

impl Written for Processes<'_> {
    ghost text = { λ processes. flat_map (process_text processes.0.now) processes.1.now };

    fn write_to(&self, out: &mut List<u8>) -> Result<(), Memory> {
        'procs: for process in self.1 {
            out.emit(&Process(self.0, process.as_slice()))?;
        }
        Ok(())
    }
}

/// A process beside these streams, by its statements.
#[derive(Clone, Copy)]
struct Process<'a>(&'a [Head], &'a [Stmt]);

impl Written for Process<'_> {
    ghost text = { λ process. process_text process.0.now process.1.now };

    #[tactic(auto, unfolding(crate::specs::Text::process_text))]
    fn write_to(&self, out: &mut List<u8>) -> Result<(), Memory> {
        emit!(out; "  process\n  begin\n", Statements(self.0, self.1), "  end process;\n")
    }
}

/// Statements beside these streams.
#[derive(Clone, Copy)]
pub(crate) struct Statements<'a>(pub(crate) &'a [Head], pub(crate) &'a [Stmt]);

impl Written for Statements<'_> {
    ghost text = { λ statements. flat_map (stmt_text statements.0.now) statements.1.now };

    fn write_to(&self, out: &mut List<u8>) -> Result<(), Memory> {
        'stmts: for stmt in self.1 {
            out.emit(&Statement(self.0, stmt))?;
        }
        Ok(())
    }
}

/// A statement beside these streams.
#[derive(Clone, Copy)]
struct Statement<'a>(&'a [Head], &'a Stmt);

impl Written for Statement<'_> {
    ghost text = { λ statement. stmt_text statement.0.now statement.1.now };

    fn write_to(&self, out: &mut List<u8>) -> Result<(), Memory> {
        match self.1 {
            Stmt::Put {
                stream,
                signal,
                bits,
            } => write_put(self.0.get(*stream as usize), *signal, bits, out),
            Stmt::Pause(edges) => emit!(
                out;
                PauseLine(*edges), "\n      wait until rising_edge(clk);\n    end loop;\n",
            ),
            Stmt::Await(stream) => write_await(self.0.get(*stream as usize), out),
            Stmt::Stop => emit!(out; "    wait;\n"),
        }
    }
}

/// Adds an assignment to a signal of the stream of this head at the end; nothing where there is none. After `Memory` the text is as before.
fn write_put(
    head: Option<&Head>,
    signal: Signal,
    bits: &Bits,
    out: &mut List<u8>,
) -> Result<(), Memory>
    ensures ok { OnOk result (out.new ≡ out.old ++ put_text (option_map (λ head. head.now) head.entry) signal bits.now) }
    ensures err { OnErr result (out.new ≡ out.old) }
{
    match head {
        Some(head) => emit!(out; PutLine(head, signal, bits), "\n"),
        None => Ok(()),
    }
}

/// Adds a wait for the stream of this head at the end; nothing where there is none. After `Memory` the text is as before.
fn write_await(head: Option<&Head>, out: &mut List<u8>) -> Result<(), Memory>
    ensures ok { OnOk result (out.new ≡ out.old ++ await_text (option_map (λ head. head.now) head.entry)) }
    ensures err { OnErr result (out.new ≡ out.old) }
{
    match head {
        Some(head) => emit!(out; AwaitLine(head), "\n"),
        None => Ok(()),
    }
}

/// The line that assigns a word to a signal.
#[derive(Clone, Copy)]
struct PutLine<'a>(&'a Head, Signal, &'a Bits);

impl Written for PutLine<'_> {
    ghost text = { λ line. put_line line.0.now line.1 line.2.now };

    fn write_to(&self, out: &mut List<u8>) -> Result<(), Memory> {
        emit!(out; "    ", SignalName(self.0, self.1), " <= ", Constant(self.1, self.2), ";")
    }
}

/// The line that waits for the ready bit of a stream.
#[derive(Clone, Copy)]
struct AwaitLine<'a>(&'a Head);

impl Written for AwaitLine<'_> {
    ghost text = { λ line. await_line line.0.now };

    fn write_to(&self, out: &mut List<u8>) -> Result<(), Memory> {
        emit!(
            out;
            "    wait until rising_edge(clk) and ", SignalName(self.0, Signal::Ready), " = '1';",
        )
    }
}

/// The first line of a pause of so many edges.
#[derive(Clone, Copy)]
struct PauseLine(u32);

impl Written for PauseLine {
    ghost text = { λ line. pause_line line.0 };

    fn write_to(&self, out: &mut List<u8>) -> Result<(), Memory> {
        emit!(out; "    for i in 1 to ", self.0, " loop")
    }
}

/// A constant for a signal: a bit in apostrophes, or a vector in quotation marks.
#[derive(Clone, Copy)]
struct Constant<'a>(Signal, &'a Bits);

impl Written for Constant<'_> {
    ghost text = { λ constant. constant_text constant.0 constant.1.now };

    fn write_to(&self, out: &mut List<u8>) -> Result<(), Memory> {
        let quote = quote_of(self.0);
        emit!(out; quote, Binary(self.1), quote)
    }
}

/// The mark around a constant for this signal.
fn quote_of(signal: Signal) -> &'static str
    ensures { result.now ≡ quote_of signal ∷ [] }
{
    match signal {
        Signal::Valid | Signal::Ready => "'",
        Signal::Content
        | Signal::Last
        | Signal::Stai
        | Signal::Endi
        | Signal::Strb
        | Signal::User => "\"",
    }
}
