ghost use Rattle.std.specs.Prelude.{◌≡◌, ◌<◌, ◌-◌, ◌++◌, length, OnOk};
ghost use Rattle.bench_run.specs.TextLeft as benches;
ghost use Rattle.port_drive.specs.PortText.{text_left};
ghost use Rattle.vcd_read.specs.Kept.{bytes_of};
ghost use Rattle.value_text.specs.Pieces as values;
ghost use Rattle.vhdl_writer.specs.Designs as designs;
ghost use Rattle.watch_text.specs.Pieces as monitors;
ghost use Rattle.tydi_tool.specs.Output.{lines_left};

use crate::making::make_piece;
use crate::source::Source;
use bench_run::BenchRows;
use handshake::PortRun;
use scheduler::Planner;
use std::alloc::Global;
use std::marker::Model;
use testbench::BenchPieces;
use trace_pieces::TracePieces;
use tydi_base::{List, Memory};
use value_text::ValuePieces;
use vcd_read::DumpText;
use vhdl_writer::DesignPieces;
use watch_text::WatchPieces;

/// A text for out, which is made piece by piece as it is written. Contracts see what is left of it.
#[derive(Drop)]
pub struct Output {
    source: Source,
    /// How many bytes are left.
    left: u64,
}

impl Model for Output {
    ghost use Rattle.std.specs.Prelude.{◌≡◌, List, length, ℕ};

    ghost Value = { List ℕ };

    ghost use Rattle.tydi_tool.specs.Output.{text_of};

    ghost view = { λ output. text_of output.source };

    ghost invariant = { λ output. output.left ≡ length (text_of output.source) };
}

impl Output {
    /// A text that is there.
    pub(crate) fn whole(text: List<u8>) -> Output
        ensures { result ≡ text }
    {
        let left = text.len() as u64;
        Output {
            source: Source::Whole(text),
            left,
        }
    }

    /// The text of the trace of a port, which has so many bytes.
    pub(crate) fn rows(pieces: TracePieces<PortRun<Planner>>, left: u64) -> Output
        requires { left ≡ length (text_left pieces) }
        ensures { result ≡ text_left pieces }
    {
        Output {
            source: Source::Rows(pieces),
            left,
        }
    }

    /// The text of the trace of a bench, which has so many bytes.
    pub(crate) fn cycles(pieces: TracePieces<BenchRows>, left: u64) -> Output
        requires { left ≡ length (benches.text_left pieces) }
        ensures { result ≡ benches.text_left pieces }
    {
        Output {
            source: Source::Cycles(pieces),
            left,
        }
    }

    /// The text of a design, which has so many bytes.
    pub(crate) fn design(pieces: DesignPieces, left: u64) -> Output
        requires { left ≡ length (designs.text_left pieces) }
        ensures { result ≡ designs.text_left pieces }
    {
        Output {
            source: Source::Design(pieces),
            left,
        }
    }

    /// The text of the testbench of a port, which has so many bytes.
    pub(crate) fn lines(pieces: BenchPieces<Planner>, left: u64) -> Output
        requires { left ≡ length (lines_left pieces) }
        ensures { result ≡ lines_left pieces }
    {
        Output {
            source: Source::Lines(pieces),
            left,
        }
    }

    /// The text of the trace that a dump shows.
    pub(crate) fn dump(text: DumpText) -> Output
        ensures { result ≡ bytes_of text }
    {
        let left = text.header.len() as u64 + text.rows.len() as u64;
        Output {
            source: Source::Dump(text),
            left,
        }
    }

    /// The text of the value of a port, which has so many bytes.
    pub(crate) fn value(pieces: ValuePieces, left: u64) -> Output
        requires { left ≡ length (values.text_left pieces) }
        ensures { result ≡ values.text_left pieces }
    {
        Output {
            source: Source::Value(pieces),
            left,
        }
    }

    /// The text of a monitor, which has so many bytes.
    pub(crate) fn watch(pieces: WatchPieces, left: u64) -> Output
        requires { left ≡ length (monitors.text_left pieces) }
        ensures { result ≡ monitors.text_left pieces }
    {
        Output {
            source: Source::Watch(pieces),
            left,
        }
    }

    /// How many bytes are left.
    pub(crate) fn len(&self) -> u64
        ensures { result ≡ length self.now }
    {
        self.left
    }

    /// Makes the next piece of a text that is not at its end, in the room of the last one. After `Memory` nothing is left of the text.
    pub(crate) fn next(&mut self, alloc: Global, piece: &mut List<u8>) -> Result<(), Memory>
        requires { 0 < length self.old }
        ensures made { OnOk result (self.old ≡ piece.new ++ self.new) }
        ensures some { OnOk result (0 < length piece.new) }
    {
        match make_piece(alloc, &mut self.source, piece) {
            Ok(()) => {
                self.left -= piece.len() as u64;
                Ok(())
            }
            Err(Memory) => {
                self.source = Source::Whole(List::new(alloc));
                self.left = 0;
                Err(Memory)
            }
        }
    }
}
