//! The entity of a monitor: the comments of its streams, and a port for each signal and each fault.

ghost use Rattle.std.specs.List.{flat_map};
ghost use Rattle.watch_text.specs.Text.{entity_text, front_text, stream_inputs, vector_input};
ghost use Rattle.vhdl_text.specs.Text.{stream_comment};

use crate::marks::OwnName;
use cycle_trace::head_length;
use physical_stream::Head;
use signal_layout::{Signal, Signals};
use tydi_base::{List, Memory, Written, emit, parts};
use vhdl_text::{Counted, HighestBit, SignalName, StreamComments};

/// The lines before the tables.
#[derive(Clone, Copy)]
pub(crate) struct Front<'a>(pub(crate) &'a [Head]);

impl Written for Front<'_> {
    ghost text = { λ front. front_text front.0.now };

    fn write_to(&self, out: &mut List<u8>) -> Result<(), Memory> {
        emit!(out; "-- tydi-watch 1\n", Comments(self.0), Entity(self.0), "\n")
    }
}

impl Counted for Front<'_> {
    fn count(&self) -> u64 {
        parts!("-- tydi-watch 1\n", Comments(self.0), Entity(self.0), "\n").count()
    }
}

/// The lines of streams, as comments.
#[derive(Clone, Copy)]
struct Comments<'a>(&'a [Head]);

impl Written for Comments<'_> {
    ghost text = { λ comments. flat_map stream_comment comments.0.now };

    fn write_to(&self, out: &mut List<u8>) -> Result<(), Memory> {
        emit!(out; StreamComments(self.0))
    }
}

impl Counted for Comments<'_> {
    fn count(&self) -> u64 {
        let mut count: u64 = 0;
        'heads: for head in self.0 {
            count = count.saturating_add(head_length(head).saturating_add(3));
        }
        count
    }
}

/// The lines after those of the streams, up to the begin of the architecture, the last without its LF.
#[derive(Clone, Copy)]
pub(crate) struct Entity<'a>(pub(crate) &'a [Head]);

impl Written for Entity<'_> {
    ghost text = { λ entity. entity_text entity.0.now };

    fn write_to(&self, out: &mut List<u8>) -> Result<(), Memory> {
        emit!(
            out;
            "library ieee;\nuse ieee.std_logic_1164.all;\nuse ieee.numeric_std.all;\nentity watch is\n  port (\n    clk : in std_logic",
            Inputs(self.0),
            "\n  );\nend entity;\narchitecture check of watch is",
        )
    }
}

impl Counted for Entity<'_> {
    fn count(&self) -> u64 {
        parts!(
            "library ieee;\nuse ieee.std_logic_1164.all;\nuse ieee.numeric_std.all;\nentity watch is\n  port (\n    clk : in std_logic",
            Inputs(self.0),
            "\n  );\nend entity;\narchitecture check of watch is"
        )
        .count()
    }
}

/// The ports of streams.
#[derive(Clone, Copy)]
struct Inputs<'a>(&'a [Head]);

impl Written for Inputs<'_> {
    ghost text = { λ inputs. flat_map stream_inputs inputs.0.now };

    fn write_to(&self, out: &mut List<u8>) -> Result<(), Memory> {
        'heads: for head in self.0 {
            out.emit(&StreamInputs(head))?;
        }
        Ok(())
    }
}

impl Counted for Inputs<'_> {
    fn count(&self) -> u64 {
        let mut count: u64 = 0;
        'heads: for head in self.0 {
            count = count.saturating_add(StreamInputs(head).count());
        }
        count
    }
}

/// The ports of a stream, each after the end of the port before it.
#[derive(Clone, Copy)]
struct StreamInputs<'a>(&'a Head);

impl Written for StreamInputs<'_> {
    ghost text = { λ inputs. stream_inputs inputs.0.now };

    #[tactic(auto, unfolding(crate::specs::Text::stream_inputs))]
    fn write_to(&self, out: &mut List<u8>) -> Result<(), Memory> {
        let head = self.0;
        let widths = Signals::of(&head.params);
        emit!(
            out;
            ";\n    ", SignalName(head, Signal::Ready), " : in std_logic;\n    ",
            SignalName(head, Signal::Valid), " : in std_logic",
            VectorInput(head, Signal::Content, widths.content),
            VectorInput(head, Signal::Last, widths.last),
            VectorInput(head, Signal::Stai, widths.stai),
            VectorInput(head, Signal::Endi, widths.endi),
            VectorInput(head, Signal::Strb, widths.strb),
            ";\n    ", OwnName(head, "fault"), " : out std_logic := '0'",
        )
    }
}

impl Counted for StreamInputs<'_> {
    #[tactic(auto, unfolding(crate::specs::Text::stream_inputs))]
    fn count(&self) -> u64 {
        let head = self.0;
        let widths = Signals::of(&head.params);
        parts!(
            ";\n    ",
            SignalName(head, Signal::Ready),
            " : in std_logic;\n    ",
            SignalName(head, Signal::Valid),
            " : in std_logic",
            VectorInput(head, Signal::Content, widths.content),
            VectorInput(head, Signal::Last, widths.last),
            VectorInput(head, Signal::Stai, widths.stai),
            VectorInput(head, Signal::Endi, widths.endi),
            VectorInput(head, Signal::Strb, widths.strb),
            ";\n    ",
            OwnName(head, "fault"),
            " : out std_logic := '0'"
        )
        .count()
    }
}

/// The port of a payload signal of this width in bits; nothing where the stream lacks it.
#[derive(Clone, Copy)]
struct VectorInput<'a>(&'a Head, Signal, Option<u32>);

impl Written for VectorInput<'_> {
    ghost text = { λ input. vector_input input.0.now input.1 input.2 };

    fn write_to(&self, out: &mut List<u8>) -> Result<(), Memory> {
        match self.2 {
            Some(width) => emit!(
                out;
                ";\n    ", SignalName(self.0, self.1), " : in std_logic_vector(",
                HighestBit(width), " downto 0)",
            ),
            None => Ok(()),
        }
    }
}

impl Counted for VectorInput<'_> {
    fn count(&self) -> u64 {
        match self.2 {
            Some(width) => parts!(
                ";\n    ",
                SignalName(self.0, self.1),
                " : in std_logic_vector(",
                HighestBit(width),
                " downto 0)"
            )
            .count(),
            None => 0,
        }
    }
}
