//! The frame of a bench: its entity with a port for each signal, and the begin of its architecture.

ghost use Rattle.std.specs.Prelude.{◌-◌, decimal};
ghost use Rattle.std.specs.List.{flat_map};
ghost use Rattle.vhdl_text.specs.Text.{frame_text, stream_ports, vector_port};

use crate::signal_name::SignalName;
use physical_stream::Head;
use signal_layout::{Signal, Signals};
use tydi_base::{List, Memory, Written, emit};

/// The lines between those of the streams and those of the processes, the last without its LF.
#[derive(Clone, Copy)]
pub(crate) struct Frame<'a>(pub(crate) &'a [Head]);

impl Written for Frame<'_> {
    ghost text = { λ frame. frame_text frame.0.now };

    fn write_to(&self, out: &mut List<u8>) -> Result<(), Memory> {
        emit!(
            out;
            "library ieee;\nuse ieee.std_logic_1164.all;\nentity bench is\n  port (\n    clk : in std_logic",
            Ports(self.0),
            "\n  );\nend entity;\narchitecture drive of bench is\nbegin",
        )
    }
}

/// The ports of streams.
#[derive(Clone, Copy)]
struct Ports<'a>(&'a [Head]);

impl Written for Ports<'_> {
    ghost text = { λ ports. flat_map stream_ports ports.0.now };

    fn write_to(&self, out: &mut List<u8>) -> Result<(), Memory> {
        'heads: for head in self.0 {
            out.emit(&StreamPorts(head))?;
        }
        Ok(())
    }
}

/// The ports of a stream, each after the end of the port before it.
#[derive(Clone, Copy)]
struct StreamPorts<'a>(&'a Head);

impl Written for StreamPorts<'_> {
    ghost text = { λ ports. stream_ports ports.0.now };

    #[tactic(auto, unfolding(crate::specs::Text::stream_ports))]
    fn write_to(&self, out: &mut List<u8>) -> Result<(), Memory> {
        let head = self.0;
        let widths = Signals::of(&head.params);
        emit!(
            out;
            ";\n    ", SignalName(head, Signal::Ready), " : in std_logic;\n    ",
            SignalName(head, Signal::Valid), " : out std_logic := '0'",
            VectorPort(head, Signal::Content, widths.content),
            VectorPort(head, Signal::Last, widths.last),
            VectorPort(head, Signal::Stai, widths.stai),
            VectorPort(head, Signal::Endi, widths.endi),
            VectorPort(head, Signal::Strb, widths.strb),
            VectorPort(head, Signal::User, widths.user),
        )
    }
}

/// The port of a payload signal of this width in bits; nothing where the stream lacks it.
#[derive(Clone, Copy)]
struct VectorPort<'a>(&'a Head, Signal, Option<u32>);

impl Written for VectorPort<'_> {
    ghost text = { λ port. vector_port port.0.now port.1 port.2 };

    fn write_to(&self, out: &mut List<u8>) -> Result<(), Memory> {
        match self.2 {
            Some(width) => emit!(
                out;
                ";\n    ", SignalName(self.0, self.1), " : out std_logic_vector(",
                HighestBit(width), " downto 0) := (others => '0')",
            ),
            None => Ok(()),
        }
    }
}

/// The place of the highest bit of a vector of this width, counted from 0.
#[derive(Clone, Copy)]
pub struct HighestBit(pub u32);

impl Written for HighestBit {
    ghost text = { λ bit. decimal (bit.0 - 1) };

    fn write_to(&self, out: &mut List<u8>) -> Result<(), Memory> {
        self.0.saturating_sub(1).write_to(out)
    }
}
