//! The lines of an entity and of its architecture.

ghost use Rattle.vhdl_text.specs.ArchText as spec;

use crate::arch::{ArchMap, ArchPart, ArchPort, ArchSet, ArchSource, ArchWire};
use crate::counted::Counted;
use crate::form::OwnText;
use crate::frame::HighestBit;
use crate::separated::Separated;
use tydi_base::{Binary, List, Memory, Path, Written, emit, parts};

/// The name of the entity of a streamlet of this path.
#[derive(Clone, Copy)]
pub(crate) struct EntityName<'a>(pub(crate) &'a Path);

impl Written for EntityName<'_> {
    ghost text = { λ name. spec.entity_name name.0.now };

    fn write_to(&self, out: &mut List<u8>) -> Result<(), Memory> {
        emit!(out; "\\", self.0, "\\")
    }
}

impl Counted for EntityName<'_> {
    fn count(&self) -> u64 {
        parts!("\\", self.0, "\\").count()
    }
}

/// The type of a vector of this width, or of one bit.
#[derive(Clone, Copy)]
struct Type(Option<u32>);

impl Written for Type {
    ghost text = { λ kind. spec.type_text kind.0 };

    fn write_to(&self, out: &mut List<u8>) -> Result<(), Memory> {
        match self.0 {
            Some(width) => emit!(out; "std_logic_vector(", HighestBit(width), " downto 0)"),
            None => emit!(out; "std_logic"),
        }
    }
}

impl Counted for Type {
    fn count(&self) -> u64 {
        match self.0 {
            Some(width) => parts!("std_logic_vector(", HighestBit(width), " downto 0)").count(),
            None => "std_logic".count(),
        }
    }
}

/// The mode of a port.
#[derive(Clone, Copy)]
struct Mode(bool);

impl Written for Mode {
    ghost text = { λ mode. spec.mode_text mode.0 };

    fn write_to(&self, out: &mut List<u8>) -> Result<(), Memory> {
        if self.0 {
            emit!(out; "out ")
        } else {
            emit!(out; "in ")
        }
    }
}

impl Counted for Mode {
    fn count(&self) -> u64 {
        if self.0 {
            "out ".count()
        } else {
            "in ".count()
        }
    }
}

impl Written for ArchPort {
    ghost text = { spec.port_line };

    fn write_to(&self, out: &mut List<u8>) -> Result<(), Memory> {
        emit!(out; "    ", &self.name, " : ", Mode(self.outward), Type(self.width))
    }
}

impl Counted for ArchPort {
    fn count(&self) -> u64 {
        parts!(
            "    ",
            &self.name,
            " : ",
            Mode(self.outward),
            Type(self.width)
        )
        .count()
    }
}

impl Written for ArchWire {
    ghost text = { spec.wire_line };

    fn write_to(&self, out: &mut List<u8>) -> Result<(), Memory> {
        emit!(out; "  signal ", &self.name, " : ", Type(self.width), ";\n")
    }
}

impl Counted for ArchWire {
    fn count(&self) -> u64 {
        parts!("  signal ", &self.name, " : ", Type(self.width), ";\n").count()
    }
}

impl Written for ArchMap {
    ghost text = { spec.map_line };

    fn write_to(&self, out: &mut List<u8>) -> Result<(), Memory> {
        emit!(out; "    ", &self.port, " => ", &self.wire)
    }
}

impl Counted for ArchMap {
    fn count(&self) -> u64 {
        parts!("    ", &self.port, " => ", &self.wire).count()
    }
}

impl Written for ArchPart {
    ghost text = { spec.part_text };

    fn write_to(&self, out: &mut List<u8>) -> Result<(), Memory> {
        emit!(
            out;
            "  \\", &self.name, "\\ : entity work.", EntityName(&self.entity), " port map (\n",
            Separated(",\n", self.maps.as_slice(), OwnText), "\n  );\n",
        )
    }
}

impl Counted for ArchPart {
    fn count(&self) -> u64 {
        parts!(
            "  \\",
            &self.name,
            "\\ : entity work.",
            EntityName(&self.entity),
            " port map (\n",
            Separated(",\n", self.maps.as_slice(), OwnText),
            "\n  );\n"
        )
        .count()
    }
}

impl Written for ArchSet {
    ghost text = { spec.set_line };

    fn write_to(&self, out: &mut List<u8>) -> Result<(), Memory> {
        emit!(out; "  ", &self.target, " <= ", &self.source, ";\n")
    }
}

impl Counted for ArchSet {
    fn count(&self) -> u64 {
        parts!("  ", &self.target, " <= ", &self.source, ";\n").count()
    }
}

impl Written for ArchSource {
    ghost text = { spec.source_text };

    fn write_to(&self, out: &mut List<u8>) -> Result<(), Memory> {
        match self {
            ArchSource::Wire(name) => emit!(out; name),
            ArchSource::Constant(bits) => emit!(out; "\"", Binary(bits), "\""),
        }
    }
}

impl Counted for ArchSource {
    fn count(&self) -> u64 {
        match self {
            ArchSource::Wire(name) => name.count(),
            ArchSource::Constant(bits) => parts!("\"", Binary(bits), "\"").count(),
        }
    }
}
