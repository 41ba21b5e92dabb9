//! The lines of a module in Verilog.

ghost use Rattle.std.specs.Prelude.{◌≡◌};
ghost use Rattle.vhdl_text.specs.VerilogText as spec;

use crate::arch::{ArchMap, ArchPart, ArchPort, ArchSet, ArchSource, ArchWire};
use crate::counted::Counted;
use crate::form::Form;
use crate::frame::HighestBit;
use crate::separated::Separated;
use crate::verilog_names::{InstanceName, ModuleName, VerilogName};
use tydi_base::{Binary, List, Memory, Written, emit, parts};

/// Ports, wires, instances and assignments as those of Verilog.
#[derive(Clone, Copy)]
pub(crate) struct InVerilog;

/// The range of a vector of this width; nothing where there is one bit.
#[derive(Clone, Copy)]
struct Range(Option<u32>);

impl Written for Range {
    ghost text = { λ range. spec.range_text range.0 };

    fn write_to(&self, out: &mut List<u8>) -> Result<(), Memory> {
        match self.0 {
            Some(width) => emit!(out; "[", HighestBit(width), ":0] "),
            None => Ok(()),
        }
    }
}

impl Counted for Range {
    fn count(&self) -> u64 {
        match self.0 {
            Some(width) => parts!("[", HighestBit(width), ":0] ").count(),
            None => 0,
        }
    }
}

/// The direction of a port.
fn direction(outward: bool) -> &'static str
    ensures { result.now ≡ spec.direction_text outward }
{
    if outward {
        "output wire "
    } else {
        "input wire "
    }
}

impl Form<ArchPort> for InVerilog {
    ghost text = { spec.port_line };

    fn write_one(&self, port: &ArchPort, out: &mut List<u8>) -> Result<(), Memory> {
        emit!(out; "  ", direction(port.outward), Range(port.width), VerilogName(&port.name))
    }

    fn count_one(&self, port: &ArchPort) -> u64 {
        parts!(
            "  ",
            direction(port.outward),
            Range(port.width),
            VerilogName(&port.name)
        )
        .count()
    }
}

impl Form<ArchWire> for InVerilog {
    ghost text = { spec.wire_line };

    fn write_one(&self, wire: &ArchWire, out: &mut List<u8>) -> Result<(), Memory> {
        emit!(out; "  wire ", Range(wire.width), VerilogName(&wire.name), ";\n")
    }

    fn count_one(&self, wire: &ArchWire) -> u64 {
        parts!("  wire ", Range(wire.width), VerilogName(&wire.name), ";\n").count()
    }
}

impl Form<ArchMap> for InVerilog {
    ghost text = { spec.map_line };

    fn write_one(&self, map: &ArchMap, out: &mut List<u8>) -> Result<(), Memory> {
        emit!(out; "    .", VerilogName(&map.port), "(", VerilogName(&map.wire), ")")
    }

    fn count_one(&self, map: &ArchMap) -> u64 {
        parts!(
            "    .",
            VerilogName(&map.port),
            "(",
            VerilogName(&map.wire),
            ")"
        )
        .count()
    }
}

impl Form<ArchPart> for InVerilog {
    ghost text = { spec.part_text };

    fn write_one(&self, part: &ArchPart, out: &mut List<u8>) -> Result<(), Memory> {
        emit!(
            out;
            "  ", ModuleName(&part.entity), InstanceName(&part.name), "(\n",
            Separated(",\n", part.maps.as_slice(), InVerilog), "\n  );\n",
        )
    }

    fn count_one(&self, part: &ArchPart) -> u64 {
        parts!(
            "  ",
            ModuleName(&part.entity),
            InstanceName(&part.name),
            "(\n",
            Separated(",\n", part.maps.as_slice(), InVerilog),
            "\n  );\n"
        )
        .count()
    }
}

impl Form<ArchSet> for InVerilog {
    ghost text = { spec.set_line };

    fn write_one(&self, set: &ArchSet, out: &mut List<u8>) -> Result<(), Memory> {
        emit!(out; "  assign ", VerilogName(&set.target), "= ", Source(&set.source), ";\n")
    }

    fn count_one(&self, set: &ArchSet) -> u64 {
        parts!(
            "  assign ",
            VerilogName(&set.target),
            "= ",
            Source(&set.source),
            ";\n"
        )
        .count()
    }
}

/// The source of an assignment.
#[derive(Clone, Copy)]
struct Source<'a>(&'a ArchSource);

impl Written for Source<'_> {
    ghost text = { λ source. spec.source_text source.0.now };

    fn write_to(&self, out: &mut List<u8>) -> Result<(), Memory> {
        match self.0 {
            ArchSource::Wire(name) => emit!(out; VerilogName(name)),
            ArchSource::Constant(bits) => emit!(out; bits.len(), "'b", Binary(bits)),
        }
    }
}

impl Counted for Source<'_> {
    fn count(&self) -> u64 {
        match self.0 {
            ArchSource::Wire(name) => VerilogName(name).count(),
            ArchSource::Constant(bits) => parts!(bits.len(), "'b", Binary(bits)).count(),
        }
    }
}
