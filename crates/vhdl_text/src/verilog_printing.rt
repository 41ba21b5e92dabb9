//! The text of a module in Verilog, and how long it is.

ghost use Rattle.std.specs.Prelude.{◌≡◌, IfOk, length, min};
ghost use Rattle.tydi_base.specs.Lengths.{most_bytes};
ghost use Rattle.vhdl_text.specs.VerilogText as spec;
ghost use Rattle.vhdl_text.specs.VerilogText.{module_text};

use crate::arch::Arch;
use crate::counted::Counted;
use crate::separated::{Marked, Separated};
use crate::verilog_lines::InVerilog;
use crate::verilog_names::ModuleName;
use std::alloc::Global;
use tydi_base::{List, Memory, Written, emit, parts};

/// The text of an entity, and of its architecture where it has one, as a module in Verilog. The body of one that has no architecture is
/// included from the file of its name and `.vh`. Memory comes where there is none for the text.
pub fn print_verilog(alloc: Global, arch: &Arch) -> Result<List<u8>, Memory>
    ensures { IfOk result (λ text. text ≡ module_text arch.now) }
{
    let mut text = List::new(alloc);
    emit!(text; Module(arch))?;
    Ok(text)
}

/// How many bytes the text of an entity and of its architecture has in Verilog; `u64::MAX` where they are more, which no memory holds.
pub fn verilog_length(arch: &Arch) -> u64
    ensures { result ≡ min (length (module_text arch.now)) most_bytes }
{
    Module(arch).count()
}

/// An entity, and its architecture where it has one, as a module.
#[derive(Clone, Copy)]
struct Module<'a>(&'a Arch);

impl Written for Module<'_> {
    ghost text = { λ one. module_text one.0.now };

    fn write_to(&self, out: &mut List<u8>) -> Result<(), Memory> {
        let arch = self.0;
        emit!(
            out;
            "module ", ModuleName(&arch.name), "(\n", Separated(",\n", arch.ports.as_slice(), InVerilog),
            "\n);\n", Body(arch.has_body, arch), "endmodule\n",
        )
    }
}

impl Counted for Module<'_> {
    fn count(&self) -> u64 {
        let arch = self.0;
        parts!(
            "module ",
            ModuleName(&arch.name),
            "(\n",
            Separated(",\n", arch.ports.as_slice(), InVerilog),
            "\n);\n",
            Body(arch.has_body, arch),
            "endmodule\n"
        )
        .count()
    }
}

/// The body of a module: the architecture where there is one, and else the line that includes a file.
#[derive(Clone, Copy)]
struct Body<'a>(bool, &'a Arch);

impl Written for Body<'_> {
    ghost text = { λ body. spec.module_body body.0 body.1.now };

    fn write_to(&self, out: &mut List<u8>) -> Result<(), Memory> {
        if self.0 {
            out.emit(&Structure(self.1))
        } else {
            emit!(out; "  `include \"", &self.1.name, ".vh\"\n")
        }
    }
}

impl Counted for Body<'_> {
    fn count(&self) -> u64 {
        if self.0 {
            Structure(self.1).count()
        } else {
            parts!("  `include \"", &self.1.name, ".vh\"\n").count()
        }
    }
}

/// The wires, instances and assignments of an architecture.
#[derive(Clone, Copy)]
struct Structure<'a>(&'a Arch);

impl Written for Structure<'_> {
    ghost text = { λ structure. spec.structure_text structure.0.now };

    fn write_to(&self, out: &mut List<u8>) -> Result<(), Memory> {
        let arch = self.0;
        emit!(
            out;
            Marked("", arch.wires.as_slice(), InVerilog),
            Marked("", arch.parts.as_slice(), InVerilog),
            Marked("", arch.sets.as_slice(), InVerilog),
        )
    }
}

impl Counted for Structure<'_> {
    fn count(&self) -> u64 {
        let arch = self.0;
        parts!(
            Marked("", arch.wires.as_slice(), InVerilog),
            Marked("", arch.parts.as_slice(), InVerilog),
            Marked("", arch.sets.as_slice(), InVerilog)
        )
        .count()
    }
}
