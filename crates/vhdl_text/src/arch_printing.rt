//! The text of an entity and of its architecture, and how long it is.

ghost use Rattle.std.specs.Prelude.{◌≡◌, IfOk, length, min};
ghost use Rattle.tydi_base.specs.Lengths.{most_bytes};
ghost use Rattle.vhdl_text.specs.ArchText as spec;
ghost use Rattle.vhdl_text.specs.ArchText.{arch_text};

use crate::arch::Arch;
use crate::arch_lines::EntityName;
use crate::counted::Counted;
use crate::form::OwnText;
use crate::separated::Separated;
use std::alloc::Global;
use tydi_base::{Each, List, Memory, Written, emit, parts};

/// The text of an entity, and of its architecture where it has one. Memory comes where there is none for the text.
pub fn print_arch(alloc: Global, arch: &Arch) -> Result<List<u8>, Memory>
    ensures { IfOk result (λ text. text ≡ arch_text arch.now) }
{
    let mut text = List::new(alloc);
    emit!(text; ArchText(arch))?;
    Ok(text)
}

/// How many bytes the text of an entity and of its architecture has; `u64::MAX` where they are more, which no memory holds.
pub fn arch_length(arch: &Arch) -> u64
    ensures { result ≡ min (length (arch_text arch.now)) most_bytes }
{
    ArchText(arch).count()
}

/// An entity, and its architecture where it has one.
#[derive(Clone, Copy)]
struct ArchText<'a>(&'a Arch);

impl Written for ArchText<'_> {
    ghost text = { λ arch. arch_text arch.0.now };

    fn write_to(&self, out: &mut List<u8>) -> Result<(), Memory> {
        emit!(out; Entity(self.0), BodyWhere(self.0.has_body, self.0))
    }
}

impl Counted for ArchText<'_> {
    fn count(&self) -> u64 {
        parts!(Entity(self.0), BodyWhere(self.0.has_body, self.0)).count()
    }
}

/// The lines of an entity.
#[derive(Clone, Copy)]
struct Entity<'a>(&'a Arch);

impl Written for Entity<'_> {
    ghost text = { λ entity. spec.entity_text entity.0.now };

    fn write_to(&self, out: &mut List<u8>) -> Result<(), Memory> {
        emit!(
            out;
            "library ieee;\nuse ieee.std_logic_1164.all;\nentity ", EntityName(&self.0.name),
            " is\n  port (\n", Separated(";\n", self.0.ports.as_slice(), OwnText), "\n  );\nend entity;\n",
        )
    }
}

impl Counted for Entity<'_> {
    fn count(&self) -> u64 {
        parts!(
            "library ieee;\nuse ieee.std_logic_1164.all;\nentity ",
            EntityName(&self.0.name),
            " is\n  port (\n",
            Separated(";\n", self.0.ports.as_slice(), OwnText),
            "\n  );\nend entity;\n"
        )
        .count()
    }
}

/// The lines of an architecture, where there is one.
#[derive(Clone, Copy)]
struct BodyWhere<'a>(bool, &'a Arch);

impl Written for BodyWhere<'_> {
    ghost text = { λ body. spec.body_where body.0 body.1.now };

    fn write_to(&self, out: &mut List<u8>) -> Result<(), Memory> {
        if self.0 {
            out.emit(&Body(self.1))
        } else {
            Ok(())
        }
    }
}

impl Counted for BodyWhere<'_> {
    fn count(&self) -> u64 {
        if self.0 { Body(self.1).count() } else { 0 }
    }
}

/// The lines of an architecture.
#[derive(Clone, Copy)]
struct Body<'a>(&'a Arch);

impl Written for Body<'_> {
    ghost text = { λ body. spec.body_text body.0.now };

    fn write_to(&self, out: &mut List<u8>) -> Result<(), Memory> {
        let arch = self.0;
        emit!(
            out;
            "architecture structural of ", EntityName(&arch.name), " is\n",
            Each(arch.wires.as_slice()), "begin\n", Each(arch.parts.as_slice()),
            Each(arch.sets.as_slice()), "end architecture;\n",
        )
    }
}

impl Counted for Body<'_> {
    fn count(&self) -> u64 {
        let arch = self.0;
        parts!(
            "architecture structural of ",
            EntityName(&arch.name),
            " is\n",
            Each(arch.wires.as_slice()),
            "begin\n",
            Each(arch.parts.as_slice()),
            Each(arch.sets.as_slice()),
            "end architecture;\n"
        )
        .count()
    }
}
