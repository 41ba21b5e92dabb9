//! Names in Verilog.

ghost use Rattle.std.specs.Prelude.{◌≡◌};
ghost use Rattle.vhdl_text.specs.VerilogText as spec;

use crate::counted::Counted;
use tydi_base::{List, Memory, Name, Path, Text, Written, emit, parts};

/// A VHDL identifier as one of Verilog.
#[derive(Clone, Copy)]
pub(crate) struct VerilogName<'a>(pub(crate) &'a Text);

impl Written for VerilogName<'_> {
    ghost text = { λ name. spec.verilog_name name.0.now };

    fn write_to(&self, out: &mut List<u8>) -> Result<(), Memory> {
        let name = self.0.as_bytes();
        if is_extended(name) {
            emit!(out; &name[..name.len().saturating_sub(1)], " ")
        } else {
            emit!(out; name)
        }
    }
}

impl Counted for VerilogName<'_> {
    fn count(&self) -> u64 {
        self.0.count()
    }
}

/// Whether a VHDL identifier is an extended one.
fn is_extended(name: &[u8]) -> bool
    ensures { result ≡ spec.is_extended name.now }
{
    match name.first() {
        Some(first) => *first == b'\\',
        None => false,
    }
}

/// The name of the module of a streamlet of this path.
#[derive(Clone, Copy)]
pub(crate) struct ModuleName<'a>(pub(crate) &'a Path);

impl Written for ModuleName<'_> {
    ghost text = { λ name. spec.module_name name.0.now };

    fn write_to(&self, out: &mut List<u8>) -> Result<(), Memory> {
        emit!(out; "\\", self.0, " ")
    }
}

impl Counted for ModuleName<'_> {
    fn count(&self) -> u64 {
        parts!("\\", self.0, " ").count()
    }
}

/// The name of an instance of this name.
#[derive(Clone, Copy)]
pub(crate) struct InstanceName<'a>(pub(crate) &'a Name);

impl Written for InstanceName<'_> {
    ghost text = { λ name. spec.instance_name name.0.now };

    fn write_to(&self, out: &mut List<u8>) -> Result<(), Memory> {
        emit!(out; "\\", self.0, point_after(self.0), " ")
    }
}

impl Counted for InstanceName<'_> {
    fn count(&self) -> u64 {
        parts!("\\", self.0, point_after(self.0), " ").count()
    }
}

/// What stands behind the name of an instance: a point where it is that of the clock or the reset.
fn point_after(name: &Name) -> &'static str
    ensures { result.now ≡ spec.point_after name.now }
{
    let name = name.as_bytes();
    if (name == b"clk".as_slice()) | (name == b"rst".as_slice()) {
        "."
    } else {
        ""
    }
}
