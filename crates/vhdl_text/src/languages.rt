//! The text of an entity and of its architecture in either language, and how long it is.

ghost use Rattle.std.specs.Prelude.{◌≡◌, IfOk, length, min};
ghost use Rattle.tydi_base.specs.Lengths.{most_bytes};
ghost use Rattle.vhdl_text.specs.VerilogText.{text_in};

use crate::arch::Arch;
use crate::arch_printing::{arch_length, print_arch};
use crate::language::Language;
use crate::verilog_printing::{print_verilog, verilog_length};
use std::alloc::Global;
use tydi_base::{List, Memory};

/// The text of an entity, and of its architecture where it has one, in this language. Memory comes where there is none for the text.
pub fn print_in(alloc: Global, language: Language, arch: &Arch) -> Result<List<u8>, Memory>
    ensures { IfOk result (λ text. text ≡ text_in language arch.now) }
{
    match language {
        Language::Vhdl => print_arch(alloc, arch),
        Language::Verilog => print_verilog(alloc, arch),
    }
}

/// How many bytes the text of an entity and of its architecture has in this language; `u64::MAX` where they are more, which no memory
/// holds.
pub fn length_in(language: Language, arch: &Arch) -> u64
    ensures { result ≡ min (length (text_in language arch.now)) most_bytes }
{
    match language {
        Language::Vhdl => arch_length(arch),
        Language::Verilog => verilog_length(arch),
    }
}
