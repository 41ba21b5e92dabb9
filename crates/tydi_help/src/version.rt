//! The version of the tool, and the kit that proves it.

ghost use Rattle.std.specs.Prelude.{◌≡◌, IfOk};
ghost use Rattle.tydi_help.specs.Texts.{version_text};

use std::alloc::Global;
use tydi_base::{List, Memory, emit};

/// The version of the tool. `tools/package` reads it from this line.
pub const VERSION: &str = "1.0.0";

/// The kit that proves the tool, as `rt version` prints it.
pub const KIT: &str = "rattle-kit-13f logic dac8208d650f15bf";

/// What `tydi version` writes: a line of the version, and a line of the kit. `Memory` comes where there is none for it.
pub fn version_text(alloc: Global) -> Result<List<u8>, Memory>
    ensures { IfOk result (λ text. text ≡ version_text) }
{
    let mut text = List::new(alloc);
    emit!(text; "tydi ", VERSION, "\n", KIT, "\n")?;
    Ok(text)
}
