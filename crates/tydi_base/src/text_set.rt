//! Sets of texts.

ghost use Rattle.std.specs.Prelude.{◌≡◌, IfOk, OnOk, not};
ghost use Rattle.tydi_base.specs.TextSet.{AddsText, has_text};

use crate::memory::Memory;
use std::collections::BTreeSet;

/// Adds a text, and answers whether it was not there. `Memory` comes where there is none for it.
pub fn add_text(texts: &mut BTreeSet<Vec<u8>>, text: Vec<u8>) -> Result<bool, Memory>
    ensures fresh { IfOk result (λ fresh. fresh ≡ not (has_text texts.old text.items)) }
    ensures added { OnOk result (AddsText texts.old texts.new text.items) }
{
    Ok(texts.insert(text)?)
}
