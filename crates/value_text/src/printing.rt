//! The canonical text of a value.

ghost use Rattle.std.specs.Prelude.{◌≡◌, length, min, IfOk};
ghost use Rattle.tydi_base.specs.Lengths.{most_bytes};
ghost use Rattle.type_split.specs.Streams.{plain_split};
ghost use Rattle.logical_value.specs.Tree.{plain_port};
ghost use Rattle.value_text.specs.Canonical.{canonical};

use crate::filling::{count, write_all};
use crate::items::Items;
use crate::starting::start;
use logical_value::PortValue;
use std::alloc::Global;
use tydi_base::{Bits, List, Memory};
use type_split::Split;

/// The canonical text of a value of the port's type that was split, with the user words of the transfers of each stream. A root has a
/// line each, and so has a stream whose user words have bits. `Memory` comes where there is none for the text. The text is this
/// project's own.
pub fn print(
    alloc: Global,
    value: &PortValue,
    split: &Split<'_>,
    users: &[List<Bits>],
) -> Result<List<u8>, Memory>
    ensures { IfOk result (λ text. text ≡ canonical (plain_split split.now) (plain_port value.now) users.now) }
{
    let mut left = start(
        alloc,
        split,
        Items::Lent(value.roots.as_slice()),
        Items::Lent(users),
    )?;
    let mut text = List::new(alloc);
    write_all(alloc, &mut left, &mut text)?;
    Ok(text)
}

/// The bytes of the canonical text of a value, or the greatest number of 64 bits where there are more. Words are counted by their
/// digits, and no text is made. `Memory` comes where there is none for the list of what is left to count.
pub fn text_length(
    alloc: Global,
    value: &PortValue,
    split: &Split<'_>,
    users: &[List<Bits>],
) -> Result<u64, Memory>
    ensures { IfOk result (λ bytes. bytes ≡ min (length (canonical (plain_split split.now) (plain_port value.now) users.now)) most_bytes) }
{
    let mut left = start(
        alloc,
        split,
        Items::Lent(value.roots.as_slice()),
        Items::Lent(users),
    )?;
    count(alloc, &mut left)
}
