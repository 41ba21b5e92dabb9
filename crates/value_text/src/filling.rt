//! The text of parts, in pieces and whole.

ghost use Rattle.std.specs.Prelude.{◌≡◌, ◌<◌, ◌++◌, [], length, min, IfOk, IfSome, OnOk};
ghost use Rattle.tydi_base.specs.Lengths.{most_bytes};
ghost use Rattle.value_text.specs.Pending.{Counts, part_steps, part_text, rest_of};

use crate::pending::{PIECE, Pending};
use crate::runs::{are_words, leaves_length};
use crate::stepping::step;
use std::alloc::Global;
use tydi_base::{List, Memory};

/// Fills an empty piece with the text of parts.
pub(crate) fn fill<'v>(
    alloc: Global,
    left: &mut List<Pending<'v>>,
    piece: &mut List<u8>,
) -> Result<(), Memory>
    requires { piece.old ≡ [] }
    ensures made { OnOk result (rest_of left.old ≡ piece.new ++ rest_of left.new) }
    ensures some { OnOk result (0 < length (rest_of left.old) → 0 < length piece.new) }
{
    'steps: while piece.len() < PIECE {
        match left.pop() {
            Some(part) => step(alloc, part, left, piece)?,
            None => return Ok(()),
        }
    }
    Ok(())
}

/// Adds the text of parts.
pub(crate) fn write_all<'v>(
    alloc: Global,
    left: &mut List<Pending<'v>>,
    out: &mut List<u8>,
) -> Result<(), Memory>
    ensures { OnOk result (out.new ≡ out.old ++ rest_of left.old) }
{
    'steps: while let Some(part) = left.pop() {
        step(alloc, part, left, out)?;
    }
    Ok(())
}

/// The bytes of the text of parts, or the greatest number of 64 bits where there are more.
pub(crate) fn count<'v>(alloc: Global, left: &mut List<Pending<'v>>) -> Result<u64, Memory>
    ensures { IfOk result (λ bytes. bytes ≡ min (length (rest_of left.old)) most_bytes) }
{
    let mut bytes: u64 = 0;
    let mut text = List::new(alloc);
    'steps: while let Some(part) = left.pop() {
        let more = count_step(alloc, part, left, &mut text)?;
        bytes = bytes.saturating_add(more);
    }
    Ok(bytes)
}

/// Counts the front of a part, and puts the rest of it before the parts that are left. The text of a front that is no words is made in the
/// room of another.
fn count_step<'v>(
    alloc: Global,
    part: Pending<'v>,
    left: &mut List<Pending<'v>>,
    text: &mut List<u8>,
) -> Result<u64, Memory>
    ensures { IfOk result (λ bytes. Counts (part_text part.entry) (part_steps part.entry) left.old left.new bytes) }
{
    match words_length(&part) {
        Some(bytes) => Ok(bytes),
        None => {
            text.truncate(0);
            step(alloc, part, left, text)?;
            Ok(text.len() as u64)
        }
    }
}

/// The bytes of a part, where it is words, in no sequence; or the greatest number of 64 bits where they are more.
fn words_length(part: &Pending<'_>) -> Option<u64>
    ensures { IfSome result (λ bytes. bytes ≡ min (length (part_text part.now)) most_bytes) }
{
    match part {
        Pending::Nests(nests) => if are_words(nests) {
            Some(leaves_length(nests))
        } else {
            None
        },
        _ => None,
    }
}
