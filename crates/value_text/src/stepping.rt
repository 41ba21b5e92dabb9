//! One step of the text of a value: the front of a part that is left.

ghost use Rattle.std.specs.Prelude.{OnOk};
ghost use Rattle.value_text.specs.Pending.{Begins, fields_part, nests_part, part_steps, part_text, words_part};

use crate::beginning::{begin_element, begin_nest};
use crate::items::{Items, Taken};
use crate::pending::{FieldsLeft, NestsLeft, Pending};
use crate::runs::{are_words, step_leaves};
use std::alloc::Global;
use tydi_base::{Bits, Hex, List, Memory, TryClone, emit};

/// Writes the front of a part, and puts the rest of it before the parts that are left.
pub(crate) fn step<'v>(
    alloc: Global,
    part: Pending<'v>,
    left: &mut List<Pending<'v>>,
    out: &mut List<u8>,
) -> Result<(), Memory>
    ensures { OnOk result (Begins (part_text part.entry) (part_steps part.entry) left.old left.new out.old out.new) }
{
    match part {
        Pending::Mark(text) => emit!(out; text),
        Pending::Line(text) => emit!(out; text.as_slice()),
        Pending::Nests(nests) => step_nests(alloc, nests, left, out),
        Pending::Fields(fields) => step_fields(alloc, fields, left, out),
        Pending::Words(words) => step_words(words, left, out),
    }
}

/// Begins the first of these nests. Where they are words, in no sequence, it writes them up to the end of a piece.
fn step_nests<'v>(
    alloc: Global,
    nests: NestsLeft<'v>,
    left: &mut List<Pending<'v>>,
    out: &mut List<u8>,
) -> Result<(), Memory>
    ensures { OnOk result (Begins (part_text (nests_part nests.entry)) (part_steps (nests_part nests.entry)) left.old left.new out.old out.new) }
{
    if are_words(&nests) {
        return step_leaves(nests, left, out);
    }
    let NestsLeft {
        element,
        depth,
        before,
        between,
        values,
    } = nests;
    match values.take() {
        Some(Taken { one, more }) => {
            emit!(out; before)?;
            left.push(Pending::Nests(NestsLeft {
                element: element.try_clone(alloc)?,
                depth,
                before: between,
                between,
                values: more,
            }))?;
            begin_nest(alloc, &element, depth, one, left, out)
        }
        None => Ok(()),
    }
}

/// Begins the value of the first of these fields.
fn step_fields<'v>(
    alloc: Global,
    fields: FieldsLeft<'v>,
    left: &mut List<Pending<'v>>,
    out: &mut List<u8>,
) -> Result<(), Memory>
    ensures { OnOk result (Begins (part_text (fields_part fields.entry)) (part_steps (fields_part fields.entry)) left.old left.new out.old out.new) }
{
    let FieldsLeft {
        parts,
        at,
        before,
        values,
    } = fields;
    match parts.as_slice().get(at) {
        Some(part) => match values.take() {
            Some(Taken { one, more }) => {
                emit!(out; before, &part.name, ": ")?;
                left.push(Pending::Fields(FieldsLeft {
                    parts: parts.try_clone(alloc)?,
                    at: at + 1,
                    before: b", ",
                    values: more,
                }))?;
                begin_element(alloc, &part.ltype, one, left, out)
            }
            None => Ok(()),
        },
        None => Ok(()),
    }
}

/// Writes the first of these user words.
fn step_words<'v>(
    words: Items<'v, Bits>,
    left: &mut List<Pending<'v>>,
    out: &mut List<u8>,
) -> Result<(), Memory>
    ensures { OnOk result (Begins (part_text (words_part words.entry)) (part_steps (words_part words.entry)) left.old left.new out.old out.new) }
{
    match words.take() {
        Some(Taken { one, more }) => {
            emit!(out; " ", Hex(one.get()))?;
            left.push(Pending::Words(more))
        }
        None => Ok(()),
    }
}
