//! Words one after another, which are written in one loop.

ghost use Rattle.std.specs.Prelude.{◌≡◌, ◌++◌, length, min, decimal, IfOk, IfSome, IsTrue, MatchBool, OnOk};
ghost use Rattle.tydi_base.specs.Lengths.{most_bytes};
ghost use Rattle.logical_types.specs.Tree as types;
ghost use Rattle.logical_value.specs.Tree.{Tree, plain};
ghost use Rattle.value_text.specs.Canonical.{element_text};
ghost use Rattle.value_text.specs.Items.{items_of};
ghost use Rattle.value_text.specs.Pending.{Begins, nests_part, part_steps, part_text};
ghost use Rattle.value_text.specs.Runs.{FirstWritten, HasWords, LeavesWritten, leaf_text};

use crate::block::Block;
use crate::items::Items;
use crate::pending::{NestsLeft, PIECE, Pending};
use crate::word::{Word, decimal_of, word_length};
use logical_types::LType;
use logical_value::Value;
use tydi_base::{List, Memory, Written, emit};

/// A value that stands for a word. A value that is no word has no text.
#[derive(Clone, Copy)]
struct Leaf<'a>(&'a Value);

impl Written for Leaf<'_> {
    ghost text = { λ leaf. leaf_text (plain leaf.0.now) };

    fn write_to(&self, out: &mut List<u8>) -> Result<(), Memory> {
        match self.0.word() {
            Some(bits) => Word(bits).write_to(out),
            None => Ok(()),
        }
    }
}

/// Whether these nests are words, in no sequence.
pub(crate) fn are_words(nests: &NestsLeft<'_>) -> bool
    ensures { IsTrue result → HasWords nests.now }
{
    if nests.depth > 0 {
        return false;
    }
    is_bits(&nests.element)
}

/// Whether this is a Bits.
fn is_bits(ltype: &LType) -> bool
    ensures { IsTrue result → (value : Tree) → element_text (types.plain ltype.now) value ≡ leaf_text value }
{
    match ltype {
        LType::Null => false,
        LType::Bits(_) => true,
        LType::Group(_) => false,
        LType::Union(_) => false,
        LType::Stream(_) => false,
    }
}

/// Writes these words from the first on, up to the end of a piece.
pub(crate) fn step_leaves<'v>(
    nests: NestsLeft<'v>,
    left: &mut List<Pending<'v>>,
    out: &mut List<u8>,
) -> Result<(), Memory>
    requires { HasWords nests }
    ensures { OnOk result (Begins (part_text (nests_part nests.entry)) (part_steps (nests_part nests.entry)) left.old left.new out.old out.new) }
{
    let NestsLeft {
        element,
        depth,
        before,
        between,
        values,
    } = nests;
    match values.get(0) {
        Some(one) => {
            emit!(out; before, Leaf(one))?;
            let rest = write_leaves(between, values.skip(1), out)?;
            if rest.is_empty() {
                return Ok(());
            }
            left.push(Pending::Nests(NestsLeft {
                element,
                depth,
                before: between,
                between,
                values: rest,
            }))
        }
        None => Ok(()),
    }
}

/// Writes words, each after this text, up to the end of a piece. It gives those that are left.
fn write_leaves<'v>(
    between: &[u8],
    values: Items<'v, Value>,
    out: &mut List<u8>,
) -> Result<Items<'v, Value>, Memory>
    ensures { IfOk result (λ rest. LeavesWritten between.now (items_of values.entry) (items_of rest) out.old out.new) }
{
    let mut left = values;
    'words: while out.len() < PIECE {
        let count = write_some(between, &left, out)?;
        if count == 0 {
            return Ok(left);
        }
        left = left.skip(count);
    }
    Ok(left)
}

/// Writes the first of these words, each after this text, and answers how many: a block of them, or the first alone. None are written where
/// there are none.
fn write_some(
    between: &[u8],
    values: &Items<'_, Value>,
    out: &mut List<u8>,
) -> Result<usize, Memory>
    ensures { IfOk result (λ count. FirstWritten between.now (items_of values.now) count out.old out.new) }
{
    let count = write_block(between, values, out)?;
    if count > 0 {
        return Ok(count);
    }
    match values.get(0) {
        Some(one) => {
            emit!(out; between, Leaf(one))?;
            Ok(1)
        }
        None => Ok(0),
    }
}

/// Writes a block of the first of these words, each after this text, and answers how many.
fn write_block(
    between: &[u8],
    values: &Items<'_, Value>,
    out: &mut List<u8>,
) -> Result<usize, Memory>
    ensures { IfOk result (λ count. FirstWritten between.now (items_of values.now) count out.old out.new) }
{
    let mut block = Block::new();
    let mut count = 0;
    'leaves: while let Some(value) = values.get(count) {
        if !put_leaf(&mut block, between, value) {
            break;
        }
        count += 1;
    }
    out.extend_from_slice(block.as_slice())?;
    Ok(count)
}

/// Adds this word after this text to a block. False where its number has more than 64 bits, and where there is no room; then the block is
/// as before.
fn put_leaf(block: &mut Block, between: &[u8], value: &Value) -> bool
    ensures { MatchBool result (block.new ≡ block.old ++ (between.now ++ leaf_text (plain value.now))) (block.new ≡ block.old) }
{
    match few_number(value) {
        Some(number) => block.put(between, number),
        None => false,
    }
}

/// The number of a word that is written in decimal. None where it is written otherwise, or is 2 ^ 64 or more.
fn few_number(value: &Value) -> Option<u64>
    ensures { IfSome result (λ number. leaf_text (plain value.now) ≡ decimal number) }
{
    let number = decimal_of(value.word()?)?;
    if number > u128::from(u64::MAX) {
        return None;
    }
    Some(number as u64)
}

/// The bytes of words, the first after one text, and each other after another; or the greatest number of 64 bits where they are more.
pub(crate) fn leaves_length(nests: &NestsLeft<'_>) -> u64
    requires { HasWords nests.now }
    ensures { result ≡ min (length (part_text (nests_part nests.now))) most_bytes }
{
    let mut bytes: u64 = 0;
    let mut lead = nests.before.len() as u64;
    let mut count = 0;
    'leaves: while let Some(value) = nests.values.get(count) {
        bytes = bytes
            .saturating_add(lead)
            .saturating_add(leaf_length(value));
        lead = nests.between.len() as u64;
        count += 1;
    }
    bytes
}

/// The bytes of the text of a word.
fn leaf_length(value: &Value) -> u64
    ensures { result ≡ length (leaf_text (plain value.now)) }
{
    match value.word() {
        Some(word) => word_length(word),
        None => 0,
    }
}
