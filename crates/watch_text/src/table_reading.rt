//! The tables of a monitor, read line by line.

ghost use Rattle.std.specs.Prelude.{◌≡◌, [], IfOk, None, Some, if◌then◌else◌, nat_lt, option_map};
ghost use Rattle.std.specs.Char.{is_ascii_digit};
ghost use Rattle.std.specs.List.{list_all};
ghost use Rattle.tydi_base.specs.Decimal as decimals;
ghost use Rattle.tydi_base.specs.Reading.{Gives, or_fault};
ghost use Rattle.tydi_reading.specs.declared.fault.Fault.TheVariants as refusals;
ghost use Rattle.tydi_reading.specs.Reading.{Reads};
ghost use Rattle.vhdl_text.specs.Lines.{refusal_in};
ghost use Rattle.physical_stream.specs.declared.item.Item.TheVariants as items;
ghost use Rattle.watch_text.specs.declared.entry.Entry.TheVariants as entries;
ghost use Rattle.watch_text.specs.Reading as spec;

use crate::entry::Entry;
use crate::line_parts::{cut_before, without_front};
use crate::shape::Shape;
use physical_stream::{Head, Item};
use std::alloc::Global;
use tydi_base::{Bits, List, Memory, write_decimal};
use tydi_reading::Source;
use vhdl_text::{Fault, Lines, expect_line, expect_lines, is_same};

/// The tables of these streams.
pub(crate) fn read_tables(
    alloc: Global,
    heads: &[Head],
    lines: &mut Lines<'_>,
) -> Result<List<List<Item>>, Fault>
    ensures { Reads (spec.tables_from heads.now [] lines.old) result lines.new }
{
    let mut found = List::new(alloc);
    'heads: for head in heads {
        let shape = Shape::of(alloc, head)?;
        let want = table_of(alloc, &shape, lines)?;
        found.push(want)?;
    }
    Ok(found)
}

/// The items of a table.
fn table_of(alloc: Global, shape: &Shape, lines: &mut Lines<'_>) -> Result<List<Item>, Fault>
    ensures { Reads (spec.table_of shape.now lines.old) result lines.new }
{
    let Some(line) = lines.first() else {
        return Err(Fault::Refused);
    };
    let Some(last) = last_of(
        shape.type_front.as_slice(),
        shape.type_back.as_slice(),
        line,
    ) else {
        return Err(Fault::Refused);
    };
    lines.skip();
    table_after(alloc, shape, last, lines)
}

/// The number that the line of a table's type has between its front and its back.
#[tactic(auto, unfolding(crate::specs::Reading::last_of))]
fn last_of<'a>(front: &[u8], back: &[u8], line: &'a [u8]) -> Option<&'a [u8]>
    ensures { option_map (λ digits. digits.now) result ≡ spec.last_of front.now back.now line.now }
{
    let text = without_front(front, line)?;
    let digits = cut_before(text.len().saturating_sub(back.len()), back, text)?;
    if is_decimal(digits) {
        Some(digits)
    } else {
        None
    }
}

/// Whether these are the digits of a number with no leading zero.
fn is_decimal(digits: &[u8]) -> bool
    ensures { result ≡ decimals.is_decimal digits.now }
{
    let leading_zero = digits.len() > 1 && digits[0] == b'0';
    !digits.is_empty() && !leading_zero && are_digits(digits)
}

/// Whether each of these bytes is `0` to `9`.
fn are_digits(bytes: &[u8]) -> bool
    ensures { result ≡ list_all is_ascii_digit bytes.now }
{
    bytes.iter().all(|byte| byte.is_ascii_digit())
}

/// A table behind the line of its type.
#[tactic(auto, unfolding(crate::specs::Reading::table_after))]
fn table_after(
    alloc: Global,
    shape: &Shape,
    last: &[u8],
    lines: &mut Lines<'_>,
) -> Result<List<Item>, Fault>
    ensures { Reads (spec.table_after shape.now last.now lines.old) result lines.new }
{
    expect_lines(lines, shape.table_line.as_slice())?;
    let want = entries(alloc, shape, last, lines)?;
    expect_line(lines, b"  );")?;
    Ok(want)
}

/// The items up to the end of a table.
fn entries(
    alloc: Global,
    shape: &Shape,
    last: &[u8],
    lines: &mut Lines<'_>,
) -> Result<List<Item>, Fault>
    ensures { Reads (spec.entries_from shape.now last.now [] lines.old) result lines.new }
{
    let mut digits = List::new(alloc);
    let mut found = List::new(alloc);
    'lines: while let Some(line) = lines.first() {
        let entry = entry_of_line(alloc, shape, last, &mut digits, found.len(), line)?;
        let Entry::Item(item) = entry else {
            lines.skip();
            return Ok(found);
        };
        found.push(item)?;
        lines.skip();
    }
    Err(Fault::Refused)
}

/// The entry of this number that a line spells, in a table whose last entry has the number of these digits. The digits of its own number
/// are written over others.
#[tactic(auto, unfolding(crate::specs::Reading::entry_of_line))]
fn entry_of_line(
    alloc: Global,
    shape: &Shape,
    last: &[u8],
    digits: &mut List<u8>,
    number: usize,
    line: &[u8],
) -> Result<Entry, Fault>
    ensures { Gives refusal_in (λ entry. entry) result (or_fault refusals.Refused (spec.entry_of_line shape.now last.now number line.now)) }
{
    digits.truncate(0);
    write_decimal(number as u64, digits)?;
    let Some(text) = behind_number(digits.as_slice(), line) else {
        return Err(Fault::Refused);
    };
    match entry_at(alloc, shape, is_same(digits.as_slice(), last), text)? {
        Some(entry) => Ok(entry),
        None => Err(Fault::Refused),
    }
}

/// The line behind the number of its entry, whose digits these are.
#[tactic(auto, unfolding(crate::specs::Reading::behind_number))]
fn behind_number<'a>(digits: &[u8], line: &'a [u8]) -> Option<&'a [u8]>
    ensures { option_map (λ text. text.now) result ≡ spec.behind_number digits.now line.now }
{
    let spelled = without_front(b"    ", line)?;
    let after = without_front(digits, spelled)?;
    without_front(b" => \"", after)
}

/// The entry whose digits and end of line these are, as the last one or not.
fn entry_at(
    alloc: Global,
    shape: &Shape,
    is_last: bool,
    text: &[u8],
) -> Result<Option<Entry>, Memory>
    ensures { IfOk result (λ found. found ≡ spec.entry_at shape.now is_last text.now) }
{
    if is_same(text, shape.end_text.as_slice()) {
        return Ok(end_where(is_last));
    }
    if is_last {
        return Ok(None);
    }
    item_of(alloc, shape, text)
}

/// The end of a table, if it stands there.
fn end_where(is_last: bool) -> Option<Entry>
    ensures { result ≡ (if is_last then Some entries.End else None) }
{
    if is_last { Some(Entry::End) } else { None }
}

/// The item whose digits and end of line these are.
#[tactic(auto, unfolding(crate::specs::Reading::item_of))]
fn item_of(alloc: Global, shape: &Shape, text: &[u8]) -> Result<Option<Entry>, Memory>
    ensures { IfOk result (λ found. found ≡ spec.item_of shape.now text.now) }
{
    if let Some(word) = word_in(alloc, shape.elem_front.as_slice(), shape.element, text)? {
        return Ok(Some(Entry::Item(Item::Elem(word))));
    }
    let bits = word_in(alloc, shape.close_front.as_slice(), 6, text)?;
    Ok(close_in(shape.dims, bits))
}

/// A word of so many digits, behind one text and before the end of an item's line.
#[tactic(auto, unfolding(crate::specs::Reading::word_in))]
fn word_in(alloc: Global, front: &[u8], width: usize, text: &[u8]) -> Result<Option<Bits>, Memory>
    ensures { IfOk result (λ found. found ≡ spec.word_in front.now width text.now) }
{
    let Some(rest) = without_front(front, text) else {
        return Ok(None);
    };
    match cut_before(width, b"\",", rest) {
        Some(digits) => Bits::from_exact_binary(alloc, width, digits),
        None => Ok(None),
    }
}

/// The end of a sequence whose dimension is in range.
fn close_in(dims: u8, bits: Option<Bits>) -> Option<Entry>
    ensures { result ≡ spec.close_in dims bits }
{
    match bits {
        Some(bits) => close_of(dims, &bits),
        None => None,
    }
}

/// The end of a sequence, where the dimension that these bits spell is in range.
fn close_of(dims: u8, bits: &Bits) -> Option<Entry>
    ensures { result ≡ spec.close_in dims (Some bits.now) }
{
    match bits.number() {
        Some(number) => close_at(dims, number),
        None => None,
    }
}

/// The end of a sequence, where its dimension is in range.
fn close_at(dims: u8, number: u128) -> Option<Entry>
    ensures { result ≡ (if nat_lt number dims then Some (entries.Item (items.Close number)) else None) }
{
    if number < u128::from(dims) {
        Some(Entry::Item(Item::Close(number as u8)))
    } else {
        None
    }
}
