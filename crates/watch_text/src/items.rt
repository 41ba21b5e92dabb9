//! The entries of tables.

ghost use Rattle.std.specs.Prelude.{◌≡◌, ◌<◌, ◌-◌, ◌%◌, ◌^◌, drop, take, eqb};
ghost use Rattle.tydi_base.specs.Binary as binary;
ghost use Rattle.tydi_base.specs.Binary.{binary_of};
ghost use Rattle.tydi_base.specs.Bits.{bits_of};
ghost use Rattle.watch_text.specs.Text as spec;
ghost use Rattle.watch_text.specs.Text.{end_line, entry_front, item_digits, item_line, item_lines};

use crate::marks::Repeated;
use physical_stream::{Item, Params};
use tydi_base::{Binary, List, Memory, Written, emit, parts};
use vhdl_text::Counted;

/// The bits of a table's words behind their first two.
pub(crate) fn item_width(params: &Params) -> usize
    ensures width { result ≡ spec.item_width params.now }
    ensures few { result < 2 ^ 32 }
{
    if params.element < 6 {
        6
    } else {
        params.element as usize
    }
}

/// The lines of these items of a stream, from the one place to the other.
#[derive(Clone, Copy)]
pub(crate) struct ItemLines<'a> {
    pub(crate) params: &'a Params,
    pub(crate) items: &'a [Item],
    pub(crate) from: usize,
    pub(crate) to: usize,
}

impl Written for ItemLines<'_> {
    ghost text = { λ lines. item_lines lines.params.now lines.from (drop lines.from (take lines.to lines.items.now)) };

    fn write_to(&self, out: &mut List<u8>) -> Result<(), Memory> {
        let mut number = self.from;
        'items: while number < self.to {
            let Some(item) = self.items.get(number) else {
                return Ok(());
            };
            emit!(out; ItemLine(self.params, number, item), "\n")?;
            number += 1;
        }
        Ok(())
    }
}

impl Counted for ItemLines<'_> {
    fn count(&self) -> u64 {
        let mut count: u64 = 0;
        let mut number = self.from;
        'items: while number < self.to {
            let Some(item) = self.items.get(number) else {
                return count;
            };
            let line = parts!(ItemLine(self.params, number, item), "\n");
            count = count.saturating_add(line.count());
            number += 1;
        }
        count
    }
}

/// The line of the item of this number.
#[derive(Clone, Copy)]
struct ItemLine<'a>(&'a Params, usize, &'a Item);

impl Written for ItemLine<'_> {
    ghost text = { λ line. item_line line.0.now line.1 line.2.now };

    fn write_to(&self, out: &mut List<u8>) -> Result<(), Memory> {
        emit!(out; EntryFront(self.1), ItemDigits(self.0, self.2), "\",")
    }
}

impl Counted for ItemLine<'_> {
    fn count(&self) -> u64 {
        parts!(EntryFront(self.1), ItemDigits(self.0, self.2), "\",").count()
    }
}

/// The line of the end of a table, which has this number.
#[derive(Clone, Copy)]
pub(crate) struct EndLine<'a>(pub(crate) &'a Params, pub(crate) usize);

impl Written for EndLine<'_> {
    ghost text = { λ line. end_line line.0.now line.1 };

    fn write_to(&self, out: &mut List<u8>) -> Result<(), Memory> {
        let digits = item_width(self.0) + 2;
        emit!(out; EntryFront(self.1), Repeated(b'0', digits), "\"")
    }
}

impl Counted for EndLine<'_> {
    fn count(&self) -> u64 {
        let digits = item_width(self.0) + 2;
        parts!(EntryFront(self.1), Repeated(b'0', digits), "\"").count()
    }
}

/// The front of the line of the entry of this number.
#[derive(Clone, Copy)]
struct EntryFront(usize);

impl Written for EntryFront {
    ghost text = { λ front. entry_front front.0 };

    fn write_to(&self, out: &mut List<u8>) -> Result<(), Memory> {
        emit!(out; "    ", self.0, " => \"")
    }
}

impl Counted for EntryFront {
    fn count(&self) -> u64 {
        parts!("    ", self.0, " => \"").count()
    }
}

/// The digits of an item.
#[derive(Clone, Copy)]
struct ItemDigits<'a>(&'a Params, &'a Item);

impl Written for ItemDigits<'_> {
    ghost text = { λ digits. item_digits digits.0.now digits.1.now };

    fn write_to(&self, out: &mut List<u8>) -> Result<(), Memory> {
        match self.1 {
            Item::Elem(word) =>
                emit!(out; "10", Repeated(b'0', element_zeros(self.0)), Binary(word)),
            Item::Close(dim) =>
                emit!(out; "01", Repeated(b'0', close_zeros(self.0)), SixDigits(*dim)),
        }
    }
}

impl Counted for ItemDigits<'_> {
    fn count(&self) -> u64 {
        match self.1 {
            Item::Elem(word) => {
                parts!("10", Repeated(b'0', element_zeros(self.0)), Binary(word)).count()
            }
            Item::Close(dim) => {
                parts!("01", Repeated(b'0', close_zeros(self.0)), SixDigits(*dim)).count()
            }
        }
    }
}

/// The zeros before an element.
pub(crate) fn element_zeros(params: &Params) -> usize
    ensures { result ≡ spec.item_width params.now - params.now.element }
{
    item_width(params).saturating_sub(params.element as usize)
}

/// The zeros before the dimension of an end.
pub(crate) fn close_zeros(params: &Params) -> usize
    ensures { result ≡ spec.item_width params.now - 6 }
{
    item_width(params).saturating_sub(6)
}

/// The lowest six bits of a number, in binary.
#[derive(Clone, Copy)]
struct SixDigits(u8);

impl Written for SixDigits {
    ghost text = { λ digits. binary_of (bits_of 6 digits.0) };

    fn write_to(&self, out: &mut List<u8>) -> Result<(), Memory> {
        let second = self.0 / 2;
        let third = second / 2;
        let fourth = third / 2;
        let fifth = fourth / 2;
        let sixth = fifth / 2;
        let digits = [
            lowest_digit(sixth),
            lowest_digit(fifth),
            lowest_digit(fourth),
            lowest_digit(third),
            lowest_digit(second),
            lowest_digit(self.0),
        ];
        out.extend_from_slice(digits.as_slice())
    }
}

impl Counted for SixDigits {
    fn count(&self) -> u64 {
        6
    }
}

/// The digit of the lowest bit of a number.
fn lowest_digit(number: u8) -> u8
    ensures { result ≡ binary.binary_digit (eqb (number % 2) 1) }
{
    if number % 2 == 1 { b'1' } else { b'0' }
}
