//! Nests and their flat forms, by a table found by hand.

ghost use Rattle.std.specs.Prelude.{ℕ, IfOk, IfSome};
ghost use Rattle.std.specs.List.{All};
ghost use Rattle.nest_shape.specs.Flat.{IsSeries};
ghost use Rattle.nest_shape.specs.Shape.{ClosesBelow};

use crate::calls::byte;
use nest_shape::*;
use physical_stream::Item;
use std::alloc::Global;
use tydi_base::{Bits, Hex, List, Memory, emit};

/// Dimensions, and items: their series and its flat form, or the error. An element is a digit from `a` on, a Close of dimension 0
/// is `0` and so on; a list of a series stands in brackets.
pub(crate) const SERIES: &[(&str, &str, &str)] = &[
    ("0", "", " "),
    ("2", "", " "),
    ("0", "ab", "ab ab"),
    ("1", "0", "[] 0"),
    ("1", "00", "[][] 00"),
    ("1", "ab0", "[ab] ab0"),
    ("1", "ab00", "[ab][] ab00"),
    ("2", "011", "[[]][] 011"),
    ("2", "1", "[] 1"),
    ("2", "a0b01", "[[a][b]] a0b01"),
    ("2", "a0011", "[[a][]][] a0011"),
    ("3", "a01120", "open 1"),
    ("3", "122", "[[]][] 122"),
    (
        "32",
        "a0123456789:;<=>?@ABCDEFGHIJKLMNO",
        "[[[[[[[[[[[[[[[[[[[[[[[[[[[[[[[[a]]]]]]]]]]]]]]]]]]]]]]]]]]]]]]]] a0123456789:;<=>?@ABCDEFGHIJKLMNO",
    ),
    ("1", "a", "open 0"),
    ("2", "a0", "open 1"),
    ("2", "a01b", "open 0"),
    ("2", "a1", "bad 1"),
    ("2", "aa1a", "bad 2"),
    ("3", "a02", "bad 2"),
    ("3", "02a", "bad 1"),
    ("3", "2a2", "bad 2"),
];

// The element of this digit.
fn element_of(alloc: Global, digit: &[u8]) -> Result<Option<Item>, Memory>
    ensures { IfOk result (λ item. IfSome item (λ one. (dims : ℕ) → ClosesBelow dims one)) }
{
    match Bits::from_exact_hex(alloc, 4, digit)? {
        Some(word) => Ok(Some(Item::Elem(word))),
        None => Ok(None),
    }
}

// The item that this byte stands for, of so many dimensions.
fn item_of(alloc: Global, dims: u8, byte: u8) -> Result<Option<Item>, Memory>
    ensures { IfOk result (λ item. IfSome item (ClosesBelow dims)) }
{
    if byte >= b'a' {
        return element_of(alloc, &[byte]);
    }
    let dim = byte.saturating_sub(b'0');
    if dim < dims {
        Ok(Some(Item::Close(dim)))
    } else {
        Ok(None)
    }
}

// The items that this text stands for.
fn items_of(alloc: Global, dims: u8, text: &[u8]) -> Result<List<Item>, Memory>
    ensures { IfOk result (All (ClosesBelow dims)) }
{
    let mut items = List::new(alloc);
    'bytes: for byte in text {
        if let Some(item) = item_of(alloc, dims, *byte)? {
            items.push(item)?;
        }
    }
    Ok(items)
}

// Writes the text of a nest.
fn write_nest(nest: &Nest, out: &mut List<u8>) -> Result<(), Memory> {
    match nest {
        Nest::Leaf(word) => emit!(out; Hex(word)),
        Nest::List(parts) => {
            out.push(b'[')?;
            for part in parts.as_slice() {
                write_nest(part, out)?;
            }
            out.push(b']')
        }
    }
}

/// Writes the text of a series.
pub(crate) fn write_nests(series: &[Nest], out: &mut List<u8>) -> Result<(), Memory> {
    for nest in series {
        write_nest(nest, out)?;
    }
    Ok(())
}

/// Writes the text of items.
pub(crate) fn write_items(items: &[Item], out: &mut List<u8>) -> Result<(), Memory> {
    for item in items {
        match item {
            Item::Elem(word) => emit!(out; Hex(word))?,
            Item::Close(dim) => out.push(dim.saturating_add(b'0'))?,
        }
    }
    Ok(())
}

// Writes the text of a series, and that of its flat form.
fn write_series(alloc: Global, dims: u8, series: &[Nest], out: &mut List<u8>) -> Result<(), Memory>
    requires { IsSeries dims series.now }
{
    write_nests(series, out)?;
    emit!(out; " ")?;
    write_items(flatten(alloc, dims, series)?.as_slice(), out)
}

// Writes what is built of items, or its fault.
fn write_built(alloc: Global, dims: u8, items: &[Item], out: &mut List<u8>) -> Result<(), Memory>
    requires { All (ClosesBelow dims) items.now }
{
    match build(alloc, dims, items) {
        Ok(series) => write_series(alloc, dims, series.as_slice(), out),
        Err(NestFault::BadClose(number)) => emit!(out; "bad ", number),
        Err(NestFault::Unclosed(number)) => emit!(out; "open ", number),
        Err(NestFault::Memory) => Err(Memory),
    }
}

pub(crate) fn series(
    alloc: Global,
    dims: &str,
    text: &str,
    out: &mut List<u8>,
) -> Result<(), Memory> {
    let dims = byte(dims);
    let items = items_of(alloc, dims, text.as_bytes())?;
    write_built(alloc, dims, items.as_slice(), out)
}
