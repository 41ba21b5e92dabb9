//! Levels, wide numbers and words in binary, by values worked out by hand.

use std::alloc::Global;
use tydi_base::{
    Bits, Level, List, Memory, emit, read_padded_decimal, read_wide_decimal, write_wide_decimal,
};

/// Two texts of levels: the text of the first and its first number, and where it stands in their order.
pub(crate) const LEVELS: &[(&str, &str, &str)] = &[
    ("4.10", "4.9", "4.10 4 above"),
    ("4.9", "4.10", "4.9 4 at most"),
    ("4", "4", "4 4 at most"),
    ("4", "4.0.0.1", "4 4 at most"),
    ("4.1", "4.0.255.255", "4.1 4 above"),
    ("3.255.255.255", "4", "3.255.255.255 3 at most"),
    ("8.0.0.7", "1", "8.0.0.7 8 above"),
    ("4.0", "4", "none"),
    ("4.1.0", "4", "none"),
    ("4.01", "4", "none"),
    ("04", "4", "none"),
    ("4.", "4", "none"),
    (".4", "4", "none"),
    ("", "4", "none"),
    ("0.1", "4", "none"),
    ("9", "4", "none"),
    ("4.256", "4", "none"),
    ("4.1.2.3.4", "4", "none"),
];

/// Digits: their number where they have no leading zero, and where they may have some.
pub(crate) const WIDE_NUMBERS: &[(&str, &str, &str)] = &[
    ("0", "", "0 or 0"),
    ("000", "", "none or 0"),
    ("0042", "", "none or 42"),
    (
        "18446744073709551616",
        "",
        "18446744073709551616 or 18446744073709551616",
    ),
    (
        "340282366920938463463374607431768211455",
        "",
        "340282366920938463463374607431768211455 or 340282366920938463463374607431768211455",
    ),
    (
        "340282366920938463463374607431768211456",
        "",
        "none or none",
    ),
    ("1a", "", "none or none"),
    ("", "", "none or none"),
];

/// Digits of a word, and a width: the word in hexadecimal and in binary, where it has this width.
pub(crate) const BINARY: &[(&str, &str, &str)] = &[
    ("", "0", " "),
    ("1", "1", "1 1"),
    ("0010110", "7", "16 0010110"),
    ("100000001", "9", "101 100000001"),
    ("101", "4", "none"),
    ("10201", "5", "none"),
];

pub(crate) fn level(
    alloc: Global,
    first: &str,
    second: &str,
    out: &mut List<u8>,
) -> Result<(), Memory> {
    let Some(level) = Level::read(first.as_bytes()) else {
        return emit!(out; "none");
    };
    let Some(other) = Level::read(second.as_bytes()) else {
        return Err(Memory);
    };
    if Level::dotted(level.numbers()) != Some(level) {
        return Err(Memory);
    }
    level.write(alloc, out)?;
    let order = if level.at_most(other) {
        " at most"
    } else {
        " above"
    };
    emit!(out; " ", level.number(), order)
}

fn wide_number(number: Option<u128>, out: &mut List<u8>) -> Result<(), Memory> {
    match number {
        Some(number) => write_wide_decimal(number, out),
        None => emit!(out; "none"),
    }
}

pub(crate) fn wide_numbers(digits: &str, out: &mut List<u8>) -> Result<(), Memory> {
    wide_number(read_wide_decimal(digits.as_bytes()), out)?;
    emit!(out; " or ")?;
    wide_number(read_padded_decimal(digits.as_bytes()), out)
}

pub(crate) fn binary(
    alloc: Global,
    digits: &str,
    width: &str,
    out: &mut List<u8>,
) -> Result<(), Memory> {
    let width = crate::calls::number(width) as usize;
    match Bits::from_exact_binary(alloc, width, digits.as_bytes())? {
        Some(word) => {
            word.write_hex(alloc, out)?;
            emit!(out; " ")?;
            word.write_binary(alloc, out)
        }
        None => emit!(out; "none"),
    }
}
