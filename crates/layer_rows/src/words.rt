//! Words of bits, by values worked out by hand.

use crate::calls::{cut, number};
use std::alloc::Global;
use tydi_base::{Bits, BitsFault, Hex, List, Memory, TryClone, emit, index_width};

/// A width and digits: how many ones stand in the word of this width that they spell, read into a word that is there, and in one
/// that is made.
pub(crate) const ONES: &[(&str, &str, &str)] = &[
    ("0", "", "0 0"),
    ("0", "0", "none"),
    ("1", "2", "none"),
    ("4", "f", "4 4"),
    ("4", "F", "none"),
    ("7", "8f", "none"),
    ("8", "0a5", "none"),
    ("8", "a:", "none"),
    ("9", "1a5", "5 5"),
    ("130", "300112233445566778899aabbccddeeff", "66 66"),
    ("130", "400112233445566778899aabbccddeeff", "none"),
    ("130", "300112233445566778899aabbccddee`f", "none"),
];

/// A width and digits: the word of as many bits or fewer, or why there is none.
pub(crate) const DIGITS: &[(&str, &str, &str)] = &[
    ("5", "20", "TooWide 5"),
    ("2", "0c0", "TooWide 7"),
    ("1", "20F", "NotHex 2"),
    ("5", "0013", "13"),
];

/// A width and a number: its word.
pub(crate) const NUMBERS: &[(&str, &str, &str)] = &[
    ("4", "16", "none"),
    ("9", "421", "1a5"),
    ("4", "15", "f"),
];

/// Two words: the second above the first, whether a copy is the same, and its bits from 4 up to 12 as digits and as a number.
pub(crate) const JOINED: &[(&str, &str, &str)] = &[("5 13", "9 1a5", "34b3 same 4b 75")];

/// The place of a word of four bits, and its digit: six bits from the place before it on of twenty ones that it was written into, with
/// the lowest of these turned off.
pub(crate) const OVERWRITTEN: &[(&str, &str, &str)] = &[("6", "9", "32"), ("12", "0", "20")];

/// A count: how many bits number so many things.
pub(crate) const WIDTHS: &[(&str, &str, &str)] = &[
    ("0", "", "0"),
    ("1", "", "0"),
    ("2", "", "1"),
    ("3", "", "2"),
    ("4", "", "2"),
    ("5", "", "3"),
    ("18446744073709551615", "", "64"),
];

// How many ones stand in a word.
fn count_ones(word: &Bits) -> u32 {
    let mut count = 0u32;
    for index in 0..word.len() {
        count = count.saturating_add(u32::from(word.get(index)));
    }
    count
}

pub(crate) fn ones(
    alloc: Global,
    width: &str,
    digits: &str,
    out: &mut List<u8>,
) -> Result<(), Memory> {
    let width = number(width) as usize;
    let read = ones_of_read(alloc, width, digits.as_bytes())?;
    let made = ones_of_made(alloc, width, digits.as_bytes())?;
    match read {
        Some(count) => emit!(out; count, " ", made),
        None => emit!(out; "none", made),
    }
}

// The ones of a word that is there, after digits were read into it.
fn ones_of_read(alloc: Global, width: usize, digits: &[u8]) -> Result<Option<u32>, Memory> {
    let mut word = Bits::zeros(alloc, width)?;
    if word.read_exact_hex(digits) {
        Ok(Some(count_ones(&word)))
    } else {
        Ok(None)
    }
}

// The same of a word that is made.
fn ones_of_made(alloc: Global, width: usize, digits: &[u8]) -> Result<Option<u32>, Memory> {
    match Bits::from_exact_hex(alloc, width, digits)? {
        Some(word) => Ok(Some(count_ones(&word))),
        None => Ok(None),
    }
}

pub(crate) fn digits(
    alloc: Global,
    width: &str,
    digits: &str,
    out: &mut List<u8>,
) -> Result<(), Memory> {
    match Bits::from_hex(alloc, number(width) as usize, digits.as_bytes()) {
        Ok(word) => emit!(out; Hex(&word)),
        Err(BitsFault::TooWide(bits)) => emit!(out; "TooWide ", bits),
        Err(BitsFault::NotHex(index)) => emit!(out; "NotHex ", index),
        Err(BitsFault::Memory) => Err(Memory),
    }
}

pub(crate) fn numbered(
    alloc: Global,
    width: &str,
    digits: &str,
    out: &mut List<u8>,
) -> Result<(), Memory> {
    match Bits::from_number(alloc, number(width) as usize, u128::from(number(digits)))? {
        Some(word) => emit!(out; Hex(&word)),
        None => emit!(out; "none"),
    }
}

/// The word of a width and digits.
pub(crate) fn word_of(alloc: Global, spelled: &str) -> Result<Bits, Memory> {
    let (width, digits) = cut(spelled);
    match Bits::from_exact_hex(alloc, number(width) as usize, digits.as_bytes())? {
        Some(word) => Ok(word),
        None => Err(Memory),
    }
}

pub(crate) fn joined(
    alloc: Global,
    first: &str,
    second: &str,
    out: &mut List<u8>,
) -> Result<(), Memory> {
    let mut word = word_of(alloc, first)?;
    append_spelled(alloc, &mut word, second)?;
    write_joined(alloc, &word, out)
}

fn append_spelled(alloc: Global, word: &mut Bits, spelled: &str) -> Result<(), Memory> {
    word.append(alloc, &word_of(alloc, spelled)?)
}

fn is_copied(alloc: Global, word: &Bits) -> Result<bool, Memory> {
    Ok(word.try_clone(alloc)? == *word)
}

fn write_joined(alloc: Global, word: &Bits, out: &mut List<u8>) -> Result<(), Memory> {
    let is_same = is_copied(alloc, word)?;
    emit!(out; Hex(word), if is_same { " same " } else { " other " })?;
    write_part(alloc, word, out)
}

fn write_part(alloc: Global, word: &Bits, out: &mut List<u8>) -> Result<(), Memory> {
    if word.len() < 12 {
        return Ok(());
    }
    let part = word.slice(alloc, 4, 12)?;
    emit!(out; Hex(&part), " ", low_number(&part))
}

// The lowest bits of the number of a word.
fn low_number(word: &Bits) -> Option<u64> {
    match word.number() {
        Some(number) => Some((number % 65536) as u64),
        None => None,
    }
}

pub(crate) fn overwritten(
    alloc: Global,
    place: &str,
    digits: &str,
    out: &mut List<u8>,
) -> Result<(), Memory> {
    let mut wide = word_of(alloc, "20 fffff")?;
    let place = number(place) as usize;
    overwrite(alloc, &mut wide, place, digits)?;
    write_six(alloc, &wide, place.saturating_sub(1), out)
}

fn overwrite(alloc: Global, wide: &mut Bits, place: usize, digits: &str) -> Result<(), Memory> {
    let mut word = Bits::zeros(alloc, 4)?;
    word.read_exact_hex(digits.as_bytes());
    if place < 16 && wide.len() == 20 && word.len() == 4 {
        wide.put_word(place, &word);
    }
    Ok(())
}

// Six bits from a place on, with the lowest turned off.
fn write_six(alloc: Global, word: &Bits, from: usize, out: &mut List<u8>) -> Result<(), Memory> {
    let mut part = Bits::zeros(alloc, 6)?;
    if part.len() == 6 && from < 14 && word.len() == 20 {
        part.copy_part(word, from);
        part.put(0, false);
    }
    emit!(out; Hex(&part))
}

pub(crate) fn width(count: &str, out: &mut List<u8>) -> Result<(), Memory> {
    emit!(out; index_width(number(count)))
}
