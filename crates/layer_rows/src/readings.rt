//! Readers and writers of texts. The answers come from the rules in plain words.

use std::alloc::Global;
use tydi_base::{
    Colons, Each, LINE_FEED, List, Memory, Name, Path, SPACE, TryClone, emit, first_piece,
    read_decimal,
};

/// Digits: their number.
pub(crate) const DECIMALS: &[(&str, &str, &str)] = &[
    ("0", "", "0"),
    ("10", "", "10"),
    ("18446744073709551615", "", "18446744073709551615"),
    ("18446744073709551616", "", "none"),
    ("00", "", "none"),
    ("", "", "none"),
    ("1a", "", "none"),
];

/// A separator and a text: the first piece of the text, and the rest after the separator.
pub(crate) const PIECES: &[(&str, &str, &str)] = &[
    ("space", "  b", "()( b)"),
    ("line", "a\n", "(a)()"),
    ("space", "ab", "none"),
];

/// Texts: the name that each spells.
pub(crate) const NAMES: &[(&str, &str, &str)] = &[
    ("a", "", "a"),
    ("a_b", "", "a_b"),
    ("nul", "", "nul"),
    ("Z9", "", "Z9"),
    ("streaM", "", "streaM"),
    ("_a", "", "none"),
    ("a__b", "", "none"),
    ("a_", "", "none"),
    ("", "", "none"),
    ("9", "", "none"),
    ("Null", "", "none"),
    ("Bits", "", "none"),
    ("Group", "", "none"),
    ("Union", "", "none"),
    ("Stream", "", "none"),
    ("a-b", "", "none"),
];

/// The separator between names and a text: the path that the text spells.
pub(crate) const PATHS: &[(&str, &str, &str)] = &[
    (".", "-", "-"),
    (".", "a.b_c.d", "a.b_c.d"),
    ("::", "a::b", "a::b"),
    (".", "", "none"),
    (".", "a..b", "none"),
    (".", "a.", "none"),
    (".", "-.a", "none"),
    (".", "a::b", "none"),
    ("::", "-", "none"),
    ("::", "a:b", "none"),
    ("::", "a::", "none"),
    ("::", "a:::b", "none"),
    ("::", "a.b", "none"),
];

/// Two paths: whether a copy of the first is the same, and whether that stands above the second.
pub(crate) const COMPARED: &[(&str, &str, &str)] = &[
    ("a.b", "a.a", "same above"),
    ("a.b", "a.c", "same below"),
];

/// A path: a text of several parts.
pub(crate) const WRITTEN: &[(&str, &str, &str)] = &[("a.b_c", "", "at 7 of a.b_c or a::b_cab_c")];

pub(crate) fn decimal(digits: &str, out: &mut List<u8>) -> Result<(), Memory> {
    match read_decimal(digits.as_bytes()) {
        Some(number) => emit!(out; number),
        None => emit!(out; "none"),
    }
}

pub(crate) fn piece(separator: &str, text: &str, out: &mut List<u8>) -> Result<(), Memory> {
    let separator = if separator == "space" {
        SPACE
    } else {
        LINE_FEED
    };
    match first_piece(text.as_bytes(), separator) {
        Some((front, after)) => emit!(out; "(", front, ")(", after, ")"),
        None => emit!(out; "none"),
    }
}

pub(crate) fn name(alloc: Global, text: &str, out: &mut List<u8>) -> Result<(), Memory> {
    match Name::read(alloc, text.as_bytes())? {
        Some(name) => emit!(out; &name),
        None => emit!(out; "none"),
    }
}

pub(crate) fn path(
    alloc: Global,
    between: &str,
    text: &str,
    out: &mut List<u8>,
) -> Result<(), Memory> {
    let colons = between == "::";
    match Path::read(alloc, text.as_bytes(), colons)? {
        Some(path) => path.write(colons, out),
        None => emit!(out; "none"),
    }
}

// The path of names with points between them, or the empty path.
fn dotted(alloc: Global, text: &str) -> Result<Path, Memory> {
    match Path::read_dotted(alloc, text.as_bytes())? {
        Some(path) => Ok(path),
        None => Err(Memory),
    }
}

fn is_copied(alloc: Global, path: &Path) -> Result<bool, Memory> {
    Ok(path.try_clone(alloc)? == *path)
}

pub(crate) fn compared(
    alloc: Global,
    first: &str,
    second: &str,
    out: &mut List<u8>,
) -> Result<(), Memory> {
    let first = dotted(alloc, first)?;
    write_compared(alloc, &first, &dotted(alloc, second)?, out)
}

fn write_compared(
    alloc: Global,
    first: &Path,
    second: &Path,
    out: &mut List<u8>,
) -> Result<(), Memory> {
    let copied = if is_copied(alloc, first)? {
        "same"
    } else {
        "other"
    };
    let order = if *second < *first { " above" } else { " below" };
    emit!(out; copied, order)
}

pub(crate) fn written(alloc: Global, text: &str, out: &mut List<u8>) -> Result<(), Memory> {
    write_parts(&dotted(alloc, text)?, out)
}

fn write_parts(path: &Path, out: &mut List<u8>) -> Result<(), Memory> {
    emit!(out; "at ", Some(7u16), " of ", path, " or ", Colons(path), Each(path.names()), None::<u8>)
}
