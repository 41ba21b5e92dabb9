//! The items of transfers, worked out by hand, and copies.

use crate::calls::{cut, number, small};
use crate::nests::write_items;
use physical_stream::*;
use std::alloc::Global;
use tydi_base::{Level, List, Memory, Path, TryClone, emit};

/// The content of a transfer of two lanes of four bits and two dimensions with its last bits, and the first lane, the last and the
/// strobes: the items that it carries. A digit is an element, and a Close of dimension 0 is `0` and so on.
pub(crate) const ITEMS: &[(&str, &str, &str)] = &[
    ("ab 0", "0 1 0", ""),
    ("ab 0", "0 1 3", "ba"),
    ("ab c", "0 1 2", "a01"),
    ("ab 2", "0 1 3", "b1a"),
    ("ab 5", "1 1 3", "0a0"),
];

/// A number of lanes: one more than the greatest index of so many, to a power of two.
pub(crate) const LIMITS: &[(&str, &str, &str)] = &[
    ("1", "", "1"),
    ("2", "", "2"),
    ("3", "", "4"),
    ("4", "", "4"),
    ("5", "", "8"),
    ("127", "", "128"),
    ("128", "", "128"),
];

/// The kind of value that is copied: whether the copy is the same.
pub(crate) const COPIES: &[(&str, &str, &str)] = &[
    ("transfer", "", "same"),
    ("head", "", "same"),
    ("header", "", "same"),
];

/// A stream of so many lanes and dimensions, at a level, whose elements have four bits.
pub(crate) fn params_of(lanes: u16, dims: u8, level: u8) -> Result<Params, Memory> {
    let Some(level) = Level::new(level) else {
        return Err(Memory);
    };
    match Params::new(lanes, dims, level, 4, 0) {
        Some(params) => Ok(params),
        None => Err(Memory),
    }
}

// Sets the lanes of a transfer that are spelled.
fn set_lanes(transfer: &mut Transfer, lanes: &str) {
    let (stai, rest) = cut(lanes);
    let (endi, strb) = cut(rest);
    transfer.stai = small(stai);
    transfer.endi = small(endi);
    transfer.strb = u128::from(number(strb));
}

pub(crate) fn items(
    alloc: Global,
    words: &str,
    lanes: &str,
    out: &mut List<u8>,
) -> Result<(), Memory> {
    let params = params_of(2, 2, 8)?;
    let (content, last) = cut(words);
    let mut transfer = Transfer::zero(alloc, &params)?;
    transfer.content.read_exact_hex(content.as_bytes());
    transfer.last.read_exact_hex(last.as_bytes());
    set_lanes(&mut transfer, lanes);
    if !transfer.fits(&params) {
        return emit!(out; "no transfer");
    }
    write_items(items_of(alloc, &params, &transfer)?.as_slice(), out)
}

pub(crate) fn limit(lanes: &str, out: &mut List<u8>) -> Result<(), Memory> {
    emit!(out; index_limit(small(lanes)))
}

pub(crate) fn copied(alloc: Global, what: &str, out: &mut List<u8>) -> Result<(), Memory> {
    let is_same = if what == "transfer" {
        is_transfer_copied(alloc)?
    } else if what == "head" {
        is_head_copied(alloc)?
    } else {
        is_header_copied(alloc)?
    };
    emit!(out; if is_same { "same" } else { "other" })
}

// Whether a copy of the transfer of a stream that is zero is the same.
fn is_transfer_copied(alloc: Global) -> Result<bool, Memory> {
    let zero = Transfer::zero(alloc, &params_of(2, 2, 8)?)?;
    Ok(zero.try_clone(alloc)?.equals(&zero))
}

// Whether a copy of a header without streams is the same.
fn is_header_copied(alloc: Global) -> Result<bool, Memory> {
    let header = Header {
        cycles: 7,
        heads: List::new(alloc),
    };
    Ok(header.try_clone(alloc)? == header)
}

// Whether a copy of the head of a stream is the same.
fn is_head_copied(alloc: Global) -> Result<bool, Memory> {
    let head = Head {
        path: Path::new(alloc),
        params: params_of(2, 2, 8)?,
        reversed: true,
    };
    Ok(head.try_clone(alloc)? == head)
}
