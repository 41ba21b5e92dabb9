//! Constants of assignments, and numbers of edges.

ghost use Rattle.std.specs.Prelude.{◌≡◌, IfOk, false, option_map};
ghost use Rattle.std.specs.Option.{option_map_or};
ghost use Rattle.tydi_base.specs.Pieces.{words_of};
ghost use Rattle.std.specs.List.{list_all};
ghost use Rattle.tydi_base.specs.Binary.{is_binary_digit};
ghost use Rattle.physical_stream.specs.StreamLine.{header_number};
ghost use Rattle.vhdl_text.specs.Lines as spec;

use crate::cuts::{between, is_same};
use physical_stream::header_number;
use std::alloc::Global;
use tydi_base::{Bits, Memory, SPACE, first_piece};

/// The mark around the constant of one bit.
const APOSTROPHE: u8 = b'\'';

/// The mark around the constant of a vector.
const QUOTATION_MARK: u8 = b'"';

/// The digits of a constant between such marks, with the assignment before it and the end of the statement after it.
#[tactic(auto, unfolding(crate::specs::Lines::digits_of))]
fn digits_of(mark: u8, text: &[u8]) -> Option<&[u8]>
    ensures { option_map (λ digits. digits.now) result ≡ spec.digits_of mark text.now }
{
    let parts = between(text, mark)?;
    if parts.front == b" <= ".as_slice() && parts.back == b";".as_slice() {
        Some(parts.inside)
    } else {
        None
    }
}

/// The word of this width that a constant between such marks spells.
#[tactic(auto, unfolding(crate::specs::Lines::constant_at))]
pub(crate) fn constant_at(
    alloc: Global,
    mark: u8,
    width: usize,
    text: &[u8],
) -> Result<Option<Bits>, Memory>
    ensures { IfOk result (λ found. found ≡ spec.constant_at mark width text.now) }
{
    match digits_of(mark, text) {
        Some(digits) => Bits::from_exact_binary(alloc, width, digits),
        None => Ok(None),
    }
}

/// Whether it is an assignment of some constant.
#[tactic(auto, unfolding(crate::specs::Lines::is_constant))]
pub(crate) fn is_constant(text: &[u8]) -> bool
    ensures { result ≡ spec.is_constant text.now }
{
    is_bit(digits_of(APOSTROPHE, text)) || is_vector(digits_of(QUOTATION_MARK, text))
}

/// Whether digits are one binary digit.
fn is_bit(digits: Option<&[u8]>) -> bool
    ensures { result ≡ option_map_or spec.is_bit (option_map (λ digits. digits.now) digits.entry) false }
{
    match digits {
        Some(digits) => are_binary(digits) && digits.len() == 1,
        None => false,
    }
}

/// Whether digits are binary digits, one at least.
fn is_vector(digits: Option<&[u8]>) -> bool
    ensures { result ≡ option_map_or spec.is_vector (option_map (λ digits. digits.now) digits.entry) false }
{
    match digits {
        Some(digits) => are_binary(digits) && digits.len() > 0,
        None => false,
    }
}

/// Whether each of these bytes is `0` or `1`.
fn are_binary(bytes: &[u8]) -> bool
    ensures { result ≡ list_all is_binary_digit bytes.now }
{
    bytes.iter().all(|byte| (*byte == b'0') | (*byte == b'1'))
}

/// The number of edges of the pause of which this line is the first.
#[tactic(auto, unfolding(crate::specs::Lines::edges_of))]
pub(crate) fn edges_of(line: &[u8]) -> Option<u32>
    ensures { result ≡ spec.edges_of line.now }
{
    if !line.starts_with(b"    for i in 1 to ") {
        return None;
    }
    edges_before(&line[18..])
}

/// A number of edges, and the word after it.
fn edges_before(text: &[u8]) -> Option<u32>
    ensures { result ≡ spec.edges_before (words_of text.now) }
{
    let (digits, word) = first_piece(text, SPACE)?;
    if is_same(word, b"loop") {
        edges_in(digits)
    } else {
        None
    }
}

/// The number of edges that these digits spell, from 1 to 1,000,000.
fn edges_in(digits: &[u8]) -> Option<u32>
    ensures { result ≡ spec.edges_in (header_number digits.now) }
{
    match header_number(digits) {
        Ok(edges) if edges >= 1 && edges <= 1_000_000 => Some(edges as u32),
        _ => None,
    }
}
