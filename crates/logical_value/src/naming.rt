//! Whether the tags of a word name variants.

ghost use Rattle.std.specs.Prelude.{◌≡◌, ◌↔◌, ◌+◌, ◌-◌, ◌≤◌, length, take, drop, IsTrue};
ghost use Rattle.tydi_base.specs.Bits.{number_of_bits};
ghost use Rattle.logical_types.specs.Faults.{IsPlain};
ghost use Rattle.logical_types.specs.Tree.{bits, plain, plain_parts, union};
ghost use Rattle.logical_types.specs.Width.{width_of};
ghost use Rattle.logical_value.specs.Agreement as spec;
ghost use Rattle.logical_value.specs.Agreement.{StandsForSome};
ghost use Rattle.logical_value.specs.Naming.{NamesVariant, PassesFields, PassesType};

use crate::place::end_of;
use logical_types::{LType, Part, union_width};
use tydi_base::{Bits, index_width};

/// Whether each tag that is read of this word of an element names a variant, so whether the word stands for some value. Tags in a
/// variant that is not selected are not read. It takes no memory. The layout of a Union is this project's own.
pub fn names_variants(ltype: &LType, word: &Bits) -> bool
    requires plain { IsPlain (plain ltype.now) }
    requires width { length word.now ≡ width_of (plain ltype.now) }
    ensures named { result ≡ spec.names_variants (plain ltype.now) word.now }
    ensures some { IsTrue result ↔ StandsForSome (plain ltype.now) word.now }
{
    past_type(word, 0, ltype).is_some()
}

/// The place behind the bits of a type, which begin at this place. None exactly where a tag in them names no variant.
#[cycle(naming)]
fn past_type(word: &Bits, offset: usize, ltype: &LType) -> Option<usize>
    ensures { PassesType word.now offset (plain ltype.now) result }
{
    match ltype {
        LType::Null => Some(offset),
        LType::Bits(width) => past_bits(word, offset, *width),
        LType::Group(parts) => past_fields(word, offset, parts.as_slice()),
        LType::Union(parts) => past_union(word, offset, parts.as_slice()),
        LType::Stream(_) => Some(offset),
    }
}

/// The place behind the bits of these fields, one after another.
#[cycle(naming)]
fn past_fields(word: &Bits, offset: usize, parts: &[Part]) -> Option<usize>
    ensures { PassesFields word.now offset (plain_parts parts.now) result }
{
    let mut end = offset;
    'parts: for part in parts {
        end = past_type(word, end, &part.ltype)?;
    }
    Some(end)
}

/// The place behind the bits of a Union of these variants.
#[cycle(naming)]
fn past_union(word: &Bits, offset: usize, parts: &[Part]) -> Option<usize>
    ensures { PassesType word.now offset (union (plain_parts parts.now)) result }
{
    let width = index_width(parts.len() as u64);
    let begin = end_of(offset, width as usize, word.len())?;
    let tag = number_between(word, offset, begin);
    if !names_variant(word, begin, parts, tag) {
        return None;
    }
    end_of(offset, union_width(parts) as usize, word.len())
}

/// Whether there is a variant of this number, and each tag in it names a variant.
#[cycle(naming)]
fn names_variant(word: &Bits, offset: usize, parts: &[Part], tag: u64) -> bool
    ensures { NamesVariant word.now offset (plain_parts parts.now) tag result }
{
    let mut left = tag;
    'parts: for part in parts {
        if left == 0 {
            return past_type(word, offset, &part.ltype).is_some();
        }
        left -= 1;
    }
    false
}

/// The place behind the bits of a Bits.
fn past_bits(word: &Bits, offset: usize, width: u64) -> Option<usize>
    ensures { PassesType word.now offset (bits width) result }
{
    let count = usize::try_from(width).unwrap_or(usize::MAX);
    end_of(offset, count, word.len())
}

/// The number that the bits from one place up to another spell.
fn number_between(word: &Bits, from: usize, to: usize) -> u64
    requires order { from ≤ to }
    requires within { to ≤ length word.now }
    requires few { to ≤ from + 64 }
    ensures { result ≡ number_of_bits (take (to - from) (drop from word.now)) }
{
    let mut number: u64 = 0;
    let mut at = to;
    'bits: while at > from {
        at -= 1;
        number = 2 * number + u64::from(word.get(at));
    }
    number
}
