//! The words of a line.

ghost use Rattle.std.specs.Prelude.{◌≡◌, ◌≤◌, List, ℕ, Result};
ghost use Rattle.std.specs.List.{list_all};
ghost use Rattle.tydi_base.specs.Binary.{is_binary_digit};
ghost use Rattle.tydi_base.specs.Pieces.{words_of};
ghost use Rattle.tydi_base.specs.Reading.{Gives};
ghost use Rattle.plan_text.specs.Faults.{fault_in};
ghost use Rattle.plan_text.specs.Words as spec;
ghost use Rattle.plan_text.specs.Words.{DoesRead};
ghost use Rattle.plan_text.specs.declared.fault.PlanFault.{PlanFault};

use crate::fault::PlanFault;
use crate::plan::Wish;
use physical_stream::all_lanes;
use std::alloc::Global;
use tydi_base::{
    Bits, BitsFault, List, Place, SPACE, digit_value, first_piece, hex_number, read_decimal,
};

/// The most cycles of a gap.
const MOST_GAP: u64 = 1_000_000;

/// The digit of a bit that is 1.
const ONE: u8 = b'1';

/// The most digits of a mask.
const MOST_MASK_DIGITS: usize = 32;

/// The values that a reader gives of the words of a text, which has one space between each two.
fn each_word<T: Drop, F: Fn(&[u8]) -> Result<T, PlanFault>>(
    alloc: Global,
    text: &[u8],
    read: F,
) -> Result<List<T>, PlanFault>
    requires { F.IsAlwaysCallable read }
    ensures { (reader : List ℕ → Result T PlanFault) → DoesRead F.Fn read reader → Gives fault_in (λ found. found) result (spec.each reader (words_of text.now)) }
{
    let mut found = List::new(alloc);
    let mut rest = text;
    'words: while let Some((word, after)) = first_piece(rest, SPACE) {
        found.push(read(word)?)?;
        rest = after;
    }
    found.push(read(rest)?)?;
    Ok(found)
}

/// The gap that a word spells.
fn gap_of(place: Place, word: &[u8]) -> Result<u32, PlanFault>
    ensures { Gives fault_in (λ gap. gap) result (spec.gap_of place word.now) }
{
    let Some(gap) = read_decimal(word) else {
        return Err(PlanFault::Syntax(place));
    };
    if gap > MOST_GAP {
        return Err(PlanFault::Syntax(place));
    }
    Ok(gap as u32)
}

/// The gaps that the words of a line spell.
pub(crate) fn gaps_of(alloc: Global, place: Place, text: &[u8]) -> Result<List<u32>, PlanFault>
    ensures { Gives fault_in (λ gaps. gaps) result (spec.each (spec.gap_of place) (words_of text.now)) }
{
    each_word(
        alloc,
        text,
        |word: &[u8]| -> Result<u32, PlanFault>
            ensures { Gives fault_in (λ gap. gap) result (spec.gap_of place word.now) }
        { gap_of(place, word) },
    )
}

/// Whether a word is digits of bits, one at least.
fn are_bits(word: &[u8]) -> bool
    ensures { result ≡ spec.are_bits word.now }
{
    !word.is_empty() && are_binary_digits(word)
}

/// Whether each of these bytes is `0` or `1`.
fn are_binary_digits(bytes: &[u8]) -> bool
    ensures { result ≡ list_all is_binary_digit bytes.now }
{
    bytes.iter().all(|byte| (*byte == b'0') | (*byte == ONE))
}

/// The ready bits of so many cycles that a word spells.
#[tactic(auto, unfolding(crate::specs::Words::ready_of))]
pub(crate) fn ready_of(
    alloc: Global,
    place: Place,
    cycles: u32,
    word: &[u8],
) -> Result<List<bool>, PlanFault>
    ensures { Gives fault_in (λ ready. ready) result (spec.ready_of place cycles word.now) }
{
    if !are_bits(word) {
        return Err(PlanFault::Syntax(place));
    }
    if word.len() != cycles as usize {
        return Err(PlanFault::ReadyLength(place));
    }
    let mut ready = List::with_capacity(alloc, word.len())?;
    'digits: for digit in word {
        ready.push(*digit == ONE)?;
    }
    Ok(ready)
}

/// A word without this end, and whether it had it.
fn without_end<'a>(end: &[u8], word: &'a [u8]) -> (&'a [u8], bool)
    ensures { (result.0.now, result.1) ≡ spec.without_end end.now word.now }
{
    if word.ends_with(end) {
        (&word[..word.len() - end.len()], true)
    } else {
        (word, false)
    }
}

/// The mask that digits spell.
#[tactic(auto, unfolding(crate::specs::Words::mask_of))]
fn mask_of(digits: &[u8]) -> Option<u128>
    ensures { result ≡ spec.mask_of digits.now }
{
    if digits.is_empty() || digits.len() > MOST_MASK_DIGITS {
        return None;
    }
    hex_number(digits)
}

/// The wish that a word spells.
#[tactic(auto, unfolding(crate::specs::Words::wish_of, crate::specs::Words::wish_with))]
fn wish_of(place: Place, word: &[u8]) -> Result<Wish, PlanFault>
    ensures { Gives fault_in (λ wish. wish) result (spec.wish_of place word.now) }
{
    let (front, laned) = without_end(b"+laned", word);
    let (digits, late) = without_end(b"+late", front);
    match mask_of(digits) {
        Some(mask) => Ok(Wish { mask, late, laned }),
        None => Err(PlanFault::Syntax(place)),
    }
}

/// Whether the mask of a wish has no one at or above so many lanes.
fn fits_lanes(lanes: u16, wish: &Wish) -> bool
    requires { lanes ≤ 128 }
    ensures { result ≡ spec.fits_lanes lanes wish.now }
{
    wish.mask <= all_lanes(lanes)
}

/// Whether the masks of all these wishes have no one at or above so many lanes.
fn are_fitting(lanes: u16, wishes: &[Wish]) -> bool
    requires { lanes ≤ 128 }
    ensures { result ≡ list_all (spec.fits_lanes lanes) wishes.now }
{
    'wishes: for wish in wishes {
        if !fits_lanes(lanes, wish) {
            return false;
        }
    }
    true
}

/// The wishes that the words of a line spell, for a stream of so many lanes.
#[tactic(auto, unfolding(crate::specs::Words::wishes_of))]
pub(crate) fn wishes_of(
    alloc: Global,
    place: Place,
    lanes: u16,
    text: &[u8],
) -> Result<List<Wish>, PlanFault>
    requires { lanes ≤ 128 }
    ensures { Gives fault_in (λ wishes. wishes) result (spec.wishes_of place lanes (words_of text.now)) }
{
    let wishes = each_word(
        alloc,
        text,
        |word: &[u8]| -> Result<Wish, PlanFault>
            ensures { Gives fault_in (λ wish. wish) result (spec.wish_of place word.now) }
        { wish_of(place, word) },
    )?;
    if are_fitting(lanes, wishes.as_slice()) {
        Ok(wishes)
    } else {
        Err(PlanFault::MaskTooWide(place))
    }
}

/// Whether a word is hexadecimal digits, one at least.
fn is_hex(word: &[u8]) -> bool
    ensures { result ≡ spec.is_hex word.now }
{
    !word.is_empty() && are_hex_digits(word)
}

/// Whether each of these bytes is a hexadecimal digit.
fn are_hex_digits(bytes: &[u8]) -> bool
    ensures { result ≡ list_all spec.is_hex_digit bytes.now }
{
    bytes.iter().all(|byte| digit_value(*byte).is_some())
}

/// Whether each word of a text is hexadecimal digits.
fn are_hex(text: &[u8]) -> bool
    ensures { result ≡ list_all spec.is_hex (words_of text.now) }
{
    let mut rest = text;
    'words: while let Some((word, after)) = first_piece(rest, SPACE) {
        if !is_hex(word) {
            return false;
        }
        rest = after;
    }
    is_hex(rest)
}

/// The user word of this width that a word spells.
fn user_of(alloc: Global, place: Place, width: u32, word: &[u8]) -> Result<Bits, PlanFault>
    ensures { Gives fault_in (λ user. user) result (spec.user_of place width word.now) }
{
    match Bits::from_hex(alloc, width as usize, word) {
        Ok(user) => Ok(user),
        Err(BitsFault::NotHex(_)) => Err(PlanFault::Syntax(place)),
        Err(BitsFault::TooWide(_)) => Err(PlanFault::UserTooWide(place)),
        Err(BitsFault::Memory) => Err(PlanFault::Memory),
    }
}

/// The user words that the words of a line spell, for a stream of this user width.
#[tactic(auto, unfolding(crate::specs::Words::users_of))]
pub(crate) fn users_of(
    alloc: Global,
    place: Place,
    width: u32,
    text: &[u8],
) -> Result<List<Bits>, PlanFault>
    ensures { Gives fault_in (λ users. users) result (spec.users_of place width (words_of text.now)) }
{
    if !are_hex(text) {
        return Err(PlanFault::Syntax(place));
    }
    each_word(
        alloc,
        text,
        |word: &[u8]| -> Result<Bits, PlanFault>
            ensures { Gives fault_in (λ user. user) result (spec.user_of place width word.now) }
        { user_of(alloc, place, width, word) },
    )
}
