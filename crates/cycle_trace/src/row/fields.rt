//! The rows of a trace text.

ghost use Rattle.std.specs.Prelude.{◌≡◌, ◌≤◌, ◌+◌, ◌*◌, ◌/◌, ◌^◌, ℕ, length, [], ◌∷◌, Ok, false, IfErr, IfOk, IfSome, IsSome, if◌then◌else◌};
ghost use Rattle.tydi_base.specs.Pieces.{words_of};
ghost use Rattle.tydi_base.specs.Reading.{Gives};
ghost use Rattle.tydi_base.specs.WordsLeft.{words_after, words_left};
ghost use Rattle.tydi_base.specs.declared.pieces.TheConstants.{SPACE};
ghost use Rattle.physical_stream.specs.StreamLine.{not_form_in};
ghost use Rattle.cycle_trace.specs.Faults.{fault_in};
ghost use Rattle.cycle_trace.specs.RowStart.{row_start};
ghost use Rattle.cycle_trace.specs.RowText as spec;
ghost use Rattle.cycle_trace.specs.RowKept.{cycle_in, shown_in};
ghost use Rattle.cycle_trace.specs.Widths.{HasWidths};

use crate::fault::TraceFault;
use crate::row::bytes::{
    DATA_KEY, ENDI_KEY, LAST_KEY, ONE_BIT, STAI_KEY, STRB_KEY, USER_KEY, ZERO_BIT,
};
use crate::row::form::row_fault;
use crate::row::layout::{RowLayout, WordSignal};
use physical_stream::{NotForm, Params, Transfer};
use std::alloc::Global;
use tydi_base::{Bits, EQUALS, Memory, SPACE, WordsLeft, hex_number_within, read_decimal};

/// The value of the first word, which is this key, `=` and the value; and the words after it.
#[cold]
#[inline(never)]
#[tactic(auto, unfolding(crate::specs::RowText::value_of))]
fn value_of<'a>(key: u8, words: WordsLeft<'a>) -> Result<(&'a [u8], WordsLeft<'a>), NotForm>
    ensures { Gives not_form_in (λ x. (x.0.now, words_left x.1)) result (spec.value_of key (words_left words.entry)) }
{
    match words.next_word() {
        Some(([k, EQUALS, value @ ..], rest)) if *k == key => Ok((value, rest)),
        _ => Err(NotForm),
    }
}

/// The same. A value of one byte or two, as most numbers of lanes are, is not searched for.
#[inline(always)]
fn number_of<'a>(key: u8, words: WordsLeft<'a>) -> Result<(&'a [u8], WordsLeft<'a>), NotForm>
    ensures { Gives not_form_in (λ x. (x.0.now, words_left x.1)) result (spec.value_of key (words_left words.entry)) }
{
    match words.short_value(key) {
        Some(found) => Ok(found),
        None => value_of(key, words),
    }
}

/// Reads a word of bits: nothing where the signal is absent, else exactly its hexadecimal digits. Only its width is as before
/// where they spell no word.
#[inline(always)]
#[tactic(auto, unfolding(crate::specs::RowText::word_field))]
fn read_word<'a>(
    bits: &mut Bits,
    signal: WordSignal,
    key: u8,
    words: WordsLeft<'a>,
) -> Result<WordsLeft<'a>, NotForm>
    requires wide { length bits.old ≡ signal.width }
    requires absent { signal.present ≡ false → signal.width ≡ 0 }
    requires many { signal.digits ≡ (signal.width + 3) / 4 }
    ensures read { Gives not_form_in (λ rest. (bits.new, words_left rest)) result (spec.word_field signal.present key signal.width (words_left words.entry)) }
    ensures wide { length bits.new ≡ length bits.old }
{
    if !signal.present {
        return Ok(words);
    }
    let Some((digits, rest)) = words.sized_value(key, signal.digits) else {
        return Err(NotForm);
    };
    if bits.read_sized_hex(digits) {
        Ok(rest)
    } else {
        Err(NotForm)
    }
}

/// The number of a lane that at most five digits spell, below a limit.
#[inline(always)]
fn index_of(limit: u32, digits: &[u8]) -> Result<u16, NotForm>
    requires { limit ≤ 2 ^ 16 }
    ensures { (width : ℕ) → limit ≡ 2 ^ width → Gives not_form_in (λ n. n) result (spec.index_of width digits.now) }
{
    if digits.len() > 5 {
        return Err(NotForm);
    }
    let Some(n) = read_decimal(digits) else {
        return Err(NotForm);
    };
    if n >= u64::from(limit) {
        return Err(NotForm);
    }
    Ok(n as u16)
}

/// The number of a lane: its default where the signal is absent.
#[inline(always)]
#[tactic(auto, unfolding(crate::specs::RowText::index_field))]
fn index_field<'a>(
    present: bool,
    key: u8,
    limit: u32,
    default: u16,
    words: WordsLeft<'a>,
) -> Result<(u16, WordsLeft<'a>), NotForm>
    requires { limit ≤ 2 ^ 16 }
    ensures { (width : ℕ) → limit ≡ 2 ^ width → Gives not_form_in (λ x. (x.0, words_left x.1)) result (spec.index_field present key width default (words_left words.entry)) }
{
    if !present {
        return Ok((default, words));
    }
    let (digits, rest) = number_of(key, words)?;
    Ok((index_of(limit, digits)?, rest))
}

/// The strobe bits: all ones where the signal is absent.
#[inline(always)]
#[tactic(auto, unfolding(crate::specs::RowText::strobe_field))]
fn strobe_field<'a>(
    layout: &RowLayout,
    words: WordsLeft<'a>,
) -> Result<(u128, WordsLeft<'a>), NotForm>
    ensures { Gives not_form_in (λ x. (x.0, words_left x.1)) result (spec.strobe_field layout.now.strb.present layout.now.params.lanes (words_left words.entry)) }
{
    if !layout.strb.present {
        return Ok((layout.all_lanes, words));
    }
    let Some((digits, rest)) = words.sized_value(STRB_KEY, layout.strb.digits) else {
        return Err(NotForm);
    };
    match hex_number_within(layout.all_lanes, digits) {
        Some(number) => Ok((number, rest)),
        None => Err(NotForm),
    }
}

/// Ok where no word is left, else `NotForm`.
#[inline(always)]
#[tactic(auto, unfolding(crate::specs::RowText::no_more))]
fn no_more(words: WordsLeft) -> Result<(), NotForm>
    ensures { Gives not_form_in (λ fine. fine) result (spec.no_more (words_left words.entry)) }
{
    if words.is_empty() {
        Ok(())
    } else {
        Err(NotForm)
    }
}

/// Reads the transfer that the words of a payload spell. Only the widths of its words are as before where they spell none. There is a
/// copy for each sink, which `RowsRead::read_row` says why.
#[inline(always)]
#[tactic(auto, unfolding(crate::specs::RowText::transfer_of))]
fn read_transfer<K>(
    layout: &RowLayout,
    kept: &mut Transfer,
    words: WordsLeft,
) -> Result<(), NotForm>
    requires { HasWidths layout.now.params kept.old }
    ensures read { Gives not_form_in (λ _. kept.new) result (spec.transfer_of layout.now.params (words_left words.entry)) }
    ensures widths { HasWidths layout.now.params kept.new }
{
    let limit = layout.index_limit;
    let words = read_word(&mut kept.content, layout.content, DATA_KEY, words)?;
    let words = read_word(&mut kept.last, layout.last, LAST_KEY, words)?;
    let (stai, words) = index_field(layout.has_stai, STAI_KEY, limit, 0, words)?;
    kept.stai = stai;
    let (endi, words) = index_field(layout.has_endi, ENDI_KEY, limit, layout.last_lane, words)?;
    kept.endi = endi;
    let (strb, words) = strobe_field(layout, words)?;
    kept.strb = strb;
    let words = read_word(&mut kept.user, layout.user, USER_KEY, words)?;
    no_more(words)
}

/// Whether the payload is the word `-` alone.
fn is_dash(words: WordsLeft) -> bool
    ensures { result ≡ spec.is_dash (words_left words.entry) }
{
    match words.next_word() {
        Some((word, rest)) => word == b"-".as_slice() && rest.is_empty(),
        None => false,
    }
}

/// The words of the payload of a cycle with valid: none where `-` stands for them.
#[tactic(auto, unfolding(crate::specs::RowText::payload_of))]
fn payload_of<'a>(layout: &RowLayout, words: WordsLeft<'a>) -> Result<WordsLeft<'a>, NotForm>
    ensures { Gives not_form_in words_left result (spec.payload_of layout.now.params (words_left words.entry)) }
{
    if layout.has_payload {
        Ok(words)
    } else if is_dash(words) {
        Ok(WordsLeft::none())
    } else {
        Err(NotForm)
    }
}

/// Reads what a cycle shows.
#[inline(always)]
#[tactic(auto, unfolding(crate::specs::RowText::shown_of))]
fn read_shown<K>(
    layout: &RowLayout,
    kept: &mut Transfer,
    valid: bool,
    words: WordsLeft,
) -> Result<(), NotForm>
    requires { HasWidths layout.now.params kept.old }
    ensures read { Gives not_form_in (λ _. shown_in kept.new valid) result (spec.shown_of layout.now.params valid (words_left words.entry)) }
    ensures widths { HasWidths layout.now.params kept.new }
{
    if valid {
        let payload = payload_of(layout, words)?;
        return read_transfer::<K>(layout, kept, payload);
    }
    if is_dash(words) { Ok(()) } else { Err(NotForm) }
}

/// The bit that a word is.
#[tactic(auto, unfolding(crate::specs::RowText::bit_of))]
fn bit_of(word: &[u8]) -> Result<bool, NotForm>
    ensures { Gives not_form_in (λ bit. bit) result (spec.bit_of word.now) }
{
    if word == b"1".as_slice() {
        Ok(true)
    } else if word == b"0".as_slice() {
        Ok(false)
    } else {
        Err(NotForm)
    }
}

/// The valid bit and the ready bit of a row, and what follows them. None where a row does not begin so.
// A bit is the lowest one of its digit. That both are digits of a bit is then found by one comparison of four bytes.
#[inline(always)]
fn two_bits(line: &[u8]) -> Option<(bool, bool, &[u8])>
    ensures { IfSome result (λ x. row_start (words_of line.now) ≡ Ok (x.0, x.1, words_after x.2.now)) }
{
    if line.len() < 4 {
        return None;
    }
    let valid = line[0] % 2 == 1;
    let ready = line[2] % 2 == 1;
    let front = four_bytes(line[0], line[1], line[2], line[3]);
    if front != four_bytes(bit_byte(valid), SPACE, bit_byte(ready), SPACE) {
        return None;
    }
    Some((valid, ready, &line[3..]))
}

/// The byte of a bit.
#[inline(always)]
fn bit_byte(bit: bool) -> u8
    ensures { result ≡ (if bit then ONE_BIT else ZERO_BIT) }
{
    ZERO_BIT + bit as u8
}

/// Four bytes as one number, by which they are compared at once.
#[inline(always)]
fn four_bytes(a: u8, b: u8, c: u8, d: u8) -> u32
    ensures { result ≡ a + 256 * b + 65536 * c + 16777216 * d }
{
    u32::from(a) + 256 * u32::from(b) + 65536 * u32::from(c) + 16777216 * u32::from(d)
}

/// The valid bit and the ready bit of a row, and the words of its payload.
#[inline(always)]
#[tactic(auto, unfolding(crate::specs::RowStart::row_start))]
fn start_of(line: &[u8]) -> Result<(bool, bool, WordsLeft<'_>), NotForm>
    ensures { Gives not_form_in (λ x. (x.0, x.1, words_left x.2)) result (row_start (words_of line.now)) }
{
    if let Some((valid, ready, payload)) = two_bits(line) {
        return Ok((valid, ready, WordsLeft::after_space(payload)));
    }
    let (valid, words) = WordsLeft::first_of(line);
    let (ready, payload) = words.next_word().ok_or(NotForm)?;
    let valid = bit_of(valid)?;
    let ready = bit_of(ready)?;
    Ok((valid, ready, payload))
}

/// The valid bit and the ready bit of a row.
#[derive(Clone, Copy)]
pub(crate) struct RowBits {
    pub valid: bool,
    pub ready: bool,
}

/// Reads the cycle that a row spells: its bits, and what it shows. It takes no memory.
#[inline(always)]
#[tactic(auto, using(crate::proofs::RowStartLemmas::row_of_start))]
fn read_row<K>(layout: &RowLayout, kept: &mut Transfer, line: &[u8]) -> Result<RowBits, NotForm>
    requires { HasWidths layout.now.params kept.old }
    ensures read { Gives not_form_in (cycle_in kept.new) result (spec.row_of layout.now.params line.now) }
    ensures widths { HasWidths layout.now.params kept.new }
{
    let (valid, ready, payload) = start_of(line)?;
    read_shown::<K>(layout, kept, valid, payload)?;
    Ok(RowBits { valid, ready })
}

/// The rows of one stream: how they are laid out, and the transfer that they are read into.
#[derive(Drop)]
pub(crate) struct StreamRows {
    pub(crate) layout: RowLayout,
    /// The transfer that was read last, or only the room for one.
    pub(crate) kept: Transfer,
    ghost room: { HasWidths layout.params kept },
}

impl StreamRows {
    /// The rows of this stream, of which none is read. All the memory that they need is taken here.
    pub(crate) fn of(alloc: Global, params: &Params) -> Result<StreamRows, Memory>
        ensures { IfOk result (λ rows. rows.layout.params ≡ params.now) }
    {
        let layout = RowLayout::of(params);
        let kept = Transfer::zero(alloc, params)?;
        Ok(StreamRows { layout, kept })
    }

    /// Reads the row that the line of this number spells: its bits, and what it shows. It takes no memory.
    #[inline(always)]
    #[tactic(auto, unfolding(crate::specs::RowText::row_at))]
    pub(crate) fn read<K>(&mut self, number: u64, line: &[u8]) -> Result<RowBits, TraceFault>
        ensures layout { self.new.layout ≡ self.old.layout }
        ensures read { Gives fault_in (cycle_in self.new.kept) result (spec.row_at number self.old.layout.params line.now) }
        ensures calm { IfErr result (λ e. IsSome (fault_in e)) }
    {
        match read_row::<K>(&self.layout, &mut self.kept, line) {
            Ok(bits) => Ok(bits),
            Err(_) => Err(row_fault(number, line)),
        }
    }
}
