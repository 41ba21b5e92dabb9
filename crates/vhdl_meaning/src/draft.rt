//! The lines of a run text, one after another.

ghost use Rattle.std.specs.Prelude.{◌≡◌, ◌<◌, [], length, IfOk, IfSome, option_map};
ghost use Rattle.std.specs.List.{list_all};
ghost use Rattle.tydi_base.specs.Binary.{is_binary_digit};
ghost use Rattle.tydi_base.specs.Pieces.{words_of};
ghost use Rattle.tydi_base.specs.Reading.{Gives};
ghost use Rattle.vhdl_meaning.specs.RunText as spec;
ghost use Rattle.vhdl_meaning.specs.RunDraft.{given_in};
ghost use Rattle.vhdl_meaning.specs.RunFaults.{fault_in};
ghost use Rattle.vhdl_meaning.specs.RunLinesView.{line_in};

use crate::ordering::{are_decimals, read_order};
use crate::run::RunFault;
use crate::run_lines::RunLine;
use physical_stream::Head;
use std::alloc::Global;
use tydi_base::{List, Memory, Path, Place, SPACE, first_piece};

/// The digit of a bit that is 1.
const ONE: u8 = b'1';

/// The lines so far.
#[derive(Drop)]
pub(crate) struct Draft {
    /// For each stream, its ready bits, where it has a line.
    pub(crate) ready: Vec<Option<List<bool>>>,
    /// The orders of the first cycles.
    pub(crate) orders: List<List<u32>>,
}

// The two words of a text. None exactly where it has not two.
fn two_words(text: &[u8]) -> Option<(&[u8], &[u8])>
    ensures { spec.two_words (words_of text.now) ≡ option_map (λ words. (words.0.now, words.1.now)) result }
{
    let (first, rest) = first_piece(text, SPACE)?;
    match first_piece(rest, SPACE) {
        Some(_) => None,
        None => Some((first, rest)),
    }
}

// Whether a word is digits of bits, one at least.
fn are_bits(word: &[u8]) -> bool
    ensures { result ≡ spec.are_bits word.now }
{
    !word.is_empty() && are_binary_digits(word)
}

// Whether each of these bytes is `0` or `1`.
fn are_binary_digits(bytes: &[u8]) -> bool
    ensures { result ≡ list_all is_binary_digit bytes.now }
{
    bytes.iter().all(|byte| (*byte == b'0') | (*byte == ONE))
}

// The number of the first stream of this path.
fn find_head(heads: &[Head], path: &Path) -> Option<usize>
    ensures value { result ≡ spec.find_head path.now 0 heads.now }
    ensures within { IfSome result (λ number. number < length heads.now) }
{
    'heads: for number in 0..heads.len() {
        if heads[number].path == *path {
            return Some(number);
        }
    }
    None
}

// The stream and the word of bits of a line `ready` with this text.
#[tactic(auto, unfolding(crate::specs::RunText::ready_line))]
fn ready_line<'a>(
    alloc: Global,
    place: Place,
    heads: &[Head],
    text: &'a [u8],
) -> Result<(usize, &'a [u8]), RunFault>
    ensures gives { Gives fault_in (λ found. (found.0, found.1.now)) result (spec.ready_line place heads.now text.now) }
    ensures within { IfOk result (λ found. found.0 < length heads.now) }
{
    let Some((word, bits)) = two_words(text) else {
        return Err(RunFault::Syntax(place));
    };
    let Some(path) = Path::read_dotted(alloc, word)? else {
        return Err(RunFault::Syntax(place));
    };
    if !are_bits(bits) {
        return Err(RunFault::Syntax(place));
    }
    match find_head(heads, &path) {
        Some(number) => Ok((number, bits)),
        None => Err(RunFault::UnknownStream(place)),
    }
}

// The ready bits of so many cycles that a word spells.
#[tactic(auto, unfolding(crate::specs::RunText::bits_for))]
fn bits_for(alloc: Global, place: Place, cycles: u32, word: &[u8]) -> Result<List<bool>, RunFault>
    ensures { Gives fault_in (λ bits. bits) result (spec.bits_for place cycles word.now) }
{
    if word.len() != cycles as usize {
        return Err(RunFault::ReadyLength(place));
    }
    let mut bits = List::with_capacity(alloc, word.len())?;
    'digits: for digit in word {
        bits.push(*digit == ONE)?;
    }
    Ok(bits)
}

// The order of so many processes that the words of a text spell.
#[tactic(auto, unfolding(crate::specs::RunText::order_in))]
fn order_in(alloc: Global, place: Place, count: u32, text: &[u8]) -> Result<List<u32>, RunFault>
    ensures { Gives fault_in (λ order. order) result (spec.order_in place count (words_of text.now)) }
{
    if !are_decimals(text) {
        return Err(RunFault::Syntax(place));
    }
    match read_order(alloc, count, text)? {
        Some(order) => Ok(order),
        None => Err(RunFault::NotOrder(place)),
    }
}

// The order of no processes, where there are none.
#[tactic(auto, unfolding(crate::specs::RunText::order_in))]
fn no_order(alloc: Global, place: Place, count: u32) -> Result<List<u32>, RunFault>
    ensures { Gives fault_in (λ order. order) result (spec.order_in place count []) }
{
    if count == 0 {
        Ok(List::new(alloc))
    } else {
        Err(RunFault::NotOrder(place))
    }
}

// The order that a line `order` spells.
#[tactic(auto, unfolding(crate::specs::RunText::order_of))]
fn order_of(alloc: Global, place: Place, count: u32, line: &[u8]) -> Result<List<u32>, RunFault>
    ensures { Gives fault_in (λ order. order) result (spec.order_of place count line.now) }
{
    if line == b"order".as_slice() {
        no_order(alloc, place, count)
    } else if line.starts_with(b"order ") {
        order_in(alloc, place, count, &line[6..])
    } else {
        Err(RunFault::Syntax(place))
    }
}

impl Draft {
    /// No lines, for these streams.
    pub(crate) fn new(alloc: Global, heads: &[Head]) -> Result<Draft, Memory>
        ensures { IfOk result (λ draft. given_in draft ≡ spec.nothing_given (length heads.now)) }
    {
        let mut ready = Vec::with_capacity(alloc, heads.len())?;
        'heads: for _number in 0..heads.len() {
            ready.push(None)?;
        }
        Ok(Draft {
            ready,
            orders: List::new(alloc),
        })
    }

    // Adds the ready bits of the stream of this number.
    #[tactic(auto, unfolding(crate::specs::RunText::with_bits))]
    fn add_bits(
        &mut self,
        alloc: Global,
        place: Place,
        cycles: u32,
        number: usize,
        word: &[u8],
    ) -> Result<(), RunFault>
        requires { number < length self.old.ready.items }
        ensures long { length self.new.ready.items ≡ length self.old.ready.items }
        ensures gives { Gives fault_in (λ _. given_in self.new) result (spec.with_bits place cycles number word.now (given_in self.old)) }
    {
        if self.ready[number].is_some() {
            return Err(RunFault::StreamTwice(place));
        }
        self.ready[number] = Some(bits_for(alloc, place, cycles, word)?);
        Ok(())
    }

    // Adds a line `ready` with this text.
    #[tactic(auto, unfolding(crate::specs::RunText::with_ready))]
    fn add_ready(
        &mut self,
        alloc: Global,
        place: Place,
        cycles: u32,
        heads: &[Head],
        text: &[u8],
    ) -> Result<(), RunFault>
        requires { length self.old.ready.items ≡ length heads.now }
        ensures long { length self.new.ready.items ≡ length self.old.ready.items }
        ensures gives { Gives fault_in (λ _. given_in self.new) result (spec.with_ready place cycles heads.now text.now (given_in self.old)) }
    {
        if !self.orders.is_empty() {
            return Err(RunFault::Syntax(place));
        }
        let (number, word) = ready_line(alloc, place, heads, text)?;
        self.add_bits(alloc, place, cycles, number, word)
    }

    // Adds a line `order`.
    #[tactic(auto, unfolding(crate::specs::RunText::with_order))]
    fn add_order(
        &mut self,
        alloc: Global,
        place: Place,
        cycles: u32,
        count: u32,
        line: &[u8],
    ) -> Result<(), RunFault>
        ensures long { length self.new.ready.items ≡ length self.old.ready.items }
        ensures gives { Gives fault_in (λ _. given_in self.new) result (spec.with_order place cycles count line.now (given_in self.old)) }
    {
        let order = order_of(alloc, place, count, line)?;
        if self.orders.len() >= cycles as usize {
            return Err(RunFault::TooManyOrders(place));
        }
        self.orders.push(order)?;
        Ok(())
    }

    /// Adds a line after the first two, in a run of so many cycles of a bench with these streams and so many processes.
    #[tactic(auto, unfolding(crate::specs::RunText::with_more))]
    pub(crate) fn add_line(
        &mut self,
        alloc: Global,
        cycles: u32,
        heads: &[Head],
        count: u32,
        line: RunLine<'_>,
    ) -> Result<(), RunFault>
        requires { length self.old.ready.items ≡ length heads.now }
        ensures long { length self.new.ready.items ≡ length self.old.ready.items }
        ensures gives { Gives fault_in (λ _. given_in self.new) result (spec.with_more cycles heads.now count (line_in line.entry) (given_in self.old)) }
    {
        if line.bytes.starts_with(b"ready ") {
            self.add_ready(alloc, line.place, cycles, heads, &line.bytes[6..])
        } else {
            self.add_order(alloc, line.place, cycles, count, line.bytes)
        }
    }
}
