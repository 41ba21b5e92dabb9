//! The line of a stream: its head, read and written.

ghost use Rattle.std.specs.Prelude.{◌≡◌, ◌<◌, ◌^◌, map, length, IfOk, if◌then◌else◌, Some, None};
ghost use Rattle.tydi_base.specs.Reading.{Gives};
ghost use Rattle.tydi_base.specs.Pieces.{words_of};
ghost use Rattle.physical_stream.specs.StreamLine as spec;
ghost use Rattle.physical_stream.specs.StreamLine.{direction_text, head_text, misspelling_in, not_form_in};

use crate::head::Head;
use crate::misspelling::{Misspelling, NotForm};
use crate::params::Params;
use std::alloc::Global;
use tydi_base::{Level, List, Memory, Path, Written, emit, read_decimal};

/// The number that at most ten digits spell. `NotForm` comes exactly where they are more, or spell no number.
#[tactic(auto, unfolding(crate::specs::StreamLine::header_number))]
pub fn header_number(digits: &[u8]) -> Result<u64, NotForm>
    ensures exact { Gives not_form_in (λ n. n) result (spec.header_number digits.now) }
    ensures below { IfOk result (λ n. n < 10 ^ 10) }
{
    if digits.len() > 10 {
        return Err(NotForm);
    }
    read_decimal(digits).ok_or(NotForm)
}

/// The parameters that five words spell.
#[tactic(auto, unfolding(crate::specs::StreamLine::params_of))]
fn params_of(
    lanes: &[u8],
    dims: &[u8],
    level: &[u8],
    element: &[u8],
    user: &[u8],
) -> Result<Params, NotForm>
    ensures { Gives not_form_in (λ p. p) result (spec.params_of lanes.now dims.now level.now element.now user.now) }
{
    let lanes = header_number(lanes)?;
    let dims = header_number(dims)?;
    let level = Level::read(level).ok_or(NotForm)?;
    let element = header_number(element)?;
    let user = header_number(user)?;
    made_of(lanes, dims, level, element, user).ok_or(NotForm)
}

/// The parameters of these numbers. None exactly where one of them is out of its range.
fn made_of(lanes: u64, dims: u64, level: Level, element: u64, user: u64) -> Option<Params>
    ensures { result ≡ (if spec.are_parameters lanes dims element user then
        Some (record { lanes = lanes; dims = dims; level = level; element = element; user = user }) else None) }
{
    if lanes > 128 || dims > 32 || element > 4096 || user > 4096 {
        return None;
    }
    Params::new(lanes as u16, dims as u8, level, element as u32, user as u32)
}

/// Whether a stream is reversed.
#[tactic(auto, unfolding(crate::specs::StreamLine::direction_of))]
fn direction_of(word: &[u8]) -> Result<bool, NotForm>
    ensures { Gives not_form_in (λ reversed. reversed) result (spec.direction_of word.now) }
{
    if word == b"forward".as_slice() {
        Ok(false)
    } else if word == b"reverse".as_slice() {
        Ok(true)
    } else {
        Err(NotForm)
    }
}

/// The words of a line.
fn words_of<'a>(alloc: Global, line: &'a [u8]) -> Result<Vec<&'a [u8]>, Memory>
    ensures { IfOk result (λ words. map (λ word. word.now) words.items ≡ words_of line.now) }
{
    Ok(line.split(|byte| *byte == b' ').collect(alloc)?)
}

/// The word of this number, from 0.
fn word_at<'a>(words: &[&'a [u8]], index: usize) -> &'a [u8]
    requires { index < length words.now }
    ensures { result.now ≡ spec.nth (map (λ word. word.now) words.now) index }
{
    words[index]
}

/// Whether the words of a stream line stand in their places.
fn has_keys(words: &[&[u8]]) -> bool
    ensures { result ≡ spec.has_keys (map (λ word. word.now) words.now) }
{
    words.len() == 13
        && word_at(words, 0) == b"stream".as_slice()
        && word_at(words, 2) == b"lanes".as_slice()
        && word_at(words, 4) == b"dims".as_slice()
        && word_at(words, 6) == b"level".as_slice()
        && word_at(words, 8) == b"element".as_slice()
        && word_at(words, 10) == b"user".as_slice()
}

/// The head that the words of a stream line spell.
#[tactic(auto, unfolding(crate::specs::StreamLine::head_of_words))]
fn head_of_words(alloc: Global, words: &[&[u8]]) -> Result<Head, Misspelling>
    requires { length words.now ≡ 13 }
    ensures { Gives misspelling_in (λ head. head) result (spec.head_of_words (map (λ word. word.now) words.now)) }
{
    let path = Path::read_dotted(alloc, word_at(words, 1))?.ok_or(Misspelling::NotForm)?;
    let params = params_of(
        word_at(words, 3),
        word_at(words, 5),
        word_at(words, 7),
        word_at(words, 9),
        word_at(words, 11),
    )?;
    let reversed = direction_of(word_at(words, 12))?;
    Ok(Head {
        path,
        params,
        reversed,
    })
}

/// The head that a stream line spells. `NotForm` comes where the line spells none, and `Memory` where there is none for the head or
/// the words.
#[tactic(auto, unfolding(crate::specs::StreamLine::head_of))]
pub fn head_of(alloc: Global, line: &[u8]) -> Result<Head, Misspelling>
    ensures { Gives misspelling_in (λ head. head) result (spec.head_of line.now) }
{
    let words = words_of(alloc, line)?;
    if !has_keys(words.as_slice()) {
        return Err(Misspelling::NotForm);
    }
    head_of_words(alloc, words.as_slice())
}

/// The line of a stream, as headers have it.
#[derive(Clone, Copy)]
pub struct StreamLine<'a> {
    pub path: &'a Path,
    pub params: &'a Params,
    /// Whether its transfers go against the direction of the port.
    pub reversed: bool,
}

impl Written for StreamLine<'_> {
    ghost text = { λ line. head_text (record { path = line.path.now; params = line.params.now; reversed = line.reversed }) };

    fn write_to(&self, out: &mut List<u8>) -> Result<(), Memory> {
        let StreamLine {
            path,
            params,
            reversed,
        } = *self;
        emit!(
            out;
            "stream ", path, " lanes ", params.lanes, " dims ", params.dims, " level ", params.level,
            " element ", params.element, " user ", params.user, " ", direction(reversed), "\n",
        )
    }
}

fn direction(reversed: bool) -> &'static str
    ensures { result.now ≡ direction_text reversed }
{
    if reversed { "reverse" } else { "forward" }
}
