//! How far into a token that is refused the text may still go on to one of the form. `specs/Stops.antt` says it.

ghost use Rattle.std.specs.Prelude.{◌≡◌, ◌≤◌, ◌++◌, ◌&&◌, ◌||◌, if◌then◌else◌, nat_le, max, length, take, codes, IfOk};
ghost use Rattle.std.specs.Option.{is_some};
ghost use Rattle.value_text.specs.Stops as spec;
ghost use Rattle.value_text.specs.Words.{number_of};

use crate::lexing::{after_gap, word_length};
use crate::tokens::Tokens;
use crate::words::{is_hex, is_leaf, is_path, number_of};
use std::alloc::Global;
use tydi_base::{List, Memory, first_piece, is_name};
use tydi_reading::Fault;

/// The most digits of a number in decimal.
const MOST_DIGITS: usize = 39;

/// How many bytes behind the token at which reading stopped, from its first byte on, some text of the form goes on with. The token begins
/// where so many bytes are left.
pub(crate) fn stop_within(alloc: Global, text: &[u8], left: usize) -> Result<usize, Memory>
    ensures { IfOk result (λ count. count ≡ spec.stop_within text.now left) }
{
    let at = text.len().saturating_sub(left);
    let rest = &text[at..];
    let run = run_length(rest);
    if run == 0 {
        return Ok(slash_length(rest));
    }
    word_within(alloc, &text[..at], rest, run)
}

/// The same where a word of so many bytes begins the rest.
fn word_within(alloc: Global, front: &[u8], rest: &[u8], run: usize) -> Result<usize, Memory>
    requires { run ≤ length rest.now }
    ensures { IfOk result (λ count. count ≡ spec.word_within front.now rest.now run (take run rest.now)) }
{
    let word = &rest[..run];
    let root = where_so(
        is_accepted(alloc, front, b"root")?,
        common_length(word, b"root"),
    );
    let path = where_so(
        is_accepted(alloc, front, b"-=")?,
        reach(rest, run, is_path(word), path_length(word)),
    );
    let leaf = where_so(
        is_accepted(alloc, front, b"0")?,
        reach(rest, run, is_leaf(word), leaf_length(word)),
    );
    let name = where_so(
        names_follow(alloc, front)?,
        reach(rest, run, is_name(word), name_length(word)),
    );
    Ok(greatest(root, path, leaf, name))
}

/// The greatest of four numbers.
fn greatest(one: usize, two: usize, three: usize, four: usize) -> usize
    ensures { result ≡ max (max (max one two) three) four }
{
    one.max(two).max(three).max(four)
}

/// A number where a test holds, else 0.
fn where_so(holds: bool, count: usize) -> usize
    ensures { result ≡ spec.where_so holds count }
{
    if holds { count } else { 0 }
}

/// Whether the name of a variant or of a field may follow a front.
fn names_follow(alloc: Global, front: &[u8]) -> Result<bool, Memory>
    ensures { IfOk result (λ follows. follows ≡ (spec.is_accepted (front.now ++ codes "a(") || spec.is_accepted (front.now ++ codes "a:"))) }
{
    let variant = is_accepted(alloc, front, b"a(")?;
    let field = is_accepted(alloc, front, b"a:")?;
    Ok(variant | field)
}

/// Whether the tokens of a text, with these bytes after it, begin some text of the form.
fn is_accepted(alloc: Global, front: &[u8], more: &[u8]) -> Result<bool, Memory>
    ensures { IfOk result (λ accepted. accepted ≡ spec.is_accepted (front.now ++ more.now)) }
{
    let mut text = List::from_slice(alloc, front)?;
    text.extend_from_slice(more)?;
    let mut tokens = Tokens::new(text.as_slice());
    match tokens.pass_text(alloc) {
        Ok(()) => Ok(true),
        Err(Fault::Memory) => Err(Memory),
        Err(Fault::Refused) => Ok(tokens.is_at_end()),
        Err(Fault::Unfit(_)) => Ok(tokens.is_at_end()),
    }
}

/// How many bytes a word has that begins a text; `-` is one too.
fn run_length(rest: &[u8]) -> usize
    ensures value { result ≡ spec.run_length rest.now }
    ensures within { result ≤ length rest.now }
{
    match rest {
        [] => 0,
        [b'-', ..] => 1,
        _ => word_length(rest),
    }
}

/// A slash may begin a comment.
fn slash_length(rest: &[u8]) -> usize
    ensures { result ≡ spec.slash_length rest.now }
{
    match rest {
        [b'/', ..] => 1,
        _ => 0,
    }
}

/// How far a word of so many bytes goes: where it is whole, up to what follows it, else so many bytes of it.
fn reach(rest: &[u8], run: usize, is_whole: bool, within: usize) -> usize
    requires { run ≤ length rest.now }
    ensures { result ≡ spec.reach rest.now run is_whole within }
{
    if is_whole {
        rest.len().saturating_sub(after_gap(&rest[run..]).len())
    } else {
        within
    }
}

/// How many bytes two texts have in common at their fronts.
fn common_length(one: &[u8], other: &[u8]) -> usize
    ensures value { result ≡ spec.common_length one.now other.now }
{
    let mut rest = one;
    let mut others = other;
    let mut count = 0;
    'bytes: while let Some((byte, more)) = rest.split_first() {
        match others.split_first() {
            Some((same, further)) if *same == *byte => {
                rest = more;
                others = further;
                count += 1;
            }
            _ => return count,
        }
    }
    count
}

/// How much of a word may begin a member by itself.
fn leaf_length(word: &[u8]) -> usize
    ensures { result ≡ spec.leaf_length word.now }
{
    greatest(
        common_length(word, b"null"),
        common_length(word, b"apart"),
        decimal_length(word),
        hex_length(word),
    )
}

/// How much of a word may begin a number in decimal.
fn decimal_length(word: &[u8]) -> usize
    ensures { result ≡ spec.decimal_length word.now }
{
    let mut best = 0;
    let mut count = 0;
    'counts: while count < MOST_DIGITS {
        count += 1;
        best = longer_number(word, count, best);
    }
    best
}

/// The number of bytes where so many begin a number in decimal, else the best before.
fn longer_number(word: &[u8], count: usize, best: usize) -> usize
    ensures { result ≡ (if nat_le count (length word.now) && is_some (number_of (take count word.now)) then count else best) }
{
    if count <= word.len() && number_of(&word[..count]).is_some() {
        count
    } else {
        best
    }
}

/// How much of a word may begin a number in hexadecimal.
fn hex_length(word: &[u8]) -> usize
    ensures { result ≡ spec.hex_length word.now }
{
    let front = common_length(word, b"0x");
    match word {
        [_, _, digits @ ..] if front >= 2 => digits_length(digits) + 2,
        _ => front,
    }
}

/// How many hexadecimal digits begin a word.
fn digits_length(word: &[u8]) -> usize
    ensures value { result ≡ spec.digits_length word.now }
    ensures within { result ≤ length word.now }
{
    let mut count = 0;
    'digits: for byte in word {
        if !is_hex(*byte) {
            return count;
        }
        count += 1;
    }
    count
}

/// How much of a word may begin a name.
fn name_length(word: &[u8]) -> usize
    ensures value { result ≡ spec.name_length word.now }
    ensures within { result ≤ length word.now }
{
    match word.split_first() {
        Some((byte, more)) if byte.is_ascii_alphabetic() => name_behind(*byte, more) + 1,
        _ => 0,
    }
}

/// How many bytes go on with a name behind this byte.
fn name_behind(first: u8, word: &[u8]) -> usize
    ensures value { result ≡ spec.name_behind first word.now }
    ensures within { result ≤ length word.now }
{
    let mut before = first;
    let mut rest = word;
    let mut count = 0;
    'bytes: while let Some((byte, more)) = rest.split_first() {
        if !goes_on(before, *byte) {
            return count;
        }
        before = *byte;
        rest = more;
        count += 1;
    }
    count
}

/// Whether a byte goes on with a name behind this byte.
fn goes_on(before: u8, byte: u8) -> bool
    ensures { result ≡ spec.goes_on before byte }
{
    byte.is_ascii_alphanumeric() || (byte == b'_' && before != b'_')
}

/// How much of a word may begin a path: names, with a point between each two.
fn path_length(word: &[u8]) -> usize
    ensures { result ≡ spec.path_length word.now }
{
    let mut passed = 0;
    let mut rest = word;
    'names: while let Some((name, more)) = first_piece(rest, b'.') {
        if !is_name(name) {
            return passed + name_length(name);
        }
        passed += name.len() + 1;
        rest = more;
    }
    passed + name_length(rest)
}
