//! The leaves of a text.

ghost use Rattle.std.specs.Prelude.{◌≡◌, ◌-◌, cond, false};
ghost use Rattle.value_text.specs.Leaves as spec;
ghost use Rattle.value_text.specs.Starts.{begins, starts};
ghost use Rattle.value_text.specs.Tokens.{tokens_of};

use crate::lexing::is_word_byte;
use crate::tokens::Tokens;
use tydi_reading::Source;

/// Where the leaf begins that follows so many leaves of a text, by how many bytes there are from there on. None where there is no such leaf.
pub(crate) fn surplus_leaf(text: &[u8], most: u64) -> Option<usize>
    ensures { result ≡ spec.surplus most (tokens_of text.now) }
{
    if count_starts(text) <= most {
        return None;
    }
    find_surplus(text, most)
}

/// How many runs of letters, digits, `_` and `.`, and how many `{`, a text has. It has no more leaves.
fn count_starts(text: &[u8]) -> u64
    ensures { result ≡ starts false text.now }
{
    let mut count: u64 = 0;
    let mut within = false;
    'bytes: for byte in text {
        count += u64::from(begins(within, *byte));
        within = is_word_byte(*byte);
    }
    count
}

/// Whether such a run or a `{` begins with a byte, where the byte before it is within such a run or not.
fn begins(within: bool, byte: u8) -> bool
    ensures { result ≡ begins within byte }
{
    is_word_byte(byte) && !within || byte == b'{'
}

/// The same as `surplus_leaf`, token after token.
fn find_surplus(text: &[u8], most: u64) -> Option<usize>
    ensures { result ≡ spec.surplus most (tokens_of text.now) }
{
    let mut tokens = Tokens::new(text);
    let mut room = most;
    'tokens: while let Some(token) = tokens.first() {
        let counts = token.begins_leaf();
        if counts && room == 0 {
            return Some(token.left);
        }
        room = room_after(room, counts);
        tokens.skip();
    }
    None
}

/// How many leaves there is room for after a token.
fn room_after(room: u64, counts: bool) -> u64
    ensures { result ≡ room - cond counts 1 0 }
{
    if counts { room.saturating_sub(1) } else { room }
}
