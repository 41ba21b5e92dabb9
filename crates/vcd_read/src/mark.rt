//! What a token among the changes begins with.

ghost use Rattle.std.specs.Prelude.{◌≡◌};
ghost use Rattle.vcd_read.specs.Words as spec;

use crate::state::{State, state_of};

/// The kind of a token among the changes, by its first byte (IEEE 1364, value change dump files).
#[derive(Clone, Copy)]
pub(crate) enum Mark {
    /// A time stamp.
    Stamp,
    /// A change of a code of width 1 to this state.
    Scalar(State),
    /// A change of a vector. Its code is the next token.
    Vector,
    /// A real number or a text, which is skipped. Its code is the next token.
    Skipped,
    /// A keyword.
    Command,
    /// Nothing begins so.
    Nothing,
}

/// The kind of a token that begins with this byte.
#[tactic(auto, unfolding(crate::specs::Words::mark_of, crate::specs::Words::mark_of_state))]
#[inline(always)]
pub(crate) fn mark_of(byte: u8) -> Mark
    ensures { result ≡ spec.mark_of byte }
{
    if byte == b'#' {
        Mark::Stamp
    } else if (byte == b'b') | (byte == b'B') {
        Mark::Vector
    } else if byte == b'$' {
        Mark::Command
    } else if (byte == b'r') | (byte == b's') {
        Mark::Skipped
    } else {
        mark_of_state(state_of(byte))
    }
}

#[tactic(auto, unfolding(crate::specs::Words::mark_of_state))]
#[inline(always)]
fn mark_of_state(state: Option<State>) -> Mark
    ensures { result ≡ spec.mark_of_state state }
{
    match state {
        Some(state) => Mark::Scalar(state),
        None => Mark::Nothing,
    }
}
