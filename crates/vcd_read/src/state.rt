//! States of one bit of a signal.

ghost use Rattle.std.specs.Prelude.{◌≡◌};
ghost use Rattle.vcd_read.specs.Words as spec;

/// The state of one bit (IEEE 1364: 0, 1, x and z).
#[derive(Clone, Copy)]
pub(crate) enum State {
    Low,
    High,
    Unknown,
    Floating,
}

/// The state that a letter stands for. The letters of IEEE 1164 beside `0 1 x z` are read too.
#[tactic(auto, unfolding(crate::specs::Words::state_of))]
#[inline(always)]
pub(crate) fn state_of(byte: u8) -> Option<State>
    ensures { result ≡ spec.state_of byte }
{
    if is_low(byte) {
        Some(State::Low)
    } else if is_high(byte) {
        Some(State::High)
    } else if is_unknown(byte) {
        Some(State::Unknown)
    } else if is_floating(byte) {
        Some(State::Floating)
    } else {
        None
    }
}

#[inline(always)]
fn is_low(byte: u8) -> bool
    ensures { result ≡ spec.is_low byte }
{
    (byte == b'0') | (byte == b'l') | (byte == b'L')
}

#[inline(always)]
fn is_high(byte: u8) -> bool
    ensures { result ≡ spec.is_high byte }
{
    (byte == b'1') | (byte == b'h') | (byte == b'H')
}

#[inline(always)]
fn is_unknown(byte: u8) -> bool
    ensures { result ≡ spec.is_unknown byte }
{
    (byte == b'x')
        | (byte == b'X')
        | (byte == b'u')
        | (byte == b'U')
        | (byte == b'w')
        | (byte == b'W')
        | (byte == b'-')
}

#[inline(always)]
fn is_floating(byte: u8) -> bool
    ensures { result ≡ spec.is_floating byte }
{
    (byte == b'z') | (byte == b'Z')
}
