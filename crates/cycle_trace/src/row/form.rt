//! Whether a line has the form of a row of some stream, byte by byte. It is asked only of a line that its own stream did not read,
//! and of one that is longer than any row while it comes. `RowForm::after` is the whole of it: a table with a row for each form.

ghost use Rattle.std.specs.Prelude.{◌≡◌, ◌<◌, ◌||◌, ◌==◌, ℕ, List, [], ◌∷◌, ◌++◌, is_some, slice_index};
ghost use Rattle.tydi_base.specs.Hex.{digit_of};
ghost use Rattle.tydi_base.specs.Pieces.{words_of};
ghost use Rattle.cycle_trace.specs.RowForm.{Goes, IsForm, fits, is_spelled, row_keys, step};
ghost use Rattle.cycle_trace.specs.RowText as spec;
ghost use Rattle.cycle_trace.specs.declared.row.bytes.TheConstants.{ONE_BIT, ZERO_BIT};
ghost use Rattle.cycle_trace.specs.declared.row.form.RowForm.TheVariants as forms;
ghost use Rattle.cycle_trace.specs.declared.row.form.ValueKind.TheVariants as kinds;

use crate::fault::TraceFault;
use crate::row::bytes::{ENDI_KEY, KEYS, ONE_BIT, STAI_KEY, ZERO_BIT};
use tydi_base::{EQUALS, SPACE};

/// The digits that spell the value of a key.
#[derive(Clone, Copy)]
pub(crate) enum ValueKind {
    /// Hexadecimal digits.
    Hex,
    /// A decimal of at most five digits.
    Index,
}

/// How far a line has the form of a row, and so the bytes that may come next. Keys are numbered from 0 in their order, and a form
/// names the first that may come later.
#[derive(Clone, Copy)]
pub(crate) enum RowForm {
    /// The valid bit.
    Valid,
    /// The space after it.
    AfterValid,
    /// The ready bit.
    Ready,
    /// The space after it.
    AfterReady,
    /// `-`, or a signal of any key.
    Payload,
    /// Nothing: the payload is `-`.
    Dash,
    /// A signal of a key from this number on.
    Signal(u8),
    /// The `=` of a signal.
    Sign(u8, ValueKind),
    /// The first digit of a value.
    Value(u8, ValueKind),
    /// A hexadecimal digit more, or the end of the value.
    Hex(u8),
    /// The end of the value, which is `0`.
    Zero(u8),
    /// A decimal digit, so many of them at most, or the end of the value.
    Index(u8, u8),
    /// Nothing: no row of any stream begins so.
    No,
}

impl RowForm {
    /// The form with this byte more.
    pub(crate) fn after(self, byte: u8) -> RowForm
        ensures { Goes self byte result }
    {
        match self {
            RowForm::Valid => step(byte, RowForm::No, is_bit(byte), RowForm::AfterValid),
            RowForm::AfterValid => step(byte, RowForm::Ready, false, RowForm::No),
            RowForm::Ready => step(byte, RowForm::No, is_bit(byte), RowForm::AfterReady),
            RowForm::AfterReady => step(byte, RowForm::Payload, false, RowForm::No),
            RowForm::Payload => after_payload(byte),
            RowForm::Dash => RowForm::No,
            RowForm::Signal(next) => after_signal(next, byte),
            RowForm::Sign(next, kind) => {
                step(
                    byte,
                    RowForm::No,
                    byte == EQUALS,
                    RowForm::Value(next, kind),
                )
            }
            RowForm::Value(next, ValueKind::Hex) => {
                step(byte, RowForm::No, is_hex_digit(byte), RowForm::Hex(next))
            }
            RowForm::Value(next, ValueKind::Index) => after_index(next, byte),
            RowForm::Hex(next) => {
                let end = RowForm::Signal(next);
                step(byte, end, is_hex_digit(byte), RowForm::Hex(next))
            }
            RowForm::Zero(next) => step(byte, RowForm::Signal(next), false, RowForm::No),
            RowForm::Index(next, left) => after_digit(next, left, byte),
            RowForm::No => RowForm::No,
        }
    }

    /// The form after these bytes too.
    pub(crate) fn after_all(self, bytes: &[u8]) -> RowForm
        ensures { (more : List ℕ) → fits result (words_of more) ≡ fits self (words_of (bytes.now ++ more)) }
    {
        let mut form = self;
        'bytes: for byte in bytes {
            form = form.after(*byte);
        }
        form
    }

    /// Whether a line that ends here has the form of a row.
    fn is_whole(self) -> bool
        ensures { result ≡ fits self ([] ∷ []) }
    {
        match self {
            RowForm::Dash | RowForm::Hex(_) | RowForm::Zero(_) | RowForm::Index(_, _) => true,
            RowForm::Valid | RowForm::AfterValid | RowForm::Ready | RowForm::AfterReady => false,
            RowForm::Payload | RowForm::Sign(_, _) | RowForm::No => false,
            RowForm::Signal(_) => false,
            RowForm::Value(_, ValueKind::Hex) | RowForm::Value(_, ValueKind::Index) => false,
        }
    }

    /// Why a line of this number that ends here is no row of its stream.
    pub(crate) fn fault(self, number: u64) -> TraceFault
        ensures { (line : List ℕ) → IsForm self line → result ≡ spec.row_fault number line }
    {
        if self.is_whole() {
            TraceFault::WrongSignals(number)
        } else {
            TraceFault::BadRow(number)
        }
    }
}

/// Why this line, of this number, is no row of its stream.
#[cold]
#[inline(never)]
pub(crate) fn row_fault(number: u64, line: &[u8]) -> TraceFault
    ensures { result ≡ spec.row_fault number line.now }
{
    RowForm::Valid.after_all(line).fault(number)
}

/// The one form after a space, and the other after a byte of which the test holds.
fn step(byte: u8, at_space: RowForm, test: bool, otherwise: RowForm) -> RowForm
    ensures { result ≡ step byte at_space test otherwise }
{
    if byte == SPACE {
        at_space
    } else if test {
        otherwise
    } else {
        RowForm::No
    }
}

/// The form after the first byte of the payload.
fn after_payload(byte: u8) -> RowForm
    ensures { Goes forms.Payload byte result }
{
    if byte == b'-' {
        return RowForm::Dash;
    }
    after_signal(0, byte)
}

/// The form after the first byte of a signal, which is its key.
fn after_signal(next: u8, byte: u8) -> RowForm
    ensures { Goes (forms.Signal next) byte result }
{
    'keys: for key in next..6 {
        if key_at(key) == byte {
            return RowForm::Sign(key + 1, kind_of(byte));
        }
    }
    RowForm::No
}

/// The key of this number.
fn key_at(number: u8) -> u8
    requires { number < 6 }
    ensures { result ≡ slice_index row_keys number }
{
    KEYS[usize::from(number)]
}

/// The kind of the value of this key: stai and endi are decimal, all others hexadecimal.
fn kind_of(key: u8) -> ValueKind
    ensures { (digits : List ℕ) → spec.is_value key digits ≡ is_spelled result digits }
{
    if key == STAI_KEY || key == ENDI_KEY {
        ValueKind::Index
    } else {
        ValueKind::Hex
    }
}

/// The form after the first digit of a decimal.
fn after_index(next: u8, byte: u8) -> RowForm
    ensures { Goes (forms.Value next kinds.Index) byte result }
{
    if byte == b'0' {
        return RowForm::Zero(next);
    }
    step(
        byte,
        RowForm::No,
        byte.is_ascii_digit(),
        RowForm::Index(next, 4),
    )
}

/// The form after a digit of a decimal that is not the first, of which so many may come.
fn after_digit(next: u8, left: u8, byte: u8) -> RowForm
    ensures { Goes (forms.Index next left) byte result }
{
    let end = RowForm::Signal(next);
    if left == 0 {
        return step(byte, end, false, RowForm::No);
    }
    step(
        byte,
        end,
        byte.is_ascii_digit(),
        RowForm::Index(next, left - 1),
    )
}

/// Whether a byte is a bit.
fn is_bit(byte: u8) -> bool
    ensures { result ≡ ((byte == ZERO_BIT) || (byte == ONE_BIT)) }
{
    byte == ZERO_BIT || byte == ONE_BIT
}

/// Whether a byte is a hexadecimal digit, `0` to `9` or `a` to `f`.
#[tactic(auto, unfolding(tydi_base::specs::Hex::digit_of))]
fn is_hex_digit(byte: u8) -> bool
    ensures { result ≡ is_some (digit_of byte) }
{
    (byte >= b'0' && byte <= b'9') || (byte >= b'a' && byte <= b'f')
}
