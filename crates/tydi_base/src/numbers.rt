//! The number that bytes of bits spell, and the bytes of a number.

ghost use Rattle.std.specs.Prelude.{◌≡◌, ◌+◌, ◌*◌, ◌/◌, ◌^◌, [], Some, length};
ghost use Rattle.smallvec.specs.SmallVec.{HasRoomFor};
ghost use Rattle.tydi_base.specs.Bits.{bits_of, number_of_bits, unpack};
ghost use Rattle.tydi_base.specs.Decimal.{below};

use smallvec::SmallVec;

/// The number of these bytes, the lowest first. None exactly where it is 2 ^ 128 or more.
pub(crate) fn number_of(bytes: &[u8]) -> Option<u128>
    ensures { result ≡ below (2 ^ 128) (Some (number_of_bits (unpack bytes.now))) }
{
    let mut number: u128 = 0;
    let mut at = bytes.len();
    'bytes: while at > 0 {
        at -= 1;
        number = with_byte(number, bytes[at])?;
    }
    Some(number)
}

// The number with one more byte at its low end, where it fits.
fn with_byte(number: u128, byte: u8) -> Option<u128>
    ensures { result ≡ below (2 ^ 128) (Some (256 * number + byte)) }
{
    number.checked_mul(256)?.checked_add(u128::from(byte))
}

/// Fills this many bytes with the number, the lowest first, and gives what is left above them.
pub(crate) fn push_number(number: u128, count: usize, bytes: &mut SmallVec<u8, 16>) -> u128
    requires empty { bytes.old.items ≡ [] }
    requires room { HasRoomFor bytes.old count }
    ensures bits { unpack bytes.new.items ≡ bits_of (8 * count) number }
    ensures len { length bytes.new.items ≡ count }
    ensures rest { result ≡ number / 2 ^ (8 * count) }
{
    let mut rest = number;
    'bytes: for _ in 0..count {
        bytes.push_reserved((rest % 256) as u8);
        rest /= 256;
    }
    rest
}
