//! Words of bits in binary, the highest bit first.

ghost use Rattle.std.specs.Prelude.{◌≡◌, ◌++◌, IfOk, OnOk, OnErr, length};
ghost use Rattle.std.specs.List.{list_all};
ghost use Rattle.tydi_base.specs.Binary as spec;
ghost use Rattle.tydi_base.specs.Binary.{binary_bits, binary_of, is_binary_digit};

use crate::bits::Bits;
use crate::list::List;
use crate::memory::Memory;
use crate::writing::Written;
use std::alloc::Global;

impl Bits {
    /// The word that these digits spell, the highest first, with a bit for each. None exactly where one of them is neither `0`
    /// nor `1`. `Memory` comes where there is none for the word.
    #[tactic(auto, unfolding(crate::specs::Binary::binary_word))]
    pub fn from_binary(alloc: Global, digits: &[u8]) -> Result<Option<Bits>, Memory>
        ensures { IfOk result (λ read. read ≡ spec.binary_word digits.now) }
    {
        if !are_binary_digits(digits) {
            return Ok(None);
        }
        let mut word = Bits::zeros(alloc, digits.len())?;
        fill_binary(digits, &mut word);
        Ok(Some(word))
    }

    /// The word of this width that these digits spell, the highest first. None exactly where they are not as many, or one of
    /// them is neither `0` nor `1`. `Memory` comes where there is none for the word.
    #[tactic(auto, unfolding(crate::specs::Binary::binary_word_at))]
    pub fn from_exact_binary(
        alloc: Global,
        width: usize,
        digits: &[u8],
    ) -> Result<Option<Bits>, Memory>
        ensures { IfOk result (λ read. read ≡ spec.binary_word_at width digits.now) }
    {
        if digits.len() != width {
            return Ok(None);
        }
        Bits::from_binary(alloc, digits)
    }

    /// Adds its binary at the end, as `Binary` writes it. After `Memory` the list is as before.
    pub fn write_binary(&self, _alloc: Global, out: &mut List<u8>) -> Result<(), Memory>
        ensures ok { OnOk result (out.new ≡ out.old ++ binary_of self.now) }
        ensures err { OnErr result (out.new ≡ out.old) }
    {
        out.emit(&Binary(self))
    }
}

/// A word that is written in binary: a digit for each bit, the highest first.
#[derive(Clone, Copy)]
pub struct Binary<'a>(pub &'a Bits);

impl Written for Binary<'_> {
    ghost text = { λ word. binary_of word.0.now };

    fn write_to(&self, out: &mut List<u8>) -> Result<(), Memory> {
        let mut left = self.0.len();
        'bits: while left > 0 {
            left -= 1;
            out.push(binary_digit(self.0.get(left)))?;
        }
        Ok(())
    }
}

/// The digit of a bit.
fn binary_digit(bit: bool) -> u8
    ensures { result ≡ spec.binary_digit bit }
{
    if bit { b'1' } else { b'0' }
}

/// Whether each of these bytes is `0` or `1`.
fn are_binary_digits(bytes: &[u8]) -> bool
    ensures { result ≡ list_all is_binary_digit bytes.now }
{
    bytes.iter().all(|byte| (*byte == b'0') | (*byte == b'1'))
}

/// Becomes the word of these digits, which are as many as its bits.
fn fill_binary(digits: &[u8], word: &mut Bits)
    requires { length word.old ≡ length digits.now }
    ensures { word.new ≡ binary_bits digits.now }
{
    let mut left = digits.len();
    'digits: for digit in digits {
        left -= 1;
        word.put(left, *digit == b'1');
    }
}

/// A word's spelling is read as that word, and a word is read from its spelling alone.
pub fn binary_is_read_as_spelled()
    ensures spelled { spec.BinaryIsReadAsSpelled }
    ensures read { spec.BinaryIsSpelledAsRead }
{}
