ghost use Rattle.std.specs.Prelude.{◌≡◌, ◌↔◌, ◌+◌, ◌*◌, ◌/◌, ◌<◌, not, false, Some, None, get_or, set, drop, length, IsTrue, IfOk, IfSome, Ok, MatchBool, OnOk, OnErr, ◌++◌, ◌-◌, ◌≤◌, take};
ghost use Rattle.std.proofs.Common.{rules};
ghost use Rattle.std.proofs.Math.Bool.{beq};
ghost use Rattle.std.specs.Cmp.Lexicographic.{pointwise};
ghost use Rattle.std.specs.Cmp.Rules.{comparing};
ghost use Rattle.tydi_base.specs.Bits.{bits_of, unpack, written_at, zero_bits, IsPacked};
ghost use Rattle.tydi_base.specs.Hex.{fitted, hex_of, no_ones, word_at};
ghost use Rattle.tydi_base.specs.HexWords.{hex_fault, hex_word};
ghost use Rattle.tydi_base.specs.Reading.{Gives};
ghost use Rattle.tydi_base.specs.Numbers.{number_below, word_of_number};
ghost use Rattle.tydi_base.specs.Writing.{StandsInFront};

use crate::hex::write_digits;
use crate::hex_digits::fill_digits;
use crate::hex_word::{BitsFault, fill_low, hex_fault_of, packed_digits};
use crate::list::List;
use crate::memory::Memory;
use crate::numbers::{number_of, push_number};
use crate::slices::{are_same, copy_bits, copy_bytes};
use crate::try_clone::TryClone;
use crate::writing::Hex;
use smallvec::SmallVec;
use std::alloc::Global;
use std::marker::Model;

/// A word of bits, which contracts see as the list of its bits, lowest first. Words of up to 128 bits take no memory.
#[derive(Debug, Drop)]
pub struct Bits {
    len: usize,
    bytes: SmallVec<u8, 16>,
}

impl Model for Bits {
    ghost use Rattle.std.specs.Prelude.{List, Bool, take};
    ghost use Rattle.std.specs.Coded.{coded_list, coded_bool};
    ghost use Rattle.tydi_base.specs.Bits.{unpack, IsPacked};

    ghost Value = { List Bool };

    ghost coded = { coded_list coded_bool };

    ghost view = { λ bits. take bits.len (unpack bits.bytes.items) };

    ghost invariant = { λ bits. IsPacked bits.len bits.bytes.items };
}

impl Bits {
    /// The word of this width that is all zeros. `Memory` comes where there is none for the word.
    pub fn zeros(alloc: Global, width: usize) -> Result<Bits, Memory>
        ensures { IfOk result (λ bits. bits ≡ zero_bits width) }
    {
        let bytes = SmallVec::from_elem(alloc, 0, width.div_ceil(8))?;
        Ok(Bits { len: width, bytes })
    }

    /// The word of this width that these hexadecimal digits spell, the highest first. None exactly where they are not as many
    /// as spell such a word, one of them is no digit, or a one stands at or above the width. `Memory` comes where there is none for
    /// the word.
    pub fn from_exact_hex(
        alloc: Global,
        width: usize,
        digits: &[u8],
    ) -> Result<Option<Bits>, Memory>
        ensures { IfOk result (λ read. read ≡ word_at width digits.now) }
    {
        if digits.len() != width.div_ceil(4) {
            return Ok(None);
        }
        let mut word = Bits::zeros(alloc, width)?;
        if word.read_sized_hex(digits) {
            Ok(Some(word))
        } else {
            Ok(None)
        }
    }

    /// Becomes the word of its width that these hexadecimal digits spell, the highest first. False exactly where they spell
    /// none, as `from_exact_hex` says; then only its width is as before. It takes no memory.
    pub fn read_exact_hex(&mut self, digits: &[u8]) -> bool
        ensures read { IsTrue result → word_at (length self.old) digits.now ≡ Some self.new }
        ensures none { result ≡ false → word_at (length self.old) digits.now ≡ None }
        ensures width { length self.new ≡ length self.old }
    {
        if digits.len() != self.len.div_ceil(4) {
            return false;
        }
        self.read_sized_hex(digits)
    }

    /// The same of as many digits as spell a word of its width.
    #[inline(always)]
    pub fn read_sized_hex(&mut self, digits: &[u8]) -> bool
        requires sized { length digits.now ≡ (length self.old + 3) / 4 }
        ensures read { IsTrue result → word_at (length self.old) digits.now ≡ Some self.new }
        ensures none { result ≡ false → word_at (length self.old) digits.now ≡ None }
        ensures width { length self.new ≡ length self.old }
    {
        fill_or_clear(self.len, digits, self.bytes.as_mut_slice())
    }

    /// The word of this width that these hexadecimal digits spell, the highest first: any number of them, and none are zero. It
    /// fails with the first byte that is no digit; else with the highest one at or above the width; and with `Memory`.
    pub fn from_hex(alloc: Global, width: usize, digits: &[u8]) -> Result<Bits, BitsFault>
        ensures { Gives hex_fault (λ bits. bits) result (hex_word width digits.now) }
    {
        if digits.len() > width.div_ceil(4) {
            return Bits::from_any_hex(alloc, width, digits);
        }
        match Bits::from_few_hex(alloc, width, digits) {
            Ok(Some(word)) => Ok(word),
            Ok(None) => Bits::from_any_hex(alloc, width, digits),
            Err(Memory) => Err(BitsFault::Memory),
        }
    }

    // The word of digits that are no more than spell a word of this width. None where they spell none.
    fn from_few_hex(alloc: Global, width: usize, digits: &[u8]) -> Result<Option<Bits>, Memory>
        requires { length digits.now ≤ (width + 3) / 4 }
        ensures { IfOk result (λ read. IfSome read (λ bits. hex_word width digits.now ≡ Ok bits)) }
    {
        let mut bytes = SmallVec::from_elem(alloc, 0, width.div_ceil(8))?;
        if !fill_low(digits, bytes.as_mut_slice()) {
            return Ok(None);
        }
        Ok(fitted(width, bytes))
    }

    // What `from_hex` gives, whose fault is found first.
    fn from_any_hex(alloc: Global, width: usize, digits: &[u8]) -> Result<Bits, BitsFault>
        ensures { Gives hex_fault (λ bits. bits) result (hex_word width digits.now) }
    {
        if let Some(fault) = hex_fault_of(width, digits) {
            return Err(fault);
        }
        match packed_digits(alloc, width, digits) {
            Ok(bytes) => Ok(Bits { len: width, bytes }),
            Err(Memory) => Err(BitsFault::Memory),
        }
    }

    /// Its width: how many bits it has.
    pub fn len(&self) -> usize
        ensures { result ≡ length self.now }
    {
        self.len
    }

    /// The bit at this place, from the lowest.
    #[inline(always)]
    pub fn get(&self, index: usize) -> bool
        requires { index < length self.now }
        ensures { result ≡ get_or self.now index false }
    {
        bit_at(self.bytes.as_slice(), index)
    }

    /// Writes the bit at this place, from the lowest.
    pub fn put(&mut self, index: usize, bit: bool)
        requires { index < length self.old }
        ensures { self.new ≡ set self.old index bit }
    {
        put_at(self.bytes.as_mut_slice(), index, bit);
    }

    /// Becomes a copy of this word, which is as wide. It takes no memory.
    #[inline(always)]
    pub fn copy_from(&mut self, from: &Bits)
        requires { length self.old ≡ length from.now }
        ensures { self.new ≡ from.now }
    {
        let bytes = self.bytes.as_mut_slice();
        copy_bytes(bytes, from.bytes.as_slice());
    }

    /// Becomes the bits of this word from a place on, as many as it has. It takes no memory.
    pub fn copy_part(&mut self, from: &Bits, offset: usize)
        requires { offset + length self.old ≤ length from.now }
        ensures { self.new ≡ take (length self.old) (drop offset from.now) }
    {
        let width = self.len();
        self.copy_bits(0, from, offset, width);
    }

    /// Writes this word in place of the bits from a place on. It takes no memory.
    pub fn put_word(&mut self, offset: usize, word: &Bits)
        requires { offset + length word.now ≤ length self.old }
        ensures { self.new ≡ take offset self.old ++ word.now ++ drop (offset + length word.now) self.old }
    {
        self.copy_bits(offset, word, 0, word.len());
    }

    // Writes so many bits of another word, from a place on, in place of those from a place of this word on.
    fn copy_bits(&mut self, at: usize, source: &Bits, from: usize, count: usize)
        requires room { at + count ≤ length self.old }
        requires within { from + count ≤ length source.now }
        ensures { self.new ≡ written_at at (take count (drop from source.now)) self.old }
    {
        prove!(count <= source.len - from);
        let bytes = self.bytes.as_mut_slice();
        copy_bits(bytes, at, source.bytes.as_slice(), from, count);
    }

    /// The bits from one place up to another, as a word. `Memory` comes where there is none for the word.
    pub fn slice(&self, alloc: Global, from: usize, to: usize) -> Result<Bits, Memory>
        requires order { from ≤ to }
        requires within { to ≤ length self.now }
        ensures { IfOk result (λ bits. bits ≡ take (to - from) (drop from self.now)) }
    {
        let mut part = Bits::zeros(alloc, to - from)?;
        part.copy_part(self, from);
        Ok(part)
    }

    /// Adds the bits of another word above its own. After `Memory` it is as before.
    pub fn append(&mut self, _alloc: Global, more: &Bits) -> Result<(), Memory>
        ensures ok { OnOk result (self.new ≡ self.old ++ more.now) }
        ensures err { OnErr result (self.new ≡ self.old) }
    {
        let offset = self.len();
        self.widen(more.len())?;
        self.put_word(offset, more);
        Ok(())
    }

    // Adds so many zeros above its bits. After `Memory` it is as before.
    fn widen(&mut self, count: usize) -> Result<(), Memory>
        ensures ok { OnOk result (self.new ≡ self.old ++ zero_bits count) }
        ensures err { OnErr result (self.new ≡ self.old) }
    {
        let Some(width) = self.len.checked_add(count) else {
            return Err(Memory);
        };
        self.bytes.resize(width.div_ceil(8), 0)?;
        self.len = width;
        Ok(())
    }

    /// The number that it spells. None exactly where a one stands at index 128 or above.
    pub fn number(&self) -> Option<u128>
        ensures { result ≡ number_below u128.BITS self.now }
    {
        number_of(self.bytes.as_slice())
    }

    /// The word of this width that spells this number. None exactly where the number has a one at or above the width. `Memory`
    /// comes where there is none for the word.
    pub fn from_number(alloc: Global, width: usize, number: u128) -> Result<Option<Bits>, Memory>
        ensures { IfOk result (λ made. made ≡ word_of_number width number) }
    {
        let count = width.div_ceil(8);
        let mut bytes = SmallVec::with_capacity(alloc, count)?;
        if push_number(number, count, &mut bytes) != 0 {
            return Ok(None);
        }
        Ok(fitted(width, bytes))
    }

    /// Adds its hexadecimal at the end, as `Hex` writes it. After `Memory` the list is as before.
    pub fn write_hex(&self, _alloc: Global, out: &mut List<u8>) -> Result<(), Memory>
        ensures ok { OnOk result (out.new ≡ out.old ++ hex_of self.now) }
        ensures err { OnErr result (out.new ≡ out.old) }
    {
        out.emit(&Hex(self))
    }

    /// Adds its hexadecimal at the end. After `Memory` a front of it may stand there.
    pub(crate) fn write_digits(&self, out: &mut List<u8>) -> Result<(), Memory>
        ensures ok { OnOk result (out.new ≡ out.old ++ hex_of self.now) }
        ensures err { OnErr result (StandsInFront out.old out.new) }
    {
        write_digits(self.bytes.as_slice(), self.len.div_ceil(4), out)
    }
}

/// The bit at this place in bytes.
#[inline(always)]
pub(crate) fn bit_at(bytes: &[u8], index: usize) -> bool
    requires { index < 8 * length bytes.now }
    ensures { result ≡ get_or (unpack bytes.now) index false }
{
    let from = bytes[index / 8] >> (index % 8);
    from % 2 == 1
}

// A byte with its bit at this place written, from the lowest.
fn with_bit(byte: u8, place: usize, bit: bool) -> u8
    requires { place < 8 }
    ensures { bits_of 8 result ≡ set (bits_of 8 byte) place bit }
{
    let from = byte >> place;
    let below = byte - (from << place);
    let written = from - from % 2 + bit as u8;
    (written << place) + below
}

/// Writes the bit at this place in bytes.
pub(crate) fn put_at(bytes: &mut [u8], index: usize, bit: bool)
    requires { index < 8 * length bytes.old }
    ensures { unpack bytes.new ≡ set (unpack bytes.old) index bit }
{
    bytes[index / 8] = with_bit(bytes[index / 8], index % 8, bit);
}

// Whether a one stands at or above this width in the bytes of a word.
#[inline(always)]
fn has_ones_from(width: usize, bytes: &[u8]) -> bool
    requires { length bytes.now ≡ (width + 7) / 8 }
    ensures { result ≡ not (no_ones (drop width (unpack bytes.now))) }
{
    if bytes.len() == 1 {
        return has_ones_in(width, bytes);
    }
    let used = width % 8;
    if used == 0 {
        return false;
    }
    let above = bytes[width / 8] >> used;
    above != 0
}

// The same of a word of one byte.
#[inline(always)]
fn has_ones_in(width: usize, bytes: &[u8]) -> bool
    requires one { length bytes.now ≡ 1 }
    requires bytes { length bytes.now ≡ (width + 7) / 8 }
    ensures { result ≡ not (no_ones (drop width (unpack bytes.now))) }
{
    u32::from(bytes[0]) >> width != 0
}

// Fills the bytes of a word of this width with the word that as many digits spell, or with zeros. False where they spell none.
#[inline(always)]
fn fill_or_clear(width: usize, digits: &[u8], bytes: &mut [u8]) -> bool
    requires bytes { length bytes.old ≡ (width + 7) / 8 }
    requires digits { length digits.now ≡ (width + 3) / 4 }
    ensures packed { IsPacked width bytes.new }
    ensures word { MatchBool result (word_at width digits.now ≡ Some (take width (unpack bytes.new))) (word_at width digits.now ≡ None) }
{
    let spelled = fill_word(width, digits, bytes);
    if !spelled {
        bytes.fill(0);
    }
    spelled
}

// Fills the bytes of a word of this width with the word that as many digits spell. False where they spell none.
#[inline(always)]
fn fill_word(width: usize, digits: &[u8], bytes: &mut [u8]) -> bool
    requires bytes { length bytes.old ≡ (width + 7) / 8 }
    requires digits { length digits.now ≡ (width + 3) / 4 }
    ensures packed { IsTrue result → IsPacked width bytes.new }
    ensures word { MatchBool result (word_at width digits.now ≡ Some (take width (unpack bytes.new))) (word_at width digits.now ≡ None) }
{
    if !fill_digits(digits, bytes) {
        return false;
    }
    !has_ones_from(width, bytes)
}

// These bytes as a word of this width. None where a one stands at or above the width.
fn fitted(width: usize, bytes: SmallVec<u8, 16>) -> Option<Bits>
    requires { length bytes.items ≡ (width + 7) / 8 }
    ensures { result ≡ fitted width (unpack bytes.items) }
{
    if has_ones_from(width, bytes.as_slice()) {
        None
    } else {
        Some(Bits { len: width, bytes })
    }
}

impl TryClone for Bits {
    fn try_clone(&self, alloc: Global) -> Result<Bits, Memory> {
        Ok(Bits {
            len: self.len,
            bytes: SmallVec::from_slice(alloc, self.bytes.as_slice())?,
        })
    }
}

impl PartialEq for Bits {
    ghost eq = { pointwise beq };

    ghost laws = { Prim.search (comparing, rules) };

    /// Whether it is the same word: as wide, and with the same bits.
    #[inline(always)]
    fn eq(&self, other: &Bits) -> bool
        ensures eq { result ≡ pointwise beq self.now other.now }
        ensures same { IsTrue result ↔ (self.now ≡ other.now) }
    {
        let bytes = self.bytes.as_slice();
        let others = other.bytes.as_slice();
        self.len == other.len && are_same(bytes, others)
    }
}

impl Eq for Bits {
    ghost laws = { Prim.search (comparing, rules) };
}
