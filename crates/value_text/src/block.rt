//! Words that are written at once.

ghost use Rattle.std.specs.Prelude.{◌≡◌, ◌++◌, [], decimal, MatchBool};

use itoa::write_digits;
use std::marker::Model;
use tydi_base::decimal_length;

/// The bytes that a block holds.
const BLOCK: usize = 256;

/// Numbers in decimal, each after a text, which are written at once. Contracts see the list of their bytes.
#[derive(Drop)]
pub(crate) struct Block {
    bytes: [u8; BLOCK],
    used: usize,
}

impl Model for Block {
    ghost use Rattle.std.specs.Prelude.{List, ℕ, ◌≤◌, take};
    ghost use Rattle.value_text.specs.declared.block.TheConstants.{BLOCK};

    ghost Value = { List ℕ };

    ghost view = { λ block. take block.used block.bytes };

    ghost invariant = { λ block. block.used ≤ BLOCK };
}

impl Block {
    /// A block of nothing.
    pub(crate) fn new() -> Block
        ensures { result ≡ [] }
    {
        Block {
            bytes: [0; BLOCK],
            used: 0,
        }
    }

    /// Adds a number after this text. False where there is no room; then the block is as before.
    pub(crate) fn put(&mut self, between: &[u8], number: u64) -> bool
        ensures { MatchBool result (self.new ≡ self.old ++ (between.now ++ decimal number)) (self.new ≡ self.old) }
    {
        let digits = decimal_length(number) as usize;
        let room = BLOCK - self.used;
        if between.len() > room || digits > room - between.len() {
            return false;
        }
        let start = self.used + between.len();
        self.bytes[self.used..start].copy_from_slice(between);
        self.used = start + digits;
        write_digits(number, &mut self.bytes, self.used);
        true
    }

    /// The bytes.
    pub(crate) fn as_slice(&self) -> &[u8]
        ensures { result.now ≡ self.now }
    {
        &self.bytes[..self.used]
    }
}
