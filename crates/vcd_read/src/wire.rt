//! The value of a code.

ghost use Rattle.std.specs.Prelude.{◌≡◌, None, option_map};
ghost use Rattle.vcd_read.specs.Wires as spec;

use tydi_base::Bits;

/// A code: its width, and its word now and before the block. None where a state of it is no bit.
#[derive(Drop)]
pub(crate) struct Wire {
    pub(crate) width: u64,
    /// The block of its last change.
    pub(crate) block: u64,
    /// Its word before that block.
    pub(crate) earlier: Option<Bits>,
    /// Its word now.
    pub(crate) current: Option<Bits>,
}

impl Wire {
    /// A code of this width that has not changed.
    pub(crate) fn new(width: u64) -> Wire
        ensures { result ≡ record { width = width; block = 0; earlier = None; current = None } }
    {
        Wire {
            width,
            block: 0,
            earlier: None,
            current: None,
        }
    }

    /// Changes to this word in this block.
    #[inline(always)]
    pub(crate) fn change(&mut self, block: u64, word: Option<Bits>)
        ensures { self.new ≡ spec.changed self.old block word }
    {
        if self.block != block {
            self.earlier = self.current.take();
            self.block = block;
        }
        self.current = word;
    }

    /// Its word before this block, which is the last one.
    #[inline(always)]
    pub(crate) fn before(&self, block: u64) -> Option<&Bits>
        ensures { option_map (λ bits. bits.now) result ≡ spec.word_before self.now block }
    {
        if self.block == block {
            self.earlier.as_ref()
        } else {
            self.current.as_ref()
        }
    }

    /// Its word now.
    #[inline(always)]
    pub(crate) fn now(&self) -> Option<&Bits>
        ensures { option_map (λ bits. bits.now) result ≡ self.now.current }
    {
        self.current.as_ref()
    }
}
