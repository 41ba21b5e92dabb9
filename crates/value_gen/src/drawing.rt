//! Draws, one after another.

ghost use Rattle.std.specs.Prelude.{◌≡◌, ◌+◌, ◌*◌, ◌/◌, [], ◌<◌};
ghost use Rattle.value_gen.specs.Draws.{Makes, bits_from, draw_after, word_drawn};

use std::alloc::Global;
use tydi_base::{Bits, Memory};

/// How many bits a draw has.
const DRAW_BITS: usize = 16;

/// The last draw, below 65,536: at first the seed.
#[derive(Drop)]
pub(crate) struct Drawing {
    pub(crate) alloc: Global,
    pub(crate) last: u32,
    ghost small: { last < 65536 },
}

impl Drawing {
    /// Before the first draw after this seed.
    pub(crate) fn new(alloc: Global, seed: u32) -> Drawing
        requires { seed < 65536 }
        ensures { result.last ≡ seed }
    {
        Drawing { alloc, last: seed }
    }

    /// The next draw.
    pub(crate) fn draw(&mut self) -> u32
        ensures value { result ≡ draw_after self.old.last }
        ensures last { self.new.last ≡ result }
    {
        self.last = (25173 * self.last + 13849) % 65536;
        self.last
    }

    /// A word of this width.
    pub(crate) fn word(&mut self, width: u64) -> Result<Bits, Memory>
        ensures { Makes (word_drawn width self.old.last) result self.new.last }
    {
        let width = width as usize;
        let bits = self.bits(width.div_ceil(DRAW_BITS))?;
        bits.slice(self.alloc, 0, width.min(bits.len()))
    }

    /// The bits of so many draws, the first of them lowest.
    fn bits(&mut self, count: usize) -> Result<Bits, Memory>
        ensures { Makes (bits_from count [] self.old.last) result self.new.last }
    {
        let mut bits = Bits::zeros(self.alloc, 0)?;
        let mut left = count;
        'draws: while left > 0 {
            let part = self.part()?;
            bits.append(self.alloc, &part)?;
            left -= 1;
        }
        Ok(bits)
    }

    /// The bits of the next draw.
    fn part(&mut self) -> Result<Bits, Memory>
        ensures { Makes (bits_from 1 [] self.old.last) result self.new.last }
    {
        let draw = self.draw();
        match Bits::from_number(self.alloc, DRAW_BITS, u128::from(draw))? {
            Some(bits) => Ok(bits),
            None => Err(Memory),
        }
    }
}
