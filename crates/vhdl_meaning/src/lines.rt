ghost use Rattle.std.specs.Prelude.{◌≡◌, ◌-◌, ◌^◌, ◌≤◌, if◌then◌else◌, length, IfOk};
ghost use Rattle.physical_stream.specs.Signals.{Fits, has_endi, has_strb};
ghost use Rattle.tydi_base.specs.Bits.{number_of_bits, zero_bits};
ghost use Rattle.vhdl_meaning.specs.Lines.{CanPut, put_line, zero_lines};

use physical_stream::{Params, Transfer, all_lanes};
use signal_layout::{Signal, Signals};
use std::alloc::Global;
use tydi_base::{Bits, Memory};

/// The signals of a stream that its source drives, as they are now. A payload signal that the stream lacks stands at its default.
#[derive(Drop)]
pub struct Lines {
    pub valid: bool,
    pub held: Transfer,
}

// The number that a word of 128 bits or fewer spells.
fn number_of(bits: &Bits) -> u128
    requires { length bits.now ≤ 128 }
    ensures { result ≡ number_of_bits bits.now }
{
    match bits.number() {
        Some(number) => number,
        None => 0,
    }
}

// The number that a word of 16 bits or fewer spells.
fn index_of(bits: &Bits) -> u16
    requires { length bits.now ≤ 16 }
    ensures { result ≡ number_of_bits bits.now }
{
    number_of(bits) as u16
}

// Zero, or the last lane where the stream lacks endi.
fn endi_at_start(p: &Params) -> u16
    ensures { result ≡ if has_endi p.now then 0 else p.now.lanes - 1 }
{
    match Signals::of(p).width(Signal::Endi) {
        Some(_) => 0,
        None => p.lanes - 1,
    }
}

// Zero, or a one for each lane where the stream lacks strb.
fn strb_at_start(p: &Params) -> u128
    ensures { result ≡ if has_strb p.now then 0 else 2 ^ p.now.lanes - 1 }
{
    match Signals::of(p).width(Signal::Strb) {
        Some(_) => 0,
        None => all_lanes(p.lanes),
    }
}

// All bits of the word become 0.
fn clear(word: &mut Bits)
    ensures { word.new ≡ zero_bits (length word.old) }
{
    'bits: for place in 0..word.len() {
        word.put(place, false);
    }
}

impl Lines {
    /// The signals of this stream with all their bits 0.
    pub fn zeros(alloc: Global, p: &Params) -> Result<Lines, Memory>
        ensures { IfOk result (λ lines. lines ≡ zero_lines p.now) }
    {
        let mut held = Transfer::zero(alloc, p)?;
        held.endi = endi_at_start(p);
        held.strb = strb_at_start(p);
        Ok(Lines { valid: false, held })
    }

    /// The signals of this stream go back to where `zeros` begins. It takes no memory.
    pub fn clear(&mut self, p: &Params)
        requires { Fits p.now self.old.held }
        ensures { self.new ≡ zero_lines p.now }
    {
        self.valid = false;
        clear(&mut self.held.content);
        clear(&mut self.held.last);
        clear(&mut self.held.user);
        self.held.stai = 0;
        self.held.endi = endi_at_start(p);
        self.held.strb = strb_at_start(p);
    }

    /// Assigns the word to the signal. It takes no memory.
    pub fn put(&mut self, signal: Signal, bits: &Bits)
        requires { CanPut signal bits.now self.old }
        ensures { self.new ≡ put_line signal bits.now self.old }
    {
        match signal {
            Signal::Valid => self.valid = bits.get(0),
            Signal::Ready => {}
            Signal::Content => self.held.content.copy_from(bits),
            Signal::Last => self.held.last.copy_from(bits),
            Signal::Stai => self.held.stai = index_of(bits),
            Signal::Endi => self.held.endi = index_of(bits),
            Signal::Strb => self.held.strb = number_of(bits),
            Signal::User => self.held.user.copy_from(bits),
        }
    }
}
