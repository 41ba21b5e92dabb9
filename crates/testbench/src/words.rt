//! The words that a process assigns to signals.

ghost use Rattle.std.specs.Prelude.{◌≡◌, ◌<◌, ◌^◌, IfOk};
ghost use Rattle.tydi_base.specs.Bits.{bits_of};
ghost use Rattle.tydi_base.specs.Width.{index_width};
ghost use Rattle.physical_stream.specs.Signals.{Fits};
ghost use Rattle.testbench.specs.Driving.{word_of};

use physical_stream::{Params, Transfer};
use signal_layout::Signal;
use std::alloc::Global;
use tydi_base::{Bits, Memory, TryClone, index_width};

/// The word of a number that this many bits are enough for.
fn number_word(alloc: Global, width: u32, number: u128) -> Result<Bits, Memory>
    requires { number < 2 ^ width }
    ensures { IfOk result (λ bits. bits ≡ bits_of width number) }
{
    match Bits::from_number(alloc, width as usize, number)? {
        Some(bits) => Ok(bits),
        None => unreachable!(),
    }
}

/// The word of the number of a lane.
fn index_word(alloc: Global, p: &Params, lane: u16) -> Result<Bits, Memory>
    requires { lane < 2 ^ index_width p.now.lanes }
    ensures { IfOk result (λ bits. bits ≡ bits_of (index_width p.now.lanes) lane) }
{
    number_word(alloc, index_width(u64::from(p.lanes)), u128::from(lane))
}

/// The word of the strobe bits.
fn strobe_word(alloc: Global, p: &Params, strb: u128) -> Result<Bits, Memory>
    requires { strb < 2 ^ p.now.lanes }
    ensures { IfOk result (λ bits. bits ≡ bits_of p.now.lanes strb) }
{
    number_word(alloc, u32::from(p.lanes), strb)
}

/// The word of a payload signal of a transfer, and no bits for valid and ready.
pub(crate) fn word_of(
    alloc: Global,
    p: &Params,
    transfer: &Transfer,
    signal: Signal,
) -> Result<Bits, Memory>
    requires { Fits p.now transfer.now }
    ensures { IfOk result (λ bits. bits ≡ word_of p.now transfer.now signal) }
{
    match signal {
        Signal::Valid => Bits::zeros(alloc, 0),
        Signal::Ready => Bits::zeros(alloc, 0),
        Signal::Content => transfer.content.try_clone(alloc),
        Signal::Last => transfer.last.try_clone(alloc),
        Signal::Stai => index_word(alloc, p, transfer.stai),
        Signal::Endi => index_word(alloc, p, transfer.endi),
        Signal::Strb => strobe_word(alloc, p, transfer.strb),
        Signal::User => transfer.user.try_clone(alloc),
    }
}
