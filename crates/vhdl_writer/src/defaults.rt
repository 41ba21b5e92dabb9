//! The words of signals that a stream lacks.

ghost use Rattle.std.specs.Prelude.{◌≡◌, ◌<◌, ◌^◌, IfOk};
ghost use Rattle.tydi_base.specs.Bits.{bits_of};
ghost use Rattle.vhdl_writer.specs.Architecture as spec;

use crate::signals::width_of;
use physical_stream::{Params, all_lanes};
use signal_layout::Signal;
use std::alloc::Global;
use tydi_base::{Bits, Memory};

/// The word of a signal that a stream lacks, as wide as the signal is here: endi is the last lane, strb all ones, and any other zero.
pub(crate) fn default_word(alloc: Global, params: &Params, signal: Signal) -> Result<Bits, Memory>
    ensures { IfOk result (λ word. word ≡ spec.default_word params.now signal) }
{
    let width = width_of(params, signal) as usize;
    match signal {
        Signal::Endi => number_word(alloc, width, u128::from(params.lanes) - 1),
        Signal::Strb => number_word(alloc, width, all_lanes(params.lanes)),
        Signal::Valid => zero_word(alloc, width),
        Signal::Ready => zero_word(alloc, width),
        Signal::Content => zero_word(alloc, width),
        Signal::Last => zero_word(alloc, width),
        Signal::Stai => zero_word(alloc, width),
        Signal::User => zero_word(alloc, width),
    }
}

/// The word of this width that spells 0.
fn zero_word(alloc: Global, width: usize) -> Result<Bits, Memory>
    ensures { IfOk result (λ word. word ≡ bits_of width 0) }
{
    Bits::zeros(alloc, width)
}

/// The word of this width that spells this number.
fn number_word(alloc: Global, width: usize, number: u128) -> Result<Bits, Memory>
    requires { number < 2 ^ width }
    ensures { IfOk result (λ word. word ≡ bits_of width number) }
{
    match Bits::from_number(alloc, width, number)? {
        Some(word) => Ok(word),
        None => unreachable!(),
    }
}
