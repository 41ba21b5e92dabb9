//! Where the signals of a stream are found, and the row that they make.

ghost use Rattle.std.specs.Prelude.{◌≡◌, ◌≤◌, ◌++◌, ℕ, List, length, get_or, true, false, option_map, IfOk, OnOk};
ghost use Rattle.std.specs.List.{list_all};
ghost use Rattle.tydi_base.specs.Bits.{number_of_bits};
ghost use Rattle.vcd_read.specs.Kept.{IsKept};
ghost use Rattle.vcd_read.specs.Probes.{FitsProbe, IsProbed, IsShort, is_told_by, number_by, sample_by, text_by, word_by, words_before};
ghost use Rattle.vcd_read.specs.Sampled.{is_high, is_told, known_bits, makes_row, payload_signals};
ghost use Rattle.vhdl_meaning.specs.Meaning.{transfer_in};

use crate::kept_rows::KeptRows;
use crate::wires::Wires;
use physical_stream::{Params, Row, Transfer, all_lanes};
use std::alloc::Global;
use tydi_base::{Bits, Memory, TryClone};

/// The number of the code of each signal of a stream. None for a signal that the stream lacks.
#[derive(Clone, Copy)]
pub(crate) struct Probe {
    pub(crate) params: Params,
    pub(crate) valid: Option<usize>,
    pub(crate) ready: Option<usize>,
    pub(crate) content: Option<usize>,
    pub(crate) last: Option<usize>,
    pub(crate) stai: Option<usize>,
    pub(crate) endi: Option<usize>,
    pub(crate) strb: Option<usize>,
    pub(crate) user: Option<usize>,
}

/// The word of a signal before the block, where it is of bits.
#[inline(always)]
fn seen(wires: &Wires, number: Option<usize>) -> Option<&Bits>
    ensures { option_map (λ bits. bits.now) result ≡ word_by (words_before wires.now) number }
{
    match number {
        Some(number) => wires.before(number),
        None => None,
    }
}

/// Whether a signal is of bits before the block, or the stream lacks it.
#[inline(always)]
fn is_told(wires: &Wires, number: Option<usize>) -> bool
    ensures { result ≡ is_told_by (words_before wires.now) number }
{
    match number {
        Some(number) => wires.before(number).is_some(),
        None => true,
    }
}

/// Whether a signal is 1 before the block.
#[inline(always)]
fn is_high(wires: &Wires, number: Option<usize>) -> bool
    ensures { result ≡ is_high (word_by (words_before wires.now) number) }
{
    match seen(wires, number) {
        Some(bits) => is_one(bits),
        None => false,
    }
}

/// Whether the lowest bit of a word is 1.
#[inline(always)]
fn is_one(bits: &Bits) -> bool
    ensures { result ≡ get_or bits.now 0 false }
{
    if bits.len() == 0 {
        return false;
    }
    bits.get(0)
}

/// The bits of a signal before the block. No bits where a state is no bit, or the stream lacks the signal.
fn bits_of(alloc: Global, wires: &Wires, number: Option<usize>) -> Result<Bits, Memory>
    ensures { IfOk result (λ bits. bits ≡ known_bits (word_by (words_before wires.now) number)) }
{
    match seen(wires, number) {
        Some(bits) => bits.try_clone(alloc),
        None => Bits::zeros(alloc, 0),
    }
}

/// The number that a word of 128 bits or fewer spells.
fn number_of(bits: &Bits) -> u128
    requires { length bits.now ≤ 128 }
    ensures { result ≡ number_of_bits bits.now }
{
    match bits.number() {
        Some(number) => number,
        None => 0,
    }
}

/// The number that a word of 16 bits or fewer spells.
fn index_of(bits: &Bits) -> u16
    requires { length bits.now ≤ 16 }
    ensures { result ≡ number_of_bits bits.now }
{
    number_of(bits) as u16
}

/// The number that a signal of at most 16 bits is before the block; this one where it has none.
fn index(wires: &Wires, number: Option<usize>, default: u16) -> u16
    requires { IsShort 16 (word_by (words_before wires.now) number) }
    ensures { result ≡ number_by (word_by (words_before wires.now) number) default }
{
    match seen(wires, number) {
        Some(bits) => index_of(bits),
        None => default,
    }
}

/// The number that a signal of at most 128 bits is before the block; this one where it has none.
fn strobe(wires: &Wires, number: Option<usize>, default: u128) -> u128
    requires { IsShort 128 (word_by (words_before wires.now) number) }
    ensures { result ≡ number_by (word_by (words_before wires.now) number) default }
{
    match seen(wires, number) {
        Some(bits) => number_of(bits),
        None => default,
    }
}

/// How many lanes a stream has.
fn lanes_of(params: &Params) -> u16
    ensures value { result ≡ params.now.lanes }
    ensures few { result ≤ 128 }
    ensures some { 1 ≤ result }
{
    params.lanes
}

impl Probe {
    /// Whether valid and ready are bits before the block, and the payload is of bits where it is shown.
    pub(crate) fn makes_row(&self, wires: &Wires) -> bool
        requires { IsProbed self.now }
        ensures { result ≡ makes_row self.now.params (sample_by (words_before wires.now) self.now) }
    {
        let valid = is_told(wires, self.valid);
        let ready = is_told(wires, self.ready);
        let high = is_high(wires, self.valid);
        let payload = self.is_told(wires);
        valid & (ready & (!high | payload))
    }

    /// Whether the payload is of bits before the block.
    fn is_told(&self, wires: &Wires) -> bool
        requires { IsProbed self.now }
        ensures { result ≡ list_all (is_told self.now.params (sample_by (words_before wires.now) self.now)) payload_signals }
    {
        let content = is_told(wires, self.content);
        let last = is_told(wires, self.last);
        let stai = is_told(wires, self.stai);
        let endi = is_told(wires, self.endi);
        let strb = is_told(wires, self.strb);
        let user = is_told(wires, self.user);
        content & (last & (stai & (endi & (strb & user))))
    }

    /// The payload before the block, where it is of bits.
    fn transfer(&self, alloc: Global, wires: &Wires) -> Result<Transfer, Memory>
        requires probed { IsProbed self.now }
        requires fits { FitsProbe (words_before wires.now) self.now }
        requires told { list_all (is_told self.now.params (sample_by (words_before wires.now) self.now)) payload_signals ≡ true }
        ensures { IfOk result (λ t. t ≡ transfer_in self.now.params (λ signal. known_bits (sample_by (words_before wires.now) self.now signal))) }
    {
        let lanes = lanes_of(&self.params);
        let content = bits_of(alloc, wires, self.content)?;
        let last = bits_of(alloc, wires, self.last)?;
        let user = bits_of(alloc, wires, self.user)?;
        let stai = index(wires, self.stai, 0);
        let endi = index(wires, self.endi, lanes - 1);
        let strb = strobe(wires, self.strb, all_lanes(lanes));
        Ok(Transfer {
            content,
            last,
            stai,
            endi,
            strb,
            user,
        })
    }

    /// Adds the row that its signals make at the end of the text.
    pub(crate) fn write_row(
        &self,
        alloc: Global,
        wires: &Wires,
        kept: &mut KeptRows,
    ) -> Result<(), Memory>
        requires probed { IsProbed self.now }
        requires fits { FitsProbe (words_before wires.now) self.now }
        requires makes { makes_row self.now.params (sample_by (words_before wires.now) self.now) ≡ true }
        ensures { OnOk result ((text : List ℕ) → IsKept kept.old text → IsKept kept.new (text ++ text_by (words_before wires.now) self.now)) }
    {
        let ready = is_high(wires, self.ready);
        if !is_high(wires, self.valid) {
            return kept.write(alloc, &self.params, Row { ready, shown: None });
        }
        let transfer = self.transfer(alloc, wires)?;
        let row = Row {
            ready,
            shown: Some(&transfer),
        };
        kept.write(alloc, &self.params, row)
    }
}
