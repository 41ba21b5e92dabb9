//! Texts of traces, written: a header, and then row after row.

ghost use Rattle.std.specs.Prelude.{◌≡◌, ◌≤◌, ◌<◌, ◌^◌, ◌++◌, IsTrue, IfOk, IfSome, OnOk, OnErr};
ghost use Rattle.std.specs.List.{flat_map};
ghost use Rattle.std.specs.Option.{is_some};
ghost use Rattle.tydi_base.specs.Bits.{bits_of};
ghost use Rattle.tydi_base.specs.Writing.{StandsInFront};
ghost use Rattle.physical_stream.specs.Cycles.{cycle_in};
ghost use Rattle.physical_stream.specs.Signals.{Shows};
ghost use Rattle.physical_stream.specs.StreamLine.{head_text};
ghost use Rattle.cycle_trace.specs.Spelling.{bit_text, header_text, or_dash, row_text, signal_words, words_of_signals};
ghost use Rattle.cycle_trace.specs.Trace.{are_heads, most_cycles};
ghost use Rattle.cycle_trace.specs.Version.{version_of};
ghost use Rattle.cycle_trace.specs.Writing.{spaced};

use crate::row::bytes::{DATA_KEY, ENDI_KEY, LAST_KEY, STAI_KEY, STRB_KEY, USER_KEY};
use crate::version::Version;
use physical_stream::{Head, Header, Params, Row, StreamLine, Transfer};
use signal_layout::Signals;
use std::alloc::Global;
use tydi_base::{Bits, EQUALS, Hex, List, Memory, SPACE, Written, emit};

pub(crate) mod lengths;

/// Adds the text of a header at the end: version 1 where each of its levels has one number, else version 2. After `Memory` the
/// list is as before.
pub fn write_header(_alloc: Global, out: &mut List<u8>, header: &Header) -> Result<(), Memory>
    requires few_cycles { header.now.cycles ≤ most_cycles }
    requires streams { IsTrue (are_heads header.now.heads) }
    ensures ok { OnOk result (out.new ≡ out.old ++ header_text (version_of header.now.heads) header.now.cycles header.now.heads) }
    ensures err { OnErr result (out.new ≡ out.old) }
{
    let title = Version::of(header.heads.as_slice()).title();
    emit!(out; title, "\ncycles ", header.cycles, "\n", StreamLines(header.heads.as_slice()))
}

/// The lines of streams.
#[derive(Clone, Copy)]
struct StreamLines<'a>(&'a [Head]);

impl Written for StreamLines<'_> {
    ghost text = { λ lines. flat_map head_text lines.0.now };

    fn write_to(&self, out: &mut List<u8>) -> Result<(), Memory> {
        'heads: for head in self.0 {
            out.emit(&StreamLine {
                path: &head.path,
                params: &head.params,
                reversed: head.reversed,
            })?;
        }
        Ok(())
    }
}

/// Adds the line of a row of this stream at the end. After `Memory` the list is as before.
pub fn write_row(
    alloc: Global,
    out: &mut List<u8>,
    params: &Params,
    row: Row<'_>,
) -> Result<(), Memory>
    requires shown { IfSome (cycle_in row).shown (Shows params.now) }
    ensures ok { OnOk result (out.new ≡ out.old ++ row_text params.now (cycle_in row.entry)) }
    ensures err { OnErr result (out.new ≡ out.old) }
{
    let Some(transfer) = row.shown else {
        return emit!(out; "0 ", bit_digit(row.ready), " -\n");
    };
    let strb = strobe_bits(alloc, params.lanes, transfer.strb)?;
    emit!(out; "1 ", bit_digit(row.ready), Payload { params, transfer, strb: &strb }, "\n")
}

fn bit_digit(bit: bool) -> &'static str
    ensures { result.now ≡ bit_text bit }
{
    if bit { "1" } else { "0" }
}

/// The word of the strobe bits of so many lanes.
fn strobe_bits(alloc: Global, lanes: u16, strb: u128) -> Result<Bits, Memory>
    requires { strb < 2 ^ lanes }
    ensures { IfOk result (λ bits. bits ≡ bits_of lanes strb) }
{
    match Bits::from_number(alloc, usize::from(lanes), strb)? {
        Some(bits) => Ok(bits),
        None => unreachable!(),
    }
}

/// The part of a row that shows a transfer: the words of its signals, or `-` where it has none, a space before each.
#[derive(Clone, Copy)]
struct Payload<'a> {
    params: &'a Params,
    transfer: &'a Transfer,
    /// The strobe bits of the transfer.
    strb: &'a Bits,
}

impl Written for Payload<'_> {
    ghost text = { λ shown. spaced (or_dash (words_of_signals shown.params.now shown.transfer.now shown.strb.now)) };

    fn write_to(&self, out: &mut List<u8>) -> Result<(), Memory> {
        let len = out.len();
        self.write_signals(out)?;
        if out.len() == len {
            return emit!(out; " -");
        }
        Ok(())
    }
}

impl Payload<'_> {
    /// Adds the words of the signals that the stream has, a space before each.
    fn write_signals(&self, out: &mut List<u8>) -> Result<(), Memory>
        ensures ok { OnOk result (out.new ≡ out.old ++ spaced (words_of_signals self.now.params.now self.now.transfer.now self.now.strb.now)) }
        ensures err { OnErr result (out.new ≡ out.old) }
    {
        let widths = Signals::of(self.params);
        let transfer = self.transfer;
        emit!(
            out;
            SignalWord { width: widths.content, key: DATA_KEY, value: Hex(&transfer.content) },
            SignalWord { width: widths.last, key: LAST_KEY, value: Hex(&transfer.last) },
            SignalWord { width: widths.stai, key: STAI_KEY, value: transfer.stai },
            SignalWord { width: widths.endi, key: ENDI_KEY, value: transfer.endi },
            SignalWord { width: widths.strb, key: STRB_KEY, value: Hex(self.strb) },
            SignalWord { width: widths.user, key: USER_KEY, value: Hex(&transfer.user) },
        )
    }
}

/// A signal after a space: its key, `=` and its value. Nothing is written where it has no width.
#[derive(Clone, Copy)]
struct SignalWord<T> {
    width: Option<u32>,
    key: u8,
    value: T,
}

impl<T: Written> Written for SignalWord<T> {
    ghost text = { λ signal. spaced (signal_words (is_some signal.width) signal.key (T.text signal.value)) };

    fn write_to(&self, out: &mut List<u8>) -> Result<(), Memory> {
        if self.width.is_none() {
            return Ok(());
        }
        out.extend_from_slice(&[SPACE, self.key, EQUALS])?;
        self.value.write_to(out)
    }
}
