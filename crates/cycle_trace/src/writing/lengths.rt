//! How long the texts of a trace are, by their parts: nothing is written for it.

ghost use Rattle.std.specs.Prelude.{◌≡◌, ◌+◌, ◌^◌, ◌<◌, ◌≤◌, length, min, is_some, if◌then◌else◌, IfSome, IsTrue, Some};
ghost use Rattle.physical_stream.specs.Cycles.{cycle_in};
ghost use Rattle.physical_stream.specs.Signals.{Shows};
ghost use Rattle.tydi_base.specs.Lengths.{most_bytes};
ghost use Rattle.physical_stream.specs.StreamLine.{head_text};
ghost use Rattle.cycle_trace.specs.Spelling.{header_text, payload_words, row_text, transfer_words};
ghost use Rattle.cycle_trace.specs.Trace.{are_heads, most_cycles};
ghost use Rattle.cycle_trace.specs.Version.{version_of};
ghost use Rattle.cycle_trace.specs.Writing.{spaced};

use physical_stream::{Head, Header, Params, Row, Transfer};
use signal_layout::Signals;
use tydi_base::{decimal_length, hex_length};

/// How many bytes `write_header` adds; `u64::MAX` where they are more, which no memory holds.
pub fn header_length(header: &Header) -> u64
    requires few_cycles { header.now.cycles ≤ most_cycles }
    requires streams { IsTrue (are_heads header.now.heads) }
    ensures { result ≡ min (length (header_text (version_of header.now.heads) header.now.cycles header.now.heads)) most_bytes }
{
    let mut length = 21 + decimal_length(u64::from(header.cycles));
    'heads: for head in header.heads.as_slice() {
        length = length.saturating_add(head_length(head));
    }
    length
}

/// How many bytes the line of a stream has; `u64::MAX` where they are more, which no memory holds.
pub fn head_length(head: &Head) -> u64
    ensures { result ≡ min (length (head_text head.now)) most_bytes }
{
    let p = &head.params;
    let lanes = decimal_length(u64::from(p.lanes));
    let dims = decimal_length(u64::from(p.dims));
    let level = p.level.text_length();
    let element = decimal_length(u64::from(p.element));
    let user = decimal_length(u64::from(p.user));
    head.path
        .dotted_length()
        .saturating_add(51 + lanes + dims + level + element + user)
}

/// How many bytes `write_row` adds.
pub fn row_length(params: &Params, row: Row<'_>) -> u64
    requires shown { IfSome (cycle_in row).shown (Shows params.now) }
    ensures { result ≡ length (row_text params.now (cycle_in row.entry)) }
{
    match row.shown {
        Some(transfer) => 4 + payload_length(params, transfer),
        None => 6,
    }
}

/// How many bytes the words of what is shown have, with a space before each.
fn payload_length(params: &Params, transfer: &Transfer) -> u64
    requires { Shows params.now transfer.now }
    ensures bytes { result ≡ length (spaced (payload_words params.now (Some transfer.now))) }
    ensures few { result + 4 < 2 ^ 64 }
{
    let signals = signals_length(params, transfer);
    if signals == 0 { 2 } else { signals }
}

/// How many bytes the signals of a transfer have, with a space before each.
fn signals_length(params: &Params, transfer: &Transfer) -> u64
    requires { Shows params.now transfer.now }
    ensures bytes { result ≡ length (spaced (transfer_words params.now transfer.now)) }
    ensures few { result + 4 < 2 ^ 64 }
{
    let widths = Signals::of(params);
    let content = signal_length(widths.content, hex_length(transfer.content.len()));
    let last = signal_length(widths.last, hex_length(transfer.last.len()));
    let stai = signal_length(widths.stai, decimal_length(u64::from(transfer.stai)));
    let endi = signal_length(widths.endi, decimal_length(u64::from(transfer.endi)));
    let strb = signal_length(widths.strb, hex_length(usize::from(params.lanes)));
    let user = signal_length(widths.user, hex_length(transfer.user.len()));
    content + last + stai + endi + strb + user
}

/// How many bytes a signal has whose value has so many digits: its key and `=`, with a space before them. None where it has no width.
fn signal_length(width: Option<u32>, digits: u64) -> u64
    requires { digits ≤ 2 ^ 62 }
    ensures { result ≡ (if is_some width then 3 + digits else 0) }
{
    if width.is_some() { 3 + digits } else { 0 }
}
