//! Calls of the layers below the tool, by tables whose answers were found by hand, each with ample memory. A row has two texts that are
//! handed in, and the text of its result. A call that should not come to this ends in `Memory`, which no row expects.

use crate::{
    architectures, checkers, decodes, fractions, levels, links, nests, plan_texts, readings, runs,
    schedules, splits, streams, tokens, traces, traces_written, values, vhdl_texts, views, words,
};
use std::alloc::Global;
use std::process::Abort;
use tydi_base::{List, Memory, read_decimal};

/// A call.
pub(crate) enum Call {
    Fraction,
    Product,
    Decimal,
    Piece,
    Name,
    Path,
    Compared,
    Written,
    Width,
    Ones,
    Digits,
    Numbered,
    Joined,
    Overwritten,
    Limit,
    Items,
    Copy,
    Pause,
    Start,
    Ended,
    Series,
    Trace,
    WrittenHeader,
    Tokens,
    Counted,
    Sink,
    Split,
    Unpacked,
    Fitting,
    Viewed,
    Decoded,
    Level,
    WideNumber,
    Binary,
    Plan,
    Schedule,
    Cycles,
    Architectures,
    Bench,
}

/// The first word of a text, and what comes after the space.
pub(crate) fn cut(text: &str) -> (&str, &str) {
    text.split_once(' ').unwrap_or((text, ""))
}

/// The number that digits spell, or the greatest.
pub(crate) fn number(digits: &str) -> u64 {
    read_decimal(digits.as_bytes()).unwrap_or(u64::MAX)
}

/// The number of two bytes that digits spell.
pub(crate) fn small(digits: &str) -> u16 {
    (number(digits) % 65536) as u16
}

/// The number of one byte that digits spell.
pub(crate) fn byte(digits: &str) -> u8 {
    (number(digits) % 256) as u8
}

/// Makes the call of each row of a table with so many, and compares its result.
pub(crate) fn check_calls(
    rt: &(impl Abort + AllocGlobal),
    call: &Call,
    rows: &[(&str, &str, &str)],
    count: usize,
) {
    let mut made = 0usize;
    for (first, second, wanted) in rows {
        assert!(rt;
            is_right(rt.alloc(), call, first, second, wanted),
            "{first} {second}"
        );
        made = made.saturating_add(1);
    }
    assert!(rt; made == count, "{made} rows");
}

// Whether a call has this result, and the result with a byte more is seen to be another.
fn is_right(alloc: Global, call: &Call, first: &str, second: &str, wanted: &str) -> bool {
    let mut told = List::new(alloc);
    let is_told = tell(alloc, call, first, second, &mut told).is_ok();
    let is_wanted = told.as_slice() == wanted.as_bytes();
    let is_pushed = told.push(b'!').is_ok();
    is_told & is_wanted & is_pushed & (told.as_slice() != wanted.as_bytes())
}

// Writes the result of a call.
fn tell(
    alloc: Global,
    call: &Call,
    first: &str,
    second: &str,
    out: &mut List<u8>,
) -> Result<(), Memory> {
    match call {
        Call::Fraction => fractions::fraction(first, second, out),
        Call::Product => fractions::product(first, second, out),
        Call::Decimal => readings::decimal(first, out),
        Call::Piece => readings::piece(first, second, out),
        Call::Width => words::width(first, out),
        Call::Limit => streams::limit(first, out),
        Call::Pause => checkers::pause(first, second, out),
        Call::Name => readings::name(alloc, first, out),
        Call::Path => readings::path(alloc, first, second, out),
        Call::Compared => readings::compared(alloc, first, second, out),
        Call::Written => readings::written(alloc, first, out),
        Call::Ones => words::ones(alloc, first, second, out),
        Call::Digits => words::digits(alloc, first, second, out),
        Call::Numbered => words::numbered(alloc, first, second, out),
        Call::Joined => words::joined(alloc, first, second, out),
        Call::Overwritten => words::overwritten(alloc, first, second, out),
        Call::Items => streams::items(alloc, first, second, out),
        Call::Copy => streams::copied(alloc, first, out),
        Call::Start => checkers::start(alloc, out),
        Call::Ended => checkers::ended(alloc, out),
        Call::Series => nests::series(alloc, first, second, out),
        Call::Trace => traces::trace(alloc, first, out),
        Call::WrittenHeader => traces_written::written_header(alloc, out),
        Call::Tokens => tokens::tokens(alloc, first, out),
        Call::Counted => tokens::counted(alloc, first, second, out),
        Call::Architectures => architectures::architectures(alloc, first, out),
        Call::Sink => links::sink(alloc, first, second, out),
        Call::Unpacked => values::unpacked(alloc, first, second, out),
        Call::Fitting => values::fitting(alloc, first, second, out),
        Call::Viewed => views::viewed(alloc, first, second, out),
        Call::Decoded => decodes::decoded(alloc, first, second, out),
        Call::Level => levels::level(alloc, first, second, out),
        Call::WideNumber => levels::wide_numbers(first, out),
        Call::Binary => levels::binary(alloc, first, second, out),
        Call::Split => splits::split(alloc, first, second, out),
        Call::Plan => plan_texts::plan(alloc, first, second, out),
        Call::Schedule => schedules::scheduled(alloc, first, second, out),
        Call::Cycles => runs::run(alloc, first, second, out),
        Call::Bench => vhdl_texts::bench_text(alloc, first, second, out),
    }
}
