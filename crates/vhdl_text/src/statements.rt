//! Statements of one line with a name: assignments, and waits for a ready bit.

ghost use Rattle.std.specs.Prelude.{◌≡◌, Err, List, length};
ghost use Rattle.tydi_base.specs.Reading.{Gives};
ghost use Rattle.vhdl_text.specs.declared.bench.Stmt.{Stmt};
ghost use Rattle.vhdl_text.specs.Drivers.{AreDrivers};
ghost use Rattle.vhdl_text.specs.Lines as spec;
ghost use Rattle.vhdl_text.specs.Lines.{paths_of, refusal_in};
ghost use Rattle.vhdl_text.specs.Streams.{AreNamed};
ghost use Rattle.vhdl_text.specs.Text.{quote_of};

use crate::bench::Stmt;
use crate::constants::{constant_at, is_constant};
use crate::cuts::{between, is_same};
use crate::drivers::is_driven;
use crate::place::Place;
use crate::refusal::{Fault, Refusal};
use crate::streams::{Streams, is_ready};
use signal_layout::Signal;
use std::alloc::Global;

/// The statement that a line with a name spells, after so many whole processes.
#[tactic(auto, unfolding(crate::specs::Lines::stmt_of))]
pub(crate) fn stmt_of(
    alloc: Global,
    streams: &Streams,
    drivers: &[u32],
    procs: usize,
    line: &[u8],
) -> Result<Stmt, Fault>
    requires { AreNamed streams.now }
    ensures { (whole : List (List Stmt)) (done : List Stmt) → AreDrivers streams.now.heads drivers.now whole done → length whole ≡ procs
        → Gives refusal_in (λ stmt. stmt) result (spec.stmt_of streams.now.heads whole line.now) }
{
    let Some(parts) = between(line, b'\\') else {
        return Err(Fault::Refused);
    };
    if is_same(parts.front, b"    ") {
        return put_of(alloc, streams, drivers, procs, parts.inside, parts.back);
    }
    if is_same(parts.front, b"    wait until rising_edge(clk) and ") {
        return await_of(streams, parts.inside, parts.back);
    }
    Err(Fault::Refused)
}

/// An assignment to a name.
#[tactic(auto, unfolding(crate::specs::Lines::put_of))]
fn put_of(
    alloc: Global,
    streams: &Streams,
    drivers: &[u32],
    procs: usize,
    name: &[u8],
    back: &[u8],
) -> Result<Stmt, Fault>
    requires { AreNamed streams.now }
    ensures { (whole : List (List Stmt)) (done : List Stmt) → AreDrivers streams.now.heads drivers.now whole done → length whole ≡ procs
        → Gives refusal_in (λ stmt. stmt) result (spec.put_of streams.now.heads whole name.now back.now) }
{
    let Some(place) = streams.place_of(name) else {
        return Err(no_port(back));
    };
    let Some(width) = streams.put_width(place) else {
        return Err(no_port(back));
    };
    let word = constant_at(alloc, mark_of(place.signal), width as usize, back)?;
    let Some(bits) = word else {
        return Err(Fault::Refused);
    };
    if is_driven(drivers, place, procs) {
        return Err(Fault::Unfit(Refusal::SecondDriver));
    }
    Ok(Stmt::Put {
        stream: place.stream,
        signal: place.signal,
        bits,
    })
}

/// Why an assignment to a name that is no port to assign to is refused.
fn no_port(back: &[u8]) -> Fault
    ensures { spec.no_port back.now ≡ Err result }
{
    if is_constant(back) {
        Fault::Unfit(Refusal::UnknownSignal)
    } else {
        Fault::Refused
    }
}

/// A wait for a name.
#[tactic(auto, unfolding(crate::specs::Lines::await_of))]
fn await_of(streams: &Streams, name: &[u8], back: &[u8]) -> Result<Stmt, Fault>
    requires { AreNamed streams.now }
    ensures { Gives refusal_in (λ stmt. stmt) result (spec.await_of (paths_of streams.now.heads) name.now back.now) }
{
    if !is_same(back, b" = '1';") {
        return Err(Fault::Refused);
    }
    await_at(streams.place_of(name))
}

/// A wait for the signal of this place, which is to be ready.
fn await_at(place: Option<Place>) -> Result<Stmt, Fault>
    ensures { Gives refusal_in (λ stmt. stmt) result (spec.await_in place) }
{
    match place {
        Some(place) if is_ready(place.signal) => Ok(Stmt::Await(place.stream)),
        _ => Err(Fault::Unfit(Refusal::UnknownSignal)),
    }
}

/// The mark around a constant for this signal.
fn mark_of(signal: Signal) -> u8
    ensures { result ≡ quote_of signal }
{
    match signal {
        Signal::Valid | Signal::Ready => b'\'',
        Signal::Content
        | Signal::Last
        | Signal::Stai
        | Signal::Endi
        | Signal::Strb
        | Signal::User => b'"',
    }
}
