//! Answers of a checker, by cases worked out by hand. A table of the examples has each rule, as traces, but the rule on the start
//! index, which no trace can break.

use crate::calls::byte;
use crate::streams::params_of;
use complexity_rules::{Checker, may_pause, tail_after};
use physical_stream::{End, Params, Row, Rule, Tail, Transfer};
use std::alloc::Global;
use tydi_base::{List, Memory, emit};

/// The rule that a transfer from lane 1 on breaks at level 5, and one from lane 0 on in its place, with the transfers done after that.
pub(crate) const START: &[(&str, &str, &str)] = &[("", "", "rule 5, rule , 1 done")];

/// How a stream of two lanes ends after one transfer of three items, with the kind of the last, and that kind after one more transfer.
pub(crate) const ENDED: &[(&str, &str, &str)] = &[("", "", "open 0 element element")];

/// A level, and the kind of the last item in a stream of two dimensions: whether a pause may follow.
pub(crate) const PAUSES: &[(&str, &str, &str)] = &[
    ("1", "none", "yes"),
    ("1", "1", "yes"),
    ("1", "0", "no"),
    ("2", "0", "yes"),
    ("1", "element", "no"),
    ("2", "element", "no"),
    ("3", "element", "yes"),
];

// A transfer of zeros in the lanes between these.
fn between(
    alloc: Global,
    params: &Params,
    stai: u16,
    endi: u16,
    strb: u128,
) -> Result<Transfer, Memory> {
    let mut transfer = Transfer::zero(alloc, params)?;
    transfer.stai = stai;
    transfer.endi = endi;
    transfer.strb = strb;
    Ok(transfer)
}

fn number_of(rule: Option<Rule>) -> Option<u8> {
    match rule {
        Some(rule) => Some(rule.number()),
        None => None,
    }
}

pub(crate) fn start(alloc: Global, out: &mut List<u8>) -> Result<(), Memory> {
    let params = params_of(3, 0, 5)?;
    let mut transfer = between(alloc, &params, 1, 2, 7)?;
    let mut checker = Checker::new(alloc, params)?;
    if !transfer.fits(&params) {
        return Err(Memory);
    }
    let late = checker.step(Row {
        ready: true,
        shown: Some(&transfer),
    });
    transfer.stai = 0;
    if !transfer.fits(&params) {
        return Err(Memory);
    }
    let early = checker.step(Row {
        ready: true,
        shown: Some(&transfer),
    });
    emit!(out; "rule ", number_of(late), ", rule ", number_of(early), ", ", checker.transfers(), " done")
}

fn kind_of(tail: Option<Tail>) -> &'static str {
    match tail {
        None => " none",
        Some(Tail::Elem) => " element",
        Some(Tail::Close(_)) => " close",
    }
}

pub(crate) fn ended(alloc: Global, out: &mut List<u8>) -> Result<(), Memory> {
    let params = params_of(2, 1, 8)?;
    let mut transfer = between(alloc, &params, 0, 1, 3)?;
    transfer.last.read_exact_hex(b"1");
    if !transfer.fits(&params) {
        return Err(Memory);
    }
    let mut checker = Checker::new(alloc, params)?;
    checker.step(Row {
        ready: true,
        shown: Some(&transfer),
    });
    let End::Unclosed(dim) = checker.end() else {
        return Err(Memory);
    };
    let next = tail_after(&params, checker.tail(), &transfer);
    emit!(out; "open ", dim, kind_of(checker.tail()), kind_of(next))
}

fn tail_of(word: &str) -> Option<Tail> {
    if word == "none" {
        None
    } else if word == "element" {
        Some(Tail::Elem)
    } else {
        Some(Tail::Close(byte(word)))
    }
}

pub(crate) fn pause(level: &str, tail: &str, out: &mut List<u8>) -> Result<(), Memory> {
    let params = params_of(1, 2, byte(level))?;
    let may = may_pause(&params, tail_of(tail));
    emit!(out; if may { "yes" } else { "no" })
}
