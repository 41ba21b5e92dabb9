//! The tests of the tool: a table or more for each command, with how many rows it has and in which pieces it is run.

use crate::bench_rows::BENCHED;
use crate::carry_rows::CARRIED;
use crate::compare_rows::{COMPARED, UNCOMPARED};
use crate::decode_tables::{DECODED, VALUES_OF_TEXTS, VALUES_OF_TRACES};
use crate::design_rows::{CLASHING, DESIGNED};
use crate::drive_tables::{DRIVEN, RUNS, UNDRIVEN};
use crate::expect_rows::{EXPECTED, UNEXPECTED};
use crate::failing_rows::{FAILING, LARGE, LINE_THAT_FAILS};
use crate::job_tables::JOBS;
use crate::link_rows::{DESIGNS, LINKED, TYPES};
use crate::plan_rows::{PLAN_HEADERS, PLAN_LINES, PLAN_STREAMS, PLAN_WISHES};
use crate::project_tables::{CANONICAL, FAULTS};
use crate::refusal_tables::{HEADERS, ROWS, WORDS};
use crate::row::{NO_FAULTS, check_table, is_wanted, words_of};
use crate::running::{Faults, Outcome, run_over};
use crate::sim_tables::SIMULATED;
use crate::split_tables::{RESOLVED, SPLITS};
use crate::trace_tables::{KINDS, LONG, ONE_STREAM, PIECES, SEVERAL_STREAMS, SURVEYED, VERSIONS};
use crate::value_rows::{FORMLESS, MANY, RAW, READ_BACK, UNFIT};
use crate::vcd_rows::{AGAINST_PROFILE, DUMP_WORDS, SAMPLED, UNSAMPLED};
use crate::verilog_rows::VERILOG;
use crate::watch_rows::{FORMLESS_MONITORS, UNWATCHED, WATCHED};
use std::alloc::Global;
use tydi_base::{List, Memory, Text};
use tydi_tool::{
    answers_are_one, benches_drive_ports, causes_are_told, drives_are_legal, dumps_are_sampled,
    monitors_are_watched, traces_are_compared, written_designs_are_wired,
};

/// One less than the most bytes that a call takes or gives, where files and texts come whole.
const WHOLE: &[u16] = &[u16::MAX];

/// The same, where they come whole, and in pieces of 1 and 7 bytes.
const CUT: &[u16] = &[u16::MAX, 0, 6];

/// The same, where they come whole, and in pieces of 1, 2 and 7 bytes.
const CUT_SMALL: &[u16] = &[u16::MAX, 0, 1, 6];

#[test]
fn words(rt: HostRuntime) {
    check_table(&rt, KINDS, 6, WHOLE);
    check_table(&rt, WORDS, 12, WHOLE);
}

#[test]
fn checked(rt: HostRuntime) {
    check_table(&rt, HEADERS, 18, WHOLE);
    check_table(&rt, ROWS, 29, WHOLE);
    check_table(&rt, ONE_STREAM, 21, WHOLE);
    check_table(&rt, SEVERAL_STREAMS, 9, WHOLE);
    check_table(&rt, SURVEYED, 5, WHOLE);
    check_table(&rt, VERSIONS, 12, WHOLE);
    check_table(&rt, PIECES, 9, &[0, 1, 2, 6, 999]);
}

#[test]
fn read(rt: HostRuntime) {
    check_table(&rt, CANONICAL, 4, WHOLE);
    check_table(&rt, FAULTS, 20, WHOLE);
}

#[test]
fn split(rt: HostRuntime) {
    check_table(&rt, SPLITS, 27, WHOLE);
    check_table(&rt, RESOLVED, 10, WHOLE);
}

#[test]
fn driven(rt: HostRuntime) {
    check_table(&rt, DRIVEN, 29, CUT_SMALL);
    check_table(&rt, UNDRIVEN, 14, WHOLE);
    check_table(&rt, RUNS, 4, CUT);
}

#[test]
fn decoded(rt: HostRuntime) {
    check_table(&rt, DECODED, 44, CUT_SMALL);
    check_table(&rt, VALUES_OF_TRACES, 17, WHOLE);
    check_table(&rt, VALUES_OF_TEXTS, 9, CUT);
}

#[test]
fn compared(rt: HostRuntime) {
    check_table(&rt, COMPARED, 22, CUT_SMALL);
    check_table(&rt, UNCOMPARED, 16, WHOLE);
}

#[test]
fn expected(rt: HostRuntime) {
    check_table(&rt, EXPECTED, 14, CUT);
    check_table(&rt, UNEXPECTED, 14, WHOLE);
}

#[test]
fn watched(rt: HostRuntime) {
    check_table(&rt, WATCHED, 22, CUT_SMALL);
    check_table(&rt, FORMLESS_MONITORS, 54, WHOLE);
    check_table(&rt, UNWATCHED, 13, WHOLE);
}

#[test]
fn values(rt: HostRuntime) {
    check_table(&rt, READ_BACK, 20, WHOLE);
    check_table(&rt, UNFIT, 38, WHOLE);
    check_table(&rt, FORMLESS, 41, WHOLE);
    check_table(&rt, RAW, 6, WHOLE);
}

/// Built without proof it takes more than a minute: `rt try --test --seconds 300`.
#[test]
fn values_of_many_members(rt: HostRuntime) {
    check_table(&rt, MANY, 2, WHOLE);
}

#[test]
fn plans(rt: HostRuntime) {
    check_table(&rt, PLAN_HEADERS, 21, WHOLE);
    check_table(&rt, PLAN_LINES, 27, WHOLE);
    check_table(&rt, PLAN_WISHES, 20, WHOLE);
    check_table(&rt, PLAN_STREAMS, 14, WHOLE);
}

#[test]
fn linked(rt: HostRuntime) {
    check_table(&rt, LINKED, 16, WHOLE);
    check_table(&rt, DESIGNS, 13, WHOLE);
    check_table(&rt, TYPES, 26, WHOLE);
}

#[test]
fn carried(rt: HostRuntime) {
    check_table(&rt, CARRIED, 28, CUT_SMALL);
}

#[test]
fn designed(rt: HostRuntime) {
    check_table(&rt, DESIGNED, 18, CUT);
    check_table(&rt, CLASHING, 2, WHOLE);
    check_table(&rt, VERILOG, 15, CUT);
}

#[test]
fn benched(rt: HostRuntime) {
    check_table(&rt, BENCHED, 36, CUT);
}

#[test]
fn simulated(rt: HostRuntime) {
    check_table(&rt, SIMULATED, 13, WHOLE);
}

#[test]
fn sampled(rt: HostRuntime) {
    check_table(&rt, SAMPLED, 16, CUT);
    check_table(&rt, AGAINST_PROFILE, 26, CUT);
    check_table(&rt, UNSAMPLED, 28, WHOLE);
    check_table(&rt, DUMP_WORDS, 9, WHOLE);
}

#[test]
fn generated(rt: HostRuntime) {
    check_table(&rt, JOBS, 28, CUT_SMALL);
}

#[test]
fn calls_that_fail(rt: HostRuntime) {
    check_table(&rt, FAILING, 11, WHOLE);
    check_table(&rt, LINE_THAT_FAILS, 1, WHOLE);
}

/// The same.
#[test]
fn large_files(rt: HostRuntime) {
    check_table(&rt, LARGE, 9, WHOLE);
}

/// The outcome of `check` on a text, where a call takes or gives one byte more than this at most.
fn checked_text(alloc: Global, text: &[u8], most: u16) -> Result<Outcome, Memory> {
    let faults = Faults { most, ..NO_FAULTS };
    let mut files = List::new(alloc);
    files.push((Text::new(alloc, "t")?, List::from_slice(alloc, text)?))?;
    run_over(
        alloc,
        words_of(alloc, "check t")?.as_slice(),
        files,
        &faults,
    )
}

/// Whether the same comes of a text in pieces of one byte more than this as of it whole.
fn is_same_cut(alloc: Global, text: &[u8], most: u16) -> Result<bool, Memory> {
    let whole = checked_text(alloc, text, u16::MAX)?;
    let cut = checked_text(alloc, text, most)?;
    Ok(is_wanted(
        &cut,
        whole.status,
        whole.out.as_slice(),
        whole.err.as_slice(),
    ))
}

/// A text that is cut has one error, in whatever pieces it comes: of 1, 2, 3 and 7 bytes, and whole.
#[test]
fn cut_texts(rt: HostRuntime) {
    for count in 0..LONG.len() {
        for most in &[0, 1, 2, 6] {
            assert!(rt;
                is_same_cut(rt.alloc(), &LONG[..count], *most) == Ok(true),
                "{count}"
            );
        }
    }
}

/// Each law is a function that can be called.
#[test]
fn laws() {
    answers_are_one();
    causes_are_told();
    drives_are_legal();
    benches_drive_ports();
    dumps_are_sampled();
    monitors_are_watched();
    traces_are_compared();
    written_designs_are_wired();
}
