//! The tests of the layers below the tool. No constant holds all tables: the check of one that did ran out of steps.

use crate::calls::{Call, check_calls};
use crate::{
    architectures, checkers, decodes, fractions, levels, links, nests, plan_texts, readings, runs,
    schedules, splits, streams, tokens, traces, traces_written, values, vhdl_texts, views, words,
};
use bench_run::traces_of_benches;
use complexity_rules::{
    items_are_nested, levels_are_kept, pauses_are_as_tested, table_is_monotone,
    table_says_what_binds,
};
use link_check::{
    carried_traces_keep_their_laws, chains_end_in_one_sink, compatible_ports_carry,
    projects_have_one_answer, types_without_difference_are_compatible,
};
use physical_stream::shown_at_greater_levels;
use port_drive::{driven_ports_are_legal, driven_texts_are_traces, finished_runs_drive};
use scheduler::plans_keep_their_laws;
use signal_layout::{Signal, SignalDefault, default_of};
use til_lexer::{spelled_tokens_are_read, tokens_are_of_the_text, tokens_have_their_form};
use til_parser::{trees_are_apart, trees_are_read_as_printed};
use trace_decode::{
    driven_values_are_carried, offences_fall_with_tags, texts_have_one_outcome,
    traces_have_one_outcome,
};
use trace_pieces::rows_keep_their_laws;
use tydi_base::{
    binary_is_read_as_spelled, decimals_are_read_as_spelled, hexadecimal_is_read_as_spelled,
    index_width_is_least, levels_are_ordered, levels_are_read_as_spelled,
    paths_are_read_as_spelled, pieces_are_parts,
};
use value_text::{values_are_read_as_printed, values_that_are_read_fit};
use value_views::{
    agreeing_views_have_values, nodes_have_series, streams_have_views, views_carry_their_value,
    views_determine_values, views_of_values_agree,
};
use vhdl_meaning::{benches_are_confluent, runs_fit};
use vhdl_text::benches_are_read_as_printed;

#[test]
fn texts_and_numbers(rt: HostRuntime) {
    check_calls(&rt, &Call::Fraction, fractions::FRACTIONS, 5);
    check_calls(&rt, &Call::Product, fractions::PRODUCTS, 2);
    check_calls(&rt, &Call::Decimal, readings::DECIMALS, 7);
    check_calls(&rt, &Call::Piece, readings::PIECES, 3);
    check_calls(&rt, &Call::Name, readings::NAMES, 16);
    check_calls(&rt, &Call::Path, readings::PATHS, 13);
    check_calls(&rt, &Call::Compared, readings::COMPARED, 2);
    check_calls(&rt, &Call::Written, readings::WRITTEN, 1);
    check_calls(&rt, &Call::Level, levels::LEVELS, 18);
    check_calls(&rt, &Call::WideNumber, levels::WIDE_NUMBERS, 8);
}

#[test]
fn words_of_bits(rt: HostRuntime) {
    check_calls(&rt, &Call::Width, words::WIDTHS, 7);
    check_calls(&rt, &Call::Ones, words::ONES, 12);
    check_calls(&rt, &Call::Digits, words::DIGITS, 4);
    check_calls(&rt, &Call::Numbered, words::NUMBERS, 3);
    check_calls(&rt, &Call::Joined, words::JOINED, 1);
    check_calls(&rt, &Call::Overwritten, words::OVERWRITTEN, 2);
    check_calls(&rt, &Call::Binary, levels::BINARY, 6);
}

#[test]
fn streams_of_items(rt: HostRuntime) {
    check_calls(&rt, &Call::Limit, streams::LIMITS, 7);
    check_calls(&rt, &Call::Items, streams::ITEMS, 5);
    check_calls(&rt, &Call::Copy, streams::COPIES, 3);
    check_calls(&rt, &Call::Pause, checkers::PAUSES, 7);
    check_calls(&rt, &Call::Start, checkers::START, 1);
    check_calls(&rt, &Call::Ended, checkers::ENDED, 1);
    check_calls(&rt, &Call::Series, nests::SERIES, 22);
}

#[test]
fn values_of_types(rt: HostRuntime) {
    check_calls(&rt, &Call::Unpacked, values::UNPACKED, 15);
    check_calls(&rt, &Call::Fitting, values::FITTING, 26);
    check_calls(&rt, &Call::Viewed, views::VIEWS, 15);
}

#[test]
fn texts_of_projects(rt: HostRuntime) {
    check_calls(&rt, &Call::Tokens, tokens::TOKENS, 7);
    check_calls(&rt, &Call::Counted, tokens::COUNTED, 1);
    check_calls(&rt, &Call::Split, splits::FRONTS, 1);
    check_calls(&rt, &Call::Sink, links::SINKS, 10);
    check_calls(&rt, &Call::Architectures, architectures::ARCHITECTURES, 4);
}

#[test]
fn traces_of_streams(rt: HostRuntime) {
    check_calls(&rt, &Call::Trace, traces::TRACES, 2);
    check_calls(&rt, &Call::WrittenHeader, traces_written::WRITTEN_HEADER, 1);
    check_calls(&rt, &Call::Decoded, decodes::DECODED, 2);
    check_calls(&rt, &Call::Schedule, schedules::SCHEDULES, 14);
    check_calls(&rt, &Call::Cycles, runs::RUNS, 6);
}

#[test]
fn plans_of_texts(rt: HostRuntime) {
    check_calls(&rt, &Call::Plan, plan_texts::PLANS, 12);
}

#[test]
fn benches(rt: HostRuntime) {
    check_calls(&rt, &Call::Bench, vhdl_texts::BENCHES, 3);
}

/// The defaults of signals that a stream lacks. How wide each is, a table of the examples says.
#[test]
fn defaults(rt: HostRuntime) {
    assert!(rt; default_of(Signal::Stai) == SignalDefault::Zero);
    assert!(rt; default_of(Signal::Endi) == SignalDefault::LastLane);
    assert!(rt; default_of(Signal::Strb) == SignalDefault::Ones);
}

/// Each law is a function that can be called.
#[test]
fn laws() {
    decimals_are_read_as_spelled();
    pieces_are_parts();
    paths_are_read_as_spelled();
    hexadecimal_is_read_as_spelled();
    binary_is_read_as_spelled();
    levels_are_ordered();
    levels_are_read_as_spelled();
    index_width_is_least();
    shown_at_greater_levels();
    table_is_monotone();
    table_says_what_binds();
    pauses_are_as_tested();
    levels_are_kept();
    items_are_nested();
    tokens_are_of_the_text();
    tokens_have_their_form();
    spelled_tokens_are_read();
    trees_are_apart();
    trees_are_read_as_printed();
    nodes_have_series();
    streams_have_views();
    views_carry_their_value();
    views_of_values_agree();
    agreeing_views_have_values();
    views_determine_values();
    driven_ports_are_legal();
    driven_texts_are_traces();
    finished_runs_drive();
    rows_keep_their_laws();
    plans_keep_their_laws();
    traces_have_one_outcome();
    texts_have_one_outcome();
    driven_values_are_carried();
    offences_fall_with_tags();
    benches_are_read_as_printed();
    benches_are_confluent();
    runs_fit();
    traces_of_benches();
    types_without_difference_are_compatible();
    projects_have_one_answer();
    chains_end_in_one_sink();
    carried_traces_keep_their_laws();
    compatible_ports_carry();
    values_that_are_read_fit();
    values_are_read_as_printed();
}
