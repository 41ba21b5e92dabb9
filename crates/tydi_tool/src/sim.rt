//! The command that runs a testbench by its meaning. It asks for the bench and the run, one after the other, and ends with the trace.

ghost use Rattle.std.specs.Prelude.{◌≡◌, ◌≤◌, ◌⊎◌, IfOk, IsTrue, length, min};
ghost use Rattle.bench_run.specs.TextLeft.{text_left};
ghost use Rattle.bench_run.specs.Traces.{trace_text_of};
ghost use Rattle.tydi_base.specs.Lengths.{most_bytes};
ghost use Rattle.tydi_io.specs.Faults.{Rose};
ghost use Rattle.vhdl_meaning.specs.RunLaws.{FitsBench};
ghost use Rattle.vhdl_text.specs.WellFormed.{IsWellFormed};
ghost use Rattle.tydi_tool.specs.Ask.{Decides, IsAsked, Judges};
ghost use Rattle.tydi_tool.specs.Benches.{ReadsBench, ReadsRun};
ghost use Rattle.tydi_tool.specs.Commands.{run_ask, sim_ask};
ghost use Rattle.tydi_tool.specs.Outcome.{output_answer};
ghost use Rattle.tydi_tool.specs.Words.{bench_file, text_file};
ghost use Rattle.tydi_tool.specs.declared.answer.Reply.TheVariants as replies;

use crate::answer::{Answer, Reply};
use crate::asking::ask_text;
use crate::benches::{BenchText, RunText};
use crate::ending::OUTPUT_LIMIT;
use crate::output::Output;
use crate::refusal::refused;
use bench_run::{BenchTrace, bench_trace};
use std::alloc::Global;
use tydi_base::{Memory, Text};
use tydi_io::Store;
use vhdl_meaning::SimRun;
use vhdl_text::Bench;

/// The most bytes of a bench: 64 MiB.
const BENCH_LIMIT: usize = 67_108_864;

/// The most bytes of a run: 16 MiB.
const RUN_LIMIT: usize = 16_777_216;

/// `sim BENCH RUN`.
pub(crate) fn sim<S: Store>(alloc: Global, bench: &Text, run: &Text, store: &mut S) -> Reply
    requires bench { IsTrue (S.allowed store.old bench.now) }
    requires run { IsTrue (S.allowed store.old run.now) }
    ensures decided { Decides (S.files store.old) (S.started store.old) (S.started store.new) (Rose (S.faults store.old) (S.faults store.new))
        (sim_ask bench.now run.now) result }
{
    match ask_bench(alloc, bench, store) {
        Ok(read) => sim_bench(alloc, read, run, store),
        Err(reply) => reply,
    }
}

/// The bench of this word. The error is the reply where its file is lacking, a call fails or its text is refused.
fn ask_bench<S: Store>(alloc: Global, bench: &Text, store: &mut S) -> Result<Bench, Reply>
    requires { IsTrue (S.allowed store.old bench.now) }
    ensures allowed { S.allowed store.new ≡ S.allowed store.old }
    ensures files { S.files store.new ≡ S.files store.old }
    ensures asked { IsAsked (S.files store.old) (bench_file bench.now) (ReadsBench bench.now)
        (S.started store.old) (S.started store.new) (Rose (S.faults store.old) (S.faults store.new)) result }
    ensures later { S.faults store.old ≤ S.faults store.new }
    ensures well { IfOk result IsWellFormed }
{
    ask_text(alloc, store, bench, BENCH_LIMIT, BenchText { word: bench })
}

/// The same, with the bench.
fn sim_bench<S: Store>(alloc: Global, bench: Bench, run: &Text, store: &mut S) -> Reply
    requires bench { IsWellFormed bench }
    requires run { IsTrue (S.allowed store.old run.now) }
    ensures decided { Decides (S.files store.old) (S.started store.old) (S.started store.new) (Rose (S.faults store.old) (S.faults store.new))
        (run_ask run.now bench) result }
{
    match ask_run(alloc, &bench, run, store) {
        Ok(read) => simulated(alloc, bench, read),
        Err(reply) => reply,
    }
}

/// The run of this word, for a bench. The error is the reply where its file is lacking, a call fails or its text is refused.
fn ask_run<S: Store>(
    alloc: Global,
    bench: &Bench,
    run: &Text,
    store: &mut S,
) -> Result<SimRun, Reply>
    requires bench { IsWellFormed bench.now }
    requires run { IsTrue (S.allowed store.old run.now) }
    ensures allowed { S.allowed store.new ≡ S.allowed store.old }
    ensures files { S.files store.new ≡ S.files store.old }
    ensures asked { IsAsked (S.files store.old) (text_file run.now) (ReadsRun run.now bench.now)
        (S.started store.old) (S.started store.new) (Rose (S.faults store.old) (S.faults store.new)) result }
    ensures later { S.faults store.old ≤ S.faults store.new }
    ensures fits { IfOk result (FitsBench bench.now) }
{
    ask_text(alloc, store, run, RUN_LIMIT, RunText { word: run, bench })
}

/// The text of the trace of a bench under a run, as the answer.
fn simulated(alloc: Global, bench: Bench, run: SimRun) -> Reply
    requires bench { IsWellFormed bench }
    requires run { FitsBench bench run }
    ensures { Judges (λ a. a ≡ output_answer (trace_text_of bench run)) result }
{
    match bench_trace(alloc, bench, run) {
        Ok(trace) => traced(alloc, trace),
        Err(Memory) => Reply::Memory,
    }
}

/// The text of a trace as the answer, where it is not too long.
fn traced(alloc: Global, trace: BenchTrace) -> Reply
    requires { trace.length ≡ min (length (text_left trace.pieces)) most_bytes }
    ensures { (result ≡ replies.Says (output_answer (text_left trace.pieces))) ⊎ (result ≡ replies.Memory) }
{
    let BenchTrace { pieces, length } = trace;
    if length <= OUTPUT_LIMIT {
        return Reply::Says(Answer::Done(Output::cycles(pieces, length)));
    }
    refused(alloc, "OutputTooLong", &[])
}
