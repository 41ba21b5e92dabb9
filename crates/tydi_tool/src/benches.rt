//! How the texts of a bench and of a run are read.

ghost use Rattle.std.specs.Prelude.{◌≡◌, ◌<◌, ◌-◌, ◌^◌, length};
ghost use Rattle.tydi_tool.specs.Benches.{ReadsBench, ReadsRun};
ghost use Rattle.tydi_tool.specs.Reading.{IsRefusedBy, ReadsAs};
ghost use Rattle.tydi_tool.specs.Refusals.{refusal_of_bench, refusal_of_run};

use crate::answer::Reply;
use crate::gather::TextReader;
use crate::refusal::{Detail, refused};
use std::alloc::Global;
use tydi_base::Text;
use vhdl_meaning::{RunFault, SimRun};
use vhdl_text::{Bench, VhdlFault};

/// Reads the text of the bench of this word.
#[derive(Clone, Copy, Drop)]
pub(crate) struct BenchText<'a> {
    pub(crate) word: &'a Text,
}

impl<'a> TextReader<Bench> for BenchText<'a> {
    ghost reads = { λ text bytes read. ReadsBench text.word.now bytes read };

    fn read(&self, alloc: Global, bytes: &[u8]) -> Result<Bench, Reply> {
        read_bench(alloc, self.word, bytes)
    }
}

/// The bench of the bytes of a file.
fn read_bench(alloc: Global, word: &Text, bytes: &[u8]) -> Result<Bench, Reply>
    ensures { ReadsAs (ReadsBench word.now bytes.now) result }
{
    match vhdl_text::read_bench(alloc, bytes) {
        Ok(bench) => Ok(bench),
        Err(fault) => Err(no_bench(alloc, word, fault)),
    }
}

/// The reply to a text that is no bench.
fn no_bench(alloc: Global, word: &Text, fault: VhdlFault) -> Reply
    ensures { IsRefusedBy (refusal_of_bench word.now fault) result }
{
    let (name, offset) = match fault {
        VhdlFault::NotForm(offset) => ("NotForm", offset),
        VhdlFault::UnknownSignal(offset) => ("UnknownSignal", offset),
        VhdlFault::TwoDrivers(offset) => ("TwoDrivers", offset),
        VhdlFault::Memory => return Reply::Memory,
    };
    refused(
        alloc,
        name,
        &[Detail::Word(word), Detail::Number(offset as u64)],
    )
}

/// Reads the text of the run of this word, for a bench.
#[derive(Clone, Copy, Drop)]
pub(crate) struct RunText<'a> {
    pub(crate) word: &'a Text,
    pub(crate) bench: &'a Bench,
    ghost few: { length bench.now.procs < 2 ^ 32 },
}

impl<'a> TextReader<SimRun> for RunText<'a> {
    ghost reads = { λ text bytes read. ReadsRun text.word.now text.bench.now bytes read };

    fn read(&self, alloc: Global, bytes: &[u8]) -> Result<SimRun, Reply> {
        read_run(alloc, self.word, self.bench, bytes)
    }
}

/// The run of the bytes of a file.
fn read_run(alloc: Global, word: &Text, bench: &Bench, bytes: &[u8]) -> Result<SimRun, Reply>
    requires few { length bench.now.procs < 2 ^ 32 }
    requires bytes { length bytes.now < 2 ^ 32 - 1 }
    ensures { ReadsAs (ReadsRun word.now bench.now bytes.now) result }
{
    match vhdl_meaning::read_run(alloc, bench, bytes) {
        Ok(found) => Ok(found),
        Err(fault) => Err(no_run(alloc, word, fault)),
    }
}

/// The reply to a text that is no run.
fn no_run(alloc: Global, word: &Text, fault: RunFault) -> Reply
    ensures { IsRefusedBy (refusal_of_run word.now fault) result }
{
    let (name, place) = match fault {
        RunFault::Syntax(place) => ("Syntax", place),
        RunFault::UnknownStream(place) => ("UnknownStream", place),
        RunFault::StreamTwice(place) => ("StreamTwice", place),
        RunFault::ReadyLength(place) => ("ReadyLength", place),
        RunFault::NotOrder(place) => ("NotOrder", place),
        RunFault::TooManyCycles(place) => ("TooManyCycles", place),
        RunFault::TooManyOrders(place) => ("TooManyOrders", place),
        RunFault::Memory => return Reply::Memory,
    };
    refused(alloc, name, &[Detail::Word(word), Detail::At(place)])
}
