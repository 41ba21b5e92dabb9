//! How the text of a trace is read beside a monitor: as what each process of the monitor says of its stream.

ghost use Rattle.std.specs.Prelude.{ℕ, List, Err, IfOk};
ghost use Rattle.monitor_bench.specs.Standing.{CanWatch};
ghost use Rattle.trace_watch.specs.Texts.{IsWatchedText};
ghost use Rattle.watch_text.specs.Statements.{PlainWatch, plain_watch};
ghost use Rattle.tydi_tool.specs.Reading.{ReadsAs, Seen};
ghost use Rattle.tydi_tool.specs.Watches.{IsFedSome, IsNewUnder, ReadsWatching, watches_after, watching_in};

use crate::answer::Reply;
use crate::reader::Reader;
use crate::traces::faulted;
use std::alloc::Global;
use trace_watch::{StreamWatched, TextWatcher, WatchTraceFault};
use tydi_base::{List, Memory, Text};
use watch_text::Watch;

/// What was found of a trace beside a monitor.
#[derive(Debug, Drop)]
pub enum Seeing {
    /// The heads of the trace are not those of the monitor, first at this place.
    OtherHeader(usize),
    /// What each process says of its stream, in the order of the streams.
    Streams(List<StreamWatched>),
}

/// Reads the text of the trace of this word as it comes, beside a monitor.
#[derive(Drop)]
pub(crate) struct WatchFile<'a> {
    word: &'a Text,
    watcher: TextWatcher<'a>,
    fed: u64,
}

impl<'a> WatchFile<'a> {
    pub(crate) fn new(
        alloc: Global,
        word: &'a Text,
        watch: &'a Watch,
    ) -> Result<WatchFile<'a>, Memory>
        requires { CanWatch (plain_watch watch.now) }
        ensures { IfOk result (λ file. IsNewUnder (plain_watch watch.now) word.now file) }
    {
        let watcher = TextWatcher::new(alloc, watch)?;
        Ok(WatchFile {
            word,
            watcher,
            fed: 0,
        })
    }
}

impl Reader<Seeing> for WatchFile<'_> {
    ghost reads = { watches_after };

    ghost fed = { λ file. file.fed };

    ghost stands = { IsFedSome };

    fn feed(&mut self, alloc: Global, piece: &[u8]) -> Result<(), Memory> {
        self.fed += piece.len() as u64;
        self.watcher.feed(alloc, piece)
    }

    fn finish(self, alloc: Global) -> Result<Seeing, Reply> {
        let WatchFile { word, watcher, .. } = self;
        found(alloc, word, watcher.finish(alloc))
    }
}

/// What was found of a text that was read to its end, or the reply to its first error.
fn found(
    alloc: Global,
    word: &Text,
    finished: Result<List<StreamWatched>, WatchTraceFault>,
) -> Result<Seeing, Reply>
    ensures { (watch : PlainWatch) (bytes : List ℕ) → IsWatchedText watch bytes finished
        → ReadsAs (Seen watching_in (ReadsWatching watch word.now bytes)) result }
{
    match finished {
        Ok(watched) => Ok(Seeing::Streams(watched)),
        Err(fault) => found_none(alloc, word, fault),
    }
}

/// What was found of a text over which no monitor ran, or the reply to its first error.
fn found_none(alloc: Global, word: &Text, fault: WatchTraceFault) -> Result<Seeing, Reply>
    ensures { (watch : PlainWatch) (bytes : List ℕ) → IsWatchedText watch bytes (Err fault)
        → ReadsAs (Seen watching_in (ReadsWatching watch word.now bytes)) result }
{
    match fault {
        WatchTraceFault::Misspelled(fault) => Err(faulted(alloc, word, fault)),
        WatchTraceFault::OtherHeader(place) => Ok(Seeing::OtherHeader(place)),
        WatchTraceFault::Memory => Err(Reply::Memory),
    }
}
