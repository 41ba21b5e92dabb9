//! A watcher of the text of a trace, which comes in pieces.

ghost use Rattle.std.specs.Prelude.{◌≡◌, ◌++◌, ◌↔◌, [], ℕ, List, IfOk, IsErr};
ghost use Rattle.watch_text.specs.Statements.{plain_watch};
ghost use Rattle.monitor_bench.specs.Standing.{CanWatch};
ghost use Rattle.trace_watch.specs.Texts.{HasNoMemory, IsFed, IsWatchedText, watch_of_watcher};

use crate::fault::WatchTraceFault;
use crate::watched::StreamWatched;
use crate::watcher::Watcher;
use cycle_trace::TraceReader;
use std::alloc::Global;
use tydi_base::{List, Memory};
use watch_text::Watch;

/// Watches the text of a trace with a monitor. The text comes in pieces.
#[derive(Drop)]
pub struct TextWatcher<'w> {
    pub(crate) reader: TraceReader<Watcher<'w>>,
}

impl<'w> TextWatcher<'w> {
    /// A watcher with this monitor. It was fed nothing. `Memory` comes where there is none for the processes of the monitor.
    pub fn new(alloc: Global, watch: &'w Watch) -> Result<TextWatcher<'w>, Memory>
        requires { CanWatch (plain_watch watch.now) }
        ensures fed { IfOk result (λ watcher. IsFed watcher []) }
        ensures watch { IfOk result (λ watcher. watch_of_watcher watcher ≡ plain_watch watch.now) }
        ensures memory { IfOk result (λ watcher. HasNoMemory watcher → ⊥) }
    {
        let watcher = Watcher::new(alloc, watch)?;
        Ok(TextWatcher {
            reader: TraceReader::new(alloc, watcher),
        })
    }

    /// Reads the next bytes of the text. After `Memory` every later call answers Memory.
    pub fn feed(&mut self, alloc: Global, piece: &[u8]) -> Result<(), Memory>
        requires { (bytes : List ℕ) × IsFed self.old bytes }
        ensures fed { (bytes : List ℕ) → IsFed self.old bytes → IsFed self.new (bytes ++ piece.now) }
        ensures watch { watch_of_watcher self.new ≡ watch_of_watcher self.old }
        ensures memory { IsErr result ↔ HasNoMemory self.new }
        ensures spent { HasNoMemory self.old → HasNoMemory self.new }
    {
        self.reader.feed(alloc, piece)
    }

    /// The answer of each process of the monitor for its stream, in the order of the streams. It fails with the first error of the text, and where the
    /// text is a trace, with the first place at which its heads are not those of the monitor. `Memory` comes where it came before, or where there
    /// is none for the answer.
    pub fn finish(self, alloc: Global) -> Result<List<StreamWatched>, WatchTraceFault>
        requires { (bytes : List ℕ) × IsFed self bytes }
        ensures { (bytes : List ℕ) → IsFed self.entry bytes → IsWatchedText (watch_of_watcher self.entry) bytes result }
    {
        match self.reader.finish(alloc) {
            Ok(watcher) => watcher.finish(alloc),
            Err(fault) => Err(WatchTraceFault::Misspelled(fault)),
        }
    }
}
