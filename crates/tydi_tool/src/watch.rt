//! The command that runs a monitor over a trace by its meaning. It asks for the monitor and the trace, one after the other, and ends with a line
//! for each stream.

ghost use Rattle.std.specs.Prelude.{◌≡◌, ◌≤◌, IfOk, IsTrue, length};
ghost use Rattle.tydi_io.specs.Faults.{Rose};
ghost use Rattle.monitor_bench.specs.Standing.{CanWatch};
ghost use Rattle.watch_text.specs.Statements.{plain_watch};
ghost use Rattle.tydi_tool.specs.Ask.{Decides, IsAsked, Judges};
ghost use Rattle.tydi_tool.specs.Commands.{watch_ask, watched_ask};
ghost use Rattle.tydi_tool.specs.Reading.{Seen};
ghost use Rattle.tydi_tool.specs.Watches.{IsNewUnder, IsOfEach, ReadsWatch, TellsWatching, watched_answer, watching_in};
ghost use Rattle.tydi_tool.specs.Words.{monitor_file};

use crate::answer::Reply;
use crate::asking::{ask, ask_text};
use crate::commands::TRACE_LIMIT;
use crate::ending::{answered, verdict};
use crate::monitor_text::MonitorText;
use crate::refusal::{Detail, refused};
use crate::watch_file::{Seeing, WatchFile};
use crate::watch_lines::{has_report, watched_lines};
use std::alloc::Global;
use trace_watch::StreamWatched;
use tydi_base::{Memory, Text};
use tydi_io::Store;
use watch_text::{Watch, monitors_are_read_as_printed, tables_are_shorter_than_their_text};

/// The most bytes of a monitor: 64 MiB.
const MONITOR_LIMIT: usize = 67_108_864;

/// `watch MONITOR TRACE`.
pub(crate) fn watch<S: Store>(alloc: Global, monitor: &Text, trace: &Text, store: &mut S) -> Reply
    requires monitor { IsTrue (S.allowed store.old monitor.now) }
    requires trace { IsTrue (S.allowed store.old trace.now) }
    ensures decided { Decides (S.files store.old) (S.started store.old) (S.started store.new) (Rose (S.faults store.old) (S.faults store.new))
        (watch_ask monitor.now trace.now) result }
{
    match ask_monitor(alloc, monitor, store) {
        Ok(read) => watch_trace(alloc, &read, trace, store),
        Err(reply) => reply,
    }
}

/// The monitor of this word. The error is the reply where its file is lacking, a call fails or its text is refused.
fn ask_monitor<S: Store>(alloc: Global, monitor: &Text, store: &mut S) -> Result<Watch, Reply>
    requires { IsTrue (S.allowed store.old monitor.now) }
    ensures allowed { S.allowed store.new ≡ S.allowed store.old }
    ensures files { S.files store.new ≡ S.files store.old }
    ensures asked { IsAsked (S.files store.old) (monitor_file monitor.now) (λ bytes. Seen plain_watch (ReadsWatch monitor.now bytes))
        (S.started store.old) (S.started store.new) (Rose (S.faults store.old) (S.faults store.new)) result }
    ensures later { S.faults store.old ≤ S.faults store.new }
    ensures well { IfOk result (λ read. CanWatch (plain_watch read)) }
{
    monitors_are_read_as_printed();
    tables_are_shorter_than_their_text();
    let text = MonitorText { word: monitor };
    ask_text(alloc, store, monitor, MONITOR_LIMIT, text)
}

/// The same, with the monitor.
fn watch_trace<S: Store>(alloc: Global, watch: &Watch, trace: &Text, store: &mut S) -> Reply
    requires watch { CanWatch (plain_watch watch.now) }
    requires trace { IsTrue (S.allowed store.old trace.now) }
    ensures decided { Decides (S.files store.old) (S.started store.old) (S.started store.new) (Rose (S.faults store.old) (S.faults store.new))
        (watched_ask trace.now (plain_watch watch.now)) result }
{
    match WatchFile::new(alloc, trace, watch) {
        Ok(reader) => watch_with(alloc, watch, trace, reader, store),
        Err(Memory) => Reply::Memory,
    }
}

/// The same, with a new reader of the trace.
fn watch_with<S: Store>(
    alloc: Global,
    watch: &Watch,
    trace: &Text,
    reader: WatchFile<'_>,
    store: &mut S,
) -> Reply
    requires watch { CanWatch (plain_watch watch.now) }
    requires trace { IsTrue (S.allowed store.old trace.now) }
    requires new { IsNewUnder (plain_watch watch.now) trace.now reader }
    ensures decided { Decides (S.files store.old) (S.started store.old) (S.started store.new) (Rose (S.faults store.old) (S.faults store.new))
        (watched_ask trace.now (plain_watch watch.now)) result }
{
    match ask(alloc, store, trace, TRACE_LIMIT, reader) {
        Ok(found) => told(alloc, watch, trace, found),
        Err(reply) => reply,
    }
}

/// The answer to the trace of this word, of which a monitor says this.
fn told(alloc: Global, watch: &Watch, trace: &Text, found: Seeing) -> Reply
    requires tables { length watch.now.want ≡ length watch.now.heads }
    requires each { IsOfEach (length watch.now.heads) (watching_in found) }
    ensures { Judges (TellsWatching (plain_watch watch.now) trace.now (watching_in found)) result }
{
    match found {
        Seeing::OtherHeader(place) => {
            let details = [Detail::Word(trace), Detail::Number(place as u64)];
            refused(alloc, "OtherHeader", &details)
        }
        Seeing::Streams(watched) => seen(alloc, watch, watched.as_slice()),
    }
}

/// The answer with a line for each stream.
fn seen(alloc: Global, watch: &Watch, watched: &[StreamWatched]) -> Reply
    requires heads { length watched.now ≡ length watch.now.heads }
    requires tables { length watch.now.want ≡ length watch.now.heads }
    ensures { Judges (λ a. a ≡ watched_answer (plain_watch watch.now) watched.now) result }
{
    let lines = watched_lines(alloc, watch, watched);
    if has_report(watched) {
        return verdict(lines);
    }
    answered(alloc, lines)
}
