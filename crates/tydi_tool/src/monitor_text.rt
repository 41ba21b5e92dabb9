//! How the text of a monitor is read.

ghost use Rattle.watch_text.specs.Statements.{plain_watch};
ghost use Rattle.tydi_tool.specs.Reading.{IsRefusedBy, ReadsAs, Seen};
ghost use Rattle.tydi_tool.specs.Refusals.{refusal_of_watch};
ghost use Rattle.tydi_tool.specs.Watches.{ReadsWatch};

use crate::answer::Reply;
use crate::gather::TextReader;
use crate::refusal::{Detail, refused};
use std::alloc::Global;
use tydi_base::Text;
use watch_text::{Watch, WatchFault, read_watch};

/// Reads the text of the monitor of this word.
#[derive(Clone, Copy, Drop)]
pub(crate) struct MonitorText<'a> {
    pub(crate) word: &'a Text,
}

impl<'a> TextReader<Watch> for MonitorText<'a> {
    ghost reads = { λ text bytes. Seen plain_watch (ReadsWatch text.word.now bytes) };

    fn read(&self, alloc: Global, bytes: &[u8]) -> Result<Watch, Reply> {
        read_monitor(alloc, self.word, bytes)
    }
}

/// The monitor of the bytes of a file.
fn read_monitor(alloc: Global, word: &Text, bytes: &[u8]) -> Result<Watch, Reply>
    ensures { ReadsAs (Seen plain_watch (ReadsWatch word.now bytes.now)) result }
{
    match read_watch(alloc, bytes) {
        Ok(watch) => Ok(watch),
        Err(fault) => Err(no_monitor(alloc, word, fault)),
    }
}

/// The reply to a text that is no monitor.
fn no_monitor(alloc: Global, word: &Text, fault: WatchFault) -> Reply
    ensures { IsRefusedBy (refusal_of_watch word.now fault) result }
{
    match fault {
        WatchFault::NotForm(offset) => {
            let details = [Detail::Word(word), Detail::Number(offset as u64)];
            refused(alloc, "NotForm", &details)
        }
        WatchFault::Memory => Reply::Memory,
    }
}
