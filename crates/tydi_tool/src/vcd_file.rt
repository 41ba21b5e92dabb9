//! How a dump is read: as the text of the trace that it shows of a port.

ghost use Rattle.std.specs.Prelude.{◌≡◌, ◌<◌, ℕ, List, IfOk, length};
ghost use Rattle.port_drive.specs.Drives.{head_of_stream};
ghost use Rattle.type_split.specs.Streams.{IsPortSplit, plain_split};
ghost use Rattle.vcd_read.specs.Kept.{kept_bytes, kept_text};
ghost use Rattle.vcd_read.specs.Shown.{fault_in, shown};
ghost use Rattle.vcd_read.specs.Wanted.{Wanted};
ghost use Rattle.tydi_base.specs.Path.{path_of};
ghost use Rattle.tydi_base.specs.Reading.{Gives};
ghost use Rattle.tydi_tool.specs.Dumps.{IsFedSome, IsNewDump, NamesStream, NamesStreamOf, ReadsKept, names_or_none, refusal_of_dump, shows_after};
ghost use Rattle.tydi_tool.specs.Reading.{IsRefusedBy, ReadsAs};

use crate::answer::Reply;
use crate::decode::stream_path;
use crate::reader::Reader;
use crate::refusal::{Detail, refused};
use port_drive::{heads_of, heads_stand_together};
use std::alloc::Global;
use tydi_base::{Memory, Path, Text};
use type_split::Split;
use vcd_read::{DumpText, VcdFault, VcdReader, faults_name_streams};
use vhdl_text::signal_word;

/// Reads the dump of this word as it comes, for the signals of a port.
#[derive(Drop)]
pub(crate) struct VcdFile<'a> {
    word: &'a Text,
    split: &'a Split<'a>,
    reader: VcdReader,
    fed: u64,
}

impl<'a> VcdFile<'a> {
    /// A reader of a dump that was fed nothing. The signals of the port are looked for in the scope of this word.
    pub(crate) fn new(
        alloc: Global,
        word: &'a Text,
        scope: &Text,
        split: &'a Split<'a>,
    ) -> Result<VcdFile<'a>, Memory>
        requires { IsPortSplit (plain_split split.now) }
        ensures { IfOk result (IsNewDump scope.now word.now (plain_split split.now)) }
    {
        heads_stand_together(split);
        let scope = scope_path(alloc, scope)?;
        let heads = heads_of(alloc, split.streams.as_slice())?;
        let reader = VcdReader::new(alloc, &scope, heads)?;
        Ok(VcdFile {
            word,
            split,
            reader,
            fed: 0,
        })
    }
}

/// The path of the scope of this word.
fn scope_path(alloc: Global, scope: &Text) -> Result<Path, Memory>
    ensures { IfOk result (λ path. path ≡ names_or_none (path_of scope.now)) }
{
    match Path::read_dotted(alloc, scope.as_bytes())? {
        Some(path) => Ok(path),
        None => Ok(Path::new(alloc)),
    }
}

impl Reader<Option<DumpText>> for VcdFile<'_> {
    ghost reads = { shows_after };

    ghost fed = { λ file. file.fed };

    ghost stands = { IsFedSome };

    fn feed(&mut self, alloc: Global, piece: &[u8]) -> Result<(), Memory> {
        self.fed += piece.len() as u64;
        self.reader.feed(alloc, piece)
    }

    fn finish(self, alloc: Global) -> Result<Option<DumpText>, Reply> {
        faults_name_streams();
        let VcdFile {
            word,
            split,
            reader,
            ..
        } = self;
        kept_of(alloc, word, split, reader.finish(alloc))
    }
}

/// The text of the trace of a dump that was read to its end, or the reply to its first error.
fn kept_of(
    alloc: Global,
    word: &Text,
    split: &Split<'_>,
    finished: Result<Option<DumpText>, VcdFault>,
) -> Result<Option<DumpText>, Reply>
    requires { NamesStreamOf (length split.now.streams) finished }
    ensures { (wanted : Wanted) (bytes : List ℕ) → Gives fault_in kept_bytes finished (kept_text (shown wanted bytes))
        → ReadsAs (ReadsKept wanted (plain_split split.now) word.now bytes) result }
{
    match finished {
        Ok(kept) => Ok(kept),
        Err(fault) => Err(faulted(alloc, word, split, fault)),
    }
}

/// The reply to a dump with this error.
fn faulted<'a>(alloc: Global, word: &'a Text, split: &'a Split<'_>, fault: VcdFault) -> Reply
    requires { NamesStream (length split.now.streams) fault }
    ensures { IsRefusedBy (refusal_of_dump (plain_split split.now) word.now fault) result }
{
    let file = Detail::Word(word);
    match fault {
        VcdFault::Syntax(offset) => refused(alloc, "Syntax", &[file, Detail::Number(offset)]),
        VcdFault::TimeBack(offset) => refused(alloc, "TimeBack", &[file, Detail::Number(offset)]),
        VcdFault::NoClock => refused(alloc, "NoClock", &[file]),
        VcdFault::NoSignal(stream, signal) => {
            let path = Detail::Stream(stream_path(split, stream));
            refused(
                alloc,
                "NoSignal",
                &[file, path, Detail::Name(signal_word(signal))],
            )
        }
        VcdFault::OtherWidth(stream, signal) => {
            let path = Detail::Stream(stream_path(split, stream));
            refused(
                alloc,
                "OtherWidth",
                &[file, path, Detail::Name(signal_word(signal))],
            )
        }
        VcdFault::TooManyCycles => refused(alloc, "TooManyCycles", &[file]),
        VcdFault::NotBit(cycle, stream) => {
            let path = Detail::Stream(stream_path(split, stream));
            refused(alloc, "NotBit", &[file, Detail::Number(cycle as u64), path])
        }
        VcdFault::Memory => Reply::Memory,
    }
}
