ghost use Rattle.std.specs.Prelude.{◌≡◌};
ghost use Rattle.cycle_trace.specs.declared.reader.text.HeaderPart.TheVariants as parts;
ghost use Rattle.cycle_trace.specs.declared.reader.text.Stage.TheVariants as stages;

use crate::fault::TraceFault;
use crate::reader::rows::RowsRead;
use crate::version::Version;
use physical_stream::Head;
use std::alloc::Global;
use std::collections::BTreeSet;
use tydi_base::List;

/// The kind of the next line of a trace text.
#[derive(Clone, Copy)]
pub(crate) enum Stage {
    /// One of the header, or the first line after it.
    Header(HeaderPart),
    /// A row, or what follows the last one.
    Rows,
    /// It is not looked at: the text has this error, or memory ran out.
    Failed(TraceFault),
}

/// The part of the header that comes next.
#[derive(Clone, Copy)]
pub(crate) enum HeaderPart {
    /// The first line.
    Title,
    /// The number of cycles.
    Cycles,
    /// A stream line, or what follows the header.
    Heads,
}

/// How far a trace text is read.
#[derive(Drop)]
pub(crate) struct TextRead {
    pub(crate) stage: Stage,
    /// The version of the text, once its first line is read.
    pub(crate) version: Version,
    pub(crate) cycles: u64,
    /// The heads that are read, until the first row.
    pub(crate) heads: List<Head>,
    /// The texts of their paths.
    pub(crate) paths: BTreeSet<Vec<u8>>,
    pub(crate) rows: RowsRead,
}

impl TextRead {
    ghost use Rattle.cycle_trace.specs.ReaderView.{HasNoHeads};

    /// A text of which nothing is read.
    pub(crate) fn new(alloc: Global) -> TextRead
        ensures stage { result.stage ≡ stages.Header parts.Title }
        ensures heads { HasNoHeads result }
    {
        TextRead {
            stage: Stage::Header(HeaderPart::Title),
            version: Version::One,
            cycles: 0,
            heads: List::new(alloc),
            paths: BTreeSet::new(alloc),
            rows: RowsRead::none(alloc),
        }
    }
}
