//! The text of a monitor, whose pieces are made one after another.

ghost use Rattle.std.specs.Prelude.{◌≡◌, ◌<◌, ◌+◌, ◌++◌, [], length, codes, IfOk, OnOk};
ghost use Rattle.watch_text.specs.Pieces.{IsPiece, lines_between, text_left};
ghost use Rattle.watch_text.specs.Statements.{plain_watch};
ghost use Rattle.watch_text.specs.Text.{watch_text};
ghost use Rattle.watch_text.specs.declared.pieces.Next.TheVariants as parts;

use crate::entity::Front;
use crate::items::ItemLines;
use crate::marks::Where;
use crate::processes::Process;
use crate::tables::{TableBack, TableFront};
use crate::watch::Watch;
use physical_stream::{Head, Item};
use std::alloc::Global;
use tydi_base::{List, Memory, emit};

/// The most items that a piece has lines of.
const PIECE: usize = 4096;

/// The rest of the text of a monitor. A piece is the front, some thousand items of a table, or a process.
#[derive(Drop)]
pub struct WatchPieces {
    watch: Watch,
    next: Next,
}

/// The part of a text that comes next.
#[derive(Clone, Copy)]
pub(crate) enum Next {
    /// The lines before the tables.
    Front,
    /// The table of this stream, from this item on.
    Table { stream: usize, item: usize },
    /// The process of this stream.
    Process { stream: usize },
    /// Nothing.
    Nothing,
}

impl WatchPieces {
    /// The whole text of this monitor.
    pub fn new(watch: Watch) -> WatchPieces
        ensures { text_left result ≡ watch_text (plain_watch watch) }
    {
        WatchPieces {
            watch,
            next: Next::Front,
        }
    }

    /// Makes the next piece, in the room of the last one. It is empty exactly where nothing is left. After `Memory` the same piece comes
    /// next.
    pub fn next(&mut self, _alloc: Global, piece: &mut List<u8>) -> Result<(), Memory>
        ensures made { OnOk result (text_left self.old ≡ piece.new ++ text_left self.new) }
        ensures some { OnOk result (0 < length (text_left self.old) → 0 < length piece.new) }
    {
        piece.truncate(0);
        self.next = write_part(&self.watch, self.next, piece)?;
        Ok(())
    }
}

/// Adds a part of the text of a monitor, and gives the part that comes after it.
fn write_part(watch: &Watch, next: Next, piece: &mut List<u8>) -> Result<Next, Memory>
    requires { piece.old ≡ [] }
    ensures { IfOk result (IsPiece (plain_watch watch.now) next piece.new) }
{
    match next {
        Next::Front => write_front(watch, piece),
        Next::Table { stream, item } => write_table(watch, stream, item, piece),
        Next::Process { stream } => write_process(watch, stream, piece),
        Next::Nothing => Ok(Next::Nothing),
    }
}

/// Adds the lines before the tables.
fn write_front(watch: &Watch, piece: &mut List<u8>) -> Result<Next, Memory>
    requires { piece.old ≡ [] }
    ensures { IfOk result (IsPiece (plain_watch watch.now) parts.Front piece.new) }
{
    emit!(piece; Front(watch.heads.as_slice()))?;
    Ok(Next::Table { stream: 0, item: 0 })
}

/// Adds lines of the table of a stream, from an item on. Behind the last table the architecture begins.
fn write_table(
    watch: &Watch,
    stream: usize,
    item: usize,
    piece: &mut List<u8>,
) -> Result<Next, Memory>
    requires { piece.old ≡ [] }
    ensures { IfOk result (IsPiece (plain_watch watch.now) (parts.Table stream item) piece.new) }
{
    let Some(head) = watch.heads.get(stream) else {
        return write_begin(piece);
    };
    let Some(want) = watch.want.get(stream) else {
        return write_begin(piece);
    };
    let to = end_of_piece(item, want.len());
    write_items(head, want.as_slice(), item, to, piece)?;
    if to < want.len() {
        return Ok(Next::Table { stream, item: to });
    }
    let stream = after(stream, watch.heads.len());
    Ok(Next::Table { stream, item: 0 })
}

/// Adds the line with which the processes begin.
fn write_begin(piece: &mut List<u8>) -> Result<Next, Memory>
    requires { piece.old ≡ [] }
    ensures { IfOk result (λ next. (next ≡ parts.Process 0) × (piece.new ≡ codes "begin\n")) }
{
    emit!(piece; "begin\n")?;
    Ok(Next::Process { stream: 0 })
}

/// Adds the lines of the items of a stream from the one place to the other, with the lines before them where they are the first, and those
/// behind them where they are the last.
fn write_items(
    head: &Head,
    want: &[Item],
    from: usize,
    to: usize,
    piece: &mut List<u8>,
) -> Result<(), Memory>
    requires { piece.old ≡ [] }
    ensures { OnOk result (piece.new ≡ lines_between head.now want.now from to) }
{
    let lines = ItemLines {
        params: &head.params,
        items: want,
        from,
        to,
    };
    let last = want.len();
    emit!(piece; Where(from == 0, TableFront(head, last)), lines, Where(to >= last, TableBack(head, last)))
}

/// The place behind the last item of a piece that begins at this place, among so many items.
fn end_of_piece(item: usize, count: usize) -> usize
    ensures { result < count → item < result }
{
    item.saturating_add(PIECE)
}

/// Adds the lines of the process of a stream. Behind the last process the architecture ends.
fn write_process(watch: &Watch, stream: usize, piece: &mut List<u8>) -> Result<Next, Memory>
    requires { piece.old ≡ [] }
    ensures { IfOk result (IsPiece (plain_watch watch.now) (parts.Process stream) piece.new) }
{
    let Some(head) = watch.heads.get(stream) else {
        return write_end(piece);
    };
    let Some(process) = watch.procs.get(stream) else {
        return write_end(piece);
    };
    emit!(piece; Process(head, process.as_slice()))?;
    let stream = after(stream, watch.heads.len());
    Ok(Next::Process { stream })
}

/// Adds the line that ends the text.
fn write_end(piece: &mut List<u8>) -> Result<Next, Memory>
    requires { piece.old ≡ [] }
    ensures { IfOk result (λ next. (next ≡ parts.Nothing) × (piece.new ≡ codes "end architecture;\n")) }
{
    emit!(piece; "end architecture;\n")?;
    Ok(Next::Nothing)
}

/// The number after this one, among so many.
fn after(number: usize, count: usize) -> usize
    ensures { number < count → result ≡ number + 1 }
{
    if number < count { number + 1 } else { number }
}
