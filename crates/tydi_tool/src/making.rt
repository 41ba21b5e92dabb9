ghost use Rattle.std.specs.Prelude.{◌≡◌, ◌<◌, ◌++◌, length, OnOk};
ghost use Rattle.vcd_read.specs.Kept.{bytes_of};
ghost use Rattle.tydi_tool.specs.Output.{text_of};

use crate::source::Source;
use std::alloc::Global;
use std::mem;
use tydi_base::{List, Memory};
use vcd_read::DumpText;

/// Makes the next piece of a source, in the room of the last one. It is not empty where the source is not at its end. After `Memory` the
/// source cannot go on.
pub(crate) fn make_piece(
    alloc: Global,
    source: &mut Source,
    piece: &mut List<u8>,
) -> Result<(), Memory>
    ensures made { OnOk result (text_of source.old ≡ piece.new ++ text_of source.new) }
    ensures some { OnOk result (0 < length (text_of source.old) → 0 < length piece.new) }
{
    match source {
        Source::Whole(text) => {
            piece.truncate(0);
            mem::swap(piece, text);
            Ok(())
        }
        Source::Rows(pieces) => pieces.next(alloc, piece),
        Source::Cycles(pieces) => pieces.next(alloc, piece),
        Source::Design(pieces) => pieces.next(alloc, piece),
        Source::Lines(pieces) => pieces.next(alloc, piece),
        Source::Value(pieces) => pieces.next(alloc, piece),
        Source::Watch(pieces) => pieces.next(alloc, piece),
        Source::Dump(text) => {
            next_part(text, piece);
            Ok(())
        }
    }
}

/// Gives the next part of the text of a trace that a dump shows, in the room of the last piece.
fn next_part(text: &mut DumpText, piece: &mut List<u8>)
    ensures made { bytes_of text.old ≡ piece.new ++ bytes_of text.new }
    ensures some { 0 < length (bytes_of text.old) → 0 < length piece.new }
{
    piece.truncate(0);
    if text.header.len() > 0 {
        mem::swap(piece, &mut text.header);
    } else {
        mem::swap(piece, &mut text.rows);
    }
}
