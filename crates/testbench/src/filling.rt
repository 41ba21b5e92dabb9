//! Pieces of the text of processes, and how long the text is.

ghost use Rattle.std.specs.Prelude.{◌≡◌, ◌<◌, ◌≤◌, ◌++◌, [], length, min, IfOk, OnOk};
ghost use Rattle.tydi_base.specs.Lengths.{most_bytes};
ghost use Rattle.handshake.specs.Offers.{AreBefore};
ghost use Rattle.handshake.specs.Turns.{KeepRuns};
ghost use Rattle.testbench.specs.Pieces.{lines_left, writings_of};

use crate::spot::Spot;
use crate::writing::write_part;
use handshake::{Cursor, TransferFeed};
use physical_stream::Head;
use std::alloc::Global;
use tydi_base::{List, Memory};

/// A piece ends with the first part that brings it to this many bytes.
const PIECE: usize = 65_536;

/// Fills an empty piece with the text that comes next.
pub(crate) fn fill<F: TransferFeed>(
    alloc: Global,
    heads: &[Head],
    cursors: &mut [Cursor<F>],
    spot: &mut Spot,
    piece: &mut List<u8>,
) -> Result<(), Memory>
    requires before { AreBefore F.rest F.whole cursors.old }
    requires few { length cursors.old ≤ 65536 }
    requires empty { piece.old ≡ [] }
    ensures made { OnOk result (lines_left heads.now spot.old (writings_of F.rest F.whole cursors.old)
        ≡ piece.new ++ lines_left heads.now spot.new (writings_of F.rest F.whole cursors.new)) }
    ensures some { OnOk result (0 < length (lines_left heads.now spot.old (writings_of F.rest F.whole cursors.old)) → 0 < length piece.new) }
    ensures before { AreBefore F.rest F.whole cursors.new }
    ensures kept { KeepRuns F.whole cursors.old cursors.new }
{
    'parts: while piece.len() < PIECE {
        if !write_part(alloc, heads, cursors, spot, piece)? {
            return Ok(());
        }
    }
    Ok(())
}

/// The bytes of the text that is left, or the greatest number of 64 bits where there are more. Nothing is left after it. One part of the
/// text is kept at a time.
pub(crate) fn count<F: TransferFeed>(
    alloc: Global,
    heads: &[Head],
    cursors: &mut [Cursor<F>],
    spot: &mut Spot,
) -> Result<u64, Memory>
    requires before { AreBefore F.rest F.whole cursors.old }
    requires few { length cursors.old ≤ 65536 }
    ensures bytes { IfOk result (λ bytes. bytes ≡ min (length (lines_left heads.now spot.old (writings_of F.rest F.whole cursors.old))) most_bytes) }
    ensures kept { KeepRuns F.whole cursors.old cursors.new }
{
    let mut piece = List::new(alloc);
    let mut bytes: u64 = 0;
    'parts: while write_part(alloc, heads, cursors, spot, &mut piece)? {
        bytes = bytes.saturating_add(piece.len() as u64);
        piece.truncate(0);
    }
    Ok(bytes)
}
