ghost use Rattle.std.specs.Prelude.{◌≡◌, ◌<◌, ◌≤◌, ◌++◌, false, length, min, IfOk, OnOk};
ghost use Rattle.tydi_base.specs.Lengths.{most_bytes};
ghost use Rattle.handshake.specs.Offers.{AreFirst};
ghost use Rattle.handshake.specs.Turns.{KeepRuns};
ghost use Rattle.vhdl_text.specs.Text.{bench_text};
ghost use Rattle.testbench.specs.Driving.{driving};
ghost use Rattle.testbench.specs.Pieces.{driven_in, processes_left, writings_of};
ghost use Rattle.testbench.specs.TextLeft.{HaveParams, text_left};

use crate::bench_pieces::{BenchPieces, BenchText};
use crate::filling::{count, fill};
use crate::spot::Spot;
use handshake::{Cursor, Rewind, TransferFeed, rewind_all};
use physical_stream::Head;
use std::alloc::Global;
use std::mem;
use tydi_base::{List, Memory};
use vhdl_text::{benches_have_parts, write_back, write_front};

/// The text of the bench that drives, on the streams with these heads, the transfers of their cursors with the cursors' gaps, wherever
/// the cursors stand. Its statements are gone over once to find the length, and none of them is kept. Want of memory is the one error.
pub fn bench_text<F: Rewind>(
    alloc: Global,
    heads: List<Head>,
    cursors: List<Cursor<F>>,
) -> Result<BenchText<F>, Memory>
    requires few { length cursors ≤ 65536 }
    requires params { HaveParams heads cursors }
    ensures text { IfOk result (λ text. text_left F.rest F.whole text.pieces ≡ bench_text (driving (driven_in F.whole heads cursors))) }
    ensures length { IfOk result (λ text. text.length ≡ min (length (text_left F.rest F.whole text.pieces)) most_bytes) }
{
    benches_have_parts();
    let mut front = List::new(alloc);
    write_front(heads.as_slice(), &mut front)?;
    let mut back = List::new(alloc);
    write_back(&mut back)?;
    let mut cursors = cursors.into_vec();
    let bytes = measured(alloc, heads.as_slice(), cursors.as_mut_slice())?;
    let length = bytes
        .saturating_add(front.len() as u64)
        .saturating_add(back.len() as u64);
    let spot = Spot {
        stream: 0,
        begun: false,
    };
    let pieces = BenchPieces {
        front,
        heads,
        cursors,
        spot,
        back,
    };
    Ok(BenchText { pieces, length })
}

/// The bytes of the text of all processes, or the greatest number of 64 bits where there are more. Each cursor stands before all
/// transfers after it.
fn measured<F: Rewind>(
    alloc: Global,
    heads: &[Head],
    cursors: &mut [Cursor<F>],
) -> Result<u64, Memory>
    requires few { length cursors.old ≤ 65536 }
    ensures bytes { IfOk result (λ bytes. bytes ≡ min (length (processes_left heads.now 0 false (writings_of F.rest F.whole cursors.new))) most_bytes) }
    ensures first { IfOk result (λ bytes. AreFirst F.rest F.whole cursors.new) }
    ensures kept { KeepRuns F.whole cursors.old cursors.new }
{
    rewind_all(cursors);
    let mut spot = Spot {
        stream: 0,
        begun: false,
    };
    let counted = count(alloc, heads, cursors, &mut spot);
    rewind_all(cursors);
    counted
}

impl<F: TransferFeed> BenchPieces<F> {
    /// Makes the next piece, in the room of the last one. It is empty exactly where nothing is left. After `Memory` the text cannot go on.
    pub fn next(&mut self, alloc: Global, piece: &mut List<u8>) -> Result<(), Memory>
        ensures made { OnOk result (text_left F.rest F.whole self.old ≡ piece.new ++ text_left F.rest F.whole self.new) }
        ensures some { OnOk result (0 < length (text_left F.rest F.whole self.old) → 0 < length piece.new) }
    {
        piece.truncate(0);
        if !self.front.is_empty() {
            mem::swap(piece, &mut self.front);
            return Ok(());
        }
        let filled = fill(
            alloc,
            self.heads.as_slice(),
            self.cursors.as_mut_slice(),
            &mut self.spot,
            piece,
        );
        if piece.is_empty() {
            mem::swap(piece, &mut self.back);
        }
        filled
    }
}
