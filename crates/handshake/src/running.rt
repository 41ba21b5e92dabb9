ghost use Rattle.std.specs.Prelude.{◌≡◌, ◌<◌, ◌+◌, [], ℕ, Bool, List, length, slice_get, Some, get_or, false};
ghost use Rattle.physical_stream.specs.declared.transfer.Transfer.{Transfer};
ghost use Rattle.handshake.specs.Offers.{AreFirst};
ghost use Rattle.handshake.specs.Ports.{runs_in};
ghost use Rattle.handshake.specs.Rows.{rows_after, rows_behind, rows_from};
ghost use Rattle.handshake.specs.Standing.{StandsFor};
ghost use Rattle.handshake.specs.Turns.{AreRewound, FirstTurn, KeepRuns};
ghost use Rattle.handshake.specs.declared.cursor.Cursor.{Cursor};

use crate::cursor::Cursor;
use crate::feed::{Rewind, TransferFeed};
use crate::port_run::PortRun;
use crate::turn::Turn;
use tydi_base::List;

impl<F: TransferFeed> PortRun<F> {
    /// The runs of streams, each from its start: a cursor for each, and its ready bits, one for each of so many cycles.
    pub fn new(cursors: List<Cursor<F>>, ready: List<List<bool>>, cycles: u32) -> PortRun<F>
        requires same { length cursors ≡ length ready }
        requires long { (i : ℕ) (bits : List Bool) → slice_get ready i ≡ Some bits → length bits ≡ cycles }
        requires stands { (i : ℕ) (c : Cursor F F.TransferFeed) → slice_get cursors i ≡ Some c → StandsFor F.rest c (F.whole c.feed) [] }
        ensures cursors { result.cursors.items ≡ cursors }
        ensures ready { result.ready ≡ ready }
        ensures number { result.number ≡ 0 }
        ensures many { result.many ≡ cycles }
        ensures stream { result.stream ≡ 0 }
    {
        PortRun {
            cursors: cursors.into_vec(),
            ready,
            number: 0,
            many: cycles as usize,
            stream: 0,
        }
    }

    /// The cursors of the streams, wherever they stand, and their ready bits: one for each of all cycles, those that are made and those
    /// that are left.
    pub fn into_parts(self) -> (List<Cursor<F>>, List<List<bool>>)
        ensures cursors { result.0 ≡ self.cursors.items }
        ensures ready { result.1 ≡ self.ready }
        ensures same { length result.0 ≡ length result.1 }
        ensures long { (i : ℕ) (bits : List Bool) → slice_get result.1 i ≡ Some bits → length bits ≡ self.number + self.many }
    {
        let PortRun { cursors, ready, .. } = self;
        (List::from_vec(cursors), ready)
    }

    /// Makes the next row: its stream, its ready bit, and whether it shows the held transfer. None exactly where no row is left.
    pub(crate) fn turn(&mut self) -> Option<Turn>
        ensures first { FirstTurn (rows_after (runs_in F.rest F.whole self.old.cursors.items self.old.ready) self.old.stream self.old.number self.old.many) self.new.cursors.items result }
        ensures rows { rows_after (runs_in F.rest F.whole self.new.cursors.items self.new.ready) self.new.stream self.new.number self.new.many
            ≡ rows_behind (rows_after (runs_in F.rest F.whole self.old.cursors.items self.old.ready) self.old.stream self.old.number self.old.many) }
        ensures runs { runs_in F.rest F.whole self.new.cursors.items self.new.ready ≡ runs_in F.rest F.whole self.old.cursors.items self.old.ready }
        ensures cycles { self.new.number + self.new.many ≡ self.old.number + self.old.many }
    {
        if self.many == 0 {
            return None;
        }
        if self.cursors.is_empty() {
            return None;
        }
        let stream = self.stream;
        let ready = bit_of(self.ready.as_slice(), stream, self.number);
        let shows = self.cursors[stream].step(ready);
        if stream + 1 < self.cursors.len() {
            self.stream = stream + 1;
            return Some(Turn {
                stream,
                ready,
                shows,
            });
        }
        self.stream = 0;
        self.number += 1;
        self.many -= 1;
        Some(Turn {
            stream,
            ready,
            shows,
        })
    }
}

/// The ready bit of a stream in a cycle.
fn bit_of(ready: &[List<bool>], stream: usize, number: usize) -> bool
    requires within { stream < length ready.now }
    requires long { (bits : List Bool) → slice_get ready.now stream ≡ Some bits → number < length bits }
    ensures { (bits : List Bool) → slice_get ready.now stream ≡ Some bits → result ≡ get_or bits number false }
{
    let bits = &ready[stream];
    bits.as_slice()[number]
}

/// Each cursor goes back to before the first cycle of the run of all its transfers.
pub fn rewind_all<F: Rewind>(cursors: &mut [Cursor<F>])
    ensures rewound { AreRewound F.whole F.rest cursors.new }
    ensures first { AreFirst F.rest F.whole cursors.new }
    ensures kept { KeepRuns F.whole cursors.old cursors.new }
{
    'cursors: for place in 0..cursors.len() {
        cursors[place].rewind();
    }
}
