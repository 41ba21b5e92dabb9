ghost use Rattle.std.specs.Prelude.{◌≡◌, ℕ, ◌<◌, List, [], length, get_or, ⊤};
ghost use Rattle.std.specs.Borrow.{sem};
ghost use mathlib.Core.Option.{none};
ghost use denote.Follow.{follows_so};
ghost use Rattle.physical_stream.specs.Cycles.{Cycle};
ghost use Rattle.handshake.specs.Rows.{FirstRow, rows_behind};

use physical_stream::Row;

/// A source of the rows of a port, by cycle and then by stream, as often as they are asked for. It takes no memory.
pub trait CycleFeed: Drop {
    /// The rows that are left.
    ghost rows: { Self → List Cycle };

    /// All rows. No call changes them.
    ghost whole: { Self → List Cycle };

    /// How many transfers of each stream are not done after all rows. No call changes them.
    ghost undone: { Self → List ℕ };

    /// The next row. None exactly where no row is left.
    fn next(&mut self) -> Option<Row<'_>>
        ensures first { FirstRow (rows self.old) result }
        ensures* after { sem 𝓛 (follows_so Self.row Self.row self.entry.ghost_name none (λ _ _. ⊤)
            (λ n. (rows n ≡ rows_behind (rows self.old)) × (whole n ≡ whole self.old) × (undone n ≡ undone self.old))) };

    /// All rows are left again.
    fn rewind(&mut self)
        ensures rows { rows self.new ≡ whole self.old }
        ensures whole { whole self.new ≡ whole self.old }
        ensures undone { undone self.new ≡ undone self.old };

    /// How many transfers of this stream are not done, once no row is left.
    fn left(&self, stream: usize) -> usize
        requires over { rows self.now ≡ [] }
        requires within { stream < length (undone self.now) }
        ensures { result ≡ get_or (undone self.now) stream 0 };
}
