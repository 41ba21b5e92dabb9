ghost use Rattle.std.specs.Prelude.{◌≡◌, List};
ghost use Rattle.bench_run.specs.Traces.{rows_of};
ghost use Rattle.bench_run.specs.Turns.{none_left, rows_left};

use crate::bench_rows::BenchRows;
use handshake::CycleFeed;
use physical_stream::Row;

impl CycleFeed for BenchRows {
    ghost rows = { λ rows. rows_left rows };

    ghost whole = { λ rows. rows_of rows.sim.bench rows.run };

    ghost undone = { λ rows. none_left rows.sim.bench.heads };

    fn next(&mut self) -> Option<Row<'_>> {
        match self.turn() {
            None => None,
            Some(turn) => Some(self.sim.row(turn.stream, turn.ready)),
        }
    }

    fn rewind(&mut self) {
        self.sim.restart();
        self.number = 0;
        self.stream = 0;
    }

    fn left(&self, _stream: usize) -> usize {
        // a bench counts no transfers
        0
    }
}
