ghost use Rattle.std.specs.Prelude.{◌≡◌, ◌+◌, List, [], length, get_or};
ghost use Rattle.physical_stream.specs.Cycles.{Cycle};
ghost use Rattle.handshake.specs.Ports.{runs_in};
ghost use Rattle.handshake.specs.Rows.{rows_after, rows_from, undone_in};

use crate::cycle_feed::CycleFeed;
use crate::feed::Rewind;
use crate::port_run::PortRun;
use crate::running::rewind_all;
use physical_stream::Row;

impl<F: Rewind> CycleFeed for PortRun<F> {
    ghost rows = { λ run. rows_after (runs_in F.rest F.whole run.cursors.items run.ready) run.stream run.number run.many };

    ghost whole = { λ run. rows_from (runs_in F.rest F.whole run.cursors.items run.ready) 0 (run.number + run.many) };

    ghost undone = { λ run. undone_in (runs_in F.rest F.whole run.cursors.items run.ready) };

    fn next(&mut self) -> Option<Row<'_>> {
        match self.turn() {
            None => None,
            Some(turn) => Some(Row {
                ready: turn.ready,
                shown: if turn.shows {
                    Some(&self.cursors[turn.stream].held)
                } else {
                    None
                },
            }),
        }
    }

    fn rewind(&mut self) {
        rewind_all(self.cursors.as_mut_slice());
        self.many += self.number;
        self.number = 0;
        self.stream = 0;
    }

    fn left(&self, stream: usize) -> usize {
        self.cursors[stream].left()
    }
}
