ghost use Rattle.std.specs.Prelude.{◌≡◌, ◌∷◌, [], List, drop};
ghost use Rattle.physical_stream.specs.Cycles.{Cycle};
ghost use Rattle.reshape.specs.Runs.{far_in, undone_in};

use crate::reshape_run::ReshapeRun;
use handshake::{CycleFeed, Rewind};
use physical_stream::Row;

impl<F: Rewind> CycleFeed for ReshapeRun<F> {
    ghost rows = { λ run. drop run.number (far_in F.whole run.near run.reshaper run.ready) };

    ghost whole = { λ run. far_in F.whole run.near run.reshaper run.ready };

    ghost undone = { λ run. undone_in F.whole run.near run.reshaper run.ready ∷ [] };

    fn next(&mut self) -> Option<Row<'_>> {
        match self.turn() {
            None => None,
            Some(turn) => {
                if turn.shows {
                    return Some(Row {
                        ready: turn.ready,
                        shown: Some(&self.shown),
                    });
                }
                Some(Row {
                    ready: turn.ready,
                    shown: None,
                })
            }
        }
    }

    fn rewind(&mut self) {
        self.near.rewind();
        self.reshaper.clear();
        self.number = 0;
        self.done = 0;
    }

    fn left(&self, _stream: usize) -> usize {
        self.planned.saturating_sub(self.done)
    }
}
