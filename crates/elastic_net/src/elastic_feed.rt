ghost use Rattle.std.specs.Prelude.{◌≡◌, ◌+◌, List, [], length, get_or};
ghost use Rattle.physical_stream.specs.Cycles.{Cycle};
ghost use Rattle.elastic_net.specs.Nets.{left_of_chains, sink_rows, sink_rows_after};
ghost use Rattle.elastic_net.specs.Ports.{net_in};

use crate::elastic_run::ElasticRun;
use crate::running::rewind_all;
use handshake::{CycleFeed, Rewind};
use physical_stream::Row;

impl<F: Rewind> CycleFeed for ElasticRun<F> {
    ghost rows = { λ run. sink_rows_after (net_in F.rest F.whole run.chains.items run.ready run.orders) run.stream run.number run.many };

    ghost whole = { λ run. sink_rows (net_in F.rest F.whole run.chains.items run.ready run.orders) 0 (run.number + run.many) };

    ghost undone = { λ run. left_of_chains (net_in F.rest F.whole run.chains.items run.ready run.orders) };

    fn next(&mut self) -> Option<Row<'_>> {
        match self.turn() {
            None => None,
            Some(turn) => Some(Row {
                ready: turn.ready,
                shown: self.chains[turn.stream].shown(),
            }),
        }
    }

    fn rewind(&mut self) {
        rewind_all(self.chains.as_mut_slice());
        self.many += self.number;
        self.number = 0;
        self.stream = 0;
        self.first = 0;
    }

    fn left(&self, stream: usize) -> usize {
        self.chains[stream].left()
    }
}
