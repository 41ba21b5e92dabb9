ghost use Rattle.std.specs.Prelude.{◌≡◌, ◌<◌, ◌+◌, [], length, get_or, false, true, IfOk};
ghost use Rattle.handshake.specs.Rows.{rows_behind};
ghost use Rattle.vhdl_text.specs.WellFormed.{IsWellFormed};
ghost use Rattle.vhdl_meaning.specs.RunLaws.{FitsBench};
ghost use Rattle.bench_run.specs.Turns.{FirstTurn, rows_left};

use crate::bench_rows::BenchRows;
use crate::turn::Turn;
use std::alloc::Global;
use tydi_base::{List, Memory};
use vhdl_meaning::{Sim, SimRun};
use vhdl_text::Bench;

/// The ready bit of a stream in a cycle.
fn bit_of(ready: &[List<bool>], stream: usize, number: usize) -> bool
    requires within { stream < length ready.now }
    requires long { number < length (get_or ready.now stream []) }
    ensures { result ≡ get_or (get_or ready.now stream []) number false }
{
    let bits = &ready[stream];
    bits.as_slice()[number]
}

impl BenchRows {
    /// The rows of a bench under a run, from the first on. `Memory` comes where there is none for the values of the signals, for the
    /// places of the processes, or for a ready bit for each stream.
    pub fn new(alloc: Global, bench: Bench, run: SimRun) -> Result<BenchRows, Memory>
        requires bench { IsWellFormed bench }
        requires run { FitsBench bench run }
        ensures bench { IfOk result (λ rows. rows.sim.bench ≡ bench) }
        ensures run { IfOk result (λ rows. rows.run ≡ run) }
        ensures number { IfOk result (λ rows. rows.number ≡ 0) }
        ensures stream { IfOk result (λ rows. rows.stream ≡ 0) }
    {
        let mut kept = Vec::new(alloc);
        kept.resize(bench.heads.len(), false)?;
        let sim = Sim::new(alloc, bench)?;
        Ok(BenchRows {
            sim,
            run,
            kept,
            number: 0,
            stream: 0,
        })
    }

    /// The edge that ends a cycle of which all rows were made, and which is not the last one.
    fn pass_edge(&mut self)
        requires over { self.old.stream ≡ self.old.kept.len }
        requires more { self.old.number < self.old.run.cycles }
        ensures rows { rows_left self.new ≡ rows_left self.old }
        ensures bench { self.new.sim.bench ≡ self.old.sim.bench }
        ensures run { self.new.run ≡ self.old.run }
        ensures kept { self.new.kept.len ≡ self.old.kept.len }
        ensures number { self.new.number ≡ self.old.number + 1 }
        ensures stream { self.new.stream ≡ 0 }
    {
        let order = &self.run.orders.as_slice()[self.number];
        self.sim.edge(self.kept.as_slice(), order.as_slice());
        self.number += 1;
        self.stream = 0;
    }

    /// Passes an edge where the next row needs it. Whether a row is left.
    fn goes_on(&mut self) -> bool
        ensures rows { rows_left self.new ≡ rows_left self.old }
        ensures bench { self.new.sim.bench ≡ self.old.sim.bench }
        ensures run { self.new.run ≡ self.old.run }
        ensures some { result ≡ true → (self.new.number < self.new.run.cycles) × (self.new.stream < length self.new.sim.bench.heads) }
        ensures none { result ≡ false → rows_left self.old ≡ [] }
    {
        let cycles = self.run.cycles as usize;
        if self.stream < self.kept.len() {
            return self.number < cycles;
        }
        if self.kept.is_empty() {
            return false;
        }
        if self.number + 1 >= cycles {
            return false;
        }
        self.pass_edge();
        true
    }

    /// Goes on to the next row: its stream and its ready bit. None exactly where no row is left.
    pub(crate) fn turn(&mut self) -> Option<Turn>
        ensures first { FirstTurn (rows_left self.old) self.new.sim.bench self.new.run self.new.number result }
        ensures rows { rows_left self.new ≡ rows_behind (rows_left self.old) }
        ensures bench { self.new.sim.bench ≡ self.old.sim.bench }
        ensures run { self.new.run ≡ self.old.run }
    {
        if !self.goes_on() {
            return None;
        }
        let stream = self.stream;
        let ready = bit_of(self.run.ready.as_slice(), stream, self.number);
        self.kept[stream] = ready;
        self.stream = stream + 1;
        Some(Turn { stream, ready })
    }
}
