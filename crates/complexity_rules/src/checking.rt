//! The answers of a checker, cycle by cycle.

ghost use Rattle.std.specs.Prelude.{◌≡◌, ◌↔◌, ◌+◌, ◌-◌, ◌*◌, ◌^◌, ◌<◌, ◌≤◌, ◌∷◌, ◌++◌, [], List, Bool, true, false, Option, Some, None, IfOk, IfSome, IsSome, IsTrue, OnSome, is_some, if◌then◌else◌};
ghost use Rattle.std.specs.Option.{option_copied};
ghost use Rattle.physical_stream.specs.Cycles.{Cycle, cycle_in, items_done, waiting_of};
ghost use Rattle.physical_stream.specs.Counts.{transfers_of, packets_of};
ghost use Rattle.physical_stream.specs.Ending.{ending_of, ending_after, unclosed};
ghost use Rattle.physical_stream.specs.Items.{items_of};
ghost use Rattle.physical_stream.specs.Rules.{Binds};
ghost use Rattle.physical_stream.specs.Shape.{is_whole, tail_of};
ghost use Rattle.physical_stream.specs.Signals.{Fits};
ghost use Rattle.physical_stream.specs.declared.rule.Rule.TheVariants.{Hold};
ghost use Rattle.physical_stream.specs.declared.transfer.Transfer.{Transfer};
ghost use Rattle.complexity_rules.specs.Checking.{IsLowestBroken, IsStep, Sees, StandsFor, Steps, most_seen, params_in, seen_in};
ghost use Rattle.complexity_rules.specs.Effect.{IsEffect, most_packets};
ghost use Rattle.complexity_rules.specs.Waiting.{IsLowestShown};

use crate::breaking::{hold, lowest_of_pause, lowest_of_shown};
use crate::checker::Checker;
use crate::effect::Effect;
use crate::last_item::LastItem;
use crate::one_lane::{lowest_of_one, walk_over_one};
use crate::walk::walk_over;
use physical_stream::{End, Params, Row, Rule, Tail, Transfer};
use std::alloc::Global;
use tydi_base::Memory;

/// The judgement of a cycle that shows a transfer, where none waits.
#[derive(Clone, Copy)]
struct Judged {
    /// The lowest rule that it breaks.
    broken: Option<Rule>,
    /// The changes that the transfer makes when it is done.
    effect: Effect,
}

impl Checker {
    /// A checker of this stream that has seen no cycle. All the memory that it needs is taken here.
    pub fn new(alloc: Global, params: Params) -> Result<Checker, Memory>
        ensures params { IfOk result (λ checker. params_in checker ≡ params) }
        ensures stands { IfOk result (λ checker. StandsFor checker []) }
    {
        let offered = Transfer::zero(alloc, &params)?;
        Ok(Checker {
            params,
            waits: false,
            offered,
            effect: Effect {
                tail: LastItem::none(),
                packets: 0,
            },
            tail: LastItem::none(),
            seen: 0,
            transfers: 0,
            packets: 0,
        })
    }

    /// The stream.
    pub fn params(&self) -> &Params
        ensures { result.now ≡ params_in self.now }
    {
        &self.params
    }

    /// Checks one more cycle. It gives the lowest of rules 1 to 10 that the cycle breaks, and the checker stays as before; or None,
    /// and the cycle is seen.
    pub fn step(&mut self, row: Row<'_>) -> Option<Rule>
        requires fits { IfSome (option_copied row.shown) (Fits (params_in self.old)) }
        requires room { seen_in self.old < most_seen }
        ensures params { params_in self.new ≡ params_in self.old }
        ensures steps { (cycles : List Cycle) → StandsFor self.old cycles → Steps self.old self.new cycles (cycle_in row.entry) result }
        ensures kept { OnSome result (self.new ≡ self.old) }
        ensures seen { seen_in self.new ≡ (if is_some result then seen_in self.old else seen_in self.old + 1) }
    {
        match row.shown {
            Some(transfer) => self.step_shown(transfer, row.ready),
            None => self.step_pause(row.ready),
        }
    }

    /// Checks one more cycle, which shows this transfer.
    fn step_shown(&mut self, transfer: &Transfer, ready: bool) -> Option<Rule>
        requires fits { Fits (params_in self.old) transfer.now }
        requires room { seen_in self.old < most_seen }
        ensures { IsStep self.old self.new (record { ready = ready; shown = Some transfer.now }) result }
    {
        if self.has_waiting() {
            self.step_again(transfer, ready)
        } else {
            self.step_first(transfer, ready)
        }
    }

    /// Checks one more cycle, which shows this transfer while one waits.
    fn step_again(&mut self, transfer: &Transfer, ready: bool) -> Option<Rule>
        requires waits { self.old.waits ≡ true }
        requires room { seen_in self.old < most_seen }
        ensures { IsStep self.old self.new (record { ready = ready; shown = Some transfer.now }) result }
    {
        if !self.has_offered(transfer) {
            return Some(self.hold());
        }
        self.see_again(ready);
        None
    }

    /// Checks one more cycle, which shows this transfer while none waits.
    fn step_first(&mut self, transfer: &Transfer, ready: bool) -> Option<Rule>
        requires free { self.old.waits ≡ false }
        requires fits { Fits (params_in self.old) transfer.now }
        requires room { seen_in self.old < most_seen }
        ensures { IsStep self.old self.new (record { ready = ready; shown = Some transfer.now }) result }
    {
        let judged = self.judge_shown(transfer);
        if judged.broken.is_none() {
            self.see_first(transfer, ready, judged.effect);
        }
        judged.broken
    }

    /// Checks one more cycle, which shows no transfer.
    fn step_pause(&mut self, _ready: bool) -> Option<Rule>
        requires room { seen_in self.old < most_seen }
        ensures { IsStep self.old self.new (record { ready = _ready; shown = None }) result }
    {
        if self.has_waiting() {
            return Some(self.hold());
        }
        let broken = self.judge_pause();
        if broken.is_none() {
            self.see_pause();
        }
        broken
    }

    /// Whether a transfer waits.
    #[inline(always)]
    fn has_waiting(&self) -> bool
        ensures { result ≡ self.now.waits }
    {
        self.waits
    }

    /// Whether this is the transfer that waits, where one does.
    #[inline(always)]
    fn has_offered(&self, transfer: &Transfer) -> bool
        ensures { IsTrue result ↔ (transfer.now ≡ self.now.offered) }
    {
        transfer.equals(&self.offered)
    }

    /// The rule on waiting transfers.
    fn hold(&self) -> Rule
        ensures rule { result ≡ Hold }
        ensures binds { Binds Hold (params_in self.now).level }
    {
        hold(self.params.level)
    }

    /// The judgement of a cycle that shows this transfer, where none waits.
    #[inline(always)]
    fn judge_shown(&self, transfer: &Transfer) -> Judged
        requires { Fits (params_in self.now) transfer.now }
        ensures lowest { IsLowestShown (params_in self.now) self.now.tail transfer.now result.broken }
        ensures changes { IsEffect (params_in self.now).dims self.now.tail (items_of (params_in self.now) transfer.now) result.effect }
        ensures few { result.effect.packets ≤ most_packets }
    {
        if self.has_one_lane() {
            self.judge_one(transfer)
        } else {
            self.judge_lanes(transfer)
        }
    }

    /// Whether the stream has one lane alone.
    #[inline(always)]
    fn has_one_lane(&self) -> bool
        ensures { IsTrue result ↔ ((params_in self.now).lanes ≡ 1) }
    {
        self.params.lanes == 1
    }

    /// The same for any stream.
    #[inline(always)]
    fn judge_lanes(&self, transfer: &Transfer) -> Judged
        requires { Fits (params_in self.now) transfer.now }
        ensures lowest { IsLowestShown (params_in self.now) self.now.tail transfer.now result.broken }
        ensures changes { IsEffect (params_in self.now).dims self.now.tail (items_of (params_in self.now) transfer.now) result.effect }
        ensures few { result.effect.packets ≤ most_packets }
    {
        let items = walk_over(&self.params, transfer, self.tail);
        Judged {
            broken: lowest_of_shown(&self.params, self.tail, transfer, &items),
            effect: items.walk.effect(),
        }
    }

    /// The same for a stream of one lane.
    #[inline(always)]
    fn judge_one(&self, transfer: &Transfer) -> Judged
        requires one { (params_in self.now).lanes ≡ 1 }
        requires fits { Fits (params_in self.now) transfer.now }
        ensures lowest { IsLowestShown (params_in self.now) self.now.tail transfer.now result.broken }
        ensures changes { IsEffect (params_in self.now).dims self.now.tail (items_of (params_in self.now) transfer.now) result.effect }
        ensures few { result.effect.packets ≤ most_packets }
    {
        let walk = walk_over_one(&self.params, transfer, self.tail);
        Judged {
            broken: lowest_of_one(&self.params, self.tail, &walk),
            effect: walk.effect(),
        }
    }

    /// The lowest rule that a cycle breaks that shows no transfer, where none waits.
    fn judge_pause(&self) -> Option<Rule>
        ensures { (cycles : List Cycle) (ready : Bool) → waiting_of cycles ≡ None → self.now.tail ≡ tail_of (items_done (params_in self.now) cycles)
            → IsLowestBroken (params_in self.now) cycles (record { ready = ready; shown = None }) result }
    {
        lowest_of_pause(&self.params, self.tail)
    }

    /// Sees a cycle that shows no transfer.
    fn see_pause(&mut self)
        requires free { self.old.waits ≡ false }
        requires room { seen_in self.old < most_seen }
        ensures { (ready : Bool) → Sees self.old self.new (record { ready = ready; shown = None }) }
    {
        self.seen += 1;
    }

    /// Sees a cycle that shows this transfer, which breaks no rule, where none waits.
    fn see_first(&mut self, transfer: &Transfer, ready: bool, effect: Effect)
        requires fits { Fits (params_in self.old) transfer.now }
        requires room { seen_in self.old < most_seen }
        requires changes { IsEffect (params_in self.old).dims self.old.tail (items_of (params_in self.old) transfer.now) effect }
        requires few { effect.packets ≤ most_packets }
        requires kept { IsLowestShown (params_in self.old) self.old.tail transfer.now None }
        ensures { Sees self.old self.new (record { ready = ready; shown = Some transfer.now }) }
    {
        if ready {
            self.see_done(effect);
        } else {
            self.see_offered(transfer, effect);
        }
    }

    /// Sees a cycle that shows the transfer that waits.
    fn see_again(&mut self, ready: bool)
        requires waits { self.old.waits ≡ true }
        requires room { seen_in self.old < most_seen }
        ensures { Sees self.old self.new (record { ready = ready; shown = Some self.old.offered }) }
    {
        if ready {
            let effect = self.effect;
            self.see_done(effect);
        } else {
            self.seen += 1;
        }
    }

    /// Sees a cycle in which a transfer is done that changes this.
    fn see_done(&mut self, effect: Effect)
        requires room { seen_in self.old < most_seen }
        requires changes { (t : Transfer) × IsEffect (params_in self.old).dims self.old.tail (items_of (params_in self.old) t) effect }
        requires few { effect.packets ≤ most_packets }
        ensures { (t : Transfer) → IsEffect (params_in self.old).dims self.old.tail (items_of (params_in self.old) t) effect
            → Sees self.old self.new (record { ready = true; shown = Some t }) }
    {
        self.waits = false;
        self.tail = effect.tail;
        self.seen += 1;
        self.transfers += 1;
        self.packets += effect.packets;
    }

    /// Sees a cycle that offers this transfer, which is not taken and changes this when it is done.
    fn see_offered(&mut self, transfer: &Transfer, effect: Effect)
        requires fits { Fits (params_in self.old) transfer.now }
        requires room { seen_in self.old < most_seen }
        requires changes { IsEffect (params_in self.old).dims self.old.tail (items_of (params_in self.old) transfer.now) effect }
        requires few { effect.packets ≤ most_packets }
        requires kept { IsLowestShown (params_in self.old) self.old.tail transfer.now None }
        ensures { Sees self.old self.new (record { ready = false; shown = Some transfer.now }) }
    {
        self.offered.copy_from(transfer);
        self.effect = effect;
        self.waits = true;
        self.seen += 1;
    }

    /// How the cycles seen end.
    pub fn end(&self) -> End
        ensures { (cycles : List Cycle) → StandsFor self.now cycles → result ≡ ending_of (params_in self.now) cycles }
    {
        if self.waits {
            End::Pending
        } else {
            self.end_of_items()
        }
    }

    /// The end of the stream after the items done: whole, or the sequences that they leave open.
    fn end_of_items(&self) -> End
        ensures { result ≡ ending_after (params_in self.now).dims self.now.tail }
    {
        match self.tail.kind() {
            None => End::Whole,
            Some(Tail::Elem) => {
                if self.params.dims == 0 {
                    End::Whole
                } else {
                    End::Unclosed(0)
                }
            }
            Some(Tail::Close(dim)) => {
                if dim + 1 == self.params.dims {
                    End::Whole
                } else {
                    End::Unclosed(dim + 1)
                }
            }
        }
    }

    /// The kind of the last item done. None where no item was done.
    pub fn tail(&self) -> Option<Tail>
        ensures { (cycles : List Cycle) → StandsFor self.now cycles → result ≡ tail_of (items_done (params_in self.now) cycles) }
    {
        self.tail.kind()
    }

    /// The transfers done.
    pub fn transfers(&self) -> u64
        ensures { (cycles : List Cycle) → StandsFor self.now cycles → result ≡ transfers_of cycles }
    {
        self.transfers
    }

    /// The packets done: ends of the outermost sequence, or elements where there is no dimension.
    pub fn packets(&self) -> u64
        ensures { (cycles : List Cycle) → StandsFor self.now cycles → result ≡ packets_of (params_in self.now) cycles }
    {
        self.packets
    }
}
