//! A sink that hands rows on under other heads.

ghost use Rattle.std.specs.Prelude.{◌≡◌, IfOk, OnOk, MatchResult, List, Option, Some, None};
ghost use Rattle.physical_stream.specs.Cycles.{Cycle, cycle_in};
ghost use Rattle.physical_stream.specs.declared.head.Head.{Head};
ghost use Rattle.cycle_trace.specs.RowSink.{CanTake, IsHeader, begun_by, with_row};
ghost use Rattle.cycle_trace.specs.Trace.{TraceText};
ghost use Rattle.link_check.specs.Carriers.{Arrives, CarrierStands, FallsFirst};
ghost use Rattle.link_check.specs.Carry.{AreAlike};

use crate::carry_fault::CarryFault;
use crate::heads::{first_fall, first_other};
use cycle_trace::RowSink;
use physical_stream::{Head, Header, Row};
use std::alloc::Global;
use tydi_base::{List, Memory};

/// Carries a trace row by row: it hands the rows on to a sink, under the heads of the streams where they arrive. The rows of a trace
/// with other heads than those where the streams come from are dropped.
#[derive(Drop)]
pub struct Carrier<K> {
    pub(crate) from: List<Head>,
    pub(crate) to: Header,
    pub(crate) sink: K,
    /// The first stream whose head is another one.
    pub(crate) other: Option<usize>,
}

impl<K: RowSink> Carrier<K> {
    /// Hands rows on from streams with the one list of heads to those with the other, which differ in levels alone. It fails exactly
    /// where a level falls.
    pub fn new(from: List<Head>, to: List<Head>, sink: K) -> Result<Carrier<K>, CarryFault>
        requires alike { AreAlike from to }
        requires fresh { K.stands_for sink None }
        ensures stands { MatchResult result (λ carrier. CarrierStands K.stands_for carrier None) (FallsFirst from to) }
        ensures ends { IfOk result (λ carrier. (carrier.from ≡ from) × (carrier.to.heads ≡ to)) }
    {
        match first_fall(from.as_slice(), to.as_slice()) {
            Some(stream) => Err(CarryFault::NotLevel(stream)),
            None => Ok(Carrier {
                from,
                to: Header {
                    cycles: 0,
                    heads: to,
                },
                sink,
                other: None,
            }),
        }
    }

    /// The sink with the trace that arrived. The error is the first stream, counted from 0, whose head is not the one where the carrier's
    /// streams come from; where one list of heads is shorter, it is the length of that list. It takes no memory.
    pub fn finish(self) -> Result<K, usize>
        ensures { (t : TraceText) → CarrierStands K.stands_for self (Some t) → Arrives K.stands_for self.from self.to.heads t result }
    {
        match self.other {
            Some(stream) => Err(stream),
            None => Ok(self.sink),
        }
    }
}

impl<K: RowSink> RowSink for Carrier<K> {
    ghost stands_for = { CarrierStands K.stands_for };

    ghost fixed = { λ carrier. K.fixed carrier.sink };

    ghost Setting = { List Head × (List Head × K.Setting) };

    ghost setting = { λ carrier. (carrier.from, (carrier.to.heads, K.setting carrier.sink)) };

    fn start(&mut self, alloc: Global, header: &Header) -> Result<(), Memory> {
        match first_other(self.from.as_slice(), header.heads.as_slice()) {
            Some(stream) => {
                self.other = Some(stream);
                Ok(())
            }
            None => {
                self.to.cycles = header.cycles;
                self.sink.start(alloc, &self.to)
            }
        }
    }

    fn row(&mut self, alloc: Global, row: Row<'_>) -> Result<(), Memory> {
        match self.other {
            Some(_) => Ok(()),
            None => self.sink.row(alloc, row),
        }
    }
}
