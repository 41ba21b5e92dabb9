//! Whole traces that are carried.

ghost use Rattle.std.specs.Prelude.{◌≡◌, MatchResult};
ghost use Rattle.cycle_trace.specs.TraceView.{trace_view};
ghost use Rattle.link_check.specs.Carriers.{FallsFirst};
ghost use Rattle.link_check.specs.Carry as spec;
ghost use Rattle.link_check.specs.Carry.{AreAlike};

use crate::carrier::Carrier;
use crate::carry_fault::CarryFault;
use cycle_trace::{Keep, Trace};
use physical_stream::Header;
use std::alloc::Global;
use tydi_base::TryClone;

/// The trace that arrives, with the heads `to`, of a trace with the heads `from`: the same cycles, and each signal that only `to` has at
/// its default. It fails with the first stream whose level falls, and with `Memory`.
pub fn carry(alloc: Global, from: &Header, to: &Header, trace: &Trace) -> Result<Trace, CarryFault>
    requires alike { AreAlike from.now.heads to.now.heads }
    requires header { (trace_view trace.now).heads ≡ from.now.heads }
    ensures { MatchResult result (λ carried. trace_view carried ≡ spec.carried to.now.heads (trace_view trace.now)) (FallsFirst from.now.heads to.now.heads) }
{
    let heads = from.heads.try_clone(alloc)?;
    let others = to.heads.try_clone(alloc)?;
    let mut carrier = Carrier::new(heads, others, Keep::new())?;
    trace.replay(alloc, &mut carrier)?;
    let Ok(keep) = carrier.finish() else {
        unreachable!()
    };
    match keep.trace() {
        Some(arrived) => Ok(arrived),
        None => Err(CarryFault::Memory),
    }
}
