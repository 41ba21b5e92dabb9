//! The outcome of a trace.

ghost use Rattle.type_split.specs.Streams.{plain_split};
ghost use Rattle.cycle_trace.specs.TraceView.{trace_view};
ghost use Rattle.trace_decode.specs.Outcome.{IsDecoded};
ghost use Rattle.trace_decode.specs.Standing.{CanDecode};

use crate::decoded::Decoded;
use crate::decoder::Decoder;
use crate::fault::DecodeFault;
use cycle_trace::Trace;
use std::alloc::Global;
use type_split::Split;

/// The value of a port's type that a trace carries, and the user words of the transfers done. Each node of the port is carried. The errors
/// come in this order: `OtherHeader` where the heads of the trace are not those of the port's streams; `Offence` with the first violation of
/// rules 1 to 11; `Unfinished` with the first stream that does not end whole; `Disagree` where no value has the items done. `Memory` comes
/// where there is none for the value. The rules are after the Tydi specification; the order of the errors is this project's own.
pub fn decode(alloc: Global, split: &Split<'_>, trace: &Trace) -> Result<Decoded, DecodeFault>
    requires { CanDecode (plain_split split.now) }
    ensures { IsDecoded (plain_split split.now) (trace_view trace.now) result }
{
    let mut decoder = Decoder::new(split);
    trace.replay(alloc, &mut decoder)?;
    decoder.finish(alloc)
}
