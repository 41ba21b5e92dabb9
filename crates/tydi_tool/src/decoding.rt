ghost use Rattle.tydi_tool.specs.Decodes.{IsFound};

use crate::answer::Reply;
use physical_stream::{End, Rule};
use trace_decode::{DecodeFault, Decoded};
use tydi_base::Path;

/// What was found of the trace of a port. Cycles, streams and packets are numbered from 0.
#[derive(Debug, Drop)]
pub enum Decoding {
    /// The heads of the trace are not those of the port, first at this place.
    OtherHeader(usize),
    /// The first offence by rules 1 to 11.
    Offence {
        cycle: u32,
        stream: usize,
        rule: Rule,
    },
    /// There is no offence, and this is the first stream that does not end whole.
    Unfinished {
        stream: usize,
        end: End,
    },
    /// There is no offence and each stream ends whole, but the streams disagree, first at this node and this packet of it.
    Disagree(Path, u64),
    /// The value that the trace carries, and the user words of the transfers done.
    Carried(Decoded),
}

/// What was found of a trace without a value. The error is the reply where memory was missing.
pub(crate) fn decoding_of(fault: DecodeFault) -> Result<Decoding, Reply>
    ensures { IsFound fault result }
{
    match fault {
        DecodeFault::OtherHeader(place) => Ok(Decoding::OtherHeader(place)),
        DecodeFault::Offence {
            cycle,
            stream,
            rule,
        } => Ok(Decoding::Offence {
            cycle,
            stream,
            rule,
        }),
        DecodeFault::Unfinished { stream, end } => Ok(Decoding::Unfinished { stream, end }),
        DecodeFault::Disagree(path, packet) => Ok(Decoding::Disagree(path, packet)),
        DecodeFault::Memory => Err(Reply::Memory),
    }
}
