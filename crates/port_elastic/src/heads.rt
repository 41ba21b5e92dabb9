//! The header of the trace of a port.

ghost use Rattle.std.specs.Prelude.{◌≡◌, ◌≤◌, true, map, IfOk};
ghost use Rattle.cycle_trace.specs.Spelling.{header_text};
ghost use Rattle.cycle_trace.specs.Trace.{are_heads, most_cycles, params_of_heads};
ghost use Rattle.cycle_trace.specs.Version.{version_of};
ghost use Rattle.port_drive.specs.Drives.{head_of_stream};

use cycle_trace::write_header;
use physical_stream::{Header, Params};
use port_drive::heads_of;
use std::alloc::Global;
use tydi_base::{List, Memory};
use type_split::Phys;

/// The text of the header of a trace of these streams and of so many cycles.
pub(crate) fn header_of(alloc: Global, streams: &[Phys], cycles: u32) -> Result<List<u8>, Memory>
    requires streams { are_heads (map head_of_stream streams.now) ≡ true }
    requires few { cycles ≤ most_cycles }
    ensures { IfOk result (λ text. text ≡ header_text (version_of (map head_of_stream streams.now)) cycles (map head_of_stream streams.now)) }
{
    let heads = heads_of(alloc, streams)?;
    let mut text = List::new(alloc);
    write_header(alloc, &mut text, &Header { cycles, heads })?;
    Ok(text)
}

/// The parameters of these streams.
pub(crate) fn params_of(alloc: Global, streams: &[Phys]) -> Result<List<Params>, Memory>
    ensures { IfOk result (λ params. params ≡ params_of_heads (map head_of_stream streams.now)) }
{
    let mut params = List::with_capacity(alloc, streams.len())?;
    'streams: for stream in streams {
        params.push(stream.params)?;
    }
    Ok(params)
}
