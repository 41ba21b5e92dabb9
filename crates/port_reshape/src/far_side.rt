//! The far side of a stream.

ghost use Rattle.std.specs.Prelude.{◌≡◌, ◌≤◌, ◌∷◌, [], IfOk};
ghost use Rattle.tydi_base.specs.Level.{IsLevel};
ghost use Rattle.cycle_trace.specs.Spelling.{header_text};
ghost use Rattle.cycle_trace.specs.Trace.{most_cycles};
ghost use Rattle.cycle_trace.specs.Version.{version_of};
ghost use Rattle.port_reshape.specs.Far.{far_params};
ghost use Rattle.port_reshape.specs.Starting.{far_head};

use cycle_trace::write_header;
use physical_stream::{Head, Header, Params};
use std::alloc::Global;
use tydi_base::{Level, List, Memory, TryClone};
use type_split::Phys;

/// The parameters of a stream with these lanes, 1 to 128, and this level.
pub(crate) fn far_side(p: Params, lanes: u16, level: Level) -> Params
    requires some { 1 ≤ lanes }
    requires most { lanes ≤ 128 }
    ensures { result ≡ far_params lanes level p }
{
    Params {
        lanes,
        dims: p.dims,
        level,
        element: p.element,
        user: p.user,
    }
}

pub(crate) fn level_is_in_form(level: Level)
    ensures { IsLevel level }
{
    let _numbers = level.numbers();
}

/// The text of the header of a trace of a stream with these parameters, of so many cycles.
pub(crate) fn far_header(
    alloc: Global,
    stream: &Phys,
    to: Params,
    cycles: u32,
) -> Result<List<u8>, Memory>
    requires few { cycles ≤ most_cycles }
    ensures { IfOk result (λ text. text ≡ header_text (version_of (far_head stream.now to ∷ [])) cycles (far_head stream.now to ∷ [])) }
{
    let mut heads = List::with_capacity(alloc, 1)?;
    heads.push(Head {
        path: stream.path.try_clone(alloc)?,
        params: to,
        reversed: stream.reversed,
    })?;
    let mut text = List::new(alloc);
    write_header(alloc, &mut text, &Header { cycles, heads })?;
    Ok(text)
}

/// The list of these parameters alone.
pub(crate) fn one_stream(alloc: Global, p: Params) -> Result<List<Params>, Memory>
    ensures { IfOk result (λ streams. streams ≡ p ∷ []) }
{
    let mut streams = List::with_capacity(alloc, 1)?;
    streams.push(p)?;
    Ok(streams)
}
