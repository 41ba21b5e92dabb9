//! The text that is written for a trace, against a text worked out by hand.

ghost use Rattle.std.specs.Prelude.{◌≡◌, Some, IfOk, IfSome};
ghost use Rattle.tydi_base.specs.Path.{path_of};

use cycle_trace::{header_length, write_header};
use physical_stream::{Head, Header, Params};
use std::alloc::Global;
use tydi_base::{Level, List, Memory, Path};

/// The header of a trace of two streams.
pub(crate) const WRITTEN_HEADER: &[(&str, &str, &str)] = &[(
    "",
    "",
    "tydi-trace 1
cycles 2
stream out lanes 2 dims 1 level 8 element 4 user 3 forward
stream in.back lanes 1 dims 0 level 1 element 8 user 0 reverse
",
)];

fn stream_of(lanes: u16, dims: u8, level: u8, element: u32, user: u32) -> Result<Params, Memory> {
    let Some(level) = Level::new(level) else {
        return Err(Memory);
    };
    match Params::new(lanes, dims, level, element, user) {
        Some(params) => Ok(params),
        None => Err(Memory),
    }
}

fn head_of(alloc: Global, path: &[u8], params: Params, reversed: bool) -> Result<Head, Memory>
    ensures { IfOk result (λ head. path_of path.now ≡ Some head.path) }
{
    match Path::read_dotted(alloc, path)? {
        Some(path) => Ok(Head {
            path,
            params,
            reversed,
        }),
        None => Err(Memory),
    }
}

// Writes the header of two streams of these parameters.
fn write_two_heads(
    alloc: Global,
    out: &mut List<u8>,
    wide: Params,
    plain: Params,
) -> Result<(), Memory> {
    let mut heads = List::new(alloc);
    heads.push(head_of(alloc, b"out", wide, false)?)?;
    heads.push(head_of(alloc, b"in.back", plain, true)?)?;
    let header = Header { cycles: 2, heads };
    write_header(alloc, out, &header)?;
    if header_length(&header) == out.len() as u64 {
        Ok(())
    } else {
        Err(Memory)
    }
}

pub(crate) fn written_header(alloc: Global, out: &mut List<u8>) -> Result<(), Memory> {
    let wide = stream_of(2, 1, 8, 4, 3)?;
    let plain = stream_of(1, 0, 1, 8, 0)?;
    write_two_heads(alloc, out, wide, plain)
}
