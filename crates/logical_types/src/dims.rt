//! How many dimensions the Streams in a type have, whatever is around it.

ghost use Rattle.std.specs.Prelude.{◌≡◌, ◌&&◌, nat_le};
ghost use Rattle.logical_types.specs.Summary as spec;

use crate::ltype::Sync;
use crate::streams::MOST_DIMS;

/// The most dimensions of the Streams in a type, up to the greatest number of 64 bits.
#[derive(Clone, Copy, Debug)]
pub struct Dims {
    /// The most dimensions of a Stream that takes over the dimensions around the type, not counting those.
    pub over: u64,
    /// The most dimensions of a Stream that takes over none of them.
    pub own: u64,
}

/// The dimensions of a type without Streams.
pub fn no_dims() -> Dims
    ensures { result ≡ spec.no_dims }
{
    Dims { over: 0, own: 0 }
}

/// The dimensions of types beside one another.
pub fn dims_beside(one: &Dims, other: &Dims) -> Dims
    ensures { result ≡ spec.dims_beside one.now other.now }
{
    Dims {
        over: one.over.max(other.over),
        own: one.own.max(other.own),
    }
}

/// The dimensions of a Stream around such types.
pub fn dims_in_stream(dims: u64, sync: Sync, inside: &Dims) -> Dims
    ensures { result ≡ spec.dims_in_stream dims sync inside.now }
{
    let most = dims.saturating_add(inside.over);
    match sync {
        Sync::Sync | Sync::Desync => Dims {
            over: most,
            own: inside.own,
        },
        Sync::Flatten | Sync::FlatDesync => Dims {
            over: 0,
            own: inside.own.max(most),
        },
    }
}

/// Whether such types are within the limits where there is no Stream around them.
pub fn are_dims_few(dims: &Dims) -> bool
    ensures { result ≡ (nat_le dims.now.over 32 && nat_le dims.now.own 32) }
{
    dims.over <= MOST_DIMS && dims.own <= MOST_DIMS
}
