//! The throughput, lanes and dimensions of a Stream, from its own settings and the Streams around it.

ghost use Rattle.std.specs.Prelude.{◌≡◌, ◌-◌, ◌^◌, true, false, min, IfOk, IfSome, IfNone};
ghost use Rattle.logical_types.specs.Faults.{Tells, effective_dims, inside, is_bad_throughput, outermost, rate_faults};
ghost use Rattle.logical_types.specs.Throughput.{product_of};
ghost use Rattle.logical_types.specs.Tree.{settings_of};

use crate::fault::TypeFault;
use crate::ltype::{StreamType, Sync};
use tydi_base::Frac;

/// The most lanes of a stream (this project's own limit).
pub const MOST_LANES: u64 = 128;

/// The most dimensions of a stream, those of the streams around it counted (this project's own limit).
pub const MOST_DIMS: u64 = 32;

/// The surroundings of a type: the product of the throughputs of the Streams that hold it, and the effective dimensionality of the
/// innermost one.
#[derive(Clone, Copy, Debug)]
pub struct Around {
    /// The product of the throughputs.
    pub product: Frac,
    pub dims: u64,
}

/// Around the outermost type there is no Stream.
pub fn around_outermost() -> Around
    ensures { result ≡ outermost }
{
    match Frac::new(1, 1) {
        Some(product) => Around { product, dims: 0 },
        None => unreachable!(),
    }
}

/// The surroundings of the types inside a Stream. It fails with the first error of the Stream's throughput, lanes and dimensions.
/// The rule that dimensions are taken over, and the limits, are this project's own.
pub fn inside(stream: &StreamType, around: &Around) -> Result<Around, TypeFault>
    ensures faults { Tells (rate_faults around.now (settings_of stream.now)) result }
    ensures inside { IfOk result (λ inner. inner ≡ inside around.now (settings_of stream.now)) }
{
    let Some(product) = product_inside(stream.throughput, around.product) else {
        return Err(TypeFault::BadThroughput);
    };
    if product.ceil() > MOST_LANES {
        return Err(TypeFault::TooManyLanes);
    }
    let dims = dims_inside(stream.dims, stream.sync, around.dims);
    if dims > MOST_DIMS {
        return Err(TypeFault::TooManyDims);
    }
    Ok(Around { product, dims })
}

/// The product of a throughput with that around it. None where it is zero or does not fit.
pub(crate) fn product_inside(throughput: Frac, around: Frac) -> Option<Frac>
    ensures none { IfNone result (is_bad_throughput around throughput ≡ true) }
    ensures some { IfSome result (λ product. (is_bad_throughput around throughput ≡ false) × (product ≡ product_of around throughput)) }
{
    // The call of `den` makes the invariant of the fraction known.
    prove!(throughput.den() > 0);
    prove!(around.den() > 0);
    if throughput.num() == 0 {
        return None;
    }
    around.times(throughput)
}

// The effective dimensionality of a Stream, or the greatest number of 64 bits where it is over that.
fn dims_inside(dims: u64, sync: Sync, around: u64) -> u64
    ensures { result ≡ min (effective_dims dims sync around) (2 ^ 64 - 1) }
{
    match sync {
        Sync::Sync | Sync::Desync => dims.saturating_add(around),
        Sync::Flatten | Sync::FlatDesync => dims,
    }
}
