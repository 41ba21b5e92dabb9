//! The products of the throughputs of the Streams in a type, whatever is around it.

ghost use Rattle.std.specs.Prelude.{◌≡◌, ◌*◌, nat_le, Some, None, if◌then◌else◌};
ghost use Rattle.logical_types.specs.Summary as spec;

use crate::streams::{MOST_LANES, around_outermost, product_inside};
use tydi_base::Frac;

/// The greatest products of throughputs on the paths from a type down to the Streams in it. The path that stays at the type counts,
/// with the product 1.
#[derive(Clone, Copy, Debug)]
pub struct Rates {
    /// The greatest product of upper parts, as they stand.
    pub num: u64,
    /// The greatest product of lower parts, as they stand.
    pub den: u64,
    /// The greatest product.
    pub product: Frac,
}

/// The rates of a type without Streams.
pub fn no_rates() -> Rates
    ensures { result ≡ spec.no_rates }
{
    Rates {
        num: 1,
        den: 1,
        product: around_outermost().product,
    }
}

/// The rates of types beside one another.
pub fn rates_beside(one: &Rates, other: &Rates) -> Rates
    ensures { result ≡ spec.rates_beside one.now other.now }
{
    Rates {
        num: one.num.max(other.num),
        den: one.den.max(other.den),
        product: greater(one.product, other.product),
    }
}

/// The rates of a Stream of this throughput around such types. None where the throughput is zero, or a product does not fit.
pub fn rates_in_stream(throughput: Frac, inside: &Rates) -> Option<Rates>
    ensures { result ≡ (if spec.has_rates_inside throughput inside.now then Some (spec.rates_in_stream throughput inside.now) else None) }
{
    let product = product_inside(throughput, inside.product)?;
    let num = throughput.num().checked_mul(inside.num)?;
    let den = throughput.den().checked_mul(inside.den)?;
    Some(Rates {
        num,
        den,
        product: greater(product, around_outermost().product),
    })
}

/// Whether such types are within the limits where there is no Stream around them.
pub fn are_rates_few(rates: Rates) -> bool
    ensures { result ≡ nat_le rates.product.num (128 * rates.product.den) }
{
    rates.product.ceil() <= MOST_LANES
}

// The greater of two fractions.
fn greater(one: Frac, other: Frac) -> Frac
    ensures { result ≡ spec.greater one other }
{
    if one.num() as u128 * other.den() as u128 <= other.num() as u128 * one.den() as u128 {
        other
    } else {
        one
    }
}
