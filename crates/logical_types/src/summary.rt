//! The summary of a type, without its parts. The summaries of a type's parts determine its own, so a type of many nodes is shown to
//! be valid by the summaries of the types that it names. A type that is not shown to be valid has an error, or products of
//! throughputs that do not fit 64 bits as they stand.

ghost use Rattle.std.specs.Prelude.{◌≡◌};
ghost use Rattle.logical_types.specs.Summary as spec;
ghost use Rattle.logical_types.specs.Summary.{SummariesAreOfTheType, ValidTypesAreShown};

use crate::checking::MOST_BITS;
use crate::dims::{Dims, are_dims_few, dims_beside, dims_in_stream, no_dims};
use crate::ltype::Sync;
use crate::rates::{Rates, are_rates_few, no_rates, rates_beside, rates_in_stream};
use tydi_base::{Frac, index_width};

/// The summary of a type: its width, whether it has Streams, and their rates and dimensions. The type has no error in any
/// surroundings that leave room for these.
#[derive(Clone, Copy, Debug)]
pub struct Summary {
    /// The width of an element in bits.
    pub width: u32,
    pub has_stream: bool,
    pub rates: Rates,
    pub dims: Dims,
}

/// The summary of parts together.
#[derive(Clone, Copy, Debug)]
pub struct PartsSummary {
    /// Their widths together, up to the greatest number of 32 bits.
    pub total: u32,
    /// The width of the widest.
    pub widest: u32,
    pub has_stream: bool,
    pub rates: Rates,
    pub dims: Dims,
}

/// The summary of Null.
pub fn summary_of_null() -> Summary
    ensures { result ≡ spec.without_stream 0 }
{
    without_stream(0)
}

/// The summary of a Bits of this width in bits. None exactly where it has an error.
pub fn summary_of_bits(width: u64) -> Option<Summary>
    ensures { result ≡ spec.of_bits width }
{
    if width == 0 || width > u64::from(MOST_BITS) {
        return None;
    }
    Some(without_stream(width as u32))
}

// The summary of a type of this width without Streams.
fn without_stream(width: u32) -> Summary
    ensures { result ≡ spec.without_stream width }
{
    Summary {
        width,
        has_stream: false,
        rates: no_rates(),
        dims: no_dims(),
    }
}

/// The summary of a Stream, by those of its data type and its user type. None where its user type has a Stream, its throughput is
/// zero, or a product of throughputs does not fit 64 bits.
pub fn summary_of_stream(
    element: &Summary,
    user: &Summary,
    throughput: Frac,
    dims: u64,
    sync: Sync,
) -> Option<Summary>
    ensures { result ≡ spec.of_stream throughput dims sync element.now user.now }
{
    if user.has_stream {
        return None;
    }
    let rates = rates_in_stream(throughput, &rates_beside(&element.rates, &user.rates))?;
    let dims = dims_in_stream(dims, sync, &dims_beside(&element.dims, &user.dims));
    Some(Summary {
        width: 0,
        has_stream: true,
        rates,
        dims,
    })
}

/// The summary of no parts.
pub fn summary_of_no_parts() -> PartsSummary
    ensures { result ≡ spec.of_no_parts }
{
    PartsSummary {
        total: 0,
        widest: 0,
        has_stream: false,
        rates: no_rates(),
        dims: no_dims(),
    }
}

impl PartsSummary {
    /// The summary of these parts and one more.
    pub fn and(&self, one: &Summary) -> PartsSummary
        ensures { result ≡ spec.of_parts_and self.now one.now }
    {
        PartsSummary {
            total: self.total.saturating_add(one.width),
            widest: self.widest.max(one.width),
            has_stream: self.has_stream | one.has_stream,
            rates: rates_beside(&self.rates, &one.rates),
            dims: dims_beside(&self.dims, &one.dims),
        }
    }

    /// The summary of a Group of these parts, which have no two equal names. None where it is over 4,096 bits wide.
    pub fn in_group(&self) -> Option<Summary>
        ensures { result ≡ spec.of_group self.now }
    {
        self.within(self.total)
    }

    /// The summary of a Union of these parts, so many, which have no two equal names. None where there are no variants, or it is
    /// over 4,096 bits wide.
    pub fn in_union(&self, variants: usize) -> Option<Summary>
        ensures { result ≡ spec.of_union self.now variants }
    {
        if variants == 0 {
            return None;
        }
        self.within(self.widest.saturating_add(index_width(variants as u64)))
    }

    // The summary of a type of this width around these parts, unless it is too wide.
    fn within(&self, width: u32) -> Option<Summary>
        ensures { result ≡ spec.around self.now width }
    {
        if width > MOST_BITS {
            return None;
        }
        Some(Summary {
            width,
            has_stream: self.has_stream,
            rates: self.rates,
            dims: self.dims,
        })
    }
}

impl Summary {
    /// Whether a type with this summary is within the limits where there is no Stream around it.
    pub fn shows_valid(&self) -> bool
        ensures { result ≡ spec.shows_valid self.now }
    {
        are_rates_few(self.rates) && are_dims_few(&self.dims)
    }
}

/// The law of summaries: the statements of a type's summary hold for the type.
pub fn summaries_are_of_the_type()
    ensures { SummariesAreOfTheType }
{}

/// The law of what summaries show: a type is shown to be valid exactly where it is valid, and the upper parts of the throughputs on each
/// way to a Stream in it, multiplied as they stand, fit 64 bits, and so do the lower ones.
pub fn valid_types_are_shown()
    ensures { ValidTypesAreShown }
{}
