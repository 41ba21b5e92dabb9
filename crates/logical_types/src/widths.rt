//! How wide an element of a type is.

ghost use Rattle.std.specs.Prelude.{◌≡◌};
ghost use Rattle.logical_types.specs.Faults.{IsPlain};
ghost use Rattle.logical_types.specs.Tree.{plain, plain_parts, union};
ghost use Rattle.logical_types.specs.Width as spec;

use crate::ltype::{LType, Part};
use tydi_base::index_width;

/// The width in bits of an element of a type that has no error but of throughputs, lanes and dimensions. So each part of a type
/// that passed `check` may be asked for its width. Widths are the Tydi specification's (logical types); that of a Union is this
/// project's own.
pub fn width(ltype: &LType) -> u32
    requires { IsPlain (plain ltype.now) }
    ensures { result ≡ spec.width_of (plain ltype.now) }
{
    saturated_width(ltype)
}

/// The width in bits of an element of a type, or the greatest number of 32 bits where it is over that.
#[cycle(width)]
pub fn saturated_width(ltype: &LType) -> u32
    ensures { result ≡ spec.saturated (spec.width_of (plain ltype.now)) }
{
    match ltype {
        LType::Null => 0,
        LType::Bits(width) => u32::try_from(*width).unwrap_or(u32::MAX),
        LType::Group(parts) => total_width(parts.as_slice()),
        LType::Union(parts) => union_width(parts.as_slice()),
        LType::Stream(_) => 0,
    }
}

/// The widths in bits of the fields of a Group together, or the greatest number of 32 bits.
#[cycle(width)]
pub fn total_width(parts: &[Part]) -> u32
    ensures { result ≡ spec.saturated (spec.total_width (plain_parts parts.now)) }
{
    let mut total: u32 = 0;
    'parts: for part in parts {
        total = total.saturating_add(saturated_width(&part.ltype));
    }
    total
}

/// The width in bits of a Union of these variants, its tag included, or the greatest number of 32 bits.
#[cycle(width)]
#[tactic(auto, unfolding(crate::specs::Width::tag_width))]
pub fn union_width(parts: &[Part]) -> u32
    ensures { result ≡ spec.saturated (spec.width_of (union (plain_parts parts.now))) }
{
    let mut greatest: u32 = 0;
    'parts: for part in parts {
        greatest = greatest.max(saturated_width(&part.ltype));
    }
    greatest.saturating_add(index_width(parts.len() as u64))
}
