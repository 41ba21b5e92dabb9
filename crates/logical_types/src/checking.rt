//! The first error of a type.

ghost use Rattle.std.specs.Prelude.{◌≡◌, Some, slice_get, OnOk, IfErr};
ghost use Rattle.logical_types.specs.Faults.{
  IsValid,
  Tells,
  faults_of,
  faults_within,
  faults_of_parts,
  faults_at,
  outermost,
};
ghost use Rattle.logical_types.specs.Tree.{bits, group, union, plain, plain_parts, plain_of_stream, has_stream, have_stream};

use crate::fault::TypeFault;
use crate::ltype::{LType, Part, StreamType};
use crate::names::{PartNames, has_name_twice};
use crate::streams::{Around, around_outermost, inside};
use crate::widths::{total_width, union_width};

/// The most bits of an element, and of a user signal (this project's own limit).
pub const MOST_BITS: u32 = 4096;

/// The first error of a type: of the first type in preorder that has one (a type before what it holds, a Stream's data type before
/// its user type), at one type the first in the order of `TypeFault`. Ok exactly where it has none. The limits are this project's own.
pub fn check(ltype: &LType) -> Result<(), TypeFault>
    ensures valid { OnOk result (IsValid (plain ltype.now)) }
    ensures first { IfErr result (λ fault. slice_get (faults_of (plain ltype.now)) 0 ≡ Some fault) }
{
    check_type(ltype, &around_outermost())
}

#[cycle(check)]
fn check_type(ltype: &LType, around: &Around) -> Result<(), TypeFault>
    ensures { Tells (faults_within around.now (plain ltype.now)) result }
{
    match ltype {
        LType::Null => Ok(()),
        LType::Bits(width) => check_bits(*width),
        LType::Group(parts) => check_group(parts.as_slice(), around),
        LType::Union(parts) => check_union(parts.as_slice(), around),
        LType::Stream(stream) => check_stream(stream.get(), around),
    }
}

fn check_bits(width: u64) -> Result<(), TypeFault>
    ensures { Tells (faults_within outermost (bits width)) result }
{
    if width == 0 {
        return Err(TypeFault::ZeroBits);
    }
    if width > u64::from(MOST_BITS) {
        return Err(TypeFault::ElementTooWide);
    }
    Ok(())
}

#[cycle(check)]
fn check_group(parts: &[Part], around: &Around) -> Result<(), TypeFault>
    ensures { Tells (faults_within around.now (group (plain_parts parts.now))) result }
{
    check_fields(parts)?;
    check_parts(parts, around)
}

#[cycle(check)]
fn check_union(parts: &[Part], around: &Around) -> Result<(), TypeFault>
    ensures { Tells (faults_within around.now (union (plain_parts parts.now))) result }
{
    check_variants(parts)?;
    check_parts(parts, around)
}

// The errors of a Group itself.
fn check_fields(parts: &[Part]) -> Result<(), TypeFault>
    ensures { Tells (faults_at (record { around = outermost; ltype = group (plain_parts parts.now) })) result }
{
    if total_width(parts) > MOST_BITS {
        return Err(TypeFault::ElementTooWide);
    }
    if has_name_twice(&PartNames(parts)) {
        return Err(TypeFault::NameTwice);
    }
    Ok(())
}

// The errors of a Union itself.
fn check_variants(parts: &[Part]) -> Result<(), TypeFault>
    ensures { Tells (faults_at (record { around = outermost; ltype = union (plain_parts parts.now) })) result }
{
    if union_width(parts) > MOST_BITS {
        return Err(TypeFault::ElementTooWide);
    }
    if has_name_twice(&PartNames(parts)) {
        return Err(TypeFault::NameTwice);
    }
    if parts.is_empty() {
        return Err(TypeFault::EmptyUnion);
    }
    Ok(())
}

#[cycle(check)]
fn check_parts(parts: &[Part], around: &Around) -> Result<(), TypeFault>
    ensures { Tells (faults_of_parts around.now (plain_parts parts.now)) result }
{
    'parts: for part in parts {
        check_type(&part.ltype, around)?;
    }
    Ok(())
}

#[cycle(check)]
fn check_stream(stream: &StreamType, around: &Around) -> Result<(), TypeFault>
    ensures { Tells (faults_within around.now (plain_of_stream stream.now)) result }
{
    let inner = inside(stream, around)?;
    if has_stream(&stream.user) {
        return Err(TypeFault::UserHasStream);
    }
    check_type(&stream.element, &inner)?;
    check_type(&stream.user, &inner)
}

#[cycle(has_stream)]
fn has_stream(ltype: &LType) -> bool
    ensures { result ≡ has_stream (plain ltype.now) }
{
    match ltype {
        LType::Null | LType::Bits(_) => false,
        LType::Group(parts) => have_stream(parts.as_slice()),
        LType::Union(parts) => have_stream(parts.as_slice()),
        LType::Stream(_) => true,
    }
}

#[cycle(has_stream)]
fn have_stream(parts: &[Part]) -> bool
    ensures { result ≡ have_stream (plain_parts parts.now) }
{
    'parts: for part in parts {
        if has_stream(&part.ltype) {
            return true;
        }
    }
    false
}
