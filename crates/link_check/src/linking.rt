//! The check of one link.

ghost use Rattle.std.specs.Prelude.{◌≡◌, IfOk, IsTrue, Some, ⊤};
ghost use Rattle.link_check.specs.Links as spec;
ghost use Rattle.link_check.specs.Linking.{Judges};
ghost use Rattle.link_check.specs.Ends.{side_of};
ghost use Rattle.link_check.specs.Wirings.{AreAlike, NameOneType, side_lent, inside_lent, streamlets_lent};

use crate::difference::Difference;
use crate::differences::first_difference;
use crate::ends::Side;
use crate::fault::LinkFault;
use crate::nets::Net;
use crate::wiring::Wiring;
use std::alloc::Global;
use til_resolve::{Link, LinkEnd};
use tydi_base::{Memory, Place, TryClone};

impl<'p> Wiring<'_, 'p> {
    /// The net of a link, or its first fault. `linked` says whether one of its ends stands in an earlier link.
    pub(crate) fn net(&self, alloc: Global, link: &'p Link, linked: bool) -> Result<Net, LinkFault>
        ensures { Judges (spec.fault_of_sides link.now.place (side_of (streamlets_lent self.now) (inside_lent self.now) link.now.first)
            (side_of (streamlets_lent self.now) (inside_lent self.now) link.now.second) linked)
            (λ net. net ≡ spec.net_of (streamlets_lent self.now) (inside_lent self.now) link.now) result }
    {
        let Some(one) = self.side_of(&link.first) else {
            return Err(LinkFault::UnknownEnd(link.place));
        };
        let Some(other) = self.side_of(&link.second) else {
            return Err(LinkFault::UnknownEnd(link.place));
        };
        understood(alloc, one, other, link.place, linked)?;
        Ok(net_between(alloc, one.is_source, link)?)
    }
}

/// The first fault of a link between two ends that are there.
fn understood(
    alloc: Global,
    one: Side<'_>,
    other: Side<'_>,
    place: Place,
    linked: bool,
) -> Result<(), LinkFault>
    requires { AreAlike one other }
    ensures { Judges (spec.fault_of_sides place (Some (side_lent one.entry)) (Some (side_lent other.entry)) linked) (λ _. ⊤) result }
{
    if one.is_source == other.is_source {
        return Err(LinkFault::SameSide(place));
    }
    if let Some(difference) = difference_of(alloc, one, other)? {
        return Err(LinkFault::NotCompatible(place, difference));
    }
    if linked {
        return Err(LinkFault::LinkedTwice(place));
    }
    Ok(())
}

/// The first difference of the types of two ends, the source's first. Ends that name one type declaration have none, so their type is not looked at.
fn difference_of(
    alloc: Global,
    one: Side<'_>,
    other: Side<'_>,
) -> Result<Option<Difference>, Memory>
    requires { AreAlike one other }
    ensures { IfOk result (λ found. found ≡ spec.difference_of (side_lent one.entry) (side_lent other.entry)) }
{
    if name_one_type(one, other) {
        return Ok(None);
    }
    if one.is_source {
        first_difference(alloc, one.ltype, other.ltype)
    } else {
        first_difference(alloc, other.ltype, one.ltype)
    }
}

/// Whether two ends name one type declaration.
fn name_one_type(one: Side<'_>, other: Side<'_>) -> bool
    ensures { IsTrue result → NameOneType one.entry other.entry }
{
    match (one.declared, other.declared) {
        (Some(number), Some(against)) => number == against,
        _ => false,
    }
}

/// The net of a link, whose first end is a source end or not.
fn net_between(alloc: Global, is_source: bool, link: &Link) -> Result<Net, Memory>
    ensures { IfOk result (λ net. net ≡ spec.net_between is_source link.now.first link.now.second) }
{
    let first = copy_of(alloc, &link.first)?;
    let second = copy_of(alloc, &link.second)?;
    if is_source {
        Ok(Net {
            source: first,
            sink: second,
        })
    } else {
        Ok(Net {
            source: second,
            sink: first,
        })
    }
}

/// A copy of an end.
fn copy_of(alloc: Global, end: &LinkEnd) -> Result<LinkEnd, Memory>
    ensures { IfOk result (λ copy. copy ≡ end.now) }
{
    Ok(LinkEnd {
        instance: end.instance.try_clone(alloc)?,
        port: end.port.try_clone(alloc)?,
    })
}
