ghost use Rattle.std.specs.Prelude.{◌≡◌, ◌↔◌, List, IsTrue};
ghost use Rattle.physical_stream.specs.Shape.{tail_of};
ghost use Rattle.physical_stream.specs.declared.item.Item.{Item};
ghost use Rattle.physical_stream.specs.declared.rule.Rule.TheVariants.{InnerPause, OuterPause};
ghost use Rattle.complexity_rules.specs.Lowest.{is_broken};
ghost use Rattle.complexity_rules.specs.Pauses.{MayPause, PausesAsTested, is_inside_packet, is_inside_sequence, pauses_after};

use crate::table::binds;
use physical_stream::{Params, Rule, Tail};

/// Whether the stream may hold valid low after the items of which this is the kind of the last one: false exactly where one of
/// the rules on pauses forbids it.
pub fn may_pause(p: &Params, tail: Option<Tail>) -> bool
    ensures test { result ≡ pauses_after p.now tail }
    ensures pauses { (done : List Item) → tail ≡ tail_of done → IsTrue result ↔ MayPause p.now done }
{
    !breaks_inner_pause(p, tail) && !breaks_outer_pause(p, tail)
}

/// Whether a pause here breaks InnerPause: it is inside an innermost sequence.
pub(crate) fn breaks_inner_pause(p: &Params, tail: Option<Tail>) -> bool
    ensures { result ≡ is_broken p.now.level InnerPause (is_inside_sequence p.now.dims tail) }
{
    binds(Rule::InnerPause, p.level) && is_inside_sequence(p, tail)
}

/// Whether a pause here breaks OuterPause: it is inside a packet.
pub(crate) fn breaks_outer_pause(p: &Params, tail: Option<Tail>) -> bool
    ensures { result ≡ is_broken p.now.level OuterPause (is_inside_packet p.now.dims tail) }
{
    binds(Rule::OuterPause, p.level) && is_inside_packet(p, tail)
}

/// Whether there are dimensions, and the innermost sequence has elements and is open.
fn is_inside_sequence(p: &Params, tail: Option<Tail>) -> bool
    ensures { result ≡ is_inside_sequence p.now.dims tail }
{
    match tail {
        None => false,
        Some(Tail::Elem) => p.dims > 0,
        Some(Tail::Close(_)) => false,
    }
}

/// Whether there are dimensions, and a packet is begun and open.
fn is_inside_packet(p: &Params, tail: Option<Tail>) -> bool
    ensures { result ≡ is_inside_packet p.now.dims tail }
{
    match tail {
        None => false,
        Some(Tail::Elem) => p.dims > 0,
        Some(Tail::Close(dim)) => p.dims > 0 && dim != p.dims - 1,
    }
}

/// The test `pauses_after` says where a stream may pause.
pub fn pauses_are_as_tested()
    ensures { PausesAsTested }
{}
