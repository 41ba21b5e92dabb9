//! Cycles: type declarations that lead to themselves, and streamlets that contain themselves.

ghost use Rattle.std.specs.Prelude.{◌≡◌, ◌+◌, ◌<◌, length, IfOk, IfSome};
ghost use Rattle.til_resolve.specs.Earliest.{IsEarliest, IsBelow};
ghost use Rattle.til_resolve.specs.Faults.{IsCyclicAtName, IsCyclicAtTarget};
ghost use Rattle.til_resolve.specs.Graph.{AreNumbers, NeverRises};
ghost use Rattle.til_resolve.specs.Names.{target_place};
ghost use Rattle.til_resolve.specs.Scope.{declarations_of};
ghost use Rattle.til_resolve.specs.Suspects.{IsCyclicAt, suspect_at};

use crate::certificate::{is_cyclic, ranks_of};
use crate::containment::inside_graph;
use crate::earliest::stands_first;
use crate::implementing::implements;
use crate::names::place_of;
use crate::scope::Scope;
use crate::type_graph::type_graph;
use std::alloc::Global;
use til_parser::AstKind;
use tydi_base::{List, Memory, Place};

/// Where a cycle at a declaration is reported.
#[derive(Clone, Copy)]
pub enum Site {
    /// At its name, if it leads to itself.
    Name,
    /// At the path after `of`, if the streamlet that it implements leads to itself.
    Target,
}

/// A declaration that may lead to itself, and the place of the report.
#[derive(Clone, Copy)]
pub struct Suspect {
    /// The number of the declaration. None where there is none.
    pub number: Option<usize>,
    /// Where a cycle is reported.
    pub place: Place,
}

/// The first type declaration that leads to itself, at its name.
pub fn first_cyclic_type(alloc: Global, scope: &Scope<'_>) -> Result<Option<Place>, Memory>
    ensures { IfOk result (IsEarliest (IsBelow (IsCyclicAtName (declarations_of scope.now.declared)) (length (declarations_of scope.now.declared)))) }
{
    let graph = type_graph(alloc, scope)?;
    first_cycle(alloc, scope, graph.as_slice(), Site::Name)
}

/// The first `impl` whose streamlet contains itself, at the path after `of`.
pub fn first_cyclic_instance(alloc: Global, scope: &Scope<'_>) -> Result<Option<Place>, Memory>
    ensures { IfOk result (IsEarliest (IsBelow (IsCyclicAtTarget (declarations_of scope.now.declared)) (length (declarations_of scope.now.declared)))) }
{
    let graph = inside_graph(alloc, scope)?;
    first_cycle(alloc, scope, graph.as_slice(), Site::Target)
}

// The first place at which a declaration reports a cycle of a graph.
fn first_cycle(
    alloc: Global,
    scope: &Scope<'_>,
    graph: &[List<usize>],
    site: Site,
) -> Result<Option<Place>, Memory>
    requires long { length graph.now ≡ length (declarations_of scope.now.declared) }
    requires numbers { AreNumbers graph.now }
    ensures { IfOk result (IsEarliest (IsBelow (IsCyclicAt site (declarations_of scope.now.declared) graph.now) (length (declarations_of scope.now.declared)))) }
{
    let ranks = ranks_of(alloc, graph)?;
    let mut found = None;
    'numbers: for number in 0..scope.len() {
        found = or_cyclic(alloc, scope, graph, ranks.as_slice(), site, number, found)?;
    }
    Ok(found)
}

fn suspect_at(scope: &Scope<'_>, site: Site, number: usize) -> Suspect
    requires { number < length (declarations_of scope.now.declared) }
    ensures value { result ≡ suspect_at site (declarations_of scope.now.declared) number }
    ensures within { IfSome result.number (λ one. one < length (declarations_of scope.now.declared)) }
{
    match site {
        Site::Name => Suspect {
            number: Some(number),
            place: scope.get(number).name.place,
        },
        Site::Target => Suspect {
            number: implements(scope, number),
            place: target_place(scope.get(number).kind),
        },
    }
}

fn target_place(kind: &AstKind) -> Place
    ensures { result ≡ target_place kind.now }
{
    match kind {
        AstKind::Impl { target, .. } => place_of(target),
        _ => Place {
            offset: 0,
            line: 0,
            column: 0,
        },
    }
}

// The place that was found, or that of this declaration where it stands before and reports a cycle.
fn or_cyclic(
    alloc: Global,
    scope: &Scope<'_>,
    graph: &[List<usize>],
    ranks: &[usize],
    site: Site,
    number: usize,
    found: Option<Place>,
) -> Result<Option<Place>, Memory>
    requires within { number < length (declarations_of scope.now.declared) }
    requires long { length graph.now ≡ length (declarations_of scope.now.declared) }
    requires numbers { AreNumbers graph.now }
    requires rises { NeverRises ranks.now graph.now }
    ensures { IfOk result (λ first. IsEarliest (IsBelow (IsCyclicAt site (declarations_of scope.now.declared) graph.now) number) found
        → IsEarliest (IsBelow (IsCyclicAt site (declarations_of scope.now.declared) graph.now) (number + 1)) first) }
{
    let suspect = suspect_at(scope, site, number);
    let Some(one) = suspect.number else {
        return Ok(found);
    };
    if stands_first(found, suspect.place) {
        return Ok(found);
    }
    if is_cyclic(alloc, graph, ranks, one)? {
        return Ok(Some(suspect.place));
    }
    Ok(found)
}
