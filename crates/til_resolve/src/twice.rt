//! Names that are declared twice, and streamlets that are implemented twice.

ghost use Rattle.std.specs.Prelude.{◌≡◌, ◌+◌, ◌<◌, List, [], ◌∷◌, length, map, IfOk, IfSome, OnOk, Contains};
ghost use Rattle.std.specs.Char.{to_ascii_lowercase};
ghost use Rattle.std.specs.BTreeMap.{get};
ghost use Rattle.std.specs.BTreeSet.{contains};
ghost use Rattle.std.specs.Ordering.{nat_cmp};
ghost use Rattle.std.specs.List.{filter_map};
ghost use Rattle.til_resolve.specs.Declarations.{before, declaration, ports_of, ports_of_streamlet};
ghost use Rattle.til_resolve.specs.Earliest.{IsEarliest};
ghost use Rattle.til_resolve.specs.Making.{FindsFirstImpl};
ghost use Rattle.til_resolve.specs.Names as spec;
ghost use Rattle.til_resolve.specs.Ordered.{by_key, by_name};
ghost use Rattle.til_resolve.specs.Ports.{FindsPorts};
ghost use Rattle.til_resolve.specs.Scope.{declarations_of};
ghost use Rattle.til_resolve.specs.Names.{WrittenInstance};
ghost use Rattle.til_resolve.specs.Twice.{FindsNames, AddsInstance};

use crate::earliest::earlier;
use crate::implementing::{FirstImpls, first_impls, implements};
use crate::keeping::note;
use crate::kinds::{Asked, own_ports};
use crate::ordered::OrderedName;
use crate::ports::{Ports, has_port};
use crate::scope::Scope;
use std::alloc::Global;
use std::collections::BTreeSet;
use til_parser::{AstBody, AstKind, AstName, AstPath, AstPort, AstStmt};
use tydi_base::{List, Memory, Name, Place};

/// The first place where a name is declared again, or a streamlet implemented again. None where there is no such place; `Memory`
/// comes where there is none for the look-ups.
pub fn first_twice<'a>(
    alloc: Global,
    scope: &Scope<'a>,
    ports: &Ports<'a>,
) -> Result<Option<Place>, Memory>
    requires { FindsPorts (contains by_key ports.now) (declarations_of scope.now.declared) (length (declarations_of scope.now.declared)) }
    ensures { IfOk result (IsEarliest (Contains (spec.twice (declarations_of scope.now.declared)))) }
{
    let mut found = None;
    'numbers: for number in 0..scope.len() {
        found = earlier(found, twice_at(alloc, scope, ports, number)?);
    }
    Ok(earlier(found, first_implemented_again(alloc, scope)?))
}

// The first place where a declaration declares a name again, by itself or after those before it.
fn twice_at<'a>(
    alloc: Global,
    scope: &Scope<'a>,
    ports: &Ports<'a>,
    number: usize,
) -> Result<Option<Place>, Memory>
    requires found { FindsPorts (contains by_key ports.now) (declarations_of scope.now.declared) (length (declarations_of scope.now.declared)) }
    requires within { number < length (declarations_of scope.now.declared) }
    ensures { IfOk result (IsEarliest (Contains (spec.twice_at (declarations_of scope.now.declared) number))) }
{
    let again = declared_again(scope, number);
    let in_ports = ports_again(alloc, own_ports(scope.get(number).kind))?;
    let in_body = names_again_in_body(alloc, scope, ports, number)?;
    Ok(earlier(earlier(again, in_ports), in_body))
}

// A declaration of a path that one before it has.
fn declared_again(scope: &Scope<'_>, number: usize) -> Option<Place>
    requires { number < length (declarations_of scope.now.declared) }
    ensures { IsEarliest (Contains (spec.declared_again (declarations_of scope.now.declared) number)) result }
{
    match scope.first(number) {
        Some(first) if first < number => Some(scope.get(number).name.place),
        _ => None,
    }
}

// Ports with the name of one before them, when case is ignored.
fn ports_again(alloc: Global, ports: &[AstPort]) -> Result<Option<Place>, Memory>
    ensures { IfOk result (IsEarliest (Contains (spec.ports_again ports.now))) }
{
    let mut seen: BTreeSet<List<u8>> = BTreeSet::new(alloc);
    let mut found = None;
    'ports: for port in ports {
        let is_new = note(&mut seen, lowered(alloc, &port.name.name)?)?;
        found = earlier(found, (!is_new).then_some(port.name.place));
    }
    Ok(found)
}

// A name in lower case.
fn lowered(alloc: Global, name: &Name) -> Result<List<u8>, Memory>
    ensures { IfOk result (λ text. text ≡ map to_ascii_lowercase name.now) }
{
    let mut text = List::new(alloc);
    'bytes: for byte in name.as_bytes() {
        text.push(byte.to_ascii_lowercase())?;
    }
    Ok(text)
}

// Instances with the name of another of their body, or of a port of the streamlet that the body implements.
fn names_again_in_body<'a>(
    alloc: Global,
    scope: &Scope<'a>,
    ports: &Ports<'a>,
    number: usize,
) -> Result<Option<Place>, Memory>
    requires found { FindsPorts (contains by_key ports.now) (declarations_of scope.now.declared) (length (declarations_of scope.now.declared)) }
    requires within { number < length (declarations_of scope.now.declared) }
    ensures { IfOk result (IsEarliest (Contains (spec.names_again_in_body (declarations_of scope.now.declared) (declaration (declarations_of scope.now.declared) number)))) }
{
    match scope.get(number).kind {
        AstKind::Impl { target, body } => {
            names_again_in_impl(alloc, scope, ports, number, target, body)
        }
        _ => Ok(None),
    }
}

fn names_again_in_impl<'a>(
    alloc: Global,
    scope: &Scope<'a>,
    ports: &Ports<'a>,
    number: usize,
    target: &'a AstPath,
    body: &'a AstBody,
) -> Result<Option<Place>, Memory>
    requires found { FindsPorts (contains by_key ports.now) (declarations_of scope.now.declared) (length (declarations_of scope.now.declared)) }
    requires within { number < length (declarations_of scope.now.declared) }
    ensures { IfOk result (IsEarliest (Contains (spec.names_again_in_impl (declarations_of scope.now.declared) (declaration (declarations_of scope.now.declared) number).space target.now body.now))) }
{
    let AstBody::Structural(stmts) = body else {
        return Ok(None);
    };
    let streamlet = scope.named_as(number, target, Asked::Streamlet);
    let again = instances_again(alloc, stmts.as_slice())?;
    let as_ports = instances_named_as_own_ports(scope, ports, streamlet, stmts.as_slice());
    Ok(earlier(again, as_ports))
}

// Instances with the name of a port of this streamlet, if there is one.
fn instances_named_as_own_ports<'a>(
    scope: &Scope<'a>,
    ports: &Ports<'a>,
    streamlet: Option<usize>,
    stmts: &'a [AstStmt],
) -> Option<Place>
    requires found { FindsPorts (contains by_key ports.now) (declarations_of scope.now.declared) (length (declarations_of scope.now.declared)) }
    requires within { IfSome streamlet (λ number. number < length (declarations_of scope.now.declared)) }
    ensures { IsEarliest (Contains (spec.instances_named_as_ports (ports_of_streamlet (declarations_of scope.now.declared) streamlet) (filter_map spec.instance_at stmts.now))) result }
{
    match streamlet {
        Some(number) => instances_named_as_ports(scope, ports, number, stmts),
        None => None,
    }
}

// Instances with the name of one before them.
fn instances_again(alloc: Global, stmts: &[AstStmt]) -> Result<Option<Place>, Memory>
    ensures { IfOk result (IsEarliest (Contains (spec.instances_again (filter_map spec.instance_at stmts.now)))) }
{
    let mut seen: BTreeSet<OrderedName<'_>> = BTreeSet::new(alloc);
    let mut found = None;
    'stmts: for stmt in stmts {
        found = earlier(found, instance_again(&mut seen, stmt)?);
    }
    Ok(found)
}

// An instance with the name of one that is among these.
fn instance_again<'a>(
    seen: &mut BTreeSet<OrderedName<'a>>,
    stmt: &'a AstStmt,
) -> Result<Option<Place>, Memory>
    ensures { IfOk result (λ found. (earlier : List WrittenInstance) → FindsNames (contains by_name seen.old) earlier
        → AddsInstance (contains by_name seen.new) earlier (spec.instance_at stmt.now) found) }
{
    let AstStmt::Instance { name, .. } = stmt else {
        return Ok(None);
    };
    let is_new = note(seen, OrderedName::new(&name.name))?;
    Ok((!is_new).then_some(name.place))
}

// Instances with the name of a port of this streamlet.
fn instances_named_as_ports<'a>(
    scope: &Scope<'a>,
    ports: &Ports<'a>,
    streamlet: usize,
    stmts: &'a [AstStmt],
) -> Option<Place>
    requires found { FindsPorts (contains by_key ports.now) (declarations_of scope.now.declared) (length (declarations_of scope.now.declared)) }
    requires within { streamlet < length (declarations_of scope.now.declared) }
    ensures { IsEarliest (Contains (spec.instances_named_as_ports (ports_of (declarations_of scope.now.declared) (declaration (declarations_of scope.now.declared) streamlet))
        (filter_map spec.instance_at stmts.now))) result }
{
    let mut found = None;
    'stmts: for stmt in stmts {
        found = earlier(found, instance_named_as_port(scope, ports, streamlet, stmt));
    }
    found
}

fn instance_named_as_port<'a>(
    scope: &Scope<'a>,
    ports: &Ports<'a>,
    streamlet: usize,
    stmt: &'a AstStmt,
) -> Option<Place>
    requires found { FindsPorts (contains by_key ports.now) (declarations_of scope.now.declared) (length (declarations_of scope.now.declared)) }
    requires within { streamlet < length (declarations_of scope.now.declared) }
    ensures { IsEarliest (Contains (spec.instances_named_as_ports (ports_of (declarations_of scope.now.declared) (declaration (declarations_of scope.now.declared) streamlet))
        (filter_map spec.instance_at (stmt.now ∷ [])))) result }
{
    match stmt {
        AstStmt::Instance { name, .. } => {
            has_port(scope, ports, streamlet, name).then_some(name.place)
        }
        AstStmt::Link { .. } => None,
    }
}

// The first `impl` of a streamlet that one before it implements.
fn first_implemented_again(alloc: Global, scope: &Scope<'_>) -> Result<Option<Place>, Memory>
    ensures { IfOk result (IsEarliest (Contains (before (spec.implemented_again (declarations_of scope.now.declared)) (length (declarations_of scope.now.declared))))) }
{
    let impls = first_impls(alloc, scope)?;
    let mut found = None;
    'numbers: for number in 0..scope.len() {
        found = earlier(found, implemented_again(scope, &impls, number));
    }
    Ok(found)
}

// An `impl` of a streamlet that one before it implements.
fn implemented_again(scope: &Scope<'_>, impls: &FirstImpls, number: usize) -> Option<Place>
    requires impls { FindsFirstImpl (get nat_cmp impls.now) (declarations_of scope.now.declared) (length (declarations_of scope.now.declared)) }
    requires within { number < length (declarations_of scope.now.declared) }
    ensures { IsEarliest (Contains (spec.implemented_again (declarations_of scope.now.declared) number)) result }
{
    let streamlet = implements(scope, number)?;
    match impls.get(&streamlet).copied() {
        Some(one) if one < number => Some(scope.get(number).name.place),
        _ => None,
    }
}
