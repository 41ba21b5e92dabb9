//! Types that have an error. The types of declarations are made, and a type is checked, only where a summary does not show that it
//! has none: then it nearly always has one, and no type behind it is looked at. The finding about a declaration's type serves all
//! declarations that name it alone.

ghost use Rattle.std.specs.Prelude.{◌≡◌, ◌<◌, ◌↔◌, List, All, length, slice_set, IsTrue, IfOk, None};
ghost use Rattle.logical_types.specs.Summary.{IsShownValid, summarized};
ghost use Rattle.logical_types.specs.Tree.{plain};
ghost use Rattle.til_resolve.specs.BadTypes.{AreAcyclic, IsFirstBad, AreFindings, bad_type, earlier_bad, first_fault};
ghost use Rattle.til_resolve.specs.BadTypes as spec;
ghost use Rattle.til_resolve.specs.Faults.{IsToldUpTo, written_types};
ghost use Rattle.til_resolve.specs.Scope.{declarations_of};
ghost use Rattle.til_resolve.specs.Shapes.{type_at};
ghost use Rattle.til_resolve.specs.SharedTypes.{ltype_at};
ghost use Rattle.til_resolve.specs.Folds.{AreFolds};
ghost use Rattle.til_resolve.specs.Declarations.{Declaration, declaration};
ghost use Rattle.til_parser.specs.Tree as tree;
ghost use Rattle.til_resolve.specs.Types.{type_of};
ghost use Rattle.til_resolve.specs.Written.{AreWritten, IsWithin, ltype_of};

use crate::chains::{Chain, chain_at, find_chains, named_alone};
use crate::earliest::stands_first;
use crate::replacing::replaced_type;
use crate::scope::Scope;
use crate::shared_types::shared_types;
use crate::summaries::{is_shown_valid, summaries};
use crate::written::{Written, place_of};
use logical_types::{LType, Summary, TypeFault, check};
use std::alloc::Global;
use til_parser::AstType;
use tydi_base::{List, Memory, Place};

/// A written type that has an error, with its place and its first error.
#[derive(Clone, Copy)]
pub struct BadType {
    pub place: Place,
    pub fault: TypeFault,
}

/// The finding about a declaration's type.
#[derive(Clone, Copy)]
pub enum Verdict {
    /// It was not checked.
    Unknown,
    /// Its first error; None where it has none.
    Known(Option<TypeFault>),
}

/// The types of declarations, and what was found of them.
#[derive(Drop)]
pub struct Findings {
    types: List<LType>,
    chains: List<Chain>,
    verdicts: Vec<Verdict>,
}

/// The first written type that has an error. None where no type has one.
pub fn first_bad_type<'a>(
    alloc: Global,
    scope: &Scope<'a>,
    written: &[Written<'a>],
) -> Result<Option<BadType>, Memory>
    requires written { AreWritten (declarations_of scope.now.declared) written.now }
    requires whole { IsToldUpTo (declarations_of scope.now.declared) 4 None }
    ensures { IfOk result (IsFirstBad (written_types (declarations_of scope.now.declared))) }
{
    let table = summaries(alloc, scope)?;
    if are_shown_valid(scope, written, table.as_slice()) {
        return Ok(None);
    }
    first_checked(alloc, scope, written, table.as_slice())
}

// Whether all written types are shown to be valid.
fn are_shown_valid<'a>(
    scope: &Scope<'a>,
    written: &[Written<'a>],
    table: &[Option<Summary>],
) -> bool
    requires written { AreWritten (declarations_of scope.now.declared) written.now }
    requires acyclic { AreAcyclic (declarations_of scope.now.declared) }
    requires table { AreFolds summarized (declarations_of scope.now.declared) (length (declarations_of scope.now.declared)) table.now }
    ensures { IsTrue result ↔ All (λ one. IsShownValid (ltype_of (declarations_of scope.now.declared) one)) written.now }
{
    'written: for one in written {
        if !is_shown_valid(scope, one, table) {
            return false;
        }
    }
    true
}

// The first written type that has a fault, where those are checked that are not shown to have none.
fn first_checked<'a>(
    alloc: Global,
    scope: &Scope<'a>,
    written: &[Written<'a>],
    table: &[Option<Summary>],
) -> Result<Option<BadType>, Memory>
    requires written { AreWritten (declarations_of scope.now.declared) written.now }
    requires acyclic { AreAcyclic (declarations_of scope.now.declared) }
    requires table { AreFolds summarized (declarations_of scope.now.declared) (length (declarations_of scope.now.declared)) table.now }
    ensures { IfOk result (IsFirstBad (written_types (declarations_of scope.now.declared))) }
{
    let mut findings = nothing_found(alloc, scope)?;
    let mut found = None;
    'written: for one in written {
        found = or_bad(alloc, scope, table, one, &mut findings, found)?;
    }
    Ok(found)
}

// The types of declarations, of which nothing was found.
fn nothing_found(alloc: Global, scope: &Scope<'_>) -> Result<Findings, Memory>
    ensures { IfOk result (AreFindings (declarations_of scope.now.declared)) }
{
    Ok(Findings {
        types: shared_types(alloc, scope)?,
        chains: find_chains(alloc, scope)?,
        verdicts: vec![in alloc; Verdict::Unknown; scope.len()]?,
    })
}

// The earlier of the bad type that was found and this type, where this one has an error.
fn or_bad<'a>(
    alloc: Global,
    scope: &Scope<'a>,
    table: &[Option<Summary>],
    one: &Written<'a>,
    findings: &mut Findings,
    found: Option<BadType>,
) -> Result<Option<BadType>, Memory>
    requires table { AreFolds summarized (declarations_of scope.now.declared) (length (declarations_of scope.now.declared)) table.now }
    requires within { IsWithin (declarations_of scope.now.declared) one.now }
    requires acyclic { AreAcyclic (declarations_of scope.now.declared) }
    requires findings { AreFindings (declarations_of scope.now.declared) findings.old }
    ensures found { IfOk result (λ first. first ≡ earlier_bad found (bad_type (declarations_of scope.now.declared) one.now)) }
    ensures findings { AreFindings (declarations_of scope.now.declared) findings.new }
{
    let place = place_of(scope, one);
    if stands_first(place_found(found), place) || is_shown_valid(scope, one, table) {
        return Ok(found);
    }
    match fault_of(alloc, scope, one, findings)? {
        Some(fault) => Ok(Some(BadType { place, fault })),
        None => Ok(found),
    }
}

fn place_found(found: Option<BadType>) -> Option<Place>
    ensures { result ≡ spec.place_found found }
{
    match found {
        Some(bad) => Some(bad.place),
        None => None,
    }
}

// The first error of a written type.
fn fault_of<'a>(
    alloc: Global,
    scope: &Scope<'a>,
    one: &Written<'a>,
    findings: &mut Findings,
) -> Result<Option<TypeFault>, Memory>
    requires within { IsWithin (declarations_of scope.now.declared) one.now }
    requires acyclic { AreAcyclic (declarations_of scope.now.declared) }
    requires findings { AreFindings (declarations_of scope.now.declared) findings.old }
    ensures fault { IfOk result (λ fault. fault ≡ first_fault (ltype_of (declarations_of scope.now.declared) one.now)) }
    ensures findings { AreFindings (declarations_of scope.now.declared) findings.new }
{
    match one {
        Written::Declared(number) => Ok(fault_at(findings, *number)),
        Written::Port { number, port } => fault_of_port(
            alloc,
            scope,
            *number,
            &port.ltype,
            findings,
        ),
    }
}

// The first error of a port's type: of the declaration that it names alone, or of the type that it writes.
fn fault_of_port<'a>(
    alloc: Global,
    scope: &Scope<'a>,
    number: usize,
    ltype: &'a AstType,
    findings: &mut Findings,
) -> Result<Option<TypeFault>, Memory>
    requires within { number < length (declarations_of scope.now.declared) }
    requires acyclic { AreAcyclic (declarations_of scope.now.declared) }
    requires findings { AreFindings (declarations_of scope.now.declared) findings.old }
    ensures fault { IfOk result (λ fault. fault ≡ first_fault (type_of (declarations_of scope.now.declared) (declaration (declarations_of scope.now.declared) number).space (tree.plain ltype.now))) }
    ensures findings { AreFindings (declarations_of scope.now.declared) findings.new }
{
    match named_alone(scope, number, ltype) {
        Some(target) => Ok(fault_at(findings, target)),
        None => {
            let made = replaced_type(alloc, scope, number, ltype, findings.types.as_slice())?;
            Ok(fault_in(&made))
        }
    }
}

// The first error of a declaration's type. It is kept for all declarations that have one root.
fn fault_at(findings: &mut Findings, number: usize) -> Option<TypeFault>
    ensures fault { (all : List Declaration) → AreAcyclic all → number < length all → AreFindings all findings.old → result ≡ first_fault (type_at all (length all) number) }
    ensures findings { (all : List Declaration) → AreAcyclic all → number < length all → AreFindings all findings.old → AreFindings all findings.new }
{
    let root = chain_at(findings.chains.as_slice(), number).root;
    if let Verdict::Known(fault) = verdict_at(&findings.verdicts, root) {
        return fault;
    }
    let fault = fault_of_entry(findings.types.as_slice(), number);
    keep(&mut findings.verdicts, root, fault);
    fault
}

// The first error of the type that a table has of a number.
fn fault_of_entry(types: &[LType], number: usize) -> Option<TypeFault>
    ensures { result ≡ first_fault (ltype_at types.now number) }
{
    match types.get(number) {
        Some(ltype) => fault_in(ltype),
        None => fault_in(&LType::Null),
    }
}

fn fault_in(ltype: &LType) -> Option<TypeFault>
    ensures { result ≡ first_fault (plain ltype.now) }
{
    match check(ltype) {
        Ok(()) => None,
        Err(fault) => Some(fault),
    }
}

fn verdict_at(verdicts: &[Verdict], number: usize) -> Verdict
    ensures { result ≡ spec.verdict_at verdicts.now number }
{
    match verdicts.get(number) {
        Some(verdict) => *verdict,
        None => Verdict::Unknown,
    }
}

fn keep(verdicts: &mut Vec<Verdict>, number: usize, fault: Option<TypeFault>)
    ensures { verdicts.new.items ≡ slice_set verdicts.old.items number (Verdict.Known fault) }
{
    if number < verdicts.len() {
        verdicts[number] = Verdict::Known(fault);
    }
}
