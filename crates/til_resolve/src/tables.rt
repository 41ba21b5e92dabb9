//! Tables with an entry for the type of each declaration, each made of the entries of the types that it names. Where ranks fall along
//! each name, one walk in their order makes each entry once; that they fall, and that the order is theirs, is tested. Where they do
//! not, the table is made round by round.

ghost use Rattle.std.specs.Prelude.{◌≡◌, ◌<◌, ◌↔◌, ℕ, length, replicate, slice_set, IsTrue, IfOk};
ghost use Rattle.logical_types.specs.Tree.{Ltype, null};
ghost use Rattle.til_parser.specs.Tree.{plain};
ghost use Rattle.til_resolve.specs.Declarations.{declaration};
ghost use Rattle.til_resolve.specs.Graph.{AreOrdered, IsRanked, type_graph};
ghost use Rattle.til_resolve.specs.Scope.{declarations_of};
ghost use Rattle.til_resolve.specs.Tables.{AreEntries, AreMadeOf, IsMadeFor, IsMadeOf};

use crate::certificate::{are_ranked, rank_of};
use crate::ranks::{find_ranks, numbers_by_rank};
use crate::scope::Scope;
use crate::type_graph::type_graph;
use std::alloc::Global;
use til_parser::{AstKind, AstType};
use tydi_base::{List, Memory};

/// The entries that a table has for the types of declarations.
pub trait Entries {
    /// The entry of a type.
    type Entry: Drop;

    /// The entry of Null, and of a declaration that is no type.
    ghost least: { Self.Entry };

    /// This is the entry of a type.
    ghost is_entry: { Ltype → Self.Entry → Type 0 };

    /// The entry of Null.
    fn least() -> Self::Entry
        ensures { result ≡ least };

    /// The entry of a type that is written in the declaration of a number, by a table of those that it names.
    fn entry<'a>(
        alloc: Global,
        scope: &Scope<'a>,
        number: usize,
        ltype: &'a AstType,
        table: &[Self::Entry],
    ) -> Result<Self::Entry, Memory>
        requires { number < length (declarations_of scope.now.declared) }
        ensures { IfOk result (IsMadeOf least is_entry (declarations_of scope.now.declared) (declaration (declarations_of scope.now.declared) number).space (plain ltype.now) table.now) };

    /// The least entry is an entry of Null.
    ghost is_least: { is_entry null least };
}

/// A table of the entries of all declarations.
pub fn table_of<E: Entries>(alloc: Global, scope: &Scope<'_>) -> Result<List<E::Entry>, Memory>
    ensures { IfOk result (AreEntries E.least E.is_entry (declarations_of scope.now.declared) (length (declarations_of scope.now.declared))) }
{
    let graph = type_graph(alloc, scope)?;
    let ranks = find_ranks(alloc, graph.as_slice())?;
    let order = numbers_by_rank(alloc, ranks.as_slice())?;
    if are_ranked(graph.as_slice(), ranks.as_slice())
        && are_ordered(ranks.as_slice(), order.as_slice(), scope.len())
    {
        return by_ranks::<E>(
            alloc,
            scope,
            graph.as_slice(),
            ranks.as_slice(),
            order.as_slice(),
        );
    }
    by_rounds::<E>(alloc, scope)
}

// The entry of the type of a declaration, by a table of those that it names.
fn declared_entry<E: Entries>(
    alloc: Global,
    scope: &Scope<'_>,
    number: usize,
    table: &[E::Entry],
) -> Result<E::Entry, Memory>
    requires { number < length (declarations_of scope.now.declared) }
    ensures { IfOk result (IsMadeFor E.least E.is_entry (declarations_of scope.now.declared) number table.now) }
{
    match scope.get(number).kind {
        AstKind::Alias(ltype) => E::entry(alloc, scope, number, ltype, table),
        _ => Ok(E::least()),
    }
}

// Whether each number stands at its rank.
fn are_ordered(ranks: &[usize], order: &[usize], len: usize) -> bool
    ensures { IsTrue result ↔ AreOrdered ranks.now order.now len }
{
    'numbers: for number in 0..len {
        if order.get(rank_of(ranks, number)) != Some(&number) {
            return false;
        }
    }
    true
}

// A table by one walk in the order of the ranks.
fn by_ranks<E: Entries>(
    alloc: Global,
    scope: &Scope<'_>,
    graph: &[List<usize>],
    ranks: &[usize],
    order: &[usize],
) -> Result<List<E::Entry>, Memory>
    requires graph { graph.now ≡ type_graph (declarations_of scope.now.declared) (length (declarations_of scope.now.declared)) }
    requires ranked { (one : ℕ) → one < length graph.now → IsRanked ranks.now graph.now one }
    requires ordered { AreOrdered ranks.now order.now (length (declarations_of scope.now.declared)) }
    ensures { IfOk result (AreEntries E.least E.is_entry (declarations_of scope.now.declared) (length (declarations_of scope.now.declared))) }
{
    let mut table = least_entries::<E>(alloc, scope.len())?;
    'walk: for rank in 0..order.len() {
        let number = order[rank];
        if number < scope.len() && rank_of(ranks, number) == rank {
            let entry = declared_entry::<E>(alloc, scope, number, table.as_slice())?;
            put(&mut table, number, entry);
        }
    }
    Ok(List::from_vec(table))
}

// The least entry for each of so many declarations.
fn least_entries<E: Entries>(alloc: Global, len: usize) -> Result<Vec<E::Entry>, Memory>
    ensures { IfOk result (λ table. table.items ≡ replicate len E.least) }
{
    let mut table = Vec::new(alloc);
    'numbers: for _number in 0..len {
        table.push(E::least())?;
    }
    Ok(table)
}

fn put<T: Drop>(table: &mut Vec<T>, number: usize, entry: T)
    requires { number < length table.old.items }
    ensures { table.new.items ≡ slice_set table.old.items number entry }
{
    table[number] = entry;
}

// A table by as many rounds as there are declarations.
fn by_rounds<E: Entries>(alloc: Global, scope: &Scope<'_>) -> Result<List<E::Entry>, Memory>
    ensures { IfOk result (AreEntries E.least E.is_entry (declarations_of scope.now.declared) (length (declarations_of scope.now.declared))) }
{
    let mut table = List::new(alloc);
    'rounds: for _round in 0..scope.len() {
        table = next_round::<E>(alloc, scope, table.as_slice())?;
    }
    Ok(table)
}

fn next_round<E: Entries>(
    alloc: Global,
    scope: &Scope<'_>,
    table: &[E::Entry],
) -> Result<List<E::Entry>, Memory>
    ensures { IfOk result (AreMadeOf E.least E.is_entry (declarations_of scope.now.declared) table.now (length (declarations_of scope.now.declared))) }
{
    let mut next = List::new(alloc);
    'numbers: for number in 0..scope.len() {
        next.push(declared_entry::<E>(alloc, scope, number, table)?)?;
    }
    Ok(next)
}
