//! Type declarations that only name another type, passed over. A table is made by one walk that promises nothing, and tested.

ghost use Rattle.std.specs.Prelude.{◌≡◌, ◌<◌, ◌↔◌, length, IsTrue, IfOk, IfSome};
ghost use Rattle.til_parser.specs.Tree.{plain};
ghost use Rattle.til_resolve.specs.Chains as spec;
ghost use Rattle.til_resolve.specs.Chains.{AreChains, AreLinks, IsLink};
ghost use Rattle.til_resolve.specs.Declarations.{declaration};
ghost use Rattle.til_resolve.specs.Scope.{declarations_of};

use crate::kinds::Asked;
use crate::ranks::{find_ranks, numbers_by_rank};
use crate::scope::Scope;
use crate::type_graph::type_graph;
use std::alloc::Global;
use til_parser::{AstKind, AstType};
use tydi_base::{List, Memory};

/// The declaration whose type another has, and how many names stand between the two.
#[derive(Clone, Copy)]
pub struct Chain {
    pub root: usize,
    pub skipped: usize,
}

/// The chain of each declaration.
pub fn find_chains(alloc: Global, scope: &Scope<'_>) -> Result<List<Chain>, Memory>
    ensures { IfOk result (AreChains (declarations_of scope.now.declared)) }
{
    let graph = type_graph(alloc, scope)?;
    let ranks = find_ranks(alloc, graph.as_slice())?;
    let chains = by_ranks(alloc, scope, ranks.as_slice())?;
    if are_links(scope, chains.as_slice()) {
        return Ok(chains);
    }
    // Where nothing is passed over, each declaration is its own root.
    Ok(List::new(alloc))
}

/// The chain that a table has of a number; where it has none, the number's own.
pub fn chain_at(chains: &[Chain], number: usize) -> Chain
    ensures { result ≡ spec.chain_at chains.now number }
{
    match chains.get(number) {
        Some(chain) => *chain,
        None => own_chain(number),
    }
}

fn own_chain(number: usize) -> Chain
    ensures { result ≡ spec.own_chain number }
{
    Chain {
        root: number,
        skipped: 0,
    }
}

/// The type declaration that a written type names, if it is only a path.
pub fn named_alone<'a>(scope: &Scope<'a>, number: usize, ltype: &'a AstType) -> Option<usize>
    requires { number < length (declarations_of scope.now.declared) }
    ensures value { result ≡ spec.named_alone (declarations_of scope.now.declared) (declaration (declarations_of scope.now.declared) number).space (plain ltype.now) }
    ensures within { IfSome result (λ target. target < length (declarations_of scope.now.declared)) }
{
    match ltype {
        AstType::Path(path) => scope.named_as(number, path, Asked::Type),
        AstType::Null
        | AstType::Bits(_)
        | AstType::Group(_)
        | AstType::Union(_)
        | AstType::Stream(_) => None,
    }
}

// The type declaration that a declaration only names.
fn next_of(scope: &Scope<'_>, number: usize) -> Option<usize>
    requires { number < length (declarations_of scope.now.declared) }
    ensures { result ≡ spec.next_of (declarations_of scope.now.declared) number }
{
    match scope.get(number).kind {
        AstKind::Alias(ltype) => named_alone(scope, number, ltype),
        _ => None,
    }
}

// Whether each entry of a table goes on that of the declaration that it only names, or is its own.
fn are_links(scope: &Scope<'_>, chains: &[Chain]) -> bool
    ensures { IsTrue result ↔ AreLinks (declarations_of scope.now.declared) chains.now (length (declarations_of scope.now.declared)) }
{
    'numbers: for number in 0..scope.len() {
        if !is_link(scope, chains, number) {
            return false;
        }
    }
    true
}

fn is_link(scope: &Scope<'_>, chains: &[Chain], number: usize) -> bool
    requires { number < length (declarations_of scope.now.declared) }
    ensures { IsTrue result ↔ IsLink (declarations_of scope.now.declared) chains.now number }
{
    let chain = chain_at(chains, number);
    if chain.skipped == 0 {
        return chain.root == number;
    }
    match next_of(scope, number) {
        Some(target) => goes_on(chain, chain_at(chains, target)),
        None => false,
    }
}

// Whether a chain is another with one name more before it.
fn goes_on(chain: Chain, next: Chain) -> bool
    ensures { IsTrue result ↔ spec.GoesOn chain next }
{
    chain.skipped > 0 && chain.skipped - 1 == next.skipped && chain.root == next.root
}

// A table by one walk in the order of the ranks. The contract promises an entry for each declaration, not its value.
fn by_ranks(alloc: Global, scope: &Scope<'_>, ranks: &[usize]) -> Result<List<Chain>, Memory>
    ensures { IfOk result (λ chains. length chains ≡ length (declarations_of scope.now.declared)) }
{
    let order = numbers_by_rank(alloc, ranks)?;
    let mut chains = vec![in alloc; own_chain(0); scope.len()]?;
    'order: for number in order.iter() {
        if *number < scope.len() && *number < chains.len() {
            chains[*number] = chain_of(scope, *number, chains.as_slice());
        }
    }
    Ok(List::from_vec(chains))
}

// The chain of a declaration, by a table of those that it names.
fn chain_of(scope: &Scope<'_>, number: usize, chains: &[Chain]) -> Chain
    requires { number < length (declarations_of scope.now.declared) }
    ensures { result ≡ spec.chain_from chains.now number (spec.next_of (declarations_of scope.now.declared) number) }
{
    match next_of(scope, number) {
        Some(target) => with_one_more(chain_at(chains, target)),
        None => own_chain(number),
    }
}

fn with_one_more(chain: Chain) -> Chain
    ensures { result ≡ spec.with_one_more chain }
{
    Chain {
        root: chain.root,
        skipped: chain.skipped.saturating_add(1),
    }
}
