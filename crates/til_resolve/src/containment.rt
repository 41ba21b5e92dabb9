//! The streamlets that are inside each streamlet, by their numbers.

ghost use Rattle.std.specs.Prelude.{◌≡◌, ◌<◌, ◌++◌, ℕ, [], length, IfOk, OnOk};
ghost use Rattle.til_resolve.specs.Declarations.{declaration};
ghost use Rattle.til_resolve.specs.Graph.{HasInside, IsPutInside, streamlets_inside, targets_of};
ghost use Rattle.til_resolve.specs.Scope.{declarations_of};

use crate::implementing::implements;
use crate::kinds::Asked;
use crate::paths::paths_of_instances;
use crate::scope::Scope;
use crate::type_graph::add_named;
use std::alloc::Global;
use tydi_base::{List, Memory};

/// From each streamlet, those of which its implementations have instances.
pub fn inside_graph(alloc: Global, scope: &Scope<'_>) -> Result<Vec<List<usize>>, Memory>
    ensures { IfOk result (λ graph. HasInside (declarations_of scope.now.declared) graph.items (length (declarations_of scope.now.declared))) }
{
    let mut graph = empty_graph(alloc, scope.len())?;
    'numbers: for number in 0..scope.len() {
        put_inside(alloc, scope, number, &mut graph)?;
    }
    Ok(graph)
}

fn empty_graph(alloc: Global, len: usize) -> Result<Vec<List<usize>>, Memory>
    ensures long { IfOk result (λ graph. length graph.items ≡ len) }
    ensures empty { IfOk result (λ graph. (one : ℕ) → targets_of graph.items one ≡ []) }
{
    let mut graph = Vec::new(alloc);
    'numbers: for _number in 0..len {
        graph.push(List::new(alloc))?;
    }
    Ok(graph)
}

// The instances of a declaration, at the streamlet that it implements.
fn put_inside(
    alloc: Global,
    scope: &Scope<'_>,
    number: usize,
    graph: &mut Vec<List<usize>>,
) -> Result<(), Memory>
    requires within { number < length (declarations_of scope.now.declared) }
    requires long { length graph.old.items ≡ length (declarations_of scope.now.declared) }
    ensures { OnOk result (IsPutInside (declarations_of scope.now.declared) graph.old.items number graph.new.items) }
{
    match implements(scope, number) {
        Some(streamlet) => add_instances(alloc, scope, number, &mut graph[streamlet]),
        None => Ok(()),
    }
}

fn add_instances(
    alloc: Global,
    scope: &Scope<'_>,
    number: usize,
    targets: &mut List<usize>,
) -> Result<(), Memory>
    requires { number < length (declarations_of scope.now.declared) }
    ensures { OnOk result (targets.new ≡ targets.old ++ streamlets_inside (declarations_of scope.now.declared) (declaration (declarations_of scope.now.declared) number)) }
{
    let paths = paths_of_instances(alloc, scope.get(number).kind)?;
    add_named(scope, number, paths.as_slice(), Asked::Streamlet, targets)
}
