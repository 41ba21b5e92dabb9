//! The declarations that paths name, by their numbers, and so the types that each type declaration names.

ghost use Rattle.std.specs.Prelude.{◌≡◌, ◌<◌, ◌++◌, [], ◌∷◌, length, IfOk, OnOk};
ghost use Rattle.til_resolve.specs.Declarations.{declaration};
ghost use Rattle.til_resolve.specs.Graph as spec;
ghost use Rattle.til_resolve.specs.Kinds.{asks};
ghost use Rattle.til_resolve.specs.PathsWritten.{seen};
ghost use Rattle.til_resolve.specs.Scope.{declarations_of};

use crate::kinds::Asked;
use crate::paths::paths_of_alias;
use crate::scope::Scope;
use std::alloc::Global;
use til_parser::AstPath;
use tydi_base::{List, Memory};

/// From each declaration, the types that it names; none from one that is no type declaration.
pub fn type_graph(alloc: Global, scope: &Scope<'_>) -> Result<List<List<usize>>, Memory>
    ensures { IfOk result (λ graph. graph ≡ spec.type_graph (declarations_of scope.now.declared) (length (declarations_of scope.now.declared))) }
{
    let mut graph = List::new(alloc);
    'numbers: for number in 0..scope.len() {
        graph.push(types_at(alloc, scope, number)?)?;
    }
    Ok(graph)
}

fn types_at(alloc: Global, scope: &Scope<'_>, number: usize) -> Result<List<usize>, Memory>
    requires { number < length (declarations_of scope.now.declared) }
    ensures { IfOk result (λ targets. targets ≡ spec.types_at (declarations_of scope.now.declared) number) }
{
    let paths = paths_of_alias(alloc, scope.get(number).kind)?;
    let mut targets = List::new(alloc);
    add_named(scope, number, paths.as_slice(), Asked::Type, &mut targets)?;
    Ok(targets)
}

/// Adds the declarations that paths name, those of the kind that is asked.
pub fn add_named<'a>(
    scope: &Scope<'a>,
    number: usize,
    paths: &[&'a AstPath],
    asked: Asked,
    targets: &mut List<usize>,
) -> Result<(), Memory>
    requires { number < length (declarations_of scope.now.declared) }
    ensures { OnOk result (targets.new ≡ targets.old
        ++ spec.kinds_named (asks asked) (declarations_of scope.now.declared) (declaration (declarations_of scope.now.declared) number).space (seen paths.now)) }
{
    'paths: for path in paths {
        add_path(scope, number, path, asked, targets)?;
    }
    Ok(())
}

fn add_path<'a>(
    scope: &Scope<'a>,
    number: usize,
    path: &'a AstPath,
    asked: Asked,
    targets: &mut List<usize>,
) -> Result<(), Memory>
    requires { number < length (declarations_of scope.now.declared) }
    ensures { OnOk result (targets.new ≡ targets.old
        ++ spec.kinds_named (asks asked) (declarations_of scope.now.declared) (declaration (declarations_of scope.now.declared) number).space (path.now ∷ [])) }
{
    match scope.named_as(number, path, asked) {
        Some(target) => targets.push(target),
        None => Ok(()),
    }
}
