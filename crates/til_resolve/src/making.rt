//! The project of a tree without errors.

ghost use Rattle.std.specs.Prelude.{◌≡◌, None, IfOk};
ghost use Rattle.til_resolve.specs.Faults.{IsToldUpTo};
ghost use Rattle.til_resolve.specs.Project.{IsStreamletOf, Pairwise, streamlet_numbers, tests_in};
ghost use Rattle.til_resolve.specs.Scope.{declarations_of};

use crate::numbering::streamlet_numbers;
use crate::project::Project;
use crate::scope::Scope;
use crate::streamlets::all_streamlets;
use crate::written_tests::all_tests;
use std::alloc::Global;
use tydi_base::Memory;

/// The project of declarations without errors.
pub fn project_of(alloc: Global, scope: &Scope<'_>) -> Result<Project, Memory>
    requires { IsToldUpTo (declarations_of scope.now.declared) 7 None }
    ensures streamlets { IfOk result (λ project. Pairwise (IsStreamletOf (declarations_of scope.now.declared))
        (streamlet_numbers (declarations_of scope.now.declared)) project.streamlets) }
    ensures tests { IfOk result (λ project. project.tests ≡ tests_in (declarations_of scope.now.declared) (declarations_of scope.now.declared)) }
{
    let table = streamlet_numbers(alloc, scope)?;
    let streamlets = all_streamlets(alloc, scope, table.as_slice())?;
    let tests = all_tests(alloc, scope, table.as_slice())?;
    Ok(Project { streamlets, tests })
}
