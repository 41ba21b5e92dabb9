//! The project of a tree, or its first error.

ghost use Rattle.std.specs.Prelude.{◌≡◌, ◌≢◌, Some, None, IfOk, IfErr};
ghost use Rattle.til_resolve.specs.Faults.{IsSound, IsToldOf, IsToldUpTo};
ghost use Rattle.til_resolve.specs.Project.{IsProjectOf, IsStreamletOf, Pairwise, streamlet_numbers, tests_in};
ghost use Rattle.til_resolve.specs.Scope.{declarations_of};
ghost use Rattle.til_resolve.specs.declared.fault.ResolveFault.TheVariants as faults;

use crate::fault::ResolveFault;
use crate::first::first_fault;
use crate::making::project_of;
use crate::project::Project;
use crate::scope::Scope;
use std::alloc::Global;
use til_parser::Ast;

/// The project that a tree stands for. Apart from `Memory` it fails exactly where the tree has an error, and reports the one that
/// is looked for first, at its first place in the text: see `ResolveFault`. It takes time and memory in proportion to the text
/// and to the types of its ports, where a type that ports name is built once.
pub fn resolve(alloc: Global, ast: &Ast) -> Result<Project, ResolveFault>
    ensures sound { IfOk result (λ project. IsSound ast.now) }
    ensures project { IfOk result (IsProjectOf ast.now) }
    ensures fault { IfErr result (λ fault. fault ≢ faults.Memory → IsToldOf ast.now fault) }
{
    let scope = Scope::new(alloc, ast)?;
    project_or_fault(alloc, &scope)
}

// The project of declarations, or their first fault.
fn project_or_fault(alloc: Global, scope: &Scope<'_>) -> Result<Project, ResolveFault>
    ensures sound { IfOk result (λ project. IsToldUpTo (declarations_of scope.now.declared) 7 None) }
    ensures streamlets { IfOk result (λ project. Pairwise (IsStreamletOf (declarations_of scope.now.declared))
        (streamlet_numbers (declarations_of scope.now.declared)) project.streamlets) }
    ensures tests { IfOk result (λ project. project.tests ≡ tests_in (declarations_of scope.now.declared) (declarations_of scope.now.declared)) }
    ensures fault { IfErr result (λ fault. fault ≢ faults.Memory → IsToldUpTo (declarations_of scope.now.declared) 7 (Some fault)) }
{
    match first_fault(alloc, scope)? {
        Some(fault) => Err(fault),
        None => Ok(project_of(alloc, scope)?),
    }
}
