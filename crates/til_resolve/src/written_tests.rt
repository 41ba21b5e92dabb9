//! The tests of a project.

ghost use Rattle.std.specs.Prelude.{◌≡◌, ◌<◌, ◌++◌, [], ◌∷◌, length, IfOk, OnOk};
ghost use Rattle.til_resolve.specs.Declarations.{declaration};
ghost use Rattle.til_resolve.specs.Making.{numbers_before};
ghost use Rattle.til_resolve.specs.Project as spec;
ghost use Rattle.til_resolve.specs.Scope.{declarations_of};

use crate::numbering::number_of;
use crate::project::Test;
use crate::scope::Scope;
use crate::streamlets::path_of;
use std::alloc::Global;
use til_parser::AstKind;
use tydi_base::{List, Memory, TryClone};

/// All tests, in text order. The table has how many streamlets stand before each declaration.
pub fn all_tests(alloc: Global, scope: &Scope<'_>, table: &[u32]) -> Result<List<Test>, Memory>
    requires table { table.now ≡ numbers_before (declarations_of scope.now.declared) (length (declarations_of scope.now.declared)) }
    ensures { IfOk result (λ tests. tests ≡ spec.tests_in (declarations_of scope.now.declared) (declarations_of scope.now.declared)) }
{
    let mut tests = List::new(alloc);
    'numbers: for number in 0..scope.len() {
        add_test(alloc, scope, table, number, &mut tests)?;
    }
    Ok(tests)
}

// The test that a declaration is, if it is one.
fn add_test(
    alloc: Global,
    scope: &Scope<'_>,
    table: &[u32],
    number: usize,
    tests: &mut List<Test>,
) -> Result<(), Memory>
    requires table { table.now ≡ numbers_before (declarations_of scope.now.declared) (length (declarations_of scope.now.declared)) }
    requires within { number < length (declarations_of scope.now.declared) }
    ensures { OnOk result (tests.new ≡ tests.old
        ++ spec.tests_in (declarations_of scope.now.declared) (declaration (declarations_of scope.now.declared) number ∷ [])) }
{
    let one = scope.get(number);
    let AstKind::Test {
        target,
        port,
        value,
        plan,
    } = one.kind
    else {
        return Ok(());
    };
    tests.push(Test {
        path: path_of(alloc, one)?,
        streamlet: number_of(scope, table, number, target),
        port: port.name.try_clone(alloc)?,
        value: value.try_clone(alloc)?,
        plan: plan.try_clone(alloc)?,
    })
}
