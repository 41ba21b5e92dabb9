//! The numbers of streamlets among the streamlets alone.

ghost use Rattle.std.specs.Prelude.{◌≡◌, ◌+◌, ◌<◌, length, IfOk, if◌then◌else◌};
ghost use Rattle.til_resolve.specs.Declarations.{declaration};
ghost use Rattle.til_resolve.specs.Making.{numbers_before};
ghost use Rattle.til_resolve.specs.Project as spec;
ghost use Rattle.til_resolve.specs.Scope.{declarations_of};

use crate::kinds::{Asked, is_asked};
use crate::scope::Scope;
use std::alloc::Global;
use til_parser::AstPath;
use tydi_base::{List, Memory};

/// How many streamlets stand before each declaration. `Memory` also where they are 2^32: no text has so many.
pub fn streamlet_numbers(alloc: Global, scope: &Scope<'_>) -> Result<List<u32>, Memory>
    ensures { IfOk result (λ table. table ≡ numbers_before (declarations_of scope.now.declared) (length (declarations_of scope.now.declared))) }
{
    let mut table = List::new(alloc);
    let mut count = 0;
    'numbers: for number in 0..scope.len() {
        table.push(count)?;
        count = counted(count, is_asked(Asked::Streamlet, scope.get(number)))?;
    }
    Ok(table)
}

// One more where there is one.
fn counted(count: u32, is_one: bool) -> Result<u32, Memory>
    ensures { IfOk result (λ next. next ≡ count + (if is_one then 1 else 0)) }
{
    if !is_one {
        return Ok(count);
    }
    count.checked_add(1).ok_or(Memory)
}

/// The number of the streamlet that a path names where it stands in the declaration of a number; 0 where it names none.
pub fn number_of<'a>(scope: &Scope<'a>, table: &[u32], number: usize, path: &'a AstPath) -> u32
    requires table { table.now ≡ numbers_before (declarations_of scope.now.declared) (length (declarations_of scope.now.declared)) }
    requires within { number < length (declarations_of scope.now.declared) }
    ensures { result ≡ spec.number_of (declarations_of scope.now.declared) (declaration (declarations_of scope.now.declared) number).space path.now }
{
    match scope.named_as(number, path, Asked::Streamlet) {
        Some(streamlet) => table[streamlet],
        None => 0,
    }
}
