//! The first declaration of each name in each namespace.

ghost use Rattle.std.specs.Prelude.{IfOk};
ghost use Rattle.std.specs.BTreeMap.{get};
ghost use Rattle.til_resolve.specs.Ordered.{by_key};
ghost use Rattle.til_resolve.specs.Scope.{FindsFirst, placed};

use crate::declared::Declared;
use crate::keeping::keep_first;
use crate::ordered::OrderedName;
use std::alloc::Global;
use std::collections::BTreeMap;
use tydi_base::Memory;

/// The number of the first declaration by the number of its namespace's path and its name.
pub type Firsts<'a> = BTreeMap<(usize, OrderedName<'a>), usize>;

/// A map from each name in a namespace to the first of these declarations that has it. `Memory` comes where there is none for it.
pub fn first_of_each<'a>(alloc: Global, declared: &[Declared<'a>]) -> Result<Firsts<'a>, Memory>
    ensures { IfOk result (λ firsts. FindsFirst (get by_key firsts) (placed declared.now)) }
{
    let mut firsts = BTreeMap::new(alloc);
    'declared: for (number, one) in declared.iter().enumerate() {
        let key = (one.home, OrderedName::new(&one.name.name));
        keep_first(&mut firsts, key, number)?;
    }
    Ok(firsts)
}
