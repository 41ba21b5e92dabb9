//! The types of all declarations.

ghost use Rattle.std.specs.Prelude.{length, IfOk};
ghost use Rattle.logical_types.specs.declared.ltype.LType.TheVariants as types;
ghost use Rattle.logical_types.proofs.PlainLemmas.{plain-Null};
ghost use Rattle.til_resolve.specs.Scope.{declarations_of};
ghost use Rattle.til_resolve.specs.SharedTypes.{AreTypes, IsTypeOf};

use crate::replacing::replaced_type;
use crate::scope::Scope;
use crate::tables::{Entries, table_of};
use logical_types::LType;
use std::alloc::Global;
use til_parser::AstType;
use tydi_base::{List, Memory};

// The types of declarations as entries of a table, each of which shares those that it names.
struct DeclaredTypes;

impl Entries for DeclaredTypes {
    type Entry = LType;

    ghost least = { types.Null };

    ghost is_entry = { IsTypeOf };

    fn least() -> LType {
        LType::Null
    }

    fn entry<'a>(
        alloc: Global,
        scope: &Scope<'a>,
        number: usize,
        ltype: &'a AstType,
        table: &[LType],
    ) -> Result<LType, Memory> {
        replaced_type(alloc, scope, number, ltype, table)
    }

    ghost is_least = { plain-Null };
}

/// A table of the types of all declarations, in which each shares those that it names.
pub fn shared_types(alloc: Global, scope: &Scope<'_>) -> Result<List<LType>, Memory>
    ensures { IfOk result (AreTypes (declarations_of scope.now.declared) (length (declarations_of scope.now.declared))) }
{
    table_of::<DeclaredTypes>(alloc, scope)
}
