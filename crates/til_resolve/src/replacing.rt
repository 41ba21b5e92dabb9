//! The type that a written type stands for, made. The types of the declarations that it names stand in a table, and are shared.

ghost use Rattle.std.specs.Prelude.{◌≡◌, ◌<◌, length, IfOk};
ghost use Rattle.logical_types.specs.Tree as types;
ghost use Rattle.logical_types.specs.Tree.{plain, plain_of_stream, plain_parts};
ghost use Rattle.til_parser.specs.Tree as tree;
ghost use Rattle.til_resolve.specs.Declarations.{declaration};
ghost use Rattle.til_resolve.specs.Scope.{declarations_of};
ghost use Rattle.til_resolve.specs.SharedTypes as spec;
ghost use Rattle.til_resolve.specs.SharedTypes.{replaced_list, type_named};
ghost use Rattle.til_resolve.specs.Types.{replaced, settings_of, sync_of};

use crate::kinds::Asked;
use crate::scope::Scope;
use logical_types::{LType, Part, Shared, StreamType, Sync};
use std::alloc::Global;
use til_parser::{AstPart, AstPath, AstStream, AstSync, AstType};
use tydi_base::{List, Memory, TryClone};

/// The type that a type stands for which is written in the declaration of a number.
#[cycle(replaced)]
pub fn replaced_type<'a>(
    alloc: Global,
    scope: &Scope<'a>,
    number: usize,
    ltype: &'a AstType,
    table: &[LType],
) -> Result<LType, Memory>
    requires { number < length (declarations_of scope.now.declared) }
    ensures { IfOk result (λ made. plain made
        ≡ replaced (type_named (declarations_of scope.now.declared) table.now (declaration (declarations_of scope.now.declared) number).space) (tree.plain ltype.now)) }
{
    match ltype {
        AstType::Null => Ok(LType::Null),
        AstType::Bits(width) => Ok(LType::Bits(*width)),
        AstType::Group(parts) => {
            let parts = replaced_parts(alloc, scope, number, parts.as_slice(), table)?;
            Ok(LType::Group(Shared::new(alloc, parts)?))
        }
        AstType::Union(parts) => {
            let parts = replaced_parts(alloc, scope, number, parts.as_slice(), table)?;
            Ok(LType::Union(Shared::new(alloc, parts)?))
        }
        AstType::Stream(stream) => {
            let stream = replaced_stream(alloc, scope, number, stream.get(), table)?;
            Ok(LType::Stream(Shared::new(alloc, stream)?))
        }
        AstType::Path(path) => named_type(alloc, scope, number, path, table),
    }
}

#[cycle(replaced)]
fn replaced_parts<'a>(
    alloc: Global,
    scope: &Scope<'a>,
    number: usize,
    parts: &'a [AstPart],
    table: &[LType],
) -> Result<List<Part>, Memory>
    requires { number < length (declarations_of scope.now.declared) }
    ensures { IfOk result (λ made. plain_parts made
        ≡ replaced_list (type_named (declarations_of scope.now.declared) table.now (declaration (declarations_of scope.now.declared) number).space) parts.now) }
{
    let mut made = List::new(alloc);
    'parts: for part in parts {
        let name = part.name.name.try_clone(alloc)?;
        let ltype = replaced_type(alloc, scope, number, &part.ltype, table)?;
        made.push(Part { name, ltype })?;
    }
    Ok(made)
}

#[cycle(replaced)]
fn replaced_stream<'a>(
    alloc: Global,
    scope: &Scope<'a>,
    number: usize,
    stream: &'a AstStream,
    table: &[LType],
) -> Result<StreamType, Memory>
    requires { number < length (declarations_of scope.now.declared) }
    ensures { IfOk result (λ made. plain_of_stream made ≡ types.stream
        (replaced (type_named (declarations_of scope.now.declared) table.now (declaration (declarations_of scope.now.declared) number).space) (tree.plain stream.now.element))
        (replaced (type_named (declarations_of scope.now.declared) table.now (declaration (declarations_of scope.now.declared) number).space) (tree.plain stream.now.user))
        (settings_of (tree.settings_of stream.now))) }
{
    let element = replaced_type(alloc, scope, number, &stream.element, table)?;
    let user = replaced_type(alloc, scope, number, &stream.user, table)?;
    Ok(StreamType {
        element,
        throughput: stream.throughput,
        dims: stream.dims,
        sync: sync_of(stream.sync),
        level: stream.level,
        reverse: stream.reverse,
        user,
        keep: stream.keep,
    })
}

/// A synchronicity, as types have it.
pub fn sync_of(sync: AstSync) -> Sync
    ensures { result ≡ sync_of sync }
{
    match sync {
        AstSync::Sync => Sync::Sync,
        AstSync::Flatten => Sync::Flatten,
        AstSync::Desync => Sync::Desync,
        AstSync::FlatDesync => Sync::FlatDesync,
    }
}

// The type that a path names, shared with the table; Null where it names none.
fn named_type<'a>(
    alloc: Global,
    scope: &Scope<'a>,
    number: usize,
    path: &'a AstPath,
    table: &[LType],
) -> Result<LType, Memory>
    requires { number < length (declarations_of scope.now.declared) }
    ensures { IfOk result (λ made. plain made
        ≡ type_named (declarations_of scope.now.declared) table.now (declaration (declarations_of scope.now.declared) number).space path.now.names) }
{
    match scope.named_as(number, path, Asked::Type) {
        Some(target) => type_at(alloc, table, target),
        None => Ok(LType::Null),
    }
}

// The type that a table has of a number, shared with it.
fn type_at(alloc: Global, table: &[LType], number: usize) -> Result<LType, Memory>
    ensures { IfOk result (λ made. plain made ≡ spec.ltype_at table.now number) }
{
    match table.get(number) {
        Some(ltype) => ltype.try_clone(alloc),
        None => Ok(LType::Null),
    }
}
