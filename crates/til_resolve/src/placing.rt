//! The declarations of a tree in text order, each with the number of its namespace's path.

ghost use Rattle.std.specs.Prelude.{◌≡◌, ◌++◌, OnOk, IfOk, map};
ghost use Rattle.til_resolve.specs.Declarations.{declarations, declared_in};
ghost use Rattle.std.specs.BTreeMap.{get};
ghost use Rattle.til_resolve.specs.Ordered.{by_path};
ghost use Rattle.til_resolve.specs.Placing.{IsPlaced, place_in, with_space};
ghost use Rattle.til_resolve.specs.Scope.{AreHome, FindsSpaces, placed, placed_at, declarations_of};

use crate::declared::Declared;
use crate::keeping::keep_first;
use crate::ordered::OrderedPath;
use std::alloc::Global;
use std::collections::BTreeMap;
use til_parser::{Ast, AstName, AstNamespace};
use tydi_base::{List, Memory};

/// The paths of namespaces, each once, and the number of each among them.
#[derive(Drop)]
pub struct Spaces<'a> {
    pub keys: List<&'a [AstName]>,
    pub(crate) numbers: BTreeMap<OrderedPath<'a>, usize>,
}

/// Declarations, and the paths of their namespaces.
#[derive(Drop)]
pub struct Placing<'a> {
    pub spaces: Spaces<'a>,
    pub declared: List<Declared<'a>>,
}

/// All declarations of a tree.
pub fn place_all<'a>(alloc: Global, ast: &'a Ast) -> Result<Placing<'a>, Memory>
    ensures { IfOk result (λ placing. IsPlaced placing (declarations ast.now)) }
{
    let mut placing = Placing {
        spaces: Spaces {
            keys: List::new(alloc),
            numbers: BTreeMap::new(alloc),
        },
        declared: List::new(alloc),
    };
    'namespaces: for namespace in ast.namespaces.as_slice() {
        place(&mut placing, namespace)?;
    }
    Ok(placing)
}

// The declarations of one namespace more.
fn place<'a>(placing: &mut Placing<'a>, namespace: &'a AstNamespace) -> Result<(), Memory>
    requires finds { FindsSpaces (get by_path placing.old.spaces.numbers) placing.old.spaces.keys }
    requires homes { AreHome placing.old.spaces.keys (placed placing.old.declared) }
    ensures { OnOk result (IsPlaced placing.new (declarations_of placing.old.declared ++ declared_in namespace.now)) }
{
    let names = namespace.path.names.as_slice();
    let home = number_of(&mut placing.spaces, names)?;
    declare(&mut placing.declared, namespace, home)
}

// The number of a path, which is put behind the others where it is not among them.
fn number_of<'a>(spaces: &mut Spaces<'a>, path: &'a [AstName]) -> Result<usize, Memory>
    requires { FindsSpaces (get by_path spaces.old.numbers) spaces.old.keys }
    ensures keys { OnOk result (spaces.new.keys ≡ with_space spaces.old.keys path.entry) }
    ensures finds { OnOk result (FindsSpaces (get by_path spaces.new.numbers) spaces.new.keys) }
    ensures index { IfOk result (λ home. home ≡ place_in spaces.old.keys path.entry) }
{
    if let Some(home) = spaces.numbers.get(&OrderedPath::new(path)) {
        return Ok(*home);
    }
    let home = spaces.keys.len();
    keep_first(&mut spaces.numbers, OrderedPath::new(path), home)?;
    spaces.keys.push(path)?;
    Ok(home)
}

// The declarations of a namespace, whose path has this number.
fn declare<'a>(
    declared: &mut List<Declared<'a>>,
    namespace: &'a AstNamespace,
    home: usize,
) -> Result<(), Memory>
    ensures { OnOk result (placed declared.new ≡ placed declared.old ++ map (placed_at home) (declared_in namespace.now)) }
{
    let space = namespace.path.names.as_slice();
    'decls: for decl in namespace.decls.as_slice() {
        declared.push(Declared {
            space,
            home,
            name: &decl.name,
            kind: &decl.kind,
        })?;
    }
    Ok(())
}
