//! The instances and the links of a body.

ghost use Rattle.std.specs.Prelude.{◌≡◌, ◌<◌, ◌++◌, [], ◌∷◌, length, IfOk, OnOk};
ghost use Rattle.til_resolve.specs.Declarations.{declaration};
ghost use Rattle.til_resolve.specs.Making.{numbers_before};
ghost use Rattle.til_resolve.specs.Project as spec;
ghost use Rattle.til_resolve.specs.Scope.{declarations_of};

use crate::numbering::number_of;
use crate::project::{Instance, Link, LinkEnd};
use crate::scope::Scope;
use std::alloc::Global;
use til_parser::{AstEnd, AstStmt};
use tydi_base::{List, Memory, TryClone};

/// The instances of a body in the declaration of a number.
pub fn instances_in<'a>(
    alloc: Global,
    scope: &Scope<'a>,
    table: &[u32],
    number: usize,
    stmts: &'a [AstStmt],
) -> Result<List<Instance>, Memory>
    requires table { table.now ≡ numbers_before (declarations_of scope.now.declared) (length (declarations_of scope.now.declared)) }
    requires within { number < length (declarations_of scope.now.declared) }
    ensures { IfOk result (λ instances. instances
        ≡ spec.instances_in (declarations_of scope.now.declared) (declaration (declarations_of scope.now.declared) number).space stmts.now) }
{
    let mut instances = List::new(alloc);
    'stmts: for stmt in stmts {
        add_instance(alloc, scope, table, number, stmt, &mut instances)?;
    }
    Ok(instances)
}

// The instance that a statement is, if it is one.
fn add_instance<'a>(
    alloc: Global,
    scope: &Scope<'a>,
    table: &[u32],
    number: usize,
    stmt: &'a AstStmt,
    instances: &mut List<Instance>,
) -> Result<(), Memory>
    requires table { table.now ≡ numbers_before (declarations_of scope.now.declared) (length (declarations_of scope.now.declared)) }
    requires within { number < length (declarations_of scope.now.declared) }
    ensures { OnOk result (instances.new ≡ instances.old
        ++ spec.instances_in (declarations_of scope.now.declared) (declaration (declarations_of scope.now.declared) number).space (stmt.now ∷ [])) }
{
    match stmt {
        AstStmt::Instance { name, streamlet } => instances.push(Instance {
            name: name.name.try_clone(alloc)?,
            streamlet: number_of(scope, table, number, streamlet),
        }),
        AstStmt::Link { .. } => Ok(()),
    }
}

/// The links of a body.
pub fn links_of(alloc: Global, stmts: &[AstStmt]) -> Result<List<Link>, Memory>
    ensures { IfOk result (λ links. links ≡ spec.links_of stmts.now) }
{
    let mut links = List::new(alloc);
    'stmts: for stmt in stmts {
        add_link(alloc, stmt, &mut links)?;
    }
    Ok(links)
}

// The link that a statement is, if it is one.
fn add_link(alloc: Global, stmt: &AstStmt, links: &mut List<Link>) -> Result<(), Memory>
    ensures { OnOk result (links.new ≡ links.old ++ spec.links_of (stmt.now ∷ [])) }
{
    match stmt {
        AstStmt::Instance { .. } => Ok(()),
        AstStmt::Link { first, second } => links.push(Link {
            first: end_of(alloc, first)?,
            second: end_of(alloc, second.get())?,
            place: first.first.place,
        }),
    }
}

fn end_of(alloc: Global, end: &AstEnd) -> Result<LinkEnd, Memory>
    ensures { IfOk result (λ made. made ≡ spec.end_of end.now) }
{
    let first = end.first.name.try_clone(alloc)?;
    match &end.second {
        Some(port) => Ok(LinkEnd {
            instance: Some(first),
            port: port.get().name.try_clone(alloc)?,
        }),
        None => Ok(LinkEnd {
            instance: None,
            port: first,
        }),
    }
}
