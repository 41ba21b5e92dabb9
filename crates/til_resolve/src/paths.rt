//! The paths that a declaration has, one after another: all of them, or those by which it leads to others.

ghost use Rattle.std.specs.Prelude.{◌≡◌, [], ◌∷◌, IfOk, OnOk};
ghost use Rattle.til_parser.specs.Tree.{plain};
ghost use Rattle.til_resolve.specs.Cycles.{paths_of_alias, paths_of_instances};
ghost use Rattle.til_resolve.specs.Names.{paths_in, paths_in_ports};
ghost use Rattle.til_resolve.specs.PathsWritten.{AddsPaths, asked_in, paths_in_list, paths_of_body, paths_of_kind, paths_of_statements, seen};

use crate::kinds::Asked;
use std::alloc::Global;
use til_parser::{AstBody, AstKind, AstPart, AstPath, AstPort, AstPorts, AstStmt, AstType};
use tydi_base::{List, Memory};

/// All paths in a declaration of a kind.
pub fn paths_of<'a>(alloc: Global, kind: &'a AstKind) -> Result<List<&'a AstPath>, Memory>
    ensures { IfOk result (λ paths. seen paths ≡ paths_of_kind kind.now) }
{
    let mut paths = List::new(alloc);
    add_kind(kind, &mut paths)?;
    Ok(paths)
}

/// The kind of declaration that the paths in a declaration of this kind have to name.
pub fn asked_in(kind: &AstKind) -> Asked
    ensures { result ≡ asked_in kind.now }
{
    match kind {
        AstKind::Alias(_) | AstKind::Interface(_) | AstKind::Streamlet(AstPorts::Own(_)) => {
            Asked::Type
        }
        AstKind::Streamlet(AstPorts::Named(_)) => Asked::Interface,
        AstKind::Impl { .. } | AstKind::Test { .. } => Asked::Streamlet,
    }
}

/// The paths in the type of a type declaration.
pub fn paths_of_alias<'a>(alloc: Global, kind: &'a AstKind) -> Result<List<&'a AstPath>, Memory>
    ensures { IfOk result (λ paths. seen paths ≡ paths_of_alias kind.now) }
{
    match kind {
        AstKind::Alias(_) => paths_of(alloc, kind),
        _ => Ok(List::new(alloc)),
    }
}

/// The paths after the instances of an `impl`.
pub fn paths_of_instances<'a>(alloc: Global, kind: &'a AstKind) -> Result<List<&'a AstPath>, Memory>
    ensures { IfOk result (λ paths. seen paths ≡ paths_of_instances kind.now) }
{
    let mut paths = List::new(alloc);
    add_instances(kind, &mut paths)?;
    Ok(paths)
}

fn add_kind<'a>(kind: &'a AstKind, paths: &mut List<&'a AstPath>) -> Result<(), Memory>
    ensures { OnOk result (AddsPaths paths.old paths.new (paths_of_kind kind.now)) }
{
    match kind {
        AstKind::Alias(ltype) => add_type(ltype, paths),
        AstKind::Interface(ports) => add_ports(ports.as_slice(), paths),
        AstKind::Streamlet(AstPorts::Own(ports)) => add_ports(ports.as_slice(), paths),
        AstKind::Streamlet(AstPorts::Named(path)) => paths.push(path),
        AstKind::Impl { target, .. } => {
            paths.push(target)?;
            add_instances(kind, paths)
        }
        AstKind::Test { target, .. } => paths.push(target),
    }
}

// The paths in the types of ports.
fn add_ports<'a>(ports: &'a [AstPort], paths: &mut List<&'a AstPath>) -> Result<(), Memory>
    ensures { OnOk result (AddsPaths paths.old paths.new (paths_in_ports ports.now)) }
{
    'ports: for port in ports {
        add_type(&port.ltype, paths)?;
    }
    Ok(())
}

#[cycle(add_type)]
fn add_type<'a>(ltype: &'a AstType, paths: &mut List<&'a AstPath>) -> Result<(), Memory>
    ensures { OnOk result (AddsPaths paths.old paths.new (paths_in (plain ltype.now))) }
{
    match ltype {
        AstType::Null | AstType::Bits(_) => Ok(()),
        AstType::Group(parts) => add_parts(parts.as_slice(), paths),
        AstType::Union(parts) => add_parts(parts.as_slice(), paths),
        AstType::Stream(stream) => {
            let stream = stream.get();
            add_type(&stream.element, paths)?;
            add_type(&stream.user, paths)
        }
        AstType::Path(path) => paths.push(path),
    }
}

#[cycle(add_type)]
fn add_parts<'a>(parts: &'a [AstPart], paths: &mut List<&'a AstPath>) -> Result<(), Memory>
    ensures { OnOk result (AddsPaths paths.old paths.new (paths_in_list parts.now)) }
{
    'parts: for part in parts {
        add_type(&part.ltype, paths)?;
    }
    Ok(())
}

fn add_instances<'a>(kind: &'a AstKind, paths: &mut List<&'a AstPath>) -> Result<(), Memory>
    ensures { OnOk result (AddsPaths paths.old paths.new (paths_of_instances kind.now)) }
{
    match kind {
        AstKind::Impl { body, .. } => add_body(body, paths),
        _ => Ok(()),
    }
}

fn add_body<'a>(body: &'a AstBody, paths: &mut List<&'a AstPath>) -> Result<(), Memory>
    ensures { OnOk result (AddsPaths paths.old paths.new (paths_of_body body.now)) }
{
    match body {
        AstBody::Linked(_) => Ok(()),
        AstBody::Structural(stmts) => add_statements(stmts.as_slice(), paths),
    }
}

fn add_statements<'a>(stmts: &'a [AstStmt], paths: &mut List<&'a AstPath>) -> Result<(), Memory>
    ensures { OnOk result (AddsPaths paths.old paths.new (paths_of_statements stmts.now)) }
{
    'stmts: for stmt in stmts {
        add_statement(stmt, paths)?;
    }
    Ok(())
}

fn add_statement<'a>(stmt: &'a AstStmt, paths: &mut List<&'a AstPath>) -> Result<(), Memory>
    ensures { OnOk result (AddsPaths paths.old paths.new (paths_of_statements (stmt.now ∷ []))) }
{
    match stmt {
        AstStmt::Instance { streamlet, .. } => paths.push(streamlet),
        AstStmt::Link { .. } => Ok(()),
    }
}
