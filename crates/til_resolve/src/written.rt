//! All types that a tree writes, one after another.

ghost use Rattle.std.specs.Prelude.{◌≡◌, ◌++◌, ◌<◌, [], ◌∷◌, length, IfOk, OnOk};
ghost use Rattle.til_parser.specs.Tree.{plain};
ghost use Rattle.til_resolve.specs.Declarations.{declaration, own_ports};
ghost use Rattle.til_resolve.specs.Faults.{port_types, types_in};
ghost use Rattle.til_resolve.specs.Scope.{declarations_of};
ghost use Rattle.til_resolve.specs.Written.{AddsWritten, AreWritten, IsWithin, place_of};

use crate::kinds::own_ports;
use crate::scope::Scope;
use std::alloc::Global;
use til_parser::{AstKind, AstPort};
use tydi_base::{List, Memory, Place};

/// A type that is written.
#[derive(Clone, Copy)]
pub enum Written<'a> {
    /// The type of the type declaration of this number.
    Declared(usize),
    /// The type of a port of the declaration of this number.
    Port { number: usize, port: &'a AstPort },
}

/// The types of all type declarations and ports.
pub fn written_types<'a>(alloc: Global, scope: &Scope<'a>) -> Result<List<Written<'a>>, Memory>
    ensures { IfOk result (AreWritten (declarations_of scope.now.declared)) }
{
    let mut written = List::new(alloc);
    'numbers: for number in 0..scope.len() {
        add_declaration(scope, number, &mut written)?;
    }
    Ok(written)
}

// Adds the types of one more declaration.
fn add_declaration<'a>(
    scope: &Scope<'a>,
    number: usize,
    written: &mut List<Written<'a>>,
) -> Result<(), Memory>
    requires { number < length (declarations_of scope.now.declared) }
    ensures { OnOk result (AddsWritten (declarations_of scope.now.declared) written.old written.new
        (types_in (declarations_of scope.now.declared) (declaration (declarations_of scope.now.declared) number))) }
{
    match scope.get(number).kind {
        AstKind::Alias(_) => written.push(Written::Declared(number)),
        kind => add_ports(scope, number, own_ports(kind), written),
    }
}

fn add_ports<'a>(
    scope: &Scope<'a>,
    number: usize,
    ports: &'a [AstPort],
    written: &mut List<Written<'a>>,
) -> Result<(), Memory>
    requires { number < length (declarations_of scope.now.declared) }
    ensures { OnOk result (AddsWritten (declarations_of scope.now.declared) written.old written.new
        (port_types (declarations_of scope.now.declared) (declaration (declarations_of scope.now.declared) number).space ports.now)) }
{
    'ports: for port in ports {
        written.push(Written::Port { number, port })?;
    }
    Ok(())
}

/// The place at which an error of a written type is reported: the name of its declaration or of its port.
pub fn place_of<'a>(scope: &Scope<'a>, one: &Written<'a>) -> Place
    requires { IsWithin (declarations_of scope.now.declared) one.now }
    ensures { result ≡ place_of (declarations_of scope.now.declared) one.now }
{
    match one {
        Written::Declared(number) => scope.get(*number).name.place,
        Written::Port { port, .. } => port.name.place,
    }
}
