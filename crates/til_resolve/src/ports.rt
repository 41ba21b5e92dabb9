//! Ports by the numbers of the declarations that write them.

ghost use Rattle.std.specs.Prelude.{◌≡◌, ◌<◌, ◌||◌, ◌&&◌, nat_eq, length, IfOk, IfSome, OnOk};
ghost use Rattle.std.specs.BTreeSet.{contains};
ghost use Rattle.til_resolve.specs.Declarations as spec;
ghost use Rattle.til_resolve.specs.Names.{has_port};
ghost use Rattle.til_resolve.specs.Ports.{FindsPorts, is_port_name, owner_of};
ghost use Rattle.til_resolve.specs.Ordered.{Key, by_key};
ghost use Rattle.til_resolve.specs.Scope.{declarations_of};

use crate::keeping::note;
use crate::kinds::{Asked, own_ports};
use crate::ordered::OrderedName;
use crate::scope::Scope;
use std::alloc::Global;
use std::collections::BTreeSet;
use til_parser::{AstKind, AstName, AstPort, AstPorts};
use tydi_base::Memory;

/// The names of ports, each with the number of the declaration that writes it.
pub type Ports<'a> = BTreeSet<(usize, OrderedName<'a>)>;

/// The ports that all declarations write out.
pub fn all_ports<'a>(alloc: Global, scope: &Scope<'a>) -> Result<Ports<'a>, Memory>
    ensures { IfOk result (λ ports. FindsPorts (contains by_key ports) (declarations_of scope.now.declared) (length (declarations_of scope.now.declared))) }
{
    let mut ports = BTreeSet::new(alloc);
    'numbers: for number in 0..scope.len() {
        add_ports(&mut ports, number, own_ports(scope.get(number).kind))?;
    }
    Ok(ports)
}

// Adds the ports of one more declaration.
fn add_ports<'a>(ports: &mut Ports<'a>, owner: usize, added: &'a [AstPort]) -> Result<(), Memory>
    ensures { OnOk result ((key : Key) → contains by_key ports.new key
        ≡ (contains by_key ports.old key || (nat_eq owner key.0 && is_port_name added.now key.1))) }
{
    'ports: for port in added {
        note(ports, (owner, OrderedName::new(&port.name.name)))?;
    }
    Ok(())
}

/// Whether a streamlet has a port of this name.
pub fn has_port<'a>(
    scope: &Scope<'a>,
    ports: &Ports<'a>,
    streamlet: usize,
    name: &'a AstName,
) -> bool
    requires found { FindsPorts (contains by_key ports.now) (declarations_of scope.now.declared) (length (declarations_of scope.now.declared)) }
    requires within { streamlet < length (declarations_of scope.now.declared) }
    ensures { result ≡ has_port (spec.ports_of (declarations_of scope.now.declared) (spec.declaration (declarations_of scope.now.declared) streamlet)) name.now.name }
{
    match owner_of(scope, streamlet) {
        Some(owner) => ports.contains(&(owner, OrderedName::new(&name.name))),
        None => false,
    }
}

/// The declaration that writes the ports of a streamlet: its own, or the interface that it names.
pub fn owner_of(scope: &Scope<'_>, streamlet: usize) -> Option<usize>
    requires { streamlet < length (declarations_of scope.now.declared) }
    ensures value { result ≡ owner_of (declarations_of scope.now.declared) streamlet }
    ensures within { IfSome result (λ owner. owner < length (declarations_of scope.now.declared)) }
{
    match scope.get(streamlet).kind {
        AstKind::Streamlet(AstPorts::Own(_)) => Some(streamlet),
        AstKind::Streamlet(AstPorts::Named(path)) => {
            scope.named_as(streamlet, path, Asked::Interface)
        }
        _ => None,
    }
}
