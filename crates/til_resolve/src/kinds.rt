//! Kinds of declarations.

ghost use Rattle.std.specs.Prelude.{◌≡◌};
ghost use Rattle.til_resolve.specs.Declarations.{is_type_kind, is_interface_kind, is_streamlet_kind, own_ports};
ghost use Rattle.til_resolve.specs.Kinds.{asks};
ghost use Rattle.til_resolve.specs.Scope.{placed_of};

use crate::declared::Declared;
use til_parser::{AstKind, AstPort, AstPorts};

/// The kind of declaration that the place of a path needs.
#[derive(Clone, Copy)]
pub enum Asked {
    /// A type declaration.
    Type,
    /// An interface.
    Interface,
    /// A streamlet.
    Streamlet,
}

/// Whether a declaration is of the needed kind.
pub fn is_asked(asked: Asked, one: &Declared<'_>) -> bool
    ensures { result ≡ asks asked (placed_of one.now).declaration }
{
    match asked {
        Asked::Type => is_type(one.kind),
        Asked::Interface => is_interface(one.kind),
        Asked::Streamlet => is_streamlet(one.kind),
    }
}

fn is_type(kind: &AstKind) -> bool
    ensures { result ≡ is_type_kind kind.now }
{
    match kind {
        AstKind::Alias(_) => true,
        _ => false,
    }
}

fn is_interface(kind: &AstKind) -> bool
    ensures { result ≡ is_interface_kind kind.now }
{
    match kind {
        AstKind::Interface(_) => true,
        _ => false,
    }
}

fn is_streamlet(kind: &AstKind) -> bool
    ensures { result ≡ is_streamlet_kind kind.now }
{
    match kind {
        AstKind::Streamlet(_) => true,
        _ => false,
    }
}

/// The ports that a declaration writes out.
pub fn own_ports(kind: &AstKind) -> &[AstPort]
    ensures { result.now ≡ own_ports kind.now }
{
    match kind {
        AstKind::Interface(ports) => ports.as_slice(),
        AstKind::Streamlet(AstPorts::Own(ports)) => ports.as_slice(),
        _ => &[],
    }
}
