//! The tree that the text of a project spells, with the places of its names.

use crate::ltype::AstType;
use tydi_base::{Boxed, List, Name, Place, Text};

/// A name, and the place of its first byte.
#[derive(Debug, Drop)]
pub struct AstName {
    pub name: Name,
    pub place: Place,
}

/// A path: the names between `::`, at least one.
#[derive(Debug, Drop)]
pub struct AstPath {
    pub names: List<AstName>,
}

/// A project: its namespaces in text order, at least one.
#[derive(Debug, Drop)]
pub struct Ast {
    pub namespaces: List<AstNamespace>,
}

/// A namespace, with the text of its documentation between the two `#`.
#[derive(Debug, Drop)]
pub struct AstNamespace {
    pub doc: Option<Text>,
    pub path: AstPath,
    pub decls: List<AstDecl>,
}

/// A declaration, with the text of its documentation between the two `#`.
#[derive(Debug, Drop)]
pub struct AstDecl {
    pub doc: Option<Text>,
    pub name: AstName,
    pub kind: AstKind,
}

/// The kind of a declaration, with its content.
#[derive(Debug, Drop)]
pub enum AstKind {
    /// `type name = ltype;`
    Alias(AstType),
    /// `interface name = (ports);`
    Interface(List<AstPort>),
    /// `streamlet name = ports;`
    Streamlet(AstPorts),
    /// `impl name of target = body;`
    Impl {
        target: AstPath,
        body: AstBody,
    },
    /// `test name of target drive port = "value" plan "plan";`
    Test {
        target: AstPath,
        port: AstName,
        value: Text,
        plan: Text,
    },
}

/// The ports of a streamlet: its own, or those of the interface that the path names.
#[derive(Debug, Drop)]
pub enum AstPorts {
    /// The ports of the streamlet itself.
    Own(List<AstPort>),
    /// The path of an interface.
    Named(AstPath),
}

/// A port, with the text of its documentation between the two `#`.
#[derive(Debug, Drop)]
pub struct AstPort {
    pub doc: Option<Text>,
    pub name: AstName,
    pub inward: bool,
    pub ltype: AstType,
}

/// The body of an implementation.
#[derive(Debug, Drop)]
pub enum AstBody {
    /// The text between the quotation marks, which says where the implementation stands.
    Linked(Text),
    /// The statements of a structural body.
    Structural(List<AstStmt>),
}

/// A statement of a structural body. Most statements of a text may be instances, so a link keeps its second end in a box.
#[derive(Debug, Drop)]
pub enum AstStmt {
    /// `name = streamlet;`
    Instance {
        name: AstName,
        streamlet: AstPath,
    },
    /// `first -- second;`
    Link {
        first: AstEnd,
        second: Boxed<AstEnd>,
    },
}

/// An end of a link: an own port, or an instance and, after a `.`, its port.
#[derive(Debug, Drop)]
pub struct AstEnd {
    pub first: AstName,
    pub second: Option<Boxed<AstName>>,
}
