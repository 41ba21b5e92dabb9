use til_parser::{AstKind, AstName};

/// A declaration, and the number of its namespace's path among the paths of all namespaces.
#[derive(Drop)]
pub struct Declared<'a> {
    pub space: &'a [AstName],
    pub home: usize,
    pub name: &'a AstName,
    pub kind: &'a AstKind,
}
