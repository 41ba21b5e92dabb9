//! The tree of a type.

use crate::tree::{AstName, AstPath};
use tydi_base::{Boxed, Frac, Level, List};

/// A type, as it is written.
#[cycle(ltype)]
#[derive(Debug, Drop)]
pub enum AstType {
    /// `Null`
    Null,
    /// Its width in bits.
    Bits(u64),
    /// Its fields, in the order of the text.
    Group(List<AstPart>),
    /// Its variants, in the order of the text.
    Union(List<AstPart>),
    /// Its arguments.
    Stream(Boxed<AstStream>),
    /// The path of a type that is declared.
    Path(AstPath),
}

/// A field of a Group or a variant of a Union.
#[cycle(ltype)]
#[derive(Debug, Drop)]
pub struct AstPart {
    pub name: AstName,
    pub ltype: AstType,
}

/// The arguments of a Stream, the defaults filled in.
#[cycle(ltype)]
#[derive(Debug, Drop)]
pub struct AstStream {
    pub element: AstType,
    pub throughput: Frac,
    pub dims: u64,
    pub sync: AstSync,
    pub level: Level,
    pub reverse: bool,
    pub user: AstType,
    pub keep: bool,
}

/// How a Stream's sequences are tied to those of the Stream around it (Tydi specification, synchronicity).
#[derive(Clone, Copy, Debug, PartialEq, Eq)]
pub enum AstSync {
    /// Its sequences are tied to those around it, and it takes over their dimensions.
    Sync,
    /// Its sequences are tied to those around it, and it takes over no dimensions.
    Flatten,
    /// Its sequences are not tied to those around it, and it takes over their dimensions.
    Desync,
    /// Its sequences are not tied to those around it, and it takes over no dimensions.
    FlatDesync,
}
