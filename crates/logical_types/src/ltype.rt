//! A logical type.

ghost use Rattle.std.specs.Prelude.{◌≡◌};
ghost use Rattle.logical_types.specs.Synchronicity.{is_apart};

use crate::shared::Shared;
use std::alloc::Global;
use tydi_base::{Frac, Level, List, Memory, Name, TryClone};

/// A type (Tydi specification, logical types). Its copies share their parts.
#[cycle(ltype)]
#[derive(Debug, Drop)]
pub enum LType {
    /// No bits.
    Null,
    /// A word of so many bits.
    Bits(u64),
    /// All of its fields, side by side; the first lies in the lowest bits.
    Group(Shared<List<Part>>),
    /// One of its variants, behind a tag that says which.
    Union(Shared<List<Part>>),
    /// A stream of its own. It takes no bits of the element around it.
    Stream(Shared<StreamType>),
}

/// A field of a Group or a variant of a Union (Tydi specification, logical types).
#[cycle(ltype)]
#[derive(Debug, Drop)]
pub struct Part {
    pub name: Name,
    pub ltype: LType,
}

/// A Stream with all its arguments (Tydi specification, logical types).
#[cycle(ltype)]
#[derive(Debug, Drop)]
pub struct StreamType {
    /// The type of its elements.
    pub element: LType,
    /// How many elements it carries for each one of the Stream around it.
    pub throughput: Frac,
    /// How deep its elements are nested in sequences of its own.
    pub dims: u64,
    pub sync: Sync,
    /// The complexity level of its physical stream.
    pub level: Level,
    /// Whether it flows against the Stream around it.
    pub reverse: bool,
    /// The type of the user signal, which each of its transfers carries beside the elements.
    pub user: LType,
    /// Whether it is a physical stream even where it carries no bits.
    pub keep: bool,
}

/// How a Stream's sequences are tied to those of the Stream around it (Tydi specification, synchronicity).
#[derive(Clone, Copy, Debug, PartialEq, Eq)]
pub enum Sync {
    /// Its sequences are tied to those around it, and it takes over their dimensions.
    Sync,
    /// Its sequences are tied to those around it, and it takes over no dimensions.
    Flatten,
    /// Its sequences are not tied to those around it, and it takes over their dimensions.
    Desync,
    /// Its sequences are not tied to those around it, and it takes over no dimensions.
    FlatDesync,
}

impl Sync {
    /// Whether the sequences of a Stream are not tied to those around it: those of a Desync or a FlatDesync Stream are not (Tydi
    /// specification, synchronicity).
    pub fn is_apart(self) -> bool
        ensures { result ≡ is_apart self }
    {
        match self {
            Sync::Sync | Sync::Flatten => false,
            Sync::Desync | Sync::FlatDesync => true,
        }
    }
}

impl TryClone for LType {
    fn try_clone(&self, alloc: Global) -> Result<LType, Memory> {
        match self {
            LType::Null => Ok(LType::Null),
            LType::Bits(width) => Ok(LType::Bits(*width)),
            LType::Group(parts) => Ok(LType::Group(parts.try_clone(alloc)?)),
            LType::Union(parts) => Ok(LType::Union(parts.try_clone(alloc)?)),
            LType::Stream(stream) => Ok(LType::Stream(stream.try_clone(alloc)?)),
        }
    }
}
