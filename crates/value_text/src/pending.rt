use crate::items::Items;
use logical_types::{LType, Part, Shared};
use logical_value::Value;
use tydi_base::{Bits, List};

/// A piece ends with the first word, block of words, name or mark that brings it to this many bytes.
pub(crate) const PIECE: usize = 65_536;

/// A part of a text that is still to be written.
#[derive(Drop)]
pub(crate) enum Pending<'v> {
    /// A mark.
    Mark(&'static [u8]),
    /// A text that is there.
    Line(List<u8>),
    Nests(NestsLeft<'v>),
    Fields(FieldsLeft<'v>),
    /// User words, each after a space.
    Words(Items<'v, Bits>),
}

/// Nests of one depth, with values of one type as their leaves.
#[derive(Drop)]
pub(crate) struct NestsLeft<'v> {
    pub(crate) element: LType,
    pub(crate) depth: u64,
    /// The text before the first.
    pub(crate) before: &'static [u8],
    /// The text between each two.
    pub(crate) between: &'static [u8],
    pub(crate) values: Items<'v, Value>,
}

/// Values of the fields of a Group, from the field at this place on.
#[derive(Drop)]
pub(crate) struct FieldsLeft<'v> {
    pub(crate) parts: Shared<List<Part>>,
    pub(crate) at: usize,
    /// The text before the first.
    pub(crate) before: &'static [u8],
    pub(crate) values: Items<'v, Value>,
}
