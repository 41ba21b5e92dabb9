//! The word of a value.

ghost use Rattle.std.specs.Prelude.{◌≡◌, ◌<◌, ◌^◌, ℕ, IfOk, IfSome, OnOk};
ghost use Rattle.tydi_base.specs.Bits.{bits_of, zero_bits};
ghost use Rattle.logical_types.specs.Faults.{IsPlain};
ghost use Rattle.logical_types.specs.Tree.{bits, group, plain, plain_parts, union};
ghost use Rattle.logical_value.specs.Element as element;
ghost use Rattle.logical_value.specs.Packed as spec;
ghost use Rattle.logical_value.specs.Packing.{Puts};
ghost use Rattle.logical_value.specs.Tree as values;

use crate::place::end_of;
use crate::value::Value;
use logical_types::{LType, Part, saturated_width, union_width, width};
use std::alloc::Global;
use tydi_base::{Bits, Memory, TryClone, index_width};

/// The word of a value of an element of this type, as wide as the element. The parts for its Streams take no bits, and ignored bits
/// are zero. `Memory` comes where there is none for the word. The layout is the Tydi specification's (logical types); that of a
/// Union is this project's own.
pub fn pack(alloc: Global, ltype: &LType, value: &Value) -> Result<Bits, Memory>
    requires plain { IsPlain (plain ltype.now) }
    requires element { element.IsElement (plain ltype.now) (values.plain value.now) }
    ensures { IfOk result (λ bits. bits ≡ spec.pack_of (plain ltype.now) (values.plain value.now)) }
{
    match whole_word(ltype, value) {
        Some(word) => word.try_clone(alloc),
        None => packed(alloc, ltype, value),
    }
}

/// The word of a value of a Bits, which is the whole element. None where the element is no Bits.
fn whole_word<'a>(ltype: &LType, value: &'a Value) -> Option<&'a Bits>
    ensures { IfSome result (λ word. word.now ≡ spec.pack_of (plain ltype.now) (values.plain value.now)) }
{
    match ltype {
        LType::Null => None,
        LType::Bits(_) => value.word(),
        LType::Group(_) => None,
        LType::Union(_) => None,
        LType::Stream(_) => None,
    }
}

/// The word of a value of an element of this type, written part after part.
fn packed(alloc: Global, ltype: &LType, value: &Value) -> Result<Bits, Memory>
    requires plain { IsPlain (plain ltype.now) }
    requires element { element.IsElement (plain ltype.now) (values.plain value.now) }
    ensures { IfOk result (λ bits. bits ≡ spec.pack_of (plain ltype.now) (values.plain value.now)) }
{
    let mut packing = Packing {
        alloc,
        bits: Bits::zeros(alloc, width(ltype) as usize)?,
        offset: 0,
    };
    packing.put(ltype, value)?;
    Ok(packing.bits)
}

/// A word that is written from its lowest bit on; above what was written it is zero.
#[derive(Drop)]
pub(crate) struct Packing {
    pub(crate) alloc: Global,
    pub(crate) bits: Bits,
    /// The first bit that was not written.
    pub(crate) offset: usize,
}

impl Packing {
    /// Writes a value of an element of this type.
    #[cycle(packing)]
    fn put(&mut self, ltype: &LType, value: &Value) -> Result<(), Memory>
        ensures { element.IsElement (plain ltype.now) (values.plain value.now) → OnOk result (Puts self.old self.new (spec.pack_of (plain ltype.now) (values.plain value.now))) }
    {
        match ltype {
            LType::Null => Ok(()),
            LType::Bits(_) => {
                self.put_word(value);
                Ok(())
            }
            LType::Group(parts) => self.put_group(parts.as_slice(), value),
            LType::Union(parts) => self.put_union(parts.as_slice(), value),
            LType::Stream(_) => Ok(()),
        }
    }

    /// Writes a value of a Group with these fields.
    #[cycle(packing)]
    fn put_group(&mut self, parts: &[Part], value: &Value) -> Result<(), Memory>
        ensures { element.IsElement (group (plain_parts parts.now)) (values.plain value.now)
            → OnOk result (Puts self.old self.new (spec.pack_of (group (plain_parts parts.now)) (values.plain value.now))) }
    {
        match value.fields() {
            Some(fields) => self.put_fields(parts, fields),
            None => Ok(()),
        }
    }

    /// Writes the fields of a Group, one after another.
    #[cycle(packing)]
    fn put_fields(&mut self, parts: &[Part], fields: &[Value]) -> Result<(), Memory>
        ensures { element.AreElements (plain_parts parts.now) (values.plain_values fields.now)
            → OnOk result (Puts self.old self.new (spec.pack_parts (plain_parts parts.now) (values.plain_values fields.now))) }
    {
        let mut left = fields;
        'parts: for part in parts {
            let Some((value, more)) = left.split_first() else {
                return Ok(());
            };
            self.put(&part.ltype, value)?;
            left = more;
        }
        Ok(())
    }

    /// Writes a value of a Union of these variants.
    #[cycle(packing)]
    fn put_union(&mut self, parts: &[Part], value: &Value) -> Result<(), Memory>
        ensures { element.IsElement (union (plain_parts parts.now)) (values.plain value.now)
            → OnOk result (Puts self.old self.new (spec.pack_of (union (plain_parts parts.now)) (values.plain value.now))) }
    {
        match value.variant() {
            Some(one) => self.put_selected(parts, one.tag, one.part),
            None => Ok(()),
        }
    }

    /// Writes the number of a variant, and a value of it.
    #[cycle(packing)]
    fn put_selected(&mut self, parts: &[Part], tag: u32, value: &Value) -> Result<(), Memory>
        ensures { element.IsVariant (plain_parts parts.now) tag (values.plain value.now)
            → OnOk result (Puts self.old self.new (spec.pack_selected (plain_parts parts.now) tag (values.plain value.now))) }
    {
        let width = index_width(parts.len() as u64);
        self.put_number(width, tag)?;
        let room = union_width(parts).saturating_sub(width);
        self.put_variant(parts, tag, value, room)
    }

    /// Writes a value of the variant of this number, and leaves room up to the widest.
    #[cycle(packing)]
    fn put_variant(
        &mut self,
        parts: &[Part],
        tag: u32,
        value: &Value,
        room: u32,
    ) -> Result<(), Memory>
        ensures { element.IsVariant (plain_parts parts.now) tag (values.plain value.now)
            → OnOk result (Puts self.old self.new (spec.pack_variant room (plain_parts parts.now) tag (values.plain value.now))) }
    {
        let mut left = tag;
        'parts: for part in parts {
            if left == 0 {
                self.put(&part.ltype, value)?;
                self.leave(room.saturating_sub(saturated_width(&part.ltype)));
                return Ok(());
            }
            left -= 1;
        }
        Ok(())
    }

    /// Writes a number into so many bits.
    fn put_number(&mut self, width: u32, number: u32) -> Result<(), Memory>
        ensures { number < 2 ^ width → OnOk result (Puts self.old self.new (bits_of width number)) }
    {
        if let Some(word) = Bits::from_number(self.alloc, width as usize, u128::from(number))? {
            self.put_bits(&word);
        }
        Ok(())
    }

    /// Writes a value of a Bits.
    fn put_word(&mut self, value: &Value)
        ensures { (width : ℕ) → element.IsElement (bits width) (values.plain value.now) → Puts self.old self.new (spec.pack_of (bits width) (values.plain value.now)) }
    {
        if let Some(word) = value.word() {
            self.put_bits(word);
        }
    }

    /// Writes these bits.
    fn put_bits(&mut self, word: &Bits)
        ensures { Puts self.old self.new word.now }
    {
        if let Some(end) = end_of(self.offset, word.len(), self.bits.len()) {
            self.bits.put_word(self.offset, word);
            self.offset = end;
        }
    }

    /// Leaves so many bits zero.
    fn leave(&mut self, count: u32)
        ensures { Puts self.old self.new (zero_bits count) }
    {
        if let Some(end) = end_of(self.offset, count as usize, self.bits.len()) {
            self.offset = end;
        }
    }
}
