//! The value of a word.

ghost use Rattle.std.specs.Prelude.{◌≡◌, ◌≤◌, ℕ, zero, length, take, IfOk, MatchResult, OnOk};
ghost use Rattle.tydi_base.specs.Bits.{number_of_bits};
ghost use Rattle.logical_types.specs.Faults.{IsPlain};
ghost use Rattle.logical_types.specs.Size.{number_of_nodes};
ghost use Rattle.logical_types.specs.Tree.{bits, plain, plain_parts, union};
ghost use Rattle.logical_types.specs.Width.{width_of};
ghost use Rattle.logical_value.specs.Agreement.{IsFaultOf, IsUnpacked};
ghost use Rattle.logical_value.specs.Tree as values;
ghost use Rattle.logical_value.specs.Unpacking.{HasRead, Reads, ReadsParts, ReadsUnder, ReadsVariant, left_of, names_of};

use crate::fault::UnpackFault;
use crate::place::end_of;
use crate::value::Value;
use logical_types::{LType, Part, saturated_width, union_width};
use std::alloc::Global;
use tydi_base::{Bits, Boxed, List, Memory, Name, Path, TryClone, index_width};

/// The value of an element of this type that this word stands for, with what stands for its Streams apart. BadTag comes exactly where
/// the word stands for no value, Memory where there is none for the value. The layout is the Tydi specification's (logical types); that
/// of a Union is this project's own.
pub fn unpack(alloc: Global, ltype: &LType, word: &Bits) -> Result<Value, UnpackFault>
    requires plain { IsPlain (plain ltype.now) }
    requires few { number_of_nodes (plain ltype.now) ≤ 65536 }
    requires width { length word.now ≡ width_of (plain ltype.now) }
    ensures { MatchResult result (λ value. IsUnpacked (plain ltype.now) word.now (values.plain value)) (IsFaultOf (plain ltype.now) word.now) }
{
    let mut unpacking = Unpacking {
        alloc,
        word,
        offset: 0,
        names: List::new(alloc),
    };
    unpacking.read(ltype)
}

/// A word that is read from its lowest bit on, and the names that lead to the type that is read.
#[derive(Drop)]
pub(crate) struct Unpacking<'w> {
    pub(crate) alloc: Global,
    pub(crate) word: &'w Bits,
    /// The first bit that was not read.
    pub(crate) offset: usize,
    pub(crate) names: List<&'w Name>,
}

impl<'w> Unpacking<'w> {
    /// Reads a value of an element of this type.
    #[cycle(unpacking)]
    fn read(&mut self, ltype: &'w LType) -> Result<Value, UnpackFault>
        ensures { Reads self.old self.new result (plain ltype.now) }
    {
        match ltype {
            LType::Null => Ok(Value::Null),
            LType::Bits(width) => self.read_word(*width),
            LType::Group(parts) => {
                let fields = self.read_fields(parts.as_slice())?;
                Ok(Value::Group(fields))
            }
            LType::Union(parts) => self.read_union(parts.as_slice()),
            LType::Stream(_) => Ok(Value::Apart),
        }
    }

    /// Reads a value for each of these fields, one after another.
    #[cycle(unpacking)]
    fn read_fields(&mut self, parts: &'w [Part]) -> Result<List<Value>, UnpackFault>
        ensures { ReadsParts self.old self.new result (plain_parts parts.now) }
    {
        let mut fields = List::with_capacity(self.alloc, parts.len())?;
        'parts: for part in parts {
            let value = self.read_part(part)?;
            fields.push(value)?;
        }
        Ok(fields)
    }

    /// Reads a value of this part.
    #[cycle(unpacking)]
    fn read_part(&mut self, part: &'w Part) -> Result<Value, UnpackFault>
        ensures { ReadsUnder (names_of self.old) part.now.name self.old self.new result (plain part.now.ltype) }
    {
        self.names.push(&part.name)?;
        let value = self.read(&part.ltype)?;
        self.names.pop();
        Ok(value)
    }

    /// Reads a value of a Union of these variants.
    #[cycle(unpacking)]
    fn read_union(&mut self, parts: &'w [Part]) -> Result<Value, UnpackFault>
        ensures { Reads self.old self.new result (union (plain_parts parts.now)) }
    {
        let width = index_width(parts.len() as u64);
        let room = union_width(parts).saturating_sub(width);
        let tag = self.read_number(width)?;
        let part = self.read_variant(parts, tag, room)?;
        Ok(Value::Union {
            tag,
            part: Boxed::new(self.alloc, part)?,
        })
    }

    /// Reads a value of the variant of this number, and goes past the bits that it leaves of so much room.
    #[cycle(unpacking)]
    fn read_variant(&mut self, parts: &'w [Part], tag: u32, room: u32) -> Result<Value, UnpackFault>
        ensures { ReadsVariant self.old self.new result (plain_parts parts.now) tag room }
    {
        let mut left = tag;
        'parts: for part in parts {
            if left == 0 {
                let value = self.read_part(part)?;
                self.pass(room.saturating_sub(saturated_width(&part.ltype)));
                return Ok(value);
            }
            left -= 1;
        }
        Err(UnpackFault::BadTag(self.path()?))
    }

    /// Reads a value of a Bits.
    fn read_word(&mut self, width: u64) -> Result<Value, UnpackFault>
        ensures { Reads self.old self.new result (bits width) }
    {
        let word = self.read_bits(usize::try_from(width).unwrap_or(usize::MAX))?;
        Ok(Value::Word(word))
    }

    /// Reads a number of so many bits, or the greatest number of 32 bits where it is over that.
    fn read_number(&mut self, width: u32) -> Result<u32, Memory>
        ensures read { OnOk result (width ≤ length (left_of self.old) → HasRead self.old self.new width) }
        ensures number { IfOk result (λ number. width ≤ 32 → width ≤ length (left_of self.old) → number ≡ number_of_bits (take width (left_of self.old))) }
    {
        let bits = self.read_bits(width as usize)?;
        let number = bits.number().unwrap_or(u128::MAX);
        Ok(u32::try_from(number).unwrap_or(u32::MAX))
    }

    /// Reads so many bits. Past the word's end they are zero.
    fn read_bits(&mut self, count: usize) -> Result<Bits, Memory>
        ensures read { OnOk result (count ≤ length (left_of self.old) → HasRead self.old self.new count) }
        ensures bits { IfOk result (λ bits. count ≤ length (left_of self.old) → bits ≡ take count (left_of self.old)) }
    {
        let Some(end) = end_of(self.offset, count, self.word.len()) else {
            return Bits::zeros(self.alloc, count);
        };
        let bits = self.word.slice(self.alloc, self.offset, end)?;
        self.offset = end;
        Ok(bits)
    }

    /// Goes past so many bits.
    fn pass(&mut self, count: u32)
        ensures { count ≤ length (left_of self.old) → HasRead self.old self.new count }
    {
        if let Some(end) = end_of(self.offset, count as usize, self.word.len()) {
            self.offset = end;
        }
    }

    /// The path of the type that is read.
    fn path(&self) -> Result<Path, Memory>
        ensures { IfOk result (λ path. path ≡ names_of self.now) }
    {
        let mut path = Path::new(self.alloc);
        'names: for name in self.names.as_slice() {
            path.push(name.try_clone(self.alloc)?)?;
        }
        Ok(path)
    }
}
