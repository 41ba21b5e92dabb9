//! Values of a type, draw after draw.

ghost use Rattle.std.specs.Prelude.{◌≡◌, ◌<◌, []};
ghost use Rattle.value_text.specs.Leaves.{most_leaves};
ghost use Rattle.logical_types.specs.Tree.{group, no_parts, null, bits, plain, plain_of_stream, plain_parts, union};
ghost use Rattle.logical_value.specs.declared.value.Value.TheVariants as values;
ghost use Rattle.value_gen.specs.Draws.{Makes, pure, times};
ghost use Rattle.value_gen.specs.Leaves.{Fills, TakesLeaf, leaves, leaves_of_all};
ghost use Rattle.value_gen.specs.Made as spec;

use crate::drawing::Drawing;
use crate::fault::GenFault;
use logical_types::{LType, Part, StreamType};
use logical_value::Value;
use std::alloc::Global;
use tydi_base::{Boxed, List};

/// The most leaves of a value.
const MOST_LEAVES: u32 = 1_000_000;

/// Makes values of at most so many leaves.
#[derive(Drop)]
pub(crate) struct Making {
    pub(crate) draws: Drawing,
    /// How many leaves may still be made.
    pub(crate) room: u32,
}

impl Making {
    /// Before the first draw after this seed.
    pub(crate) fn new(alloc: Global, seed: u32) -> Making
        requires { seed < 65536 }
        ensures last { result.draws.last ≡ seed }
        ensures room { result.room ≡ most_leaves }
    {
        Making {
            draws: Drawing::new(alloc, seed),
            room: MOST_LEAVES,
        }
    }

    /// Makes room for a leaf. `TooManyLeaves` comes exactly where there is none.
    fn leaf(&mut self) -> Result<(), GenFault>
        ensures takes { TakesLeaf self.old.room self.new.room result }
        ensures last { self.new.draws.last ≡ self.old.draws.last }
    {
        if self.room == 0 {
            return Err(GenFault::TooManyLeaves);
        }
        self.room -= 1;
        Ok(())
    }

    /// The value of a Null.
    fn null(&mut self) -> Result<Value, GenFault>
        ensures made { Makes (spec.element null self.old.draws.last) result self.new.draws.last }
        ensures fills { Fills leaves (spec.element null self.old.draws.last) self.old.room self.new.room result }
    {
        self.leaf()?;
        Ok(Value::Null)
    }

    /// A value of a Bits of this width.
    fn word(&mut self, width: u64) -> Result<Value, GenFault>
        ensures made { Makes (spec.element (bits width) self.old.draws.last) result self.new.draws.last }
        ensures fills { Fills leaves (spec.element (bits width) self.old.draws.last) self.old.room self.new.room result }
    {
        self.leaf()?;
        Ok(Value::Word(self.draws.word(width)?))
    }

    /// What stands for a Stream whose value is given elsewhere.
    fn apart(&mut self) -> Result<Value, GenFault>
        ensures made { Makes (pure values.Apart self.old.draws.last) result self.new.draws.last }
        ensures fills { Fills leaves (pure values.Apart self.old.draws.last) self.old.room self.new.room result }
    {
        self.leaf()?;
        Ok(Value::Apart)
    }

    /// A value of a Group without fields, which is a leaf.
    fn empty_group(&mut self) -> Result<Value, GenFault>
        ensures made { Makes (spec.element (group no_parts) self.old.draws.last) result self.new.draws.last }
        ensures fills { Fills leaves (spec.element (group no_parts) self.old.draws.last) self.old.room self.new.room result }
    {
        self.leaf()?;
        Ok(Value::Group(List::new(self.draws.alloc)))
    }

    /// A value of an element of this type.
    #[cycle(make)]
    fn element(&mut self, ltype: &LType) -> Result<Value, GenFault>
        ensures made { Makes (spec.element (plain ltype.now) self.old.draws.last) result self.new.draws.last }
        ensures fills { Fills leaves (spec.element (plain ltype.now) self.old.draws.last) self.old.room self.new.room result }
    {
        match ltype {
            LType::Null => self.null(),
            LType::Bits(width) => self.word(*width),
            LType::Group(parts) => self.group(parts.as_slice()),
            LType::Union(parts) => self.union(parts.as_slice()),
            LType::Stream(stream) => self.stream(stream.get()),
        }
    }

    /// A value of a Group with these fields.
    #[cycle(make)]
    fn group(&mut self, parts: &[Part]) -> Result<Value, GenFault>
        ensures made { Makes (spec.element (group (plain_parts parts.now)) self.old.draws.last) result self.new.draws.last }
        ensures fills { Fills leaves (spec.element (group (plain_parts parts.now)) self.old.draws.last) self.old.room self.new.room result }
    {
        if parts.is_empty() {
            return self.empty_group();
        }
        let fields = self.fields(parts)?;
        Ok(Value::Group(fields))
    }

    /// Values of these fields.
    #[cycle(make)]
    fn fields(&mut self, parts: &[Part]) -> Result<List<Value>, GenFault>
        ensures made { Makes (spec.fields (plain_parts parts.now) [] self.old.draws.last) result self.new.draws.last }
        ensures fills { Fills leaves_of_all (spec.fields (plain_parts parts.now) [] self.old.draws.last) self.old.room self.new.room result }
    {
        let mut fields = List::with_capacity(self.draws.alloc, parts.len())?;
        'parts: for part in parts {
            let value = self.element(&part.ltype)?;
            fields.push(value)?;
        }
        Ok(fields)
    }

    /// A value of a Union of these variants, of which there is one.
    #[cycle(make)]
    fn union(&mut self, parts: &[Part]) -> Result<Value, GenFault>
        ensures made { Makes (spec.element (union (plain_parts parts.now)) self.old.draws.last) result self.new.draws.last }
        ensures fills { Fills leaves (spec.element (union (plain_parts parts.now)) self.old.draws.last) self.old.room self.new.room result }
    {
        let many = parts.len() as u64;
        if many == 0 {
            return Err(GenFault::Memory);
        }
        let number = u64::from(self.draws.draw()) / 256 % many;
        self.variant(parts, number as u32)
    }

    /// A value of a Union that selects the variant of this number.
    #[cycle(make)]
    fn variant(&mut self, parts: &[Part], number: u32) -> Result<Value, GenFault>
        ensures made { Makes (spec.selected number (plain_parts parts.now) self.old.draws.last) result self.new.draws.last }
        ensures fills { Fills leaves (spec.selected number (plain_parts parts.now) self.old.draws.last) self.old.room self.new.room result }
    {
        match parts.get(number as usize) {
            Some(part) => {
                let value = self.element(&part.ltype)?;
                Ok(Value::Union {
                    tag: number,
                    part: Boxed::new(self.draws.alloc, value)?,
                })
            }
            None => Err(GenFault::Memory),
        }
    }

    /// What stands for a Stream in an element.
    #[cycle(make)]
    fn stream(&mut self, stream: &StreamType) -> Result<Value, GenFault>
        ensures made { Makes (spec.element (plain_of_stream stream.now) self.old.draws.last) result self.new.draws.last }
        ensures fills { Fills leaves (spec.element (plain_of_stream stream.now) self.old.draws.last) self.old.room self.new.room result }
    {
        if stream.sync.is_apart() {
            self.apart()
        } else {
            self.nest(&stream.element, stream.dims)
        }
    }

    /// A nest of this depth, with values of this type as its leaves.
    #[cycle(make)]
    fn nest(&mut self, element: &LType, depth: u64) -> Result<Value, GenFault>
        ensures made { Makes (spec.nest (spec.element (plain element.now)) depth self.old.draws.last) result self.new.draws.last }
        ensures fills { Fills leaves (spec.nest (spec.element (plain element.now)) depth self.old.draws.last) self.old.room self.new.room result }
    {
        if depth == 0 {
            return self.element(element);
        }
        let count = self.draws.draw() / 4096 % 4;
        let members = self.nests(element, depth - 1, count)?;
        Ok(Value::List(members))
    }

    /// So many nests of this depth.
    #[cycle(make)]
    pub(crate) fn nests(
        &mut self,
        element: &LType,
        depth: u64,
        count: u32,
    ) -> Result<List<Value>, GenFault>
        ensures made { Makes (times count (spec.nest (spec.element (plain element.now)) depth) [] self.old.draws.last) result self.new.draws.last }
        ensures fills { Fills leaves_of_all (times count (spec.nest (spec.element (plain element.now)) depth) [] self.old.draws.last)
            self.old.room self.new.room result }
    {
        let mut found = List::with_capacity(self.draws.alloc, count as usize)?;
        let mut left = count;
        'nests: while left > 0 {
            let member = self.nest(element, depth)?;
            found.push(member)?;
            left -= 1;
        }
        Ok(found)
    }
}
