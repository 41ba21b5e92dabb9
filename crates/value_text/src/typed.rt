//! Values of a type, token after token.

ghost use Rattle.std.specs.Prelude.{◌≡◌, [], IfSome};
ghost use Rattle.logical_types.specs.Tree.{bits, group, plain, plain_of_stream, plain_parts, union};
ghost use Rattle.tydi_reading.specs.Reading.{Reads};
ghost use Rattle.value_text.specs.Typed as spec;

use crate::fault::Why;
use crate::tokens::Tokens;
use logical_types::{LType, Part, StreamType};
use logical_value::Value;
use std::alloc::Global;
use tydi_base::{Boxed, List};
use tydi_reading::{Fault, Source, repeated};

impl<'a> Tokens<'a> {
    /// A value of an element of this type.
    #[cycle(value)]
    pub(crate) fn take_element(&mut self, alloc: Global, ltype: &LType) -> Result<Value, Fault<Why>>
        ensures { Reads (spec.element (plain ltype.now) self.old) result self.new }
    {
        match ltype {
            LType::Null => {
                self.take_null()?;
                Ok(Value::Null)
            }
            LType::Bits(width) => Ok(Value::Word(self.take_word(alloc, *width)?)),
            LType::Group(parts) => self.take_group(alloc, parts.as_slice()),
            LType::Union(parts) => self.take_union(alloc, parts.as_slice()),
            LType::Stream(stream) => self.take_stream(alloc, stream.get()),
        }
    }

    /// A value of a Group with these fields.
    #[cycle(value)]
    fn take_group(&mut self, alloc: Global, parts: &[Part]) -> Result<Value, Fault<Why>>
        ensures { Reads (spec.element (group (plain_parts parts.now)) self.old) result self.new }
    {
        self.take_byte(b'{')?;
        let fields = self.take_fields(alloc, parts)?;
        self.take_comma();
        self.take_group_end(parts)?;
        Ok(Value::Group(fields))
    }

    /// Values of these fields, each after its name.
    #[cycle(value)]
    fn take_fields(&mut self, alloc: Global, parts: &[Part]) -> Result<List<Value>, Fault<Why>>
        ensures { Reads (spec.fields (plain_parts parts.now) (plain_parts parts.now) [] self.old) result self.new }
    {
        let mut fields = List::with_capacity(alloc, parts.len())?;
        'parts: for part in parts {
            fields = self.take_field(alloc, parts, part, fields)?;
        }
        Ok(fields)
    }

    /// The value of one field more, behind those that are found.
    #[cycle(value)]
    #[tactic(auto, unfolding(crate::specs::Typed::next_field))]
    fn take_field(
        &mut self,
        alloc: Global,
        all: &[Part],
        part: &Part,
        found: List<Value>,
    ) -> Result<List<Value>, Fault<Why>>
        ensures { Reads (spec.next_field (plain_parts all.now) part.now.name (spec.element (plain part.now.ltype)) found self.old) result self.new }
    {
        self.take_comma();
        self.take_key(all, part.name.as_bytes())?;
        let value = self.take_element(alloc, &part.ltype)?;
        let mut fields = found;
        fields.push(value)?;
        Ok(fields)
    }

    /// A value of a Union of these variants.
    #[cycle(value)]
    fn take_union(&mut self, alloc: Global, parts: &[Part]) -> Result<Value, Fault<Why>>
        ensures { Reads (spec.element (union (plain_parts parts.now)) self.old) result self.new }
    {
        match self.call_name() {
            Some(name) => self.take_variant(alloc, parts, name),
            None => Err(Fault::Unfit(Why::WrongShape)),
        }
    }

    /// The name of one of these variants, and its value.
    #[cycle(value)]
    fn take_variant(
        &mut self,
        alloc: Global,
        parts: &[Part],
        name: &[u8],
    ) -> Result<Value, Fault<Why>>
        ensures { Reads (spec.variant (plain_parts parts.now) 0 name.now self.old) result self.new }
    {
        let mut tag: u32 = 0;
        'parts: for part in parts {
            if part.name.as_bytes() == name {
                self.skip();
                return self.take_selected(alloc, &part.ltype, tag);
            }
            let Some(next) = tag.checked_add(1) else {
                return Err(Fault::Memory);
            };
            tag = next;
        }
        Err(Fault::Unfit(Why::UnknownField))
    }

    /// The value of the variant of this number, after its name.
    #[cycle(value)]
    #[tactic(auto, unfolding(crate::specs::Typed::variant_value))]
    fn take_selected(&mut self, alloc: Global, ltype: &LType, tag: u32) -> Result<Value, Fault<Why>>
        ensures { Reads (spec.variant_value tag (spec.element (plain ltype.now)) self.old) result self.new }
    {
        let part = self.take_element(alloc, ltype)?;
        self.take_byte(b')')?;
        Ok(Value::Union {
            tag,
            part: Boxed::new(alloc, part)?,
        })
    }

    /// The value that stands for a Stream in an element.
    #[cycle(value)]
    fn take_stream(&mut self, alloc: Global, stream: &StreamType) -> Result<Value, Fault<Why>>
        ensures { Reads (spec.element (plain_of_stream stream.now) self.old) result self.new }
    {
        if stream.sync.is_apart() {
            self.take_apart()?;
            Ok(Value::Apart)
        } else {
            self.take_nest(alloc, &stream.element, stream.dims)
        }
    }

    /// A nest of this depth, with values of this type as its leaves.
    #[cycle(value)]
    pub(crate) fn take_nest(
        &mut self,
        alloc: Global,
        element: &LType,
        depth: u64,
    ) -> Result<Value, Fault<Why>>
        ensures { Reads (spec.nest (spec.element (plain element.now)) depth self.old) result self.new }
    {
        if depth == 0 {
            return self.take_element(alloc, element);
        }
        match words_width(element, depth) {
            Some(width) => self.take_words(alloc, width),
            None => self.take_list(alloc, element, depth - 1),
        }
    }

    /// A list of nests of this depth.
    #[cycle(value)]
    #[tactic(auto, unfolding(crate::specs::Typed::list_value))]
    fn take_list(&mut self, alloc: Global, element: &LType, depth: u64) -> Result<Value, Fault<Why>>
        ensures { Reads (spec.list_value (spec.nest (spec.element (plain element.now)) depth) self.old) result self.new }
    {
        self.take_byte(b'[')?;
        let members = self.take_members(alloc, element, depth)?;
        Ok(Value::List(fitted(members)))
    }

    /// The members of a list, which are nests of this depth, and its end.
    #[cycle(value)]
    #[tactic(auto, unfolding(crate::specs::Typed::listed_values))]
    fn take_members(
        &mut self,
        alloc: Global,
        element: &LType,
        depth: u64,
    ) -> Result<List<Value>, Fault<Why>>
        ensures { Reads (spec.listed_values (spec.nest (spec.element (plain element.now)) depth) self.old) result self.new }
    {
        let members = repeated(
            self,
            room_for_one(alloc),
            |rest| rest.sees(b']'),
            |rest| -> Result<Value, Fault<Why>>
                ensures { Reads (spec.next_value (spec.nest (spec.element (plain element.entry.now)) depth) rest.old) result rest.new }
            { rest.take_next(alloc, element, depth) },
        )?;
        self.take_byte(b']')?;
        Ok(members)
    }

    /// A nest of this depth, after a comma where one stands.
    #[cycle(value)]
    #[tactic(auto, unfolding(crate::specs::Typed::next_value))]
    fn take_next(&mut self, alloc: Global, element: &LType, depth: u64) -> Result<Value, Fault<Why>>
        ensures { Reads (spec.next_value (spec.nest (spec.element (plain element.now)) depth) self.old) result self.new }
    {
        self.take_comma();
        self.take_nest(alloc, element, depth)
    }
}

/// The width of the words where nests of this depth are lists of words. None where they are not.
fn words_width(element: &LType, depth: u64) -> Option<u64>
    ensures { IfSome result (λ width. (plain element.now ≡ bits width) × (depth ≡ 1)) }
{
    match element {
        LType::Null => None,
        LType::Bits(width) => { if depth == 1 { Some(*width) } else { None } }
        LType::Group(_) => None,
        LType::Union(_) => None,
        LType::Stream(_) => None,
    }
}

/// The empty list, with room for one member where there is memory: a list of one then takes memory once.
// It gives no `Result`, which would take room on the stack in each level of a nest.
#[inline(never)]
pub(crate) fn room_for_one(alloc: Global) -> List<Value>
    ensures { result ≡ [] }
{
    match List::with_capacity(alloc, 1) {
        Ok(list) => list,
        Err(_) => List::new(alloc),
    }
}

/// The same list, without the room that it does not need.
#[inline(never)]
pub(crate) fn fitted(list: List<Value>) -> List<Value>
    ensures { result ≡ list }
{
    let mut elements = list.into_vec();
    elements.shrink_to_fit();
    List::from_vec(elements)
}
