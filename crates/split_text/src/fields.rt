//! The fields of an element: which bits of it are which part.

ghost use Rattle.std.specs.Prelude.{◌≡◌, ◌++◌, ◌∷◌, [], IfOk, IsTrue};
ghost use Rattle.tydi_base.specs.Name.{is_name};
ghost use Rattle.logical_types.specs.Faults.{IsPlain};
ghost use Rattle.logical_types.specs.Tree.{plain, plain_parts, union};
ghost use Rattle.logical_types.specs.Width.{total_width, width_of};
ghost use Rattle.split_text.specs.Fields as spec;
ghost use Rattle.split_text.specs.Fields.{FieldsFillTheElement};
ghost use Rattle.split_text.specs.AddedFields.{Adds};

use logical_types::{LType, Part, union_width};
use std::alloc::Global;
use tydi_base::{List, Memory, Name, Path, TryClone, index_width};

/// A field of an element (Tydi specification, logical types).
#[derive(Debug, Drop)]
pub struct Field {
    /// The names of the fields and variants that lead to it; empty where the element is this field alone.
    pub path: Path,
    /// Its lowest bit in the element, from 0.
    pub offset: u32,
    /// Its width in bits.
    pub width: u32,
}

/// The fields of an element that have bits, from the lowest bit on. Those of a Union at a path `u` are `u.tag` and `u.union`.
/// `Memory` comes where there is none for them.
pub fn fields_of(alloc: Global, ltype: &LType) -> Result<List<Field>, Memory>
    requires { IsPlain (plain ltype.now) }
    ensures { IfOk result (λ fields. fields ≡ spec.fields_of (plain ltype.now)) }
{
    let mut found = Fields {
        alloc,
        names: List::new(alloc),
        fields: List::new(alloc),
    };
    found.add_type(ltype, 0)?;
    Ok(found.fields)
}

/// The law of fields: with those that have no bits, they fill the element side by side.
pub fn fields_fill_the_element()
    ensures { FieldsFillTheElement }
{}

/// The fields found so far, and the names that lead to the type that is looked at.
#[derive(Drop)]
struct Fields {
    alloc: Global,
    names: List<Name>,
    fields: List<Field>,
}

impl Fields {
    /// Adds the fields of a type that begins at this bit, and answers the bit behind it.
    #[cycle(fields)]
    fn add_type(&mut self, ltype: &LType, offset: u32) -> Result<u32, Memory>
        ensures { Adds self.old self.new result offset (width_of (plain ltype.now)) (spec.fields_at self.old.names offset (plain ltype.now)) }
    {
        match ltype {
            LType::Null => Ok(offset),
            LType::Bits(bits) => self.add(offset, u32::try_from(*bits).unwrap_or(u32::MAX)),
            LType::Group(parts) => self.add_parts(parts.as_slice(), offset),
            LType::Union(parts) => self.add_union(parts.as_slice(), offset),
            LType::Stream(_) => Ok(offset),
        }
    }

    /// Adds the fields of parts that begin at this bit, side by side.
    #[cycle(fields)]
    fn add_parts(&mut self, parts: &[Part], offset: u32) -> Result<u32, Memory>
        ensures { Adds self.old self.new result offset (total_width (plain_parts parts.now)) (spec.fields_of_parts self.old.names offset (plain_parts parts.now)) }
    {
        let mut end = offset;
        'parts: for part in parts {
            end = self.add_part(part, end)?;
        }
        Ok(end)
    }

    /// Adds the fields of a part that begins at this bit.
    #[cycle(fields)]
    fn add_part(&mut self, part: &Part, offset: u32) -> Result<u32, Memory>
        ensures { Adds self.old self.new result offset (width_of (plain part.now.ltype)) (spec.fields_at (self.old.names ++ part.now.name ∷ []) offset (plain part.now.ltype)) }
    {
        self.names.push(part.name.try_clone(self.alloc)?)?;
        let end = self.add_type(&part.ltype, offset)?;
        self.names.pop();
        Ok(end)
    }

    /// Adds the tag of a Union of these variants that begins at this bit, and the room for its widest variant.
    fn add_union(&mut self, parts: &[Part], offset: u32) -> Result<u32, Memory>
        ensures { Adds self.old self.new result offset (width_of (union (plain_parts parts.now))) (spec.fields_at self.old.names offset (union (plain_parts parts.now))) }
    {
        let tag = index_width(parts.len() as u64);
        let room = union_width(parts).saturating_sub(tag);
        let shared = self.add_named(b"tag", offset, tag)?;
        let end = self.add_named(b"union", shared, room)?;
        Ok(end)
    }

    /// Adds a field of this name.
    fn add_named(&mut self, name: &[u8], offset: u32, width: u32) -> Result<u32, Memory>
        requires { IsTrue (is_name name.now) }
        ensures { Adds self.old self.new result offset width (spec.field (self.old.names ++ name.now ∷ []) offset width ∷ []) }
    {
        let Some(name) = Name::read(self.alloc, name)? else {
            unreachable!()
        };
        self.names.push(name)?;
        let end = self.add(offset, width)?;
        self.names.pop();
        Ok(end)
    }

    /// Adds a field under the names so far, where it has bits.
    fn add(&mut self, offset: u32, width: u32) -> Result<u32, Memory>
        ensures { Adds self.old self.new result offset width (spec.field self.old.names offset width ∷ []) }
    {
        if width > 0 {
            let path = Path::from_names(self.names.try_clone(self.alloc)?);
            self.fields.push(Field {
                path,
                offset,
                width,
            })?;
        }
        Ok(offset.saturating_add(width))
    }
}
