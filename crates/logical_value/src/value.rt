//! A value.

ghost use Rattle.std.specs.Prelude.{◌≡◌, ℕ, Bool, List, MatchOption};
ghost use Rattle.logical_types.specs.Tree as types;
ghost use Rattle.logical_value.specs.Fits.{fits_element, stands_apart};
ghost use Rattle.logical_value.specs.Tree.{Tree, Trees, group, list, plain, plain_values, union, word};

use tydi_base::{Bits, Boxed, List};

/// A value of a port's type, or of a part of it. Which values a type has is the Tydi specification's (logical types); how they are
/// kept is this project's own.
#[derive(Debug, Drop)]
pub enum Value {
    /// The value of a Null.
    Null,
    /// The word of a Bits.
    Word(Bits),
    /// A value for each field of a Group.
    Group(List<Value>),
    /// A value of one variant of a Union, and the variant's number from 0.
    Union { tag: u32, part: Boxed<Value> },
    /// A sequence.
    List(List<Value>),
    /// The part of a Stream whose value is given elsewhere.
    Apart,
}

/// A value of a port's type: a series for each of its roots. Its plain form is `plain_port` of `specs/Tree.antt`.
#[derive(Debug, Drop)]
pub struct PortValue {
    /// The series of the roots, in the order of the roots of the split; the members of each are nests of the root's effective
    /// dimensionality.
    pub roots: List<List<Value>>,
}

impl Value {
    /// Whether it is the value of a Null.
    pub fn is_null(&self) -> bool
        ensures { result ≡ fits_element types.null (plain self.now) }
    {
        match self {
            Value::Null => true,
            Value::Word(_) => false,
            Value::Group(_) => false,
            Value::Union { .. } => false,
            Value::List(_) => false,
            Value::Apart => false,
        }
    }

    /// Whether it stands for a Stream whose value is given elsewhere.
    pub fn is_apart(&self) -> bool
        ensures { result ≡ stands_apart (plain self.now) }
    {
        match self {
            Value::Null => false,
            Value::Word(_) => false,
            Value::Group(_) => false,
            Value::Union { .. } => false,
            Value::List(_) => false,
            Value::Apart => true,
        }
    }

    /// Its members. None where it is no sequence.
    pub fn members(&self) -> Option<&[Value]>
        ensures { MatchOption result ((parts : Trees) → plain self.now ≡ list parts → ⊥) (λ parts. plain self.now ≡ list (plain_values parts.now)) }
    {
        match self {
            Value::Null => None,
            Value::Word(_) => None,
            Value::Group(_) => None,
            Value::Union { .. } => None,
            Value::List(parts) => Some(parts.as_slice()),
            Value::Apart => None,
        }
    }

    /// Its word, as wide as the Bits. None where it is no value of a Bits.
    pub fn word(&self) -> Option<&Bits>
        ensures { MatchOption result ((bits : List Bool) → plain self.now ≡ word bits → ⊥) (λ bits. plain self.now ≡ word bits.now) }
    {
        match self {
            Value::Null => None,
            Value::Word(bits) => Some(bits),
            Value::Group(_) => None,
            Value::Union { .. } => None,
            Value::List(_) => None,
            Value::Apart => None,
        }
    }

    /// Its fields, in their order. None where it is no value of a Group.
    pub fn fields(&self) -> Option<&[Value]>
        ensures { MatchOption result ((parts : Trees) → plain self.now ≡ group parts → ⊥) (λ parts. plain self.now ≡ group (plain_values parts.now)) }
    {
        match self {
            Value::Null => None,
            Value::Word(_) => None,
            Value::Group(parts) => Some(parts.as_slice()),
            Value::Union { .. } => None,
            Value::List(_) => None,
            Value::Apart => None,
        }
    }

    /// The number of its variant, from 0, and its value. None where it is no value of a Union.
    pub fn variant(&self) -> Option<Variant<'_>>
        ensures { MatchOption result ((tag : ℕ) (part : Tree) → plain self.now ≡ union tag part → ⊥) (λ one. plain self.now ≡ union one.tag (plain one.part.now)) }
    {
        match self {
            Value::Null => None,
            Value::Word(_) => None,
            Value::Group(_) => None,
            Value::Union { tag, part } => Some(Variant {
                tag: *tag,
                part: part.get(),
            }),
            Value::List(_) => None,
            Value::Apart => None,
        }
    }
}

/// A value of one variant of a Union, numbered from 0.
#[derive(Clone, Copy)]
pub struct Variant<'v> {
    /// The number of the variant, which its tag spells.
    pub tag: u32,
    pub part: &'v Value,
}
