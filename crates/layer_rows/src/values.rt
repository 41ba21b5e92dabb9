//! Values, the words that stand for them and the ports that they fit, by tables found by hand.

ghost use Rattle.std.specs.Prelude.{◌≤◌};
ghost use Rattle.logical_types.specs.Faults.{IsPlain};
ghost use Rattle.logical_types.specs.Size.{number_of_nodes};
ghost use Rattle.logical_types.specs.Tree.{plain};
ghost use Rattle.logical_value.specs.Element.{IsElement};
ghost use Rattle.logical_value.specs.Tree as values;

use crate::calls::{byte, cut};
use crate::types::{project_around, split_in, type_in};
use logical_types::*;
use logical_value::*;
use std::alloc::Global;
use tydi_base::{Bits, Boxed, Hex, List, Memory, emit};

// A Union of a Bits of eight bits, a Bits of four and a Null.
const THREE: &str = "Union(a: Bits(8), b: Bits(4), c: Null)";

// A Group of a bit and a Union, in whose second variant there is another Union.
const INNER: &str =
    "Group(a: Bits(1), u: Union(x: Null, y: Union(p: Null, q: Null, r: Null), z: Null))";

// A Group of two Unions.
const TWO: &str = "Group(a: Union(p: Null, q: Null, r: Null), b: Union(p: Null, q: Null, r: Null))";

/// A type, and a word of its width: the value that it stands for with the word of that value, or the path of a bad tag.
pub(crate) const UNPACKED: &[(&str, &str, &str)] = &[
    (THREE, "003", "bad -"),
    (THREE, "3fe", "2(n) 002"),
    (THREE, "3d5", "1(5) 015"),
    (THREE, "3fc", "0(ff) 3fc"),
    ("Null", "", "n "),
    ("Bits(5)", "1f", "1f 1f"),
    ("Group(a: Bits(3), b: Bits(5))", "e5", "{5,1c,} e5"),
    ("Group()", "", "{} "),
    ("Union(a: Bits(8))", "7f", "0(7f) 7f"),
    (
        "Group(a: Stream(data: Bits(8), dimensionality: 1), b: Bits(2))",
        "3",
        "{-,3,} 3",
    ),
    (INNER, "06", "bad u"),
    (INNER, "1a", "bad u.y"),
    (INNER, "19", "{1,0(n),} 01"),
    (TWO, "f", "bad a"),
    (TWO, "c", "bad b"),
];

// A Stream of words of eight bits, in sequences.
const SEQUENCES: &str = "Stream(data: Bits(8), dimensionality: 1)";

// The same in as many dimensions as there may be.
const DEEP: &str = "Stream(data: Bits(8), dimensionality: 32)";

// A Stream of Groups of a word and a Stream that is flattened.
const FLATTENED: &str =
    "Stream(data: Group(a: Bits(8), b: Stream(data: Bits(8), dimensionality: 1, synchronicity: Flatten)), dimensionality: 1)";

// The same with a Stream of its own.
const APART: &str =
    "Stream(data: Group(a: Bits(8), b: Stream(data: Bits(8), dimensionality: 1, synchronicity: Desync)), dimensionality: 1)";

// A Stream of the Union of three variants.
const VARIANTS: &str = "Stream(data: Union(a: Bits(8), b: Bits(4), c: Null))";

/// A port's type, and the steps by which its value is built: whether it fits. A step makes a value: a word of this width, `byte` a word of eight bits
/// with this number, or one with the last values as its members, so many; `union` has the last value as the part of this tag. `root` makes a series of the last ones.
pub(crate) const FITTING: &[(&str, &str, &str)] = &[
    (SEQUENCES, "root 0", "yes"),
    (SEQUENCES, "word 8,word 8,list 2,list 0,root 2", "yes"),
    (SEQUENCES, "word 8,root 1", "no"),
    (SEQUENCES, "word 7,list 1,root 1", "no"),
    (SEQUENCES, "null,list 1,root 1", "no"),
    (SEQUENCES, "", "no"),
    (SEQUENCES, "root 0,root 0", "no"),
    ("Stream(data: Null)", "null,root 1", "yes"),
    ("Stream(data: Null)", "apart,root 1", "no"),
    (
        DEEP,
        "word 8,list 1,list 1,list 1,list 1,list 1,list 1,list 1,list 1,list 1,list 1,list 1,list 1,list 1,list 1,list 1,list 1,\
         list 1,list 1,list 1,list 1,list 1,list 1,list 1,list 1,list 1,list 1,list 1,list 1,list 1,list 1,list 1,list 1,root 1",
        "yes",
    ),
    (
        DEEP,
        "word 8,list 1,list 1,list 1,list 1,list 1,list 1,list 1,list 1,list 1,list 1,list 1,list 1,list 1,list 1,list 1,list 1,\
         list 1,list 1,list 1,list 1,list 1,list 1,list 1,list 1,list 1,list 1,list 1,list 1,list 1,list 1,list 1,root 1",
        "no",
    ),
    (
        DEEP,
        "list 0,list 1,list 1,list 1,list 1,list 1,list 1,list 1,list 1,list 1,list 1,list 1,list 1,list 1,list 1,list 1,list 1,\
         list 1,list 1,list 1,list 1,list 1,list 1,list 1,list 1,list 1,list 1,list 1,list 1,list 1,list 1,list 1,root 1",
        "yes",
    ),
    (
        FLATTENED,
        "word 8,word 8,word 8,list 2,group 2,word 8,list 0,group 2,list 2,root 1",
        "yes",
    ),
    (FLATTENED, "word 8,apart,group 2,list 1,root 1", "no"),
    (FLATTENED, "word 8,group 1,list 1,root 1", "no"),
    (FLATTENED, "word 8,list 0,null,group 3,list 1,root 1", "no"),
    (
        APART,
        "word 8,apart,group 2,list 1,root 1,word 8,list 1,list 1,root 1",
        "yes",
    ),
    (
        APART,
        "word 8,apart,group 2,list 1,root 1,word 8,list 1,root 1",
        "no",
    ),
    (APART, "word 8,list 0,group 2,list 1,root 1,root 0", "no"),
    (APART, "root 0", "no"),
    (VARIANTS, "word 8,union 0,root 1", "yes"),
    (VARIANTS, "word 4,union 1,root 1", "yes"),
    (VARIANTS, "word 4,union 0,root 1", "no"),
    (VARIANTS, "null,union 2,root 1", "yes"),
    (VARIANTS, "null,union 3,root 1", "no"),
    (VARIANTS, "null,root 1", "no"),
];

fn taken(made: &mut List<Value>) -> Value {
    match made.pop() {
        Some(value) => value,
        None => Value::Null,
    }
}

// The last values, so many.
fn members_of(alloc: Global, count: u8, made: &mut List<Value>) -> Result<List<Value>, Memory> {
    let mut members = Vec::new(alloc);
    for _ in 0..count {
        members.push(taken(made))?;
    }
    members.reverse();
    Ok(List::from_vec(members))
}

fn union_of(alloc: Global, tag: u32, made: &mut List<Value>) -> Result<Value, Memory> {
    let part = Boxed::new(alloc, taken(made))?;
    Ok(Value::Union { tag, part })
}

fn byte_of(alloc: Global, number: u8) -> Result<Value, Memory> {
    match Bits::from_number(alloc, 8, u128::from(number))? {
        Some(word) => Ok(Value::Word(word)),
        None => Ok(Value::Null),
    }
}

fn value_of(alloc: Global, kind: &str, count: u8, made: &mut List<Value>) -> Result<Value, Memory> {
    if kind == "word" {
        Ok(Value::Word(Bits::zeros(alloc, usize::from(count))?))
    } else if kind == "byte" {
        byte_of(alloc, count)
    } else if kind == "group" {
        Ok(Value::Group(members_of(alloc, count, made)?))
    } else if kind == "union" {
        union_of(alloc, u32::from(count), made)
    } else if kind == "list" {
        Ok(Value::List(members_of(alloc, count, made)?))
    } else if kind == "apart" {
        Ok(Value::Apart)
    } else {
        Ok(Value::Null)
    }
}

fn add_step(
    alloc: Global,
    step: &str,
    made: &mut List<Value>,
    roots: &mut List<List<Value>>,
) -> Result<(), Memory> {
    let (kind, digits) = cut(step);
    if kind == "root" {
        roots.push(members_of(alloc, byte(digits), made)?)
    } else {
        let value = value_of(alloc, kind, byte(digits), made)?;
        made.push(value)
    }
}

/// The series that these steps make.
pub(crate) fn roots_of(alloc: Global, steps: &str) -> Result<List<List<Value>>, Memory> {
    let mut roots = List::new(alloc);
    let mut made = List::new(alloc);
    for step in steps.split(',') {
        add_step(alloc, step, &mut made, &mut roots)?;
    }
    Ok(roots)
}

// Writes a value.
fn write_value(value: &Value, out: &mut List<u8>) -> Result<(), Memory> {
    match value {
        Value::Null => out.push(b'n'),
        Value::Word(word) => emit!(out; Hex(word)),
        Value::Group(fields) => {
            out.push(b'{')?;
            for field in fields.as_slice() {
                write_value(field, out)?;
                out.push(b',')?;
            }
            out.push(b'}')
        }
        Value::Union { tag, part } => {
            emit!(out; *tag, "(")?;
            write_value(part.get(), out)?;
            out.push(b')')
        }
        Value::List(_) => out.push(b'*'),
        Value::Apart => out.push(b'-'),
    }
}

// Writes a value and its word.
fn write_packed(
    alloc: Global,
    ltype: &LType,
    value: &Value,
    out: &mut List<u8>,
) -> Result<(), Memory>
    requires plain { IsPlain (plain ltype.now) }
    requires element { IsElement (plain ltype.now) (values.plain value.now) }
{
    write_value(value, out)?;
    emit!(out; " ", Hex(&pack(alloc, ltype, value)?))
}

// Writes the value of a word and the word of that value, or the path of a bad tag.
fn write_unpacked(
    alloc: Global,
    ltype: &LType,
    digits: &[u8],
    out: &mut List<u8>,
) -> Result<(), Memory>
    requires plain { IsPlain (plain ltype.now) }
    requires few { number_of_nodes (plain ltype.now) ≤ 65536 }
{
    let bits = width(ltype) as usize;
    let Ok(word) = Bits::from_hex(alloc, bits, digits) else {
        return Err(Memory);
    };
    if word.len() != bits {
        return Err(Memory);
    }
    match unpack(alloc, ltype, &word) {
        Ok(value) => write_packed(alloc, ltype, &value, out),
        Err(UnpackFault::BadTag(path)) => emit!(out; "bad ", &path),
        Err(UnpackFault::Memory) => Err(Memory),
    }
}

// The same of a type that is checked first.
fn write_checked(
    alloc: Global,
    ltype: &LType,
    digits: &[u8],
    out: &mut List<u8>,
) -> Result<(), Memory> {
    match check(ltype) {
        Ok(()) if number_of_nodes(ltype) <= 65536 => write_unpacked(alloc, ltype, digits, out),
        _ => Err(Memory),
    }
}

pub(crate) fn unpacked(
    alloc: Global,
    spelled: &str,
    digits: &str,
    out: &mut List<u8>,
) -> Result<(), Memory> {
    let project = project_around(alloc, spelled)?;
    write_checked(alloc, type_in(&project)?, digits.as_bytes(), out)
}

// Writes whether a value fits a port of this type.
fn write_fitting(
    alloc: Global,
    ltype: &LType,
    value: &PortValue,
    out: &mut List<u8>,
) -> Result<(), Memory> {
    let split = split_in(alloc, ltype)?;
    emit!(out; if fits(value, &split) { "yes" } else { "no" })
}

pub(crate) fn fitting(
    alloc: Global,
    spelled: &str,
    steps: &str,
    out: &mut List<u8>,
) -> Result<(), Memory> {
    let project = project_around(alloc, spelled)?;
    let value = PortValue {
        roots: roots_of(alloc, steps)?,
    };
    write_fitting(alloc, type_in(&project)?, &value, out)
}
