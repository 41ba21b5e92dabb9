//! Values and the views of their streams, by a table found by hand.

ghost use Rattle.std.specs.Prelude.{◌≡◌, true};
ghost use Rattle.logical_value.specs.Fits.{fits_split};
ghost use Rattle.logical_value.specs.Tree.{plain_port};
ghost use Rattle.type_split.specs.Streams.{IsPortSplit, plain_split};

use crate::nests::write_nests;
use crate::types::{project_around, split_in, type_in};
use crate::values::roots_of;
use logical_types::LType;
use logical_value::{PortValue, fits};
use std::alloc::Global;
use tydi_base::{List, Memory, emit};
use type_split::Split;
use value_views::view;

// A Stream of bytes in lists of lists.
const NESTED: &str = "Stream(data: Bits(8), dimensionality: 2)";

// Records of a byte and a Flatten Stream of bytes.
const FLATTEN: &str =
    "Stream(data: Group(a: Bits(8), b: Stream(data: Bits(8), dimensionality: 1, synchronicity: Flatten)), dimensionality: 1)";

// The same with a Sync Stream.
const SYNC: &str =
    "Stream(data: Group(a: Bits(8), b: Stream(data: Bits(8), dimensionality: 1)), dimensionality: 1)";

// The same with a Desync Stream, whose series has the dimension around it too.
const DESYNC: &str =
    "Stream(data: Group(a: Bits(8), b: Stream(data: Bits(8), dimensionality: 1, synchronicity: Desync)), dimensionality: 1)";

// The same with a FlatDesync Stream, whose series has its own dimension alone.
const FLAT_DESYNC: &str =
    "Stream(data: Group(a: Bits(8), b: Stream(data: Bits(8), dimensionality: 1, synchronicity: FlatDesync)), dimensionality: 1)";

// A byte or a Flatten Stream.
const CHOICE: &str =
    "Stream(data: Union(a: Bits(8), b: Stream(data: Bits(8), synchronicity: Flatten)))";

// Records without bits of their own, and the same kept.
const BARE: &str =
    "Stream(data: Group(b: Stream(data: Bits(8), dimensionality: 1, synchronicity: Flatten)), dimensionality: 1)";

const KEPT: &str =
    "Stream(data: Group(b: Stream(data: Bits(8), dimensionality: 1, synchronicity: Flatten)), dimensionality: 1, keep: true)";

// A Stream right inside a Stream.
const DIRECT: &str = "Stream(data: Stream(data: Bits(8), dimensionality: 1), dimensionality: 1)";

// A Flatten Stream in a Sync Stream in a variant.
const DEEPER: &str =
    "Stream(data: Union(x: Null, y: Stream(data: Group(a: Bits(8), b: Stream(data: Bits(8), dimensionality: 1, synchronicity: Flatten)), \
     dimensionality: 1)), dimensionality: 1)";

// A Sync Stream in a Flatten Stream.
const UNDER: &str =
    "Stream(data: Group(a: Stream(data: Group(c: Bits(8), d: Stream(data: Bits(8), dimensionality: 1)), dimensionality: 1, synchronicity: Flatten)), \
     dimensionality: 1)";

// Two Streams behind one another, inside a root that is none of the first.
const ROOTS: &str =
    "Stream(data: Group(a: Stream(data: Bits(8), synchronicity: Desync), b: Stream(data: Group(c: Bits(8), \
     d: Stream(data: Bits(8), synchronicity: Flatten)), dimensionality: 1, synchronicity: Desync)))";

/// A port's type, and the steps by which its value is built: each stream's path and its view, a list in brackets.
pub(crate) const VIEWS: &[(&str, &str, &str)] = &[
    (NESTED, "list 0,list 1,list 0,root 2", "- [[]][];"),
    (NESTED, "root 0", "- ;"),
    (
        FLATTEN,
        "byte 1,byte 2,byte 3,list 2,group 2,byte 4,list 0,group 2,list 2,root 1",
        "- [0104];b [0203][];",
    ),
    (
        FLATTEN,
        "byte 1,byte 2,list 1,group 2,list 1,list 0,byte 3,byte 4,list 1,group 2,list 1,root 3",
        "- [01][][03];b [02][04];",
    ),
    (
        SYNC,
        "byte 1,byte 2,byte 3,list 2,group 2,byte 4,list 0,group 2,list 2,root 1",
        "- [0104];b [[0203][]];",
    ),
    (
        DESYNC,
        "byte 1,apart,group 2,list 1,root 1,byte 2,list 1,list 0,list 2,root 1",
        "- [01];b [[02][]];",
    ),
    (
        FLAT_DESYNC,
        "byte 1,apart,group 2,list 1,root 1,byte 2,list 1,root 1",
        "- [01];b [02];",
    ),
    (
        CHOICE,
        "byte 5,union 0,byte 6,union 1,root 2",
        "- 00a001;b 06;",
    ),
    (CHOICE, "byte 5,union 0,root 1", "- 00a;b ;"),
    (BARE, "byte 7,list 1,group 1,list 1,root 1", "b [07];"),
    (KEPT, "byte 7,list 1,group 1,list 1,root 1", "- [];b [07];"),
    (DIRECT, "byte 1,list 1,list 0,list 2,root 1", "- [[01][]];"),
    (
        DEEPER,
        "null,union 0,byte 1,byte 2,list 1,group 2,byte 3,list 0,group 2,list 2,union 1,list 0,union 1,list 3,root 1",
        "- [011];y [[0103][]];y.b [02][];",
    ),
    (
        UNDER,
        "byte 1,byte 2,list 1,group 2,list 1,group 1,byte 3,list 0,group 2,list 1,group 1,list 2,root 1",
        "a [01][03];a.d [[02]][[]];",
    ),
    (
        ROOTS,
        "apart,apart,group 2,root 1,byte 9,root 1,byte 2,byte 3,group 2,list 1,root 1",
        "a 09;b [02];b.d 03;",
    ),
];

// Writes the path and the view of each stream.
fn write_views(
    alloc: Global,
    split: &Split<'_>,
    value: &PortValue,
    out: &mut List<u8>,
) -> Result<(), Memory>
    requires split { IsPortSplit (plain_split split.now) }
    requires fits { fits_split (plain_split split.now) (plain_port value.now) ≡ true }
{
    for stream in 0..split.streams.len() {
        emit!(out; &split.streams.as_slice()[stream].path, " ")?;
        write_nests(view(alloc, split, value, stream)?.as_slice(), out)?;
        emit!(out; ";")?;
    }
    Ok(())
}

// The same of a value that has to fit.
fn write_where_it_fits(
    alloc: Global,
    split: &Split<'_>,
    value: &PortValue,
    out: &mut List<u8>,
) -> Result<(), Memory>
    requires { IsPortSplit (plain_split split.now) }
{
    if !fits(value, split) {
        return Err(Memory);
    }
    write_views(alloc, split, value, out)
}

// The same of a type that is checked first.
fn write_checked(
    alloc: Global,
    ltype: &LType,
    value: &PortValue,
    out: &mut List<u8>,
) -> Result<(), Memory> {
    let split = split_in(alloc, ltype)?;
    write_where_it_fits(alloc, &split, value, out)
}

pub(crate) fn viewed(
    alloc: Global,
    spelled: &str,
    steps: &str,
    out: &mut List<u8>,
) -> Result<(), Memory> {
    let project = project_around(alloc, spelled)?;
    let value = PortValue {
        roots: roots_of(alloc, steps)?,
    };
    write_checked(alloc, type_in(&project)?, &value, out)
}
