//! Where the nodes inside a node end.

ghost use Rattle.std.specs.Prelude.{◌≡◌, ◌≤◌, IfOk, slice_set};
ghost use Rattle.logical_types.specs.Tree.{plain, plain_parts};
ghost use Rattle.type_split.specs.Ending.{AddsEnds, AddsEndsOfParts, AddsNodeEnds};
ghost use Rattle.type_split.specs.Standing.{ends_of};
ghost use Rattle.type_split.specs.Streams.{IsPortSplit, plain_split};

use crate::split::Split;
use logical_types::{LType, Part};
use std::alloc::Global;
use tydi_base::{List, Memory};

/// For each node of a split that `split_type` gave the first number past it and the nodes inside it. It is linear in the type. Memory
/// comes where there is none for the numbers. How nodes are numbered is this project's own.
pub fn node_ends(alloc: Global, split: &Split<'_>) -> Result<List<u32>, Memory>
    requires { IsPortSplit (plain_split split.now) }
    ensures { IfOk result (λ ends. ends ≡ ends_of (plain_split split.now).nodes) }
{
    let mut ends = Vec::new(alloc);
    let [outermost, ..] = split.nodes.as_slice() else {
        return Ok(List::new(alloc));
    };
    add_node(outermost.element, &mut ends)?;
    Ok(List::from_vec(ends))
}

/// Adds the ends of the nodes of a type, the first of which has as its number how many ends there are.
#[cycle(ends)]
fn add_type(ltype: &LType, ends: &mut Vec<u32>) -> Result<(), Memory>
    ensures { AddsEnds ends.old.items ends.new.items result (plain ltype.now) }
{
    match ltype {
        LType::Null => Ok(()),
        LType::Bits(_) => Ok(()),
        LType::Group(parts) => add_parts(parts.as_slice(), ends),
        LType::Union(parts) => add_parts(parts.as_slice(), ends),
        LType::Stream(stream) => add_node(&stream.get().element, ends),
    }
}

/// Adds the ends of the nodes of parts.
#[cycle(ends)]
fn add_parts(parts: &[Part], ends: &mut Vec<u32>) -> Result<(), Memory>
    ensures { AddsEndsOfParts ends.old.items ends.new.items result (plain_parts parts.now) }
{
    'parts: for part in parts {
        add_type(&part.ltype, ends)?;
    }
    Ok(())
}

/// Adds the ends of a node with such elements, and of the nodes inside it.
#[cycle(ends)]
fn add_node(element: &LType, ends: &mut Vec<u32>) -> Result<(), Memory>
    ensures { AddsNodeEnds ends.old.items ends.new.items result (plain element.now) }
{
    let number = ends.len();
    ends.push(0)?;
    add_type(element, ends)?;
    let end = number_of(ends.len());
    put(ends, number, end);
    Ok(())
}

/// A number of nodes.
fn number_of(count: usize) -> u32
    ensures { count ≤ 65536 → result ≡ count }
{
    u32::try_from(count).unwrap_or(u32::MAX)
}

/// Writes the end of the node of this number, where there is one.
fn put(ends: &mut Vec<u32>, number: usize, end: u32)
    ensures { ends.new.items ≡ slice_set ends.old.items number end }
{
    if number < ends.len() {
        ends[number] = end;
    }
}
