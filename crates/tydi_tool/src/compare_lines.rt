//! The lines of differences.

ghost use Rattle.std.specs.Prelude.{◌≡◌, ◌<◌, ◌++◌, ℕ, codes, decimal, length, IfOk, OnOk};
ghost use Rattle.std.specs.List.{flat_map};
ghost use Rattle.type_split.specs.Streams.{plain_split};
ghost use Rattle.tydi_tool.specs.Comparisons as spec;
ghost use Rattle.tydi_tool.specs.Comparisons.{NameStreams};

use crate::decode::stream_path;
use physical_stream::Item;
use std::alloc::Global;
use trace_compare::Difference;
use tydi_base::{Hex, List, Memory, Path, Written, emit};
use type_split::Split;

/// The lines of these differences of the streams of a port.
pub(crate) fn difference_lines(
    alloc: Global,
    split: &Split<'_>,
    differences: &[Difference],
) -> Result<List<u8>, Memory>
    requires { NameStreams (length split.now.streams) differences.now }
    ensures { IfOk result (λ lines. lines ≡ spec.difference_lines (plain_split split.now) differences.now) }
{
    let mut lines = List::new(alloc);
    'differences: for difference in differences {
        push_difference(
            stream_path(split, difference.stream),
            difference,
            &mut lines,
        )?;
    }
    Ok(lines)
}

/// Adds the line of the first difference of the stream of this path.
fn push_difference(path: &Path, difference: &Difference, lines: &mut List<u8>) -> Result<(), Memory>
    ensures { OnOk result (lines.new ≡ lines.old ++ spec.difference_line path.now difference.now) }
{
    emit!(
        lines;
        "differs stream ", path, " item ", difference.item, " at ", Points(difference.place.as_slice()),
        " cycle ", CycleText(difference.cycle), " want ", ItemText(&difference.want), " got ",
        ItemText(&difference.got), "\n",
    )
}

/// Numbers with a point between each two.
#[derive(Clone, Copy)]
struct Points<'a>(&'a [u64]);

impl Written for Points<'_> {
    ghost text = { λ all. spec.points all.0.now };

    fn write_to(&self, out: &mut List<u8>) -> Result<(), Memory> {
        match self.0.split_first() {
            Some((first, more)) => emit!(out; first, AfterPoints(more)),
            None => Ok(()),
        }
    }
}

/// Numbers with a point before each.
#[derive(Clone, Copy)]
struct AfterPoints<'a>(&'a [u64]);

impl Written for AfterPoints<'_> {
    ghost text = { λ all. flat_map (λ (number : ℕ). codes "." ++ decimal number) all.0.now };

    fn write_to(&self, out: &mut List<u8>) -> Result<(), Memory> {
        'numbers: for number in self.0 {
            emit!(out; ".", number)?;
        }
        Ok(())
    }
}

/// The cycle in which an item comes; a hyphen where it does not come.
#[derive(Clone, Copy)]
struct CycleText(Option<u32>);

impl Written for CycleText {
    ghost text = { λ cycle. spec.cycle_text cycle.0 };

    fn write_to(&self, out: &mut List<u8>) -> Result<(), Memory> {
        match self.0 {
            Some(cycle) => cycle.write_to(out),
            None => emit!(out; "-"),
        }
    }
}

/// An item, or the end of the list.
#[derive(Clone, Copy)]
struct ItemText<'a>(&'a Option<Item>);

impl Written for ItemText<'_> {
    ghost text = { λ item. spec.item_text item.0.now };

    fn write_to(&self, out: &mut List<u8>) -> Result<(), Memory> {
        match self.0 {
            Some(Item::Elem(word)) => emit!(out; "0x", Hex(word)),
            Some(Item::Close(dimension)) => emit!(out; "close ", *dimension),
            None => emit!(out; "end"),
        }
    }
}
