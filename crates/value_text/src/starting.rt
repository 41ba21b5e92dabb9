//! The parts of the whole text of a value.

ghost use Rattle.std.specs.Prelude.{◌≡◌, ◌++◌, map, slice_get, IfOk, OnOk};
ghost use Rattle.type_split.specs.Streams.{node_view};
ghost use Rattle.logical_value.specs.Tree.{plain};
ghost use Rattle.value_text.specs.Canonical.{root_text, roots_text, user_line, users_text};
ghost use Rattle.value_text.specs.Items.{items_of};
ghost use Rattle.value_text.specs.Pending.{lines_text, rest_of};

use crate::items::{Items, Taken, reversed};
use crate::pending::{NestsLeft, Pending};
use logical_value::Value;
use std::alloc::Global;
use tydi_base::{Bits, List, Memory, TryClone, emit};
use type_split::{Phys, Split};

/// The parts of the text of a value with these series and user words. The last of them comes first.
pub(crate) fn start<'v>(
    alloc: Global,
    split: &Split<'_>,
    series: Items<'v, List<Value>>,
    users: Items<'v, List<Bits>>,
) -> Result<List<Pending<'v>>, Memory>
    ensures { IfOk result (λ left. rest_of left ≡ roots_text (map node_view split.now.nodes) split.now.roots (map (map plain) (items_of series.entry))
        ++ users_text split.now.streams (items_of users.entry)) }
{
    let mut lines = List::new(alloc);
    add_roots(alloc, split, series, &mut lines)?;
    add_users(alloc, split.streams.as_slice(), users, &mut lines)?;
    Ok(reversed(lines))
}

/// Adds the line of each root, with its series.
fn add_roots<'v>(
    alloc: Global,
    split: &Split<'_>,
    series: Items<'v, List<Value>>,
    lines: &mut List<Pending<'v>>,
) -> Result<(), Memory>
    ensures { OnOk result (lines_text lines.new ≡ lines_text lines.old ++ roots_text (map node_view split.now.nodes) split.now.roots (map (map plain) (items_of series.entry))) }
{
    let mut left = series;
    'roots: for root in split.roots.as_slice() {
        match left.take() {
            Some(Taken { one, more }) => {
                add_root(alloc, split, *root, one.elements(), lines)?;
                left = more;
            }
            None => return Ok(()),
        }
    }
    Ok(())
}

/// Adds the line of the root of this number, with its series.
fn add_root<'v>(
    alloc: Global,
    split: &Split<'_>,
    root: u32,
    series: Items<'v, Value>,
    lines: &mut List<Pending<'v>>,
) -> Result<(), Memory>
    ensures { OnOk result (lines_text lines.new ≡ lines_text lines.old ++ root_text (slice_get (map node_view split.now.nodes) root) (map plain (items_of series.entry))) }
{
    match split.nodes.get(root as usize) {
        Some(node) => {
            let mut head = List::new(alloc);
            emit!(head; "root ", &node.path, " = ")?;
            lines.push(Pending::Line(head))?;
            lines.push(Pending::Nests(NestsLeft {
                element: node.element.try_clone(alloc)?,
                depth: u64::from(node.params.dims),
                before: b"",
                between: b" ",
                values: series,
            }))?;
            lines.push(Pending::Mark(b";\n"))
        }
        None => Ok(()),
    }
}

/// Adds the lines of the user words of these streams.
fn add_users<'v>(
    alloc: Global,
    streams: &[Phys],
    users: Items<'v, List<Bits>>,
    lines: &mut List<Pending<'v>>,
) -> Result<(), Memory>
    ensures { OnOk result (lines_text lines.new ≡ lines_text lines.old ++ users_text streams.now (items_of users.entry)) }
{
    let mut left = users;
    'streams: for stream in streams {
        match left.take() {
            Some(Taken { one, more }) => {
                add_user(alloc, stream, one.elements(), lines)?;
                left = more;
            }
            None => return Ok(()),
        }
    }
    Ok(())
}

/// Adds the line of a stream's user words, where it has any bits for them.
fn add_user<'v>(
    alloc: Global,
    stream: &Phys,
    words: Items<'v, Bits>,
    lines: &mut List<Pending<'v>>,
) -> Result<(), Memory>
    ensures { OnOk result (lines_text lines.new ≡ lines_text lines.old ++ user_line stream.now (items_of words.entry)) }
{
    if stream.params.user == 0 {
        return Ok(());
    }
    let mut head = List::new(alloc);
    emit!(head; "// users ", &stream.path)?;
    lines.push(Pending::Line(head))?;
    lines.push(Pending::Words(words))?;
    lines.push(Pending::Mark(b"\n"))
}
