//! Whether the text of a split is short enough, before it is made.

ghost use Rattle.std.specs.Prelude.{◌≡◌, ◌≤◌, ◌↔◌, All, length, map, IfOk, IsTrue};
ghost use Rattle.std.specs.List.{flat_map};
ghost use Rattle.logical_types.specs.Faults.{IsPlain};
ghost use Rattle.type_split.specs.Streams.{IsPortSplit, node_view, plain_split};
ghost use Rattle.split_text.specs.Text as spec;
ghost use Rattle.split_text.specs.Text.{room_behind, stream_text};

use crate::lines::{room_behind, room_behind_fields};
use crate::streams::{fields_of_node, write_heading};
use std::alloc::Global;
use tydi_base::{List, Memory};
use type_split::{Node, Phys, Split};

/// Whether the text of the physical streams of a split that `split_type` gave has at most `limit` bytes. It makes one line after another,
/// each in the room of the last, and so takes no memory for the text. `Memory` comes where there is none for a line, or for the fields
/// of an element.
pub fn split_fits(alloc: Global, split: &Split<'_>, limit: u64) -> Result<bool, Memory>
    requires { IsPortSplit (plain_split split.now) }
    ensures { IfOk result (λ fits. IsTrue fits ↔ (length (spec.split_text (plain_split split.now)) ≤ limit)) }
{
    streams_fit(
        alloc,
        split.nodes.as_slice(),
        split.streams.as_slice(),
        limit,
    )
}

/// The same of physical streams of these nodes.
fn streams_fit(
    alloc: Global,
    nodes: &[Node<'_>],
    streams: &[Phys],
    limit: u64,
) -> Result<bool, Memory>
    requires { All (λ node. IsPlain node.element) (map node_view nodes.now) }
    ensures { IfOk result (λ fits. IsTrue fits ↔ (length (flat_map (stream_text (map node_view nodes.now)) streams.now) ≤ limit)) }
{
    let mut line = List::new(alloc);
    let mut left = limit;
    'streams: for one in streams {
        match room_behind_stream(alloc, nodes, one, left, &mut line)? {
            Some(less) => left = less,
            None => return Ok(false),
        }
    }
    Ok(true)
}

/// What so much room leaves behind the text of a physical stream.
fn room_behind_stream(
    alloc: Global,
    nodes: &[Node<'_>],
    one: &Phys,
    room: u64,
    line: &mut List<u8>,
) -> Result<Option<u64>, Memory>
    requires { All (λ node. IsPlain node.element) (map node_view nodes.now) }
    ensures { IfOk result (λ left. left ≡ room_behind room (stream_text (map node_view nodes.now) one.now)) }
{
    line.truncate(0);
    write_heading(nodes, one, line)?;
    match room_behind(room, line) {
        Some(left) => {
            let fields = fields_of_node(alloc, nodes, one.node)?;
            room_behind_fields(fields.as_slice(), left, line)
        }
        None => Ok(None),
    }
}
