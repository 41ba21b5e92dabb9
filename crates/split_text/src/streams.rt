//! The text of a split.

ghost use Rattle.std.specs.Prelude.{◌≡◌, ◌++◌, All, map, slice_get, IfOk, OnOk};
ghost use Rattle.std.specs.List.{flat_map};
ghost use Rattle.logical_types.specs.Faults.{IsPlain};
ghost use Rattle.type_split.specs.Streams.{IsPortSplit, node_view, plain_split};
ghost use Rattle.split_text.specs.Text as spec;
ghost use Rattle.split_text.specs.Text.{IsUpTo, field_line, field_lines, heading_text, root_line, stream_text};

use crate::fields::{Field, fields_of};
use crate::lines::{FieldLines, SignalLines};
use physical_stream::StreamLine;
use signal_layout::Signals;
use std::alloc::Global;
use tydi_base::{List, Memory, emit};
use type_split::{Node, Phys, Split};

/// The text of the physical streams of a split that `split_type` gave: the whole of it, or a front of more than `limit` bytes. Memory
/// comes where there is none for the text. The text is this project's own.
pub fn split_text(alloc: Global, split: &Split<'_>, limit: u64) -> Result<List<u8>, Memory>
    requires { IsPortSplit (plain_split split.now) }
    ensures { IfOk result (λ front. IsUpTo limit (spec.split_text (plain_split split.now)) front) }
{
    write_streams(
        alloc,
        split.nodes.as_slice(),
        split.streams.as_slice(),
        limit,
    )
}

/// The text of physical streams, up to where it has more than so many bytes.
fn write_streams(
    alloc: Global,
    nodes: &[Node<'_>],
    streams: &[Phys],
    limit: u64,
) -> Result<List<u8>, Memory>
    requires { All (λ node. IsPlain node.element) (map node_view nodes.now) }
    ensures { IfOk result (λ front. IsUpTo limit (flat_map (stream_text (map node_view nodes.now)) streams.now) front) }
{
    let mut text = List::new(alloc);
    'streams: for one in streams {
        write_stream(alloc, nodes, one, &mut text)?;
        if text.len() as u64 > limit {
            return Ok(text);
        }
    }
    Ok(text)
}

/// Adds the text of a physical stream at the end.
fn write_stream(
    alloc: Global,
    nodes: &[Node<'_>],
    one: &Phys,
    text: &mut List<u8>,
) -> Result<(), Memory>
    requires { All (λ node. IsPlain node.element) (map node_view nodes.now) }
    ensures { OnOk result (text.new ≡ text.old ++ stream_text (map node_view nodes.now) one.now) }
{
    write_heading(nodes, one, text)?;
    write_fields(alloc, nodes, one.node, text)
}

/// Adds the text of a physical stream at the end, as far as its fields.
pub(crate) fn write_heading(
    nodes: &[Node<'_>],
    one: &Phys,
    text: &mut List<u8>,
) -> Result<(), Memory>
    ensures { OnOk result (text.new ≡ text.old ++ heading_text (map node_view nodes.now) one.now) }
{
    let line = StreamLine {
        path: &one.path,
        params: &one.params,
        reversed: one.reversed,
    };
    text.emit(&line)?;
    write_root(nodes, one.root, text)?;
    text.emit(&SignalLines(&Signals::of(&one.params)))
}

/// Adds the line of a root at the end.
fn write_root(nodes: &[Node<'_>], root: u32, text: &mut List<u8>) -> Result<(), Memory>
    ensures { OnOk result (text.new ≡ text.old ++ root_line (slice_get (map node_view nodes.now) root)) }
{
    match nodes.get(root as usize) {
        Some(node) => emit!(text; "  root ", &node.path, "\n"),
        None => Ok(()),
    }
}

/// Adds the lines of the fields of a node's elements at the end.
fn write_fields(
    alloc: Global,
    nodes: &[Node<'_>],
    number: u32,
    text: &mut List<u8>,
) -> Result<(), Memory>
    requires { All (λ node. IsPlain node.element) (map node_view nodes.now) }
    ensures { OnOk result (text.new ≡ text.old ++ field_lines (slice_get (map node_view nodes.now) number)) }
{
    let fields = fields_of_node(alloc, nodes, number)?;
    text.emit(&FieldLines(fields.as_slice()))
}

/// The fields of a node's elements; none where there is no such node.
pub(crate) fn fields_of_node(
    alloc: Global,
    nodes: &[Node<'_>],
    number: u32,
) -> Result<List<Field>, Memory>
    requires { All (λ node. IsPlain node.element) (map node_view nodes.now) }
    ensures { IfOk result (λ fields. flat_map field_line fields ≡ field_lines (slice_get (map node_view nodes.now) number)) }
{
    match nodes.get(number as usize) {
        Some(node) => fields_of(alloc, node.element),
        None => Ok(List::new(alloc)),
    }
}
