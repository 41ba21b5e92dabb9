//! Nodes that no physical stream carries.

ghost use Rattle.std.specs.Prelude.{◌≡◌};
ghost use Rattle.std.specs.Option.{option_copied};
ghost use Rattle.logical_types.specs.Tree.{plain, plain_parts, plain_of_stream, settings_of};
ghost use Rattle.type_split.specs.Carried as spec;
ghost use Rattle.type_split.specs.Nodes.{is_physical};
ghost use Rattle.type_split.specs.Streams.{node_view, plain_split};

use crate::split::{Node, Split};
use logical_types::{LType, Part, StreamType, Sync, saturated_width};
use tydi_base::Path;

/// The path of the first node that is not carried: it has no physical stream, and no Sync Stream in its elements is carried. None
/// exactly where all nodes are carried. It takes no memory. Which nodes are carried is this project's own.
pub fn uncarried<'a>(split: &'a Split<'_>) -> Option<&'a Path>
    ensures { option_copied result ≡ spec.uncarried_of (plain_split split.now) }
{
    'nodes: for node in split.nodes.as_slice() {
        if !is_carried(node) {
            return Some(&node.path);
        }
    }
    None
}

/// Whether a node is carried.
fn is_carried(node: &Node<'_>) -> bool
    ensures { result ≡ spec.is_carried (node_view node.now) }
{
    node.phys.is_some() || has_carried(node.element)
}

/// Whether some Sync Stream of a type, in no other Stream of it, is carried.
#[cycle(has_carried)]
fn has_carried(ltype: &LType) -> bool
    ensures { result ≡ spec.has_carried (plain ltype.now) }
{
    match ltype {
        LType::Null => false,
        LType::Bits(_) => false,
        LType::Group(parts) => have_carried(parts.as_slice()),
        LType::Union(parts) => have_carried(parts.as_slice()),
        LType::Stream(stream) => is_carried_with(stream.get()),
    }
}

/// Whether some part has such a Stream.
#[cycle(has_carried)]
fn have_carried(parts: &[Part]) -> bool
    ensures { result ≡ spec.have_carried (plain_parts parts.now) }
{
    'parts: for part in parts {
        if has_carried(&part.ltype) {
            return true;
        }
    }
    false
}

/// Whether a Stream is Sync, and carried.
#[cycle(has_carried)]
fn is_carried_with(stream: &StreamType) -> bool
    ensures { result ≡ spec.has_carried (plain_of_stream stream.now) }
{
    if !is_tied(stream.sync) {
        return false;
    }
    is_physical(stream) || has_carried(&stream.element)
}

/// Whether the sequences of a Stream of this synchronicity are those around it, with its own.
fn is_tied(sync: Sync) -> bool
    ensures { result ≡ spec.is_tied sync }
{
    match sync {
        Sync::Sync => true,
        Sync::Flatten => false,
        Sync::Desync => false,
        Sync::FlatDesync => false,
    }
}

/// Whether a Stream has a physical stream.
fn is_physical(stream: &StreamType) -> bool
    ensures { result ≡ is_physical (plain stream.now.element) (plain stream.now.user) (settings_of stream.now) }
{
    saturated_width(&stream.element) > 0 || saturated_width(&stream.user) > 0 || stream.keep
}
