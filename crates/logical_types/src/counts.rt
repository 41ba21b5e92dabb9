//! How many nodes a type has.

ghost use Rattle.std.specs.Prelude.{◌≡◌, ◌-◌, ◌^◌, min};
ghost use Rattle.logical_types.specs.Size as spec;
ghost use Rattle.logical_types.specs.Tree.{plain, plain_of_stream, plain_parts};

use crate::ltype::{LType, Part, StreamType};

/// The nodes of a type, itself and all types in it, or the greatest number of 64 bits where there are more. A Stream's user type counts
/// too. This number is this project's own.
#[cycle(number_of_nodes)]
pub fn number_of_nodes(ltype: &LType) -> u64
    ensures { result ≡ min (spec.number_of_nodes (plain ltype.now)) (2 ^ 64 - 1) }
{
    match ltype {
        LType::Null => 1,
        LType::Bits(_) => 1,
        LType::Group(parts) => nodes_in_parts(parts.as_slice()).saturating_add(1),
        LType::Union(parts) => nodes_in_parts(parts.as_slice()).saturating_add(1),
        LType::Stream(stream) => nodes_in_stream(stream.get()),
    }
}

#[cycle(number_of_nodes)]
fn nodes_in_parts(parts: &[Part]) -> u64
    ensures { result ≡ min (spec.nodes_in_parts (plain_parts parts.now)) (2 ^ 64 - 1) }
{
    let mut count: u64 = 0;
    'parts: for part in parts {
        count = count.saturating_add(number_of_nodes(&part.ltype));
    }
    count
}

#[cycle(number_of_nodes)]
fn nodes_in_stream(stream: &StreamType) -> u64
    ensures { result ≡ min (spec.number_of_nodes (plain_of_stream stream.now)) (2 ^ 64 - 1) }
{
    let element = number_of_nodes(&stream.element);
    let user = number_of_nodes(&stream.user);
    element.saturating_add(user).saturating_add(1)
}
