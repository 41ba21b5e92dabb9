//! How many Streams a type has.

ghost use Rattle.std.specs.Prelude.{◌≡◌, ◌-◌, ◌^◌, min};
ghost use Rattle.logical_types.specs.Tree.{plain, plain_parts};
ghost use Rattle.type_split.specs.Nodes as spec;

use logical_types::{LType, Part};

/// The Streams of a type and of the data types in it, or the greatest number of 64 bits where there are more. A type may be split
/// that has at most 65,536.
#[cycle(number_of_streams)]
pub fn number_of_streams(ltype: &LType) -> u64
    ensures { result ≡ min (spec.number_of_streams (plain ltype.now)) (2 ^ 64 - 1) }
{
    match ltype {
        LType::Null => 0,
        LType::Bits(_) => 0,
        LType::Group(parts) => streams_in_parts(parts.as_slice()),
        LType::Union(parts) => streams_in_parts(parts.as_slice()),
        LType::Stream(stream) => number_of_streams(&stream.get().element).saturating_add(1),
    }
}

#[cycle(number_of_streams)]
fn streams_in_parts(parts: &[Part]) -> u64
    ensures { result ≡ min (spec.streams_in_parts (plain_parts parts.now)) (2 ^ 64 - 1) }
{
    let mut count: u64 = 0;
    'parts: for part in parts {
        count = count.saturating_add(number_of_streams(&part.ltype));
    }
    count
}
