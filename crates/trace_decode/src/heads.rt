//! The heads of a trace beside the physical streams of a port.

ghost use Rattle.std.specs.Prelude.{◌≡◌, ◌↔◌, IsTrue, map, slice_get, Some, MatchOption};
ghost use Rattle.port_drive.specs.Drives.{head_of_stream};
ghost use Rattle.trace_decode.specs.Outcome.{DifferFirst};

use physical_stream::Head;
use type_split::Phys;

/// The first place, from 0, at which the heads of a trace are not those of these streams. None exactly where they are the same. It takes no
/// memory.
pub fn other_head(heads: &[Head], streams: &[Phys]) -> Option<usize>
    ensures { MatchOption result (heads.now ≡ map head_of_stream streams.now) (DifferFirst heads.now (map head_of_stream streams.now)) }
{
    'streams: for (place, stream) in streams.iter().enumerate() {
        if !is_head_at(heads, place, stream) {
            return Some(place);
        }
    }
    if heads.len() == streams.len() {
        None
    } else {
        Some(streams.len())
    }
}

/// Whether the head at this place is there, and that of a physical stream.
fn is_head_at(heads: &[Head], place: usize, stream: &Phys) -> bool
    ensures { IsTrue result ↔ (slice_get heads.now place ≡ Some (head_of_stream stream.now)) }
{
    match heads.get(place) {
        Some(head) => is_head_of(head, stream),
        None => false,
    }
}

/// Whether the head is that of a physical stream.
fn is_head_of(head: &Head, stream: &Phys) -> bool
    ensures { IsTrue result ↔ (head.now ≡ head_of_stream stream.now) }
{
    head.path == stream.path && head.params == stream.params && head.reversed == stream.reversed
}
