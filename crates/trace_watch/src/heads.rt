//! The heads of a trace beside those of a monitor.

ghost use Rattle.std.specs.Prelude.{◌≡◌, ◌↔◌, IsTrue, Some, slice_get, MatchOption};
ghost use Rattle.trace_decode.specs.Outcome.{DifferFirst};

use physical_stream::Head;

/// The first place, from 0, at which the heads of a trace are not these. None exactly where they are the same. It takes no memory.
pub(crate) fn other_head(heads: &[Head], others: &[Head]) -> Option<usize>
    ensures { MatchOption result (heads.now ≡ others.now) (DifferFirst heads.now others.now) }
{
    'heads: for (place, other) in others.iter().enumerate() {
        if !is_head_at(heads, place, other) {
            return Some(place);
        }
    }
    if heads.len() == others.len() {
        None
    } else {
        Some(others.len())
    }
}

/// Whether the head at this place is there, and is this one.
fn is_head_at(heads: &[Head], place: usize, other: &Head) -> bool
    ensures { IsTrue result ↔ (slice_get heads.now place ≡ Some other.now) }
{
    match heads.get(place) {
        Some(head) => is_same_head(head, other),
        None => false,
    }
}

/// Whether two heads are the same.
fn is_same_head(one: &Head, other: &Head) -> bool
    ensures { IsTrue result ↔ (one.now ≡ other.now) }
{
    one.path == other.path && one.params == other.params && one.reversed == other.reversed
}
