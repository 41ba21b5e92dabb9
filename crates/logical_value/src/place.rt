//! Places in a word.

ghost use Rattle.std.specs.Prelude.{◌≡◌, ◌+◌, ◌≤◌, IfSome, IsSome};

/// Where so many bits end that begin at this place of a word of this length. None exactly where the word ends before.
pub(crate) fn end_of(begin: usize, count: usize, len: usize) -> Option<usize>
    ensures end { IfSome result (λ end. end ≡ begin + count) }
    ensures within { IsSome result → begin + count ≤ len }
    ensures some { begin + count ≤ len → IsSome result }
{
    let end = begin.checked_add(count)?;
    if end <= len { Some(end) } else { None }
}
