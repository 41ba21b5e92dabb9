//! Heads that are compared.

ghost use Rattle.std.specs.Prelude.{◌≡◌, ◌↔◌, IsTrue, MatchOption};
ghost use Rattle.link_check.specs.Carry.{AreAlike, FirstFalls, FirstOther, LevelsRise};

use physical_stream::Head;

/// The first stream whose head differs; where one list is shorter, its length. None exactly where the lists are one.
pub(crate) fn first_other(heads: &[Head], others: &[Head]) -> Option<usize>
    ensures { MatchOption result (heads.now ≡ others.now) (FirstOther heads.now others.now) }
{
    let mut stream = 0;
    'streams: while stream < heads.len() && stream < others.len() {
        if !is_same_head(&heads[stream], &others[stream]) {
            return Some(stream);
        }
        stream += 1;
    }
    if heads.len() == others.len() {
        None
    } else {
        Some(stream)
    }
}

/// Two heads are one.
fn is_same_head(one: &Head, other: &Head) -> bool
    ensures { IsTrue result ↔ (one.now ≡ other.now) }
{
    one == other
}

/// The first stream whose level falls from the one list to the other.
pub(crate) fn first_fall(from: &[Head], to: &[Head]) -> Option<usize>
    requires { AreAlike from.now to.now }
    ensures { MatchOption result (LevelsRise from.now to.now) (FirstFalls from.now to.now) }
{
    'streams: for (stream, head) in from.iter().enumerate() {
        let params = &head.params;
        let there = &to[stream];
        let other = &there.params;
        if !params.level.at_most(other.level) {
            return Some(stream);
        }
    }
    None
}
