//! The stream with the most transfers.

ghost use Rattle.std.specs.Prelude.{◌≡◌, [], length, max};
ghost use Rattle.port_gen.specs.Longest.{greatest};

use handshake::CycleFeed;

/// The greatest number of transfers that one of so many streams leaves, once no row is left.
pub(crate) fn most_left<C: CycleFeed>(many: usize, feed: &C) -> usize
    requires over { C.rows feed.now ≡ [] }
    requires many { many ≡ length (C.undone feed.now) }
    ensures { result ≡ greatest (C.undone feed.now) }
{
    let mut most = 0;
    'streams: for stream in 0..many {
        most = greater(most, feed.left(stream));
    }
    most
}

/// The greater of two numbers.
fn greater(one: usize, other: usize) -> usize
    ensures { result ≡ max one other }
{
    if one < other { other } else { one }
}
