ghost use Rattle.std.specs.Prelude.{◌≡◌, ◌≤◌, List, length};
ghost use Rattle.std.specs.List.{All};
ghost use Rattle.physical_stream.specs.Signals.{Fits};

use physical_stream::{Params, Transfer};
use tydi_base::List;

/// The transfers of a list, one after another.
#[derive(Drop)]
pub struct ListFeed {
    pub(crate) params: Params,
    pub(crate) list: List<Transfer>,
    /// How many were given.
    pub(crate) place: usize,
    ghost fits: { All (Fits params) list },
    ghost within: { place ≤ length list },
}

impl ListFeed {
    /// The feed of these transfers, of which none was given.
    pub fn new(list: List<Transfer>, params: Params) -> ListFeed
        requires { All (Fits params) list }
        ensures list { result.list ≡ list }
        ensures place { result.place ≡ 0 }
        ensures params { result.params ≡ params }
    {
        ListFeed {
            params,
            list,
            place: 0,
        }
    }
}
