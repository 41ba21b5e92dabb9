ghost use Rattle.std.specs.Prelude.{◌≡◌};
ghost use Rattle.std.specs.BTreeMap.{get};
ghost use Rattle.til_resolve.specs.Ordered.{by_key, by_path};
ghost use Rattle.til_resolve.specs.Scope.{IsScope, placed};

use crate::declared::Declared;
use crate::firsts::Firsts;
use crate::placing::Spaces;
use tydi_base::List;

/// The declarations of a tree, and what looks them up.
#[derive(Drop)]
pub struct Scope<'a> {
    pub declared: List<Declared<'a>>,
    pub spaces: Spaces<'a>,
    pub firsts: Firsts<'a>,
    ghost found: { IsScope spaces.keys (get by_path spaces.numbers) (get by_key firsts) (placed declared) },
}
