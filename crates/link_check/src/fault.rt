ghost use Rattle.std.specs.Prelude.{◌≡◌};
ghost use Rattle.link_check.specs.declared.fault.LinkFault.TheVariants as faults;

use crate::difference::Difference;
use tydi_base::{Memory, Place};

/// Why the links of a project do not stand. Implementations are looked at in text order, in each the links in text order, and then
/// the ends: the own ports in order, and the instances in order, each with its ports. At one link a fault earlier in this list comes
/// first.
#[derive(Debug, Drop)]
pub enum LinkFault {
    /// At the first byte of a link: one of its sides names no own port, and no port of an instance.
    UnknownEnd(Place),

    /// At the first byte of a link: both of its sides are source ends, or both are sink ends.
    SameSide(Place),

    /// At the first byte of a link: the types of its ends are not compatible, and first differ so.
    NotCompatible(Place, Difference),

    /// At the first byte of a link: one of its ends stands in an earlier link.
    LinkedTwice(Place),

    /// At the first byte of the path after `of` of an `impl`: an end stands in no link.
    Unlinked(Place),

    /// Some streamlet has over 65,536 instances inside it, at all levels.
    DesignTooLarge,

    /// There was no memory.
    Memory,
}

impl From<Memory> for LinkFault {
    ghost from_gives = { λ _ e. e ≡ faults.Memory };

    fn from(_error: Memory) -> LinkFault {
        LinkFault::Memory
    }
}
