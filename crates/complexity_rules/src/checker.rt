ghost use Rattle.std.specs.Prelude.{◌≡◌, ◌↔◌, ◌+◌, ◌-◌, ◌*◌, ◌^◌, ◌<◌, ◌≤◌, ◌∷◌, ◌++◌, [], List, Option, Some, None, IfOk, IfSome, IsSome};
ghost use Rattle.std.specs.Option.{option_copied};
ghost use Rattle.physical_stream.specs.Cycles.{Cycle};
ghost use Rattle.physical_stream.specs.Signals.{Fits};
ghost use Rattle.complexity_rules.specs.Effect.{most_packets};
ghost use Rattle.complexity_rules.specs.Tails.{IsTailIn};
ghost use Rattle.complexity_rules.specs.Waiting.{IsJudged};

use crate::effect::Effect;
use crate::last_item::LastItem;
use physical_stream::{Params, Transfer};
use std::alloc::Global;
use tydi_base::Memory;

/// Checks the cycles of one stream as they come. It keeps of them the transfer that waits to be taken, the kind of the last
/// item done, and counts.
#[derive(Debug, Drop)]
pub struct Checker {
    pub(crate) params: Params,
    /// Whether a transfer waits to be taken.
    pub(crate) waits: bool,
    /// The transfer that waits, where one does; else only the room for one.
    pub(crate) offered: Transfer,
    /// The changes that the waiting transfer makes when it is done.
    pub(crate) effect: Effect,
    /// The kind of the last item done.
    pub(crate) tail: LastItem,
    /// The cycles seen.
    pub(crate) seen: u32,
    /// The transfers done.
    pub(crate) transfers: u64,
    /// The packets done.
    pub(crate) packets: u64,
    ghost room: { Fits params offered },
    ghost judged: { IsJudged params waits offered tail effect },
    ghost tail_in: { IsTailIn params.dims tail },
    ghost few_transfers: { transfers ≤ seen },
    ghost few_packets: { packets ≤ most_packets * seen },
}
