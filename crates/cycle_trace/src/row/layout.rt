//! The facts about a stream that its rows are read with, found once for all of them.

ghost use Rattle.std.specs.Prelude.{◌≡◌};
ghost use Rattle.tydi_base.specs.Width.{index_width};
ghost use Rattle.cycle_trace.specs.RowLayout.{IsWord, LaysOut, has_payload_in};

use physical_stream::{Params, all_lanes, index_limit};
use signal_layout::Signals;

/// A signal that is a word of bits.
#[derive(Clone, Copy)]
pub(crate) struct WordSignal {
    /// Whether the stream has it.
    pub present: bool,
    /// Its width in bits, which is 0 only where it is absent.
    pub width: usize,
    /// How many digits spell it.
    pub digits: usize,
}

impl WordSignal {
    /// A signal of this width.
    fn of(present: bool, width: usize) -> WordSignal
        ensures { IsWord result present width }
    {
        WordSignal {
            present,
            width,
            digits: width.div_ceil(4),
        }
    }
}

/// Which signals the rows of a stream show, how wide they are, and what an absent one stands at.
#[derive(Clone, Copy)]
pub(crate) struct RowLayout {
    pub params: Params,
    pub content: WordSignal,
    pub last: WordSignal,
    pub strb: WordSignal,
    pub user: WordSignal,
    pub has_stai: bool,
    pub has_endi: bool,
    /// Whether there is a signal besides valid and ready.
    pub has_payload: bool,
    /// Above each number that fits stai and endi.
    pub index_limit: u32,
    /// The number of the last lane, at which an absent endi stands.
    pub last_lane: u16,
    /// A one for each lane, at which an absent strb stands.
    pub all_lanes: u128,
    ghost laid: { LaysOut params content last strb user has_stai has_endi has_payload index_limit last_lane all_lanes },
}

impl RowLayout {
    /// The layout of the rows of this stream.
    pub(crate) fn of(p: &Params) -> RowLayout
        ensures { result.params ≡ p.now }
    {
        let signals = Signals::of(p);
        let lanes = usize::from(p.lanes);
        RowLayout {
            params: *p,
            content: WordSignal::of(signals.content.is_some(), lanes * p.element as usize),
            last: WordSignal::of(signals.last.is_some(), lanes * usize::from(p.dims)),
            strb: WordSignal::of(signals.strb.is_some(), lanes),
            user: WordSignal::of(signals.user.is_some(), p.user as usize),
            has_stai: signals.stai.is_some(),
            has_endi: signals.endi.is_some(),
            has_payload: has_payload(&signals),
            index_limit: index_limit(p.lanes),
            last_lane: p.lanes - 1,
            all_lanes: all_lanes(p.lanes),
        }
    }
}

/// Whether there is a signal besides valid and ready.
fn has_payload(signals: &Signals) -> bool
    ensures { result ≡ has_payload_in signals.now }
{
    signals.content.is_some()
        || signals.last.is_some()
        || signals.stai.is_some()
        || signals.endi.is_some()
        || signals.strb.is_some()
        || signals.user.is_some()
}
