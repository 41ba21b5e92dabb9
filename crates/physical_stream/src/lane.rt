//! One lane of a transfer: whether it is active, and which sequences end in it.

ghost use Rattle.std.specs.Prelude.{◌≡◌, ◌-◌, ◌^◌, ◌<◌, ◌≤◌};
ghost use Rattle.physical_stream.specs.Items.{is_active, last_bit};
ghost use Rattle.physical_stream.specs.Signals.{Fits};

use crate::params::Params;
use crate::transfer::Transfer;

/// Whether a lane is active: its strobe bit is 1, and it lies between stai and endi.
#[inline(always)]
pub fn is_active(transfer: &Transfer, lane: u16) -> bool
    requires { lane < 128 }
    ensures { result ≡ is_active transfer.now lane }
{
    (transfer.strb >> lane) % 2 == 1 && transfer.stai <= lane && lane <= transfer.endi
}

/// Whether a lane marks the end of a sequence of this dimension.
#[inline(always)]
pub fn is_last(p: &Params, transfer: &Transfer, lane: u16, dim: u8) -> bool
    requires fits { Fits p.now transfer.now }
    requires within { lane < p.now.lanes }
    requires in_lane { dim < p.now.dims }
    ensures { result ≡ last_bit p.now transfer.now lane dim }
{
    let place = usize::from(lane) * usize::from(p.dims) + usize::from(dim);
    transfer.last.get(place)
}

/// The strobe bits of so many lanes, each of them 1.
pub fn all_lanes(lanes: u16) -> u128
    requires { lanes ≤ 128 }
    ensures { result ≡ 2 ^ lanes - 1 }
{
    if lanes == 128 {
        u128::MAX
    } else {
        (1 << lanes) - 1
    }
}
