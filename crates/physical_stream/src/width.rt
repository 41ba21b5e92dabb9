ghost use Rattle.std.specs.Prelude.{◌≡◌, ◌<◌, ◌≤◌, ◌^◌, ◌↔◌, IsTrue};
ghost use Rattle.tydi_base.specs.Width.{index_width};

use tydi_base::index_width;

/// One more than the greatest number that the bits of so many lanes can write.
pub fn index_limit(lanes: u16) -> u32
    ensures value { result ≡ 2 ^ index_width lanes }
    ensures small { result ≤ 2 ^ 16 }
{
    1 << index_width(u64::from(lanes))
}

// Whether this is a number that the bits of so many lanes can write.
pub(crate) fn is_index(index: u16, lanes: u16) -> bool
    ensures { IsTrue result ↔ (index < 2 ^ index_width lanes) }
{
    u32::from(index) < index_limit(lanes)
}

// Whether no bit stands at or above these lanes.
pub(crate) fn is_strobe(strb: u128, lanes: u16) -> bool
    requires { lanes ≤ 128 }
    ensures { IsTrue result ↔ (strb < 2 ^ lanes) }
{
    lanes == 128 || strb >> lanes == 0
}
