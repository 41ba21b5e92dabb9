//! The width of a number that tells things apart: a lane, a variant of a union.

ghost use Rattle.std.specs.Prelude.{◌≡◌, ◌≤◌, ℕ};
ghost use Rattle.tydi_base.specs.Width.{index_width, IsIndexWidth};

/// The bits that number so many things: the least width w with n ≤ 2 ^ w. None for up to one thing.
pub fn index_width(n: u64) -> u32
    ensures value { result ≡ index_width n }
    ensures small { result ≤ 64 }
{
    if n <= 1 { 0 } else { (n - 1).ilog2() + 1 }
}

/// The law of widths: the bits that number things are enough for them, and no fewer are.
pub fn index_width_is_least()
    ensures { (n : ℕ) → IsIndexWidth n (index_width n) }
{}
