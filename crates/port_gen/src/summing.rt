//! Sums of bytes.

ghost use Rattle.std.specs.Prelude.{◌≡◌};
ghost use Rattle.port_gen.specs.Sums.{sum_on};

/// The sum of these bytes and of those before them, modulo 2^32.
pub(crate) fn with_bytes(before: u32, bytes: &[u8]) -> u32
    ensures { result ≡ sum_on before bytes.now }
{
    let mut all = before;
    'bytes: for byte in bytes {
        all = all.wrapping_add(u32::from(*byte));
    }
    all
}
