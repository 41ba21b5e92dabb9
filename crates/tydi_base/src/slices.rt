//! The bytes of words copied and compared, and parts of them copied wherever they begin: whole bytes at once where they can be.

ghost use Rattle.std.specs.Prelude.{◌≡◌, bytes_eq, ◌+◌, ◌*◌, ◌/◌, ◌%◌, ◌^◌, ◌<◌, ◌≤◌, ◌++◌, drop, take, length};
ghost use Rattle.tydi_base.specs.Bits.{bits_of, unpack, written_at};

/// Becomes a copy of bytes that are as many. Most words of a stream have one byte, for which it makes no call.
#[inline(always)]
pub(crate) fn copy_bytes(bytes: &mut [u8], from: &[u8])
    requires { length bytes.old ≡ length from.now }
    ensures { bytes.new ≡ from.now }
{
    if from.len() == 1 {
        bytes[0] = from[0];
    } else {
        bytes.copy_from_slice(from);
    }
}

/// Whether bytes are the same as others. For one byte it makes no call.
#[inline(always)]
pub(crate) fn are_same(bytes: &[u8], others: &[u8]) -> bool
    ensures { result ≡ bytes_eq bytes.now others.now }
{
    if bytes.len() == 1 && others.len() == 1 {
        bytes[0] == others[0]
    } else {
        bytes == others
    }
}

/// Writes so many bits of other bytes, from a place on, in place of those that stand at a place of these.
#[inline(always)]
pub(crate) fn copy_bits(bytes: &mut [u8], at: usize, source: &[u8], from: usize, count: usize)
    requires room { at + count ≤ 8 * length bytes.old }
    requires fits { at + count < 2 ^ 64 }
    requires source_fits { from + count < 2 ^ 64 }
    requires within { from + count ≤ 8 * length source.now }
    ensures { unpack bytes.new ≡ written_at at (take count (drop from (unpack source.now))) (unpack bytes.old) }
{
    if at % 8 == 0 {
        copy_aligned(bytes, at, source, from, count);
    } else {
        copy_unaligned(bytes, at, source, from, count);
    }
}

// The same within a byte: those up to its end alone, and then the others.
#[inline(never)]
fn copy_unaligned(bytes: &mut [u8], at: usize, source: &[u8], from: usize, count: usize)
    requires room { at + count ≤ 8 * length bytes.old }
    requires fits { at + count < 2 ^ 64 }
    requires source_fits { from + count < 2 ^ 64 }
    requires within { from + count ≤ 8 * length source.now }
    ensures { unpack bytes.new ≡ written_at at (take count (drop from (unpack source.now))) (unpack bytes.old) }
{
    if count == 0 {
        return;
    }
    let begun = (8 - at % 8).min(count);
    copy_part(bytes, at, source, from, begun);
    if begun < count {
        copy_aligned(bytes, at + begun, source, from + begun, count - begun);
    }
}

// The same from the beginning of a byte on: whole bytes, and then what is left.
#[inline(always)]
fn copy_aligned(bytes: &mut [u8], at: usize, source: &[u8], from: usize, count: usize)
    requires begins { at % 8 ≡ 0 }
    requires room { at + count ≤ 8 * length bytes.old }
    requires fits { at + count < 2 ^ 64 }
    requires source_fits { from + count < 2 ^ 64 }
    requires within { from + count ≤ 8 * length source.now }
    ensures { unpack bytes.new ≡ written_at at (take count (drop from (unpack source.now))) (unpack bytes.old) }
{
    let done = copy_middle(bytes, at, source, from, count);
    if done < count {
        copy_part(bytes, at + done, source, from + done, count - done);
    }
}

// Copies the whole bytes of so many bits, which begin at the beginning of a byte. Gives how many bits they have.
#[inline(always)]
fn copy_middle(bytes: &mut [u8], at: usize, source: &[u8], from: usize, count: usize) -> usize
    requires begins { at % 8 ≡ 0 }
    requires room { at + count ≤ 8 * length bytes.old }
    requires within { from + count ≤ 8 * length source.now }
    ensures whole { result ≡ 8 * (count / 8) }
    ensures copied { unpack bytes.new ≡ written_at at (take result (drop from (unpack source.now))) (unpack bytes.old) }
{
    if from % 8 == 0 {
        copy_whole(bytes, at, source, from, count)
    } else {
        copy_shifted(bytes, at, source, from, count)
    }
}

// The same of bits that begin at the beginning of a byte of the source too.
#[inline(always)]
fn copy_whole(bytes: &mut [u8], at: usize, source: &[u8], from: usize, count: usize) -> usize
    requires begins { at % 8 ≡ 0 }
    requires source_begins { from % 8 ≡ 0 }
    requires room { at + count ≤ 8 * length bytes.old }
    requires within { from + count ≤ 8 * length source.now }
    ensures whole { result ≡ 8 * (count / 8) }
    ensures copied { unpack bytes.new ≡ written_at at (take result (drop from (unpack source.now))) (unpack bytes.old) }
{
    let first = at / 8;
    let begin = from / 8;
    let number = count / 8;
    copy_bytes(
        &mut bytes[first..first + number],
        &source[begin..begin + number],
    );
    8 * number
}

// The same of bits that begin within a byte of the source: each byte is made of two of these.
#[inline(never)]
fn copy_shifted(bytes: &mut [u8], at: usize, source: &[u8], from: usize, count: usize) -> usize
    requires begins { at % 8 ≡ 0 }
    requires source_begins { 0 < from % 8 }
    requires room { at + count ≤ 8 * length bytes.old }
    requires within { from + count ≤ 8 * length source.now }
    ensures whole { result ≡ 8 * (count / 8) }
    ensures copied { unpack bytes.new ≡ written_at at (take result (drop from (unpack source.now))) (unpack bytes.old) }
{
    let first = at / 8;
    let begin = from / 8;
    let number = count / 8;
    'bytes: for index in 0..number {
        let low = source[begin + index];
        let high = source[begin + index + 1];
        bytes[first + index] = shifted(low, high, from % 8);
    }
    8 * number
}

// The eight bits from a place on of two bytes, the lower one first.
#[inline(always)]
fn shifted(low: u8, high: u8, place: usize) -> u8
    requires { place < 8 }
    ensures { result ≡ (low + 256 * high) / 2 ^ place % 256 }
{
    let pair = u32::from(low) + 256 * u32::from(high);
    ((pair >> place) % 256) as u8
}

// Writes so many bits that lie in one byte.
#[inline(always)]
fn copy_part(bytes: &mut [u8], at: usize, source: &[u8], from: usize, count: usize)
    requires some { 0 < count }
    requires one { at % 8 + count ≤ 8 }
    requires room { at + count ≤ 8 * length bytes.old }
    requires fits { at + count < 2 ^ 64 }
    requires source_fits { from + count < 2 ^ 64 }
    requires within { from + count ≤ 8 * length source.now }
    ensures { unpack bytes.new ≡ written_at at (take count (drop from (unpack source.now))) (unpack bytes.old) }
{
    let part = part_of(source, from, count);
    let index = at / 8;
    bytes[index] = with_part(bytes[index], at % 8, count, part);
}

// So many bits of bytes from a place on, up to eight, as the low bits of a byte.
fn part_of(source: &[u8], from: usize, count: usize) -> u8
    requires few { count ≤ 8 }
    requires some { 0 < count }
    requires fits { from + count < 2 ^ 64 }
    requires within { from + count ≤ 8 * length source.now }
    ensures { bits_of count result ≡ take count (drop from (unpack source.now)) }
{
    let index = from / 8;
    let high = if index + 1 < source.len() {
        source[index + 1]
    } else {
        0
    };
    shifted(source[index], high, from % 8)
}

// A byte with so many of its bits from a place on written, as the low bits of a part have them.
fn with_part(byte: u8, place: usize, count: usize, part: u8) -> u8
    requires { place + count ≤ 8 }
    ensures { bits_of 8 result ≡ written_at place (bits_of count part) (bits_of 8 byte) }
{
    let byte = u32::from(byte);
    let below = byte % (1 << place);
    let within = u32::from(part) % (1 << count);
    let above = byte >> (place + count);
    (((((above << count) + within) << place) + below) % 256) as u8
}
