//! The bytes of a row that have a meaning of their own: its bits, and the keys of its signals.

/// A bit that is 0.
pub(crate) const ZERO_BIT: u8 = b'0';

/// A bit that is 1.
pub(crate) const ONE_BIT: u8 = b'1';

/// The key of the data.
pub(crate) const DATA_KEY: u8 = b'd';

/// The key of the last bits.
pub(crate) const LAST_KEY: u8 = b'l';

/// The key of stai.
pub(crate) const STAI_KEY: u8 = b's';

/// The key of endi.
pub(crate) const ENDI_KEY: u8 = b'e';

/// The key of the strobe bits.
pub(crate) const STRB_KEY: u8 = b'b';

/// The key of the user bits.
pub(crate) const USER_KEY: u8 = b'u';

/// The keys, in the order of the signals.
pub(crate) const KEYS: [u8; 6] = [DATA_KEY, LAST_KEY, STAI_KEY, ENDI_KEY, STRB_KEY, USER_KEY];
