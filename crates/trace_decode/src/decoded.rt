use logical_value::PortValue;
use tydi_base::{Bits, List};

/// A trace that was read back.
#[derive(Debug, Drop)]
pub struct Decoded {
    /// The value that the trace carries.
    pub value: PortValue,
    /// The user word of each transfer done, for each physical stream of the port. A stream without user bits has no user words here.
    pub users: List<List<Bits>>,
}
