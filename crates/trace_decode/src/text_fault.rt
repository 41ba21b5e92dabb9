use crate::fault::DecodeFault;
use cycle_trace::TraceFault;

/// Why the text of a trace has no value of a port's type.
#[derive(Debug, Drop)]
pub enum TextFault {
    /// The text is no trace: this is its first error, or `Memory`.
    Misspelled(TraceFault),
    /// The text is a trace, which has no value for this reason, or `Memory`.
    NoValue(DecodeFault),
}
