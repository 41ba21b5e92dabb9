//! Why lines are not read.

/// The refusals of lines that are of their form.
#[derive(Clone, Copy)]
pub enum Refusal {
    /// The line assigns to a name that is no valid or payload port, or waits for a name that is no ready port.
    UnknownSignal,
    /// The line assigns to a signal to which an earlier process assigns.
    SecondDriver,
}

/// Why lines are not read.
pub type Fault = tydi_reading::Fault<Refusal>;
