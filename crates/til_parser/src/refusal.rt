//! Why tokens are not read.

/// The refusal of a project's own: the type that begins with the next token stands inside as many others as are allowed.
#[derive(Clone, Copy, Debug, PartialEq, Eq)]
pub(crate) struct TooDeep;

/// Why tokens are not read.
pub(crate) type Fault = tydi_reading::Fault<TooDeep>;
