//! The beginnings of members of more than one token.

/// A list, a Group or a variant that a token opens.
#[derive(Clone, Copy)]
pub enum Opening {
    /// A list, with `[`.
    List,
    /// The value of a Group, with `{`.
    Group,
    /// The value of a variant, with its name and `(`.
    Variant,
}
