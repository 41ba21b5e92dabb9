/// An error of a type, at one place in it. Where there are several, the first in the order of this list is reported. Types are the
/// Tydi specification's (logical types), the limits this project's own.
#[derive(Clone, Copy, Debug, PartialEq, Eq)]
pub enum TypeFault {
    /// A Bits has no bits.
    ZeroBits,

    /// An element of the type takes over 4,096 bits.
    ElementTooWide,

    /// The throughput of a Stream is zero, or a part of its product with those of all Streams around it, in lowest terms, does
    /// not fit 64 bits.
    BadThroughput,

    /// The product of the throughputs of a Stream and of all Streams around it is over 128.
    TooManyLanes,

    /// The dimensions of a Stream are over 32, those counted that it takes over from the Stream around it.
    TooManyDims,

    /// A Stream stands in the user type of a Stream.
    UserHasStream,

    /// Two parts of a Group or a Union have names that are equal when ASCII case is ignored.
    NameTwice,

    /// A Union has no variants.
    EmptyUnion,
}
