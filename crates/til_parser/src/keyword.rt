//! The words that decide the form after them.

ghost use Rattle.std.specs.Prelude.{◌≡◌};
ghost use Rattle.til_parser.specs.Words as spec;

use crate::ltype::AstSync;

/// The word with which a declaration begins.
#[derive(Clone, Copy, Debug, PartialEq, Eq)]
pub(crate) enum Keyword {
    Type,
    Interface,
    Streamlet,
    Impl,
    Test,
}

/// The word with which a type begins that is no path.
#[derive(Clone, Copy, Debug, PartialEq, Eq)]
pub(crate) enum TypeWord {
    Null,
    Bits,
    Group,
    Union,
    Stream,
}

/// The name of an argument of a Stream.
#[derive(Clone, Copy, Debug, PartialEq, Eq)]
pub(crate) enum Argument {
    Data,
    Throughput,
    Dimensionality,
    Synchronicity,
    Complexity,
    Direction,
    User,
    Keep,
}

/// The keyword that a word is.
pub(crate) fn keyword_of(word: &str) -> Option<Keyword>
    ensures { result ≡ spec.keyword_of word.now }
{
    if word == "type" {
        Some(Keyword::Type)
    } else if word == "interface" {
        Some(Keyword::Interface)
    } else if word == "streamlet" {
        Some(Keyword::Streamlet)
    } else if word == "impl" {
        Some(Keyword::Impl)
    } else if word == "test" {
        Some(Keyword::Test)
    } else {
        None
    }
}

/// The word of a type that a word is.
pub(crate) fn type_word_of(word: &str) -> Option<TypeWord>
    ensures { result ≡ spec.type_word_of word.now }
{
    if word == "Null" {
        Some(TypeWord::Null)
    } else if word == "Bits" {
        Some(TypeWord::Bits)
    } else if word == "Group" {
        Some(TypeWord::Group)
    } else if word == "Union" {
        Some(TypeWord::Union)
    } else if word == "Stream" {
        Some(TypeWord::Stream)
    } else {
        None
    }
}

/// The synchronicity that a word is.
pub(crate) fn sync_of(word: &str) -> Option<AstSync>
    ensures { result ≡ spec.sync_of word.now }
{
    if word == "Sync" {
        Some(AstSync::Sync)
    } else if word == "Flatten" {
        Some(AstSync::Flatten)
    } else if word == "Desync" {
        Some(AstSync::Desync)
    } else if word == "FlatDesync" {
        Some(AstSync::FlatDesync)
    } else {
        None
    }
}

/// The argument that a word names.
pub(crate) fn argument_of(word: &str) -> Option<Argument>
    ensures { result ≡ spec.argument_of word.now }
{
    if word == "data" {
        Some(Argument::Data)
    } else if word == "throughput" {
        Some(Argument::Throughput)
    } else if word == "dimensionality" {
        Some(Argument::Dimensionality)
    } else if word == "synchronicity" {
        Some(Argument::Synchronicity)
    } else if word == "complexity" {
        Some(Argument::Complexity)
    } else if word == "direction" {
        Some(Argument::Direction)
    } else if word == "user" {
        Some(Argument::User)
    } else if word == "keep" {
        Some(Argument::Keep)
    } else {
        None
    }
}
