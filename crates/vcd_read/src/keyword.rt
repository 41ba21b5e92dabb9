//! The words of a dump that begin with `$`.

ghost use Rattle.std.specs.Prelude.{◌≡◌};
ghost use Rattle.vcd_read.specs.Words as spec;

/// A word that begins or ends something (IEEE 1364, value change dump files).
#[derive(Clone, Copy)]
pub(crate) enum Keyword {
    /// It ends a section, a declaration or the values of a dump.
    End,
    /// It declares a signal.
    Var,
    /// It opens a scope.
    Scope,
    /// It closes a scope.
    Upscope,
    /// It ends the declarations.
    EndDefinitions,
    /// It begins a section that is skipped.
    Section,
    /// It stands before the values of a dump, and means nothing here.
    Dump,
    /// It is none of these.
    Other,
}

/// The keyword that a word is.
#[tactic(auto, unfolding(crate::specs::Words::keyword_of))]
pub(crate) fn keyword_of(word: &[u8]) -> Keyword
    ensures { result ≡ spec.keyword_of word.now }
{
    if is_end(word) {
        Keyword::End
    } else if word == b"$var".as_slice() {
        Keyword::Var
    } else if word == b"$scope".as_slice() {
        Keyword::Scope
    } else if word == b"$upscope".as_slice() {
        Keyword::Upscope
    } else if word == b"$enddefinitions".as_slice() {
        Keyword::EndDefinitions
    } else if is_section(word) {
        Keyword::Section
    } else if is_dump(word) {
        Keyword::Dump
    } else {
        Keyword::Other
    }
}

/// Whether a word is `$end`.
pub(crate) fn is_end(word: &[u8]) -> bool
    ensures { result ≡ spec.is_end word.now }
{
    word == b"$end".as_slice()
}

/// Whether a word begins a section that is skipped.
fn is_section(word: &[u8]) -> bool
    ensures { result ≡ spec.is_section word.now }
{
    word == b"$comment".as_slice()
        || word == b"$date".as_slice()
        || word == b"$version".as_slice()
        || word == b"$timescale".as_slice()
}

/// Whether a word stands before the values of a dump.
fn is_dump(word: &[u8]) -> bool
    ensures { result ≡ spec.is_dump word.now }
{
    word == b"$dumpvars".as_slice()
        || word == b"$dumpall".as_slice()
        || word == b"$dumpon".as_slice()
        || word == b"$dumpoff".as_slice()
}
