//! The steps that read a value of a type.

ghost use Rattle.std.specs.Prelude.{◌≡◌, false, option_map};
ghost use Rattle.std.specs.List.{list_any};
ghost use Rattle.std.specs.Str.{bytes_eq};
ghost use Rattle.logical_types.specs.Tree.{plain_parts};
ghost use Rattle.tydi_reading.specs.Reading.{Reads, ReadsAlways, took, tells, told_by};
ghost use Rattle.value_text.specs.Tokens.{token_view};
ghost use Rattle.value_text.specs.Typed as spec;
ghost use Rattle.value_text.specs.Words as words;
ghost use Rattle.value_text.specs.Steps.{Judges};

use crate::fault::Why;
use crate::token::Token;
use crate::tokens::Tokens;
use crate::words::{hex_digits_of, is_apart, is_null, number_of};
use logical_types::Part;
use std::alloc::Global;
use tydi_base::{Bits, BitsFault};
use tydi_reading::{Fault, Source};

/// The widest word that may be given in decimal, in bits.
const WIDEST_DECIMAL: u64 = 128;

impl<'a> Tokens<'a> {
    /// This byte.
    // Inlined, it would take room on the stack in each level of a nest.
    #[inline(never)]
    #[tactic(auto, unfolding(crate::specs::Typed::shaped))]
    pub(crate) fn take_byte(&mut self, byte: u8) -> Result<(), Fault<Why>>
        ensures { ReadsAlways (spec.shaped (words.is_byte byte) self.old) result self.new }
    {
        if !self.sees(byte) {
            return Err(Fault::Unfit(Why::WrongShape));
        }
        self.skip();
        Ok(())
    }

    /// A comma, where one stands.
    // Inlined, it would take room on the stack in each level of a nest.
    #[inline(never)]
    #[tactic(auto, unfolding(crate::specs::Typed::comma))]
    pub(crate) fn take_comma(&mut self)
        ensures { spec.comma self.old ≡ took tt self.new }
    {
        if self.sees(b',') {
            self.skip();
        }
    }

    /// The word of a Null.
    #[tactic(auto, unfolding(crate::specs::Typed::shaped))]
    pub(crate) fn take_null(&mut self) -> Result<(), Fault<Why>>
        ensures { ReadsAlways (spec.shaped spec.null_word self.old) result self.new }
    {
        if !self.sees_null() {
            return Err(Fault::Unfit(Why::WrongShape));
        }
        self.skip();
        Ok(())
    }

    /// The word for a Stream that has a root of its own.
    #[tactic(auto, unfolding(crate::specs::Typed::shaped))]
    pub(crate) fn take_apart(&mut self) -> Result<(), Fault<Why>>
        ensures { ReadsAlways (spec.shaped spec.apart_word self.old) result self.new }
    {
        if !self.sees_apart() {
            return Err(Fault::Unfit(Why::WrongShape));
        }
        self.skip();
        Ok(())
    }

    /// The name of this field of a Group, and its colon.
    #[tactic(auto, unfolding(crate::specs::Typed::key))]
    pub(crate) fn take_key(&mut self, parts: &[Part], name: &[u8]) -> Result<(), Fault<Why>>
        ensures { ReadsAlways (spec.key (plain_parts parts.now) name.now self.old) result self.new }
    {
        let found = self.key_name();
        if !is_named(name, found) {
            return Err(Fault::Unfit(misnamed(parts, found)));
        }
        self.skip();
        Ok(())
    }

    /// The end of a Group with these fields.
    #[tactic(auto, unfolding(crate::specs::Typed::group_end))]
    pub(crate) fn take_group_end(&mut self, parts: &[Part]) -> Result<(), Fault<Why>>
        ensures { ReadsAlways (spec.group_end (plain_parts parts.now) self.old) result self.new }
    {
        if !self.sees(b'}') {
            return Err(Fault::Unfit(misnamed(parts, self.key_name())));
        }
        self.skip();
        Ok(())
    }

    /// A word of this width.
    #[tactic(auto, unfolding(crate::specs::Typed::bits_word))]
    pub(crate) fn take_word(&mut self, alloc: Global, width: u64) -> Result<Bits, Fault<Why>>
        ensures { Reads (spec.bits_word width self.old) result self.new }
    {
        let Some(token) = self.first() else {
            return Err(Fault::Unfit(Why::WrongShape));
        };
        let word = token_word(alloc, width, &token)?;
        self.skip();
        Ok(word)
    }

    fn sees_null(&self) -> bool
        ensures { result ≡ tells spec.null_word false self.now }
    {
        match self.first() {
            Some(token) => token.kind().is_word() && is_null(token.text),
            None => false,
        }
    }

    fn sees_apart(&self) -> bool
        ensures { result ≡ tells spec.apart_word false self.now }
    {
        match self.first() {
            Some(token) => token.kind().is_word() && is_apart(token.text),
            None => false,
        }
    }

    /// The name of the field that the next token is.
    fn key_name(&self) -> Option<&'a [u8]>
        ensures { option_map (λ name. name.now) result ≡ told_by spec.key_name self.now }
    {
        match self.first() {
            Some(token) => {
                if token.is_field() {
                    Some(token.text)
                } else {
                    None
                }
            }
            None => None,
        }
    }

    /// The name of the variant that the next token is.
    pub(crate) fn call_name(&self) -> Option<&'a [u8]>
        ensures { option_map (λ name. name.now) result ≡ told_by spec.call_name self.now }
    {
        match self.first() {
            Some(token) => {
                if token.is_variant() {
                    Some(token.text)
                } else {
                    None
                }
            }
            None => None,
        }
    }
}

/// Whether a name is the one that is asked for.
fn is_named(name: &[u8], found: Option<&[u8]>) -> bool
    ensures { result ≡ spec.is_named name.now (option_map (λ other. other.now) found.entry) }
{
    match found {
        Some(other) => other == name,
        None => false,
    }
}

/// Why a name is not the one that is asked for.
fn misnamed(parts: &[Part], found: Option<&[u8]>) -> Why
    ensures { result ≡ spec.misnamed (plain_parts parts.now) (option_map (λ name. name.now) found.entry) }
{
    match found {
        Some(name) => {
            if has_name(parts, name) {
                Why::WrongShape
            } else {
                Why::UnknownField
            }
        }
        None => Why::WrongShape,
    }
}

/// Whether one of these parts has this name.
fn has_name(parts: &[Part], name: &[u8]) -> bool
    ensures { result ≡ spec.has_name (plain_parts parts.now) name.now }
{
    'parts: for part in parts {
        if name == part.name.as_bytes() {
            return true;
        }
    }
    false
}

/// The word of this width that a token is.
#[tactic(auto, unfolding(crate::specs::Typed::token_word))]
fn token_word(alloc: Global, width: u64, token: &Token<'_>) -> Result<Bits, Fault<Why>>
    ensures { Judges (spec.token_word width (token_view token.now)) result }
{
    if !token.kind().is_word() {
        return Err(Fault::Unfit(Why::WrongShape));
    }
    match number_of(token.text) {
        Some(number) => decimal_word(alloc, width, number),
        None => digits_word(alloc, width, token.text),
    }
}

/// The word of this width of a number in decimal.
fn decimal_word(alloc: Global, width: u64, number: u128) -> Result<Bits, Fault<Why>>
    ensures { Judges (spec.decimal_word width number) result }
{
    if width > WIDEST_DECIMAL {
        return Err(Fault::Unfit(Why::WrongShape));
    }
    match Bits::from_number(alloc, width as usize, number)? {
        Some(word) => Ok(word),
        None => Err(Fault::Unfit(Why::OutOfRange)),
    }
}

/// The word of this width of a number in hexadecimal.
fn digits_word(alloc: Global, width: u64, text: &[u8]) -> Result<Bits, Fault<Why>>
    ensures { Judges (spec.digits_word width (words.hex_digits_of text.now)) result }
{
    let Some(digits) = hex_digits_of(text) else {
        return Err(Fault::Unfit(Why::WrongShape));
    };
    match Bits::from_hex(alloc, width as usize, digits) {
        Ok(word) => Ok(word),
        Err(BitsFault::Memory) => Err(Fault::Memory),
        Err(BitsFault::NotHex(_)) => Err(Fault::Unfit(Why::OutOfRange)),
        Err(BitsFault::TooWide(_)) => Err(Fault::Unfit(Why::OutOfRange)),
    }
}
