//! Names: ASCII letters, digits and `_`.

ghost use Rattle.std.specs.Prelude.{◌≡◌, IsTrue, IfOk, OnErr};
ghost use Rattle.std.specs.List.{list_all};
ghost use Rattle.tydi_base.specs.Name as spec;

use crate::few_bytes::FewBytes;
use crate::list::List;
use crate::memory::Memory;
use crate::try_clone::TryClone;
use std::alloc::Global;
use std::marker::Model;
use std::rc::Rc;

/// The byte that may join the words of a name.
const UNDERSCORE: u8 = b'_';

/// A name (Tydi specification, names): ASCII letters, digits and `_`, with a letter first, no two `_` together, no `_`
/// last, and not one of the words `Null`, `Bits`, `Group`, `Union` and `Stream`. Contracts see its bytes. One of up to 15 bytes takes
/// no memory. A copy shares its bytes with it, so that it takes no memory either.
#[derive(Debug, Drop)]
pub struct Name {
    letters: Letters,
}

/// The bytes of a name: few in place, or more in a block that its copies share.
#[derive(Debug, Drop)]
enum Letters {
    Few(FewBytes),
    Many(Rc<List<u8>>),
}

// trees hold a name for each name of a text, so that its size counts
const _: () = prove!(size_of::<Name>() == 24);

impl Model for Name {
    ghost use Rattle.std.specs.Prelude.{List, ℕ, IsTrue};
    ghost use Rattle.tydi_base.specs.Name.{is_name, letters_of};

    ghost Value = { List ℕ };

    ghost view = { λ name. letters_of name.letters };

    ghost invariant = { λ name. IsTrue (is_name (letters_of name.letters)) };
}

impl Name {
    /// The name that a text is. `Ok(None)` exactly where it is none, which takes no memory.
    pub fn read(alloc: Global, text: &[u8]) -> Result<Option<Name>, Memory>
        ensures ok { IfOk result (λ found. found ≡ spec.name_of text.now) }
        ensures err { OnErr result (IsTrue (spec.is_name text.now)) }
    {
        if !is_name(text) {
            return Ok(None);
        }
        let letters = Letters::new(alloc, text)?;
        Ok(Some(Name { letters }))
    }

    /// Its bytes.
    pub fn as_bytes(&self) -> &[u8]
        ensures value { result.now ≡ self.now }
        ensures name { IsTrue (spec.is_name self.now) }
    {
        self.letters.as_slice()
    }
}

impl Letters {
    fn new(alloc: Global, text: &[u8]) -> Result<Letters, Memory>
        ensures { IfOk result (λ letters. spec.letters_of letters ≡ text.now) }
    {
        if let Some(few) = FewBytes::new(text) {
            return Ok(Letters::Few(few));
        }
        let many = List::from_slice(alloc, text)?;
        Ok(Letters::Many(Rc::new(alloc, many)?))
    }

    fn as_slice(&self) -> &[u8]
        ensures { result.now ≡ spec.letters_of self.now }
    {
        match self {
            Letters::Few(few) => few.as_slice(),
            Letters::Many(many) => many.as_slice(),
        }
    }

    /// The same bytes, in place again or with one more owner of their block.
    fn copied(&self, _alloc: Global) -> Result<Letters, Memory>
        ensures { IfOk result (λ letters. spec.letters_of letters ≡ spec.letters_of self.now) }
    {
        match self {
            Letters::Few(few) => Ok(Letters::Few(few.copied())),
            Letters::Many(many) => Ok(Letters::Many(many.clone()?)),
        }
    }
}

impl TryClone for Name {
    fn try_clone(&self, alloc: Global) -> Result<Name, Memory> {
        Ok(Name {
            letters: self.letters.copied(alloc)?,
        })
    }
}

/// Whether a text is a name: it has the form of one, and is no reserved word.
pub fn is_name(text: &[u8]) -> bool
    ensures { result ≡ spec.is_name text.now }
{
    has_name_form(text) && !is_reserved(text)
}

/// Whether a text has the form of a name; a reserved word may have it too.
pub fn has_name_form(text: &[u8]) -> bool
    ensures { result ≡ spec.has_name_form text.now }
{
    begins_with_letter(text)
        && has_name_bytes(text)
        && !has_double_underscore(text)
        && !ends_in_underscore(text)
}

fn begins_with_letter(text: &[u8]) -> bool
    ensures { result ≡ spec.begins_with_letter text.now }
{
    match text {
        [] => false,
        [first, ..] => first.is_ascii_alphabetic(),
    }
}

fn has_name_bytes(text: &[u8]) -> bool
    ensures { result ≡ list_all spec.is_name_byte text.now }
{
    text.iter()
        .all(|byte| byte.is_ascii_alphanumeric() || *byte == UNDERSCORE)
}

fn has_double_underscore(text: &[u8]) -> bool
    ensures { result ≡ spec.has_double_underscore text.now }
{
    let mut previous = 0;
    for byte in text {
        if previous == UNDERSCORE && *byte == UNDERSCORE {
            return true;
        }
        previous = *byte;
    }
    false
}

fn ends_in_underscore(text: &[u8]) -> bool
    ensures { result ≡ spec.ends_in_underscore text.now }
{
    match text {
        [] => false,
        [.., last] => *last == UNDERSCORE,
    }
}

fn is_reserved(text: &[u8]) -> bool
    ensures { result ≡ spec.is_reserved text.now }
{
    text == b"Null".as_slice()
        || text == b"Bits".as_slice()
        || text == b"Group".as_slice()
        || text == b"Union".as_slice()
        || text == b"Stream".as_slice()
}
