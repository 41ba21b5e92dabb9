//! Paths, and their texts with `.` or with `::` between the names.

ghost use Rattle.std.specs.Prelude.{
  ◌≡◌,
  ◌<◌,
  ◌≤◌,
  ◌++◌,
  [],
  ◌∷◌,
  IsTrue,
  IfOk,
  IfSome,
  IfNone,
  OnOk,
  OnErr,
  All,
  take,
  length,
  min,
};
ghost use Rattle.std.specs.List.{list_all};
ghost use Rattle.tydi_base.specs.Lengths.{most_bytes};
ghost use Rattle.tydi_base.specs.Name.{is_name};
ghost use Rattle.tydi_base.specs.Path as spec;

use crate::list::List;
use crate::memory::Memory;
use crate::name::Name;
use crate::pieces::first_piece;
use crate::try_clone::TryClone;
use std::alloc::Global;
use std::marker::Model;
use std::slice;

/// The byte between two names of a dotted path.
const POINT: u8 = b'.';

/// The byte that stands twice between two names of a path in TIL.
const COLON: u8 = b':';

/// A path (Tydi specification, paths): a list of names, which may be empty. Contracts see the list of their bytes.
#[derive(Debug, Eq, PartialOrd, Ord, Drop)]
pub struct Path {
    names: List<Name>,
}

impl Model for Path {
    ghost use Rattle.std.specs.Prelude.{List, ℕ, IsTrue};
    ghost use Rattle.std.specs.List.{list_all};
    ghost use Rattle.tydi_base.specs.Name.{is_name};

    ghost Value = { List (List ℕ) };

    ghost view = { λ path. path.names };

    ghost inverse = { λ names. record { names = names } };

    ghost invariant = { λ path. IsTrue (list_all is_name path.names) };
}

impl Path {
    /// The path that a text spells: the names between `::` where `colons` is true, else the names between `.`, where `-`
    /// is the empty path. `Ok(None)` exactly where it spells none. With `::` no text spells the empty path. `Memory` comes where
    /// there is none for the path.
    pub fn read(alloc: Global, text: &[u8], colons: bool) -> Result<Option<Path>, Memory>
        ensures { IfOk result (λ found. found ≡ spec.path_at colons text.now) }
    {
        if !colons && text == b"-".as_slice() {
            return Ok(Some(Path {
                names: List::new(alloc),
            }));
        }
        match read_names(alloc, text, colons)? {
            None => Ok(None),
            Some(names) => Ok(Some(Path { names })),
        }
    }

    /// The path that a text spells with `.` between the names, or with `-` for the empty path. `Ok(None)` exactly where
    /// it spells none. `Memory` comes where there is none for the path.
    pub fn read_dotted(alloc: Global, text: &[u8]) -> Result<Option<Path>, Memory>
        ensures { IfOk result (λ found. found ≡ spec.path_of text.now) }
    {
        Path::read(alloc, text, false)
    }

    /// Adds the text of the path at the end, with `::` between the names where `colons` is true, else with `.`. The empty
    /// path is `-`. After `Memory` the list is as before.
    pub fn write(&self, colons: bool, out: &mut List<u8>) -> Result<(), Memory>
        ensures ok { OnOk result (out.new ≡ out.old ++ spec.spelled_path colons self.now) }
        ensures err { OnErr result (out.new ≡ out.old) }
    {
        let len = out.len();
        let written = push_names(self.names.as_slice(), colons, out);
        if written.is_err() {
            out.truncate(len);
        }
        written
    }

    /// Adds the text of the path at the end, with `.` between the names. After `Memory` the list is as before.
    pub fn write_dotted(&self, out: &mut List<u8>) -> Result<(), Memory>
        ensures ok { OnOk result (out.new ≡ out.old ++ spec.path_text self.now) }
        ensures err { OnErr result (out.new ≡ out.old) }
    {
        self.write(false, out)
    }

    /// The empty path. It takes no memory.
    pub fn new(alloc: Global) -> Path
        ensures { result ≡ [] }
    {
        Path {
            names: List::new(alloc),
        }
    }

    /// The path of these names, from the outermost on. It takes no memory.
    pub fn from_names(names: List<Name>) -> Path
        ensures { result ≡ names }
    {
        are_names(names.as_slice());
        Path { names }
    }

    /// Adds a name at the end. After `Memory` the path is as before.
    pub fn push(&mut self, name: Name) -> Result<(), Memory>
        ensures ok { OnOk result (self.new ≡ self.old ++ name ∷ []) }
        ensures err { OnErr result (self.new ≡ self.old) }
    {
        are_names(slice::from_ref(&name));
        self.names.push(name)
    }

    /// Its names, from the outermost on.
    pub fn names(&self) -> &[Name]
        ensures value { result.now ≡ self.now }
        ensures each { All (λ name. IsTrue (is_name name)) self.now }
    {
        self.names.as_slice()
    }

    /// How many bytes its text with `.` between the names has; `u64::MAX` where they are more, which no memory holds.
    pub fn dotted_length(&self) -> u64
        ensures { result ≡ min (length (spec.path_text self.now)) most_bytes }
    {
        let Some((first, others)) = self.names().split_first() else {
            return 1;
        };
        let mut length = first.as_bytes().len() as u64;
        'names: for name in others {
            length = length.saturating_add(1);
            length = length.saturating_add(name.as_bytes().len() as u64);
        }
        length
    }
}

impl TryClone for Path {
    fn try_clone(&self, alloc: Global) -> Result<Path, Memory> {
        Ok(Path {
            names: self.names.try_clone(alloc)?,
        })
    }
}

/// The law of reading and spelling: each path has one text, and is read from nothing else.
pub fn paths_are_read_as_spelled()
    ensures spelled { spec.PathsAreReadAsSpelled }
    ensures read { spec.PathsAreSpelledAsRead }
    ensures spelled_with_colons { spec.ColonPathsAreReadAsSpelled }
    ensures read_with_colons { spec.ColonPathsAreSpelledAsRead }
{}

// Names are names, as their type has it. It runs for the proof alone.
fn are_names(names: &[Name])
    ensures { IsTrue (list_all is_name names.now) }
{
    'names: for name in names {
        name.as_bytes();
    }
}

/// The names between the separators of a text. `Ok(None)` exactly where a piece is no name.
fn read_names(alloc: Global, text: &[u8], colons: bool) -> Result<Option<List<Name>>, Memory>
    ensures { IfOk result (λ found. found ≡ spec.names_of colons text.now) }
{
    let mut names = List::new(alloc);
    let mut rest = text;
    while let Some((piece, after)) = path_piece(rest, colons) {
        let Some(name) = Name::read(alloc, piece)? else {
            return Ok(None);
        };
        names.push(name)?;
        rest = after;
    }
    let Some(name) = Name::read(alloc, rest)? else {
        return Ok(None);
    };
    names.push(name)?;
    Ok(Some(names))
}

/// The text up to its first separator, and what follows that. None exactly where it has none.
fn path_piece(text: &[u8], colons: bool) -> Option<(&[u8], &[u8])>
    ensures some { IfSome result (λ parts. spec.path_pieces colons text.now ≡ parts.0.now ∷ spec.path_pieces colons parts.1.now) }
    ensures shorter { IfSome result (λ parts. length parts.1.now < length text.now) }
    ensures none { IfNone result (spec.path_pieces colons text.now ≡ text.now ∷ []) }
{
    if colons {
        first_colon_piece(text)
    } else {
        first_piece(text, POINT)
    }
}

/// The text up to its first `::`, and what follows that. None exactly where it has none.
fn first_colon_piece(text: &[u8]) -> Option<(&[u8], &[u8])>
    ensures some { IfSome result (λ parts. spec.colon_pieces text.now ≡ parts.0.now ∷ spec.colon_pieces parts.1.now) }
    ensures shorter { IfSome result (λ parts. length parts.1.now < length text.now) }
    ensures none { IfNone result (spec.colon_pieces text.now ≡ text.now ∷ []) }
{
    for at in 0..text.len() {
        if begins_with_colons(&text[at..]) {
            return Some((&text[..at], &text[at + 2..]));
        }
    }
    None
}

fn begins_with_colons(text: &[u8]) -> bool
    ensures value { result ≡ spec.begins_with_colons text.now }
    ensures long { IsTrue result → 2 ≤ length text.now }
{
    match text {
        [COLON, COLON, ..] => true,
        _ => false,
    }
}

/// Adds the text of these names. After `Memory` some of it may stand at the end.
fn push_names(names: &[Name], colons: bool, out: &mut List<u8>) -> Result<(), Memory>
    ensures ok { OnOk result (out.new ≡ out.old ++ spec.spelled_path colons names.now) }
    ensures err { OnErr result (take (length out.old) out.new ≡ out.old) }
{
    let [first, others @ ..] = names else {
        return out.extend_from_slice(b"-");
    };
    out.extend_from_slice(first.as_bytes())?;
    for name in others {
        push_name(name, colons, out)?;
    }
    Ok(())
}

/// Adds the separator and a name. After `Memory` the separator may stand at the end.
fn push_name(name: &Name, colons: bool, out: &mut List<u8>) -> Result<(), Memory>
    ensures ok { OnOk result (out.new ≡ out.old ++ (spec.separator_of colons ++ name.now)) }
    ensures err { OnErr result (take (length out.old) out.new ≡ out.old) }
{
    out.extend_from_slice(separator(colons))?;
    out.extend_from_slice(name.as_bytes())
}

fn separator(colons: bool) -> &'static [u8]
    ensures { result.now ≡ spec.separator_of colons }
{
    if colons {
        b"::".as_slice()
    } else {
        b".".as_slice()
    }
}
