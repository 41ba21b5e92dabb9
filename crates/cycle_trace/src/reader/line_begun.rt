ghost use Rattle.std.specs.Prelude.{◌≡◌, ◌≤◌, ◌+◌, ◌↔◌, ◌++◌, [], ℕ, List, length, IsTrue, OnOk, None};
ghost use Rattle.cycle_trace.specs.LineBegun.{Begins, IsLine};

use crate::row::form::RowForm;
use std::alloc::Global;
use tydi_base::Memory;

/// The line that is begun. One of the header is kept as it comes. For the rows there is room for the longest of them, which is taken
/// when the header ends; a longer line is judged only by its form.
#[derive(Drop)]
pub(crate) struct LineBegun {
    /// The bytes of a line that is not longer than any row.
    kept: Vec<u8>,
    /// The most bytes of a row, once rows are read.
    pub(crate) room: usize,
    /// How far a line that is longer than any row has the form of one.
    pub(crate) long: Option<RowForm>,
}

impl LineBegun {
    /// No line, and no room for rows.
    pub(crate) fn none(alloc: Global) -> LineBegun
        ensures line { Begins result [] }
        ensures long { result.long ≡ None }
    {
        LineBegun {
            kept: Vec::new(alloc),
            room: 0,
            long: None,
        }
    }

    /// Whether no byte of it has come.
    pub(crate) fn is_empty(&self) -> bool
        ensures { (line : List ℕ) → Begins self.now line → IsTrue result ↔ (line ≡ []) }
    {
        self.long.is_none() && self.kept.is_empty()
    }

    /// Its bytes; or how far it has the form of a row, where it is longer than any.
    pub(crate) fn bytes(&self) -> Result<&[u8], RowForm>
        ensures { (line : List ℕ) → Begins self.now line → IsLine self.now.room result line }
    {
        match self.long {
            None => Ok(self.kept.as_slice()),
            Some(form) => Err(form),
        }
    }

    /// The bytes of a line of the header.
    pub(crate) fn header_line(&self) -> &[u8]
        requires { self.now.long ≡ None }
        ensures { (line : List ℕ) → Begins self.now line → result.now ≡ line }
    {
        self.kept.as_slice()
    }

    /// Goes on with these bytes of a line of the header.
    pub(crate) fn extend(&mut self, bytes: &[u8]) -> Result<(), Memory>
        requires { self.old.long ≡ None }
        ensures line { (line : List ℕ) → Begins self.old line → OnOk result (Begins self.new (line ++ bytes.now)) }
        ensures long { self.new.long ≡ None }
        ensures room { self.new.room ≡ self.old.room }
    {
        self.kept.extend_from_slice(bytes)?;
        Ok(())
    }

    /// Goes on with these bytes of the line of a row. There is room for them, or they are not kept: it takes no memory.
    pub(crate) fn go_on(&mut self, bytes: &[u8])
        requires { (line : List ℕ) × Begins self.old line }
        ensures line { (line : List ℕ) → Begins self.old line → Begins self.new (line ++ bytes.now) }
        ensures room { self.new.room ≡ self.old.room }
    {
        if let Some(form) = self.long {
            self.long = Some(form.after_all(bytes));
        } else if self.has_room(bytes.len()) {
            self.keep(bytes);
        } else {
            let form = RowForm::Valid.after_all(self.kept.as_slice());
            self.long = Some(form.after_all(bytes));
        }
    }

    /// Whether so many bytes more are not more than those of the longest row.
    fn has_room(&self, more: usize) -> bool
        ensures { IsTrue result ↔ (length self.now.kept.items + more ≤ self.now.room) }
    {
        self.kept.len() <= self.room && more <= self.room - self.kept.len()
    }

    /// Keeps bytes for which there is room.
    fn keep(&mut self, bytes: &[u8])
        requires whole { self.old.long ≡ None }
        requires begins { (line : List ℕ) × Begins self.old line }
        requires room { length self.old.kept.items + length bytes.now ≤ self.old.room }
        ensures line { (line : List ℕ) → Begins self.old line → Begins self.new (line ++ bytes.now) }
        ensures room { self.new.room ≡ self.old.room }
    {
        if self.kept.extend_from_slice(bytes).is_err() {
            unreachable!()
        }
    }

    /// Ends the line.
    pub(crate) fn clear(&mut self)
        requires { (line : List ℕ) × Begins self.old line }
        ensures line { Begins self.new [] }
        ensures long { self.new.long ≡ None }
        ensures room { self.new.room ≡ self.old.room }
    {
        self.kept.clear();
        self.long = None;
    }

    /// Takes room for rows of at most so many bytes, where no line is begun.
    pub(crate) fn make_room(&mut self, room: usize) -> Result<(), Memory>
        requires none { Begins self.old [] }
        requires long { self.old.long ≡ None }
        ensures { OnOk result (Begins self.new [] × (self.new.room ≡ room)) }
    {
        self.kept.reserve(room)?;
        self.room = room;
        Ok(())
    }
}
