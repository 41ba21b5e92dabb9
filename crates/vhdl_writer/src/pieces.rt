//! The text of a design, whose pieces are made one after another.

ghost use Rattle.std.specs.Prelude.{◌≡◌, ◌<◌, ◌+◌, ◌++◌, length, IfOk, OnOk};
ghost use Rattle.vhdl_writer.specs.Designs as spec;
ghost use Rattle.vhdl_writer.specs.Designs.{design_text, text_left};

use crate::directives::{first_directive, has_directives, last_directive};
use std::alloc::Global;
use tydi_base::{List, Memory, emit};
use vhdl_text::{Arch, Language, print_in};

/// The rest of the text of entities and architectures. Each piece is the text of one streamlet's, or a directive of Verilog.
#[derive(Drop)]
pub struct DesignPieces {
    language: Language,
    archs: List<Arch>,
    /// Whether the directive in front of all modules is still to come.
    first: bool,
    /// The number of those whose text was made.
    next: usize,
    /// Whether the directive behind all modules is still to come.
    last: bool,
}

impl DesignPieces {
    /// The whole text of these entities and architectures in this language.
    pub(crate) fn new(language: Language, archs: List<Arch>) -> DesignPieces
        ensures { text_left result ≡ design_text language archs }
    {
        let directives = has_directives(language);
        DesignPieces {
            language,
            archs,
            first: directives,
            next: 0,
            last: directives,
        }
    }

    /// Makes the next piece, in the place of the last one. It is empty exactly where nothing is left. After `Memory` the same piece comes
    /// next.
    pub fn next(&mut self, alloc: Global, piece: &mut List<u8>) -> Result<(), Memory>
        ensures made { OnOk result (text_left self.old ≡ piece.new ++ text_left self.new) }
        ensures some { OnOk result (0 < length (text_left self.old) → 0 < length piece.new) }
    {
        if self.first {
            *piece = text_of(alloc, first_directive())?;
            self.first = false;
            return Ok(());
        }
        match self.archs.get(self.next) {
            Some(arch) => {
                *piece = print_in(alloc, self.language, arch)?;
                self.next = after(self.next, self.archs.len());
            }
            None => {
                *piece = text_of(alloc, where_left(self.last, last_directive()))?;
                self.last = false;
            }
        }
        Ok(())
    }
}

/// A directive that is still to come; nothing where it is not.
fn where_left(left: bool, directive: &str) -> &str
    ensures { result.now ≡ spec.directive_left left directive.now }
{
    if left { directive } else { "" }
}

/// These bytes as a text of their own.
fn text_of(alloc: Global, part: &str) -> Result<List<u8>, Memory>
    ensures { IfOk result (λ text. text ≡ part.now) }
{
    let mut text = List::new(alloc);
    emit!(text; part)?;
    Ok(text)
}

/// The number after this one, among so many.
fn after(number: usize, count: usize) -> usize
    ensures { number < count → result ≡ number + 1 }
{
    if number < count { number + 1 } else { number }
}

/// The text of a design, and how many bytes it has.
#[derive(Drop)]
pub struct DesignText {
    pub pieces: DesignPieces,
    pub length: u64,
}
