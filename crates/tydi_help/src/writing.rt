//! The texts of `tydi help` and `tydi help NAME`.

ghost use Rattle.std.specs.Prelude.{◌≡◌, ◌++◌, ◌≤◌, ◌-◌, List, ℕ, IfOk, OnOk, OnErr, length};
ghost use Rattle.tydi_base.specs.Writing.{StandsInFront};
ghost use Rattle.tydi_help.specs.Texts.{help_text, line_of, page_text, spaces};

use crate::command::Command;
use std::alloc::Global;
use tydi_base::{Each, List, Memory, Written, emit};

/// In the list of commands, the column behind `tydi ` at which each sentence begins, from 0.
const SENTENCE_COLUMN: usize = 50;

/// What `tydi help` writes: a line for each command, with its words and what it does. `Memory` comes where there is none for it.
pub fn help_text(alloc: Global) -> Result<List<u8>, Memory>
    ensures { IfOk result (λ text. text ≡ help_text) }
{
    let mut text = List::new(alloc);
    emit!(text; Each(&Command::ALL))?;
    Ok(text)
}

/// What `tydi help NAME` writes of the command of this name: its words, what it does, and its page. `Memory` comes where there is none for it.
pub fn page_text(alloc: Global, command: Command) -> Result<List<u8>, Memory>
    ensures { IfOk result (λ text. text ≡ page_text command) }
{
    let mut text = List::new(alloc);
    emit!(text; "tydi ", command.words(), "\n  ", command.sentence(), "\n\n", command.page())?;
    Ok(text)
}

/// A command is written as its line in the list.
impl Written for Command {
    ghost text = { line_of };

    fn write_to(&self, out: &mut List<u8>) -> Result<(), Memory> {
        let words = self.words();
        emit!(out; "tydi ", words, Spaces(SENTENCE_COLUMN.saturating_sub(words.len())), self.sentence(), "\n")
    }
}

/// So many spaces.
#[derive(Clone, Copy)]
struct Spaces(usize);

impl Written for Spaces {
    ghost text = { λ written. spaces written.0 };

    fn write_to(&self, out: &mut List<u8>) -> Result<(), Memory> {
        'spaces: for _ in 0..self.0 {
            out.push(b' ')?;
        }
        Ok(())
    }
}
