ghost use Rattle.std.specs.Prelude.{◌≡◌, ◌-◌, ◌<◌, ◌≤◌, ◌^◌, ◌⊎◌, IsTrue};
ghost use Rattle.tydi_io.specs.Faults.{Rose};
ghost use Rattle.tydi_tool.specs.Ask.{IsAsked};
ghost use Rattle.tydi_tool.specs.Loading.{RepliesToError};
ghost use Rattle.tydi_tool.specs.Outcome.{read_fault_line};
ghost use Rattle.tydi_tool.specs.declared.answer.Answer.TheVariants as answers;
ghost use Rattle.tydi_tool.specs.declared.answer.Reply.TheVariants as replies;

use crate::answer::Reply;
use crate::gather::{Gather, TextReader};
use crate::loading::{LoadError, load};
use crate::reader::Reader;
use crate::refusal::{Detail, fault_line, refused};
use std::alloc::Global;
use tydi_base::{Memory, Text};
use tydi_io::Store;

/// Reads the file of this word with a reader that was fed nothing yet. The error is the reply where the file is lacking, a call
/// fails or its bytes are refused.
pub(crate) fn ask<S: Store, X, R: Reader<X> + Drop>(
    alloc: Global,
    store: &mut S,
    word: &Text,
    limit: usize,
    reader: R,
) -> Result<X, Reply>
    requires allowed { IsTrue (S.allowed store.old word.now) }
    requires limit { limit < 2 ^ 32 - 2 }
    requires new { R.fed reader ≡ 0 }
    requires stands { R.stands reader }
    ensures allowed { S.allowed store.new ≡ S.allowed store.old }
    ensures files { S.files store.new ≡ S.files store.old }
    ensures asked { IsAsked (S.files store.old) (record { word = word.now; limit = limit }) (R.reads reader) (S.started store.old) (S.started store.new)
        (Rose (S.faults store.old) (S.faults store.new)) result }
    ensures later { S.faults store.old ≤ S.faults store.new }
{
    let mut reader = reader;
    match load(alloc, store, word, limit, &mut reader) {
        Ok(()) => reader.finish(alloc),
        Err(error) => Err(reply_to_error(alloc, word, error)),
    }
}

/// Reads the text of the file of this word as a whole.
pub(crate) fn ask_text<S: Store, X, T: TextReader<X> + Drop>(
    alloc: Global,
    store: &mut S,
    word: &Text,
    limit: usize,
    text: T,
) -> Result<X, Reply>
    requires allowed { IsTrue (S.allowed store.old word.now) }
    requires limit { limit < 2 ^ 32 - 2 }
    ensures allowed { S.allowed store.new ≡ S.allowed store.old }
    ensures files { S.files store.new ≡ S.files store.old }
    ensures asked { IsAsked (S.files store.old) (record { word = word.now; limit = limit }) (T.reads text) (S.started store.old) (S.started store.new)
        (Rose (S.faults store.old) (S.faults store.new)) result }
    ensures later { S.faults store.old ≤ S.faults store.new }
{
    ask(alloc, store, word, limit, Gather::new(alloc, text))
}

/// The reply where a file was not loaded.
fn reply_to_error(alloc: Global, word: &Text, error: LoadError) -> Reply
    ensures { RepliesToError word.now error result }
{
    match error {
        LoadError::NoFile => refused(alloc, "NoFile", &[Detail::Word(word)]),
        LoadError::TooLong => refused(alloc, "TooLong", &[Detail::Word(word)]),
        LoadError::ReadFault => read_failed(alloc, word),
        LoadError::Memory => Reply::Memory,
    }
}

/// The reply where a call of the store failed over the file of this word.
fn read_failed(alloc: Global, word: &Text) -> Reply
    ensures { (result ≡ replies.ReadFault (read_fault_line word.now)) ⊎ (result ≡ replies.Memory) }
{
    match fault_line(alloc, "ReadFault", &[Detail::Word(word)]) {
        Ok(line) => Reply::ReadFault(line),
        Err(Memory) => Reply::Memory,
    }
}
