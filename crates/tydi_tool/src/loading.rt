ghost use Rattle.std.specs.Prelude.{◌≡◌, ℕ, ◌+◌, ◌-◌, ◌<◌, ◌≤◌, ◌^◌, List, length, vec_len, IsTrue, IfSome, IfOk, OnOk};
ghost use Rattle.tydi_tool.specs.Loading.{Loads, ReadsFaults, IsAtStart, Feeds};

use crate::reader::Reader;
use std::alloc::Global;
use tydi_base::{Memory, Text};
use tydi_io::Store;

/// Why a file was not loaded.
#[derive(Clone, Copy, Debug, PartialEq, Eq)]
pub enum LoadError {
    /// The store has no such file.
    NoFile,
    /// The file has more bytes than its limit.
    TooLong,
    /// A call of the store failed.
    ReadFault,
    /// There was no memory.
    Memory,
}

/// Starts the file, pulls it to its end, or to one byte past its limit, and feeds what comes to the reader.
pub(crate) fn load<S: Store, X, R: Reader<X>>(
    alloc: Global,
    store: &mut S,
    word: &Text,
    limit: usize,
    reader: &mut R,
) -> Result<(), LoadError>
    requires allowed { IsTrue (S.allowed store.old word.now) }
    requires limit { limit < 2 ^ 32 - 2 }
    requires new { R.fed reader.old ≡ 0 }
    requires stands { R.stands reader.old }
    ensures allowed { S.allowed store.new ≡ S.allowed store.old }
    ensures files { S.files store.new ≡ S.files store.old }
    ensures loads { Loads (S.files store.old) (record { word = word.now; limit = limit }) (S.started store.new)
        (R.reads reader.old) (R.reads reader.new) result }
    ensures fed { OnOk result (R.fed reader.new ≤ limit) }
    ensures stands { OnOk result (R.stands reader.new) }
    ensures cause { ReadsFaults (S.faults store.old) (S.faults store.new) result }
{
    match store.start(word.as_str()) {
        Ok(true) => pull_all(alloc, store, limit, reader),
        Ok(false) => Err(LoadError::NoFile),
        Err(_) => Err(LoadError::ReadFault),
    }
}

/// Pulls the started file to its end, or to one byte past the limit.
fn pull_all<S: Store, X, R: Reader<X>>(
    alloc: Global,
    store: &mut S,
    limit: usize,
    reader: &mut R,
) -> Result<(), LoadError>
    requires limit { limit < 2 ^ 32 - 2 }
    requires new { R.fed reader.old ≡ 0 }
    requires stands { R.stands reader.old }
    ensures allowed { S.allowed store.new ≡ S.allowed store.old }
    ensures files { S.files store.new ≡ S.files store.old }
    ensures loads { (word : List ℕ) → IfSome (S.files store.old) (λ known. IsAtStart known word (S.started store.old)) →
        Loads (S.files store.old) (record { word = word; limit = limit }) (S.started store.new)
        (R.reads reader.old) (R.reads reader.new) result }
    ensures fed { OnOk result (R.fed reader.new ≤ limit) }
    ensures stands { OnOk result (R.stands reader.new) }
    ensures cause { ReadsFaults (S.faults store.old) (S.faults store.new) result }
{
    let Ok(mut buffer) = buffer_of(alloc) else {
        return Err(LoadError::Memory);
    };
    let piece = buffer.as_mut_slice();
    let mut given = 0;
    'pulls: while given <= limit {
        let room = piece.len().min(limit + 1 - given);
        match pull_piece(alloc, store, &mut piece[..room], reader) {
            Ok(0) => return Ok(()),
            Ok(count) => given += count,
            Err(error) => return Err(error),
        }
    }
    Err(LoadError::TooLong)
}

/// Room for one pull.
fn buffer_of(alloc: Global) -> Result<Vec<u8>, Memory>
    ensures { IfOk result (λ buffer. vec_len buffer ≡ 65536) }
{
    Ok(vec![in alloc; 0u8; 65536]?)
}

/// Pulls the next bytes and feeds them. Answers how many came, 0 only at the end.
fn pull_piece<S: Store, X, R: Reader<X>>(
    alloc: Global,
    store: &mut S,
    piece: &mut [u8],
    reader: &mut R,
) -> Result<usize, LoadError>
    requires room { 0 < length piece.old }
    requires fits { R.fed reader.old + length piece.old < 2 ^ 32 - 1 }
    requires stands { R.stands reader.old }
    ensures allowed { S.allowed store.new ≡ S.allowed store.old }
    ensures files { S.files store.new ≡ S.files store.old }
    ensures feeds { Feeds (S.files store.old) (S.started store.old) (S.started store.new) (R.reads reader.old) (R.reads reader.new)
        (length piece.new) result }
    ensures fed { IfOk result (λ count. R.fed reader.new ≡ R.fed reader.old + count) }
    ensures within { IfOk result (λ count. count ≤ length piece.new) }
    ensures stands { OnOk result (R.stands reader.new) }
    ensures cause { ReadsFaults (S.faults store.old) (S.faults store.new) result }
{
    match store.pull(piece) {
        Ok(count) => match reader.feed(alloc, &piece[..count]) {
            Ok(()) => Ok(count),
            Err(Memory) => Err(LoadError::Memory),
        },
        Err(_) => Err(LoadError::ReadFault),
    }
}
