ghost use Rattle.std.specs.Prelude.{◌≡◌, ◌+◌, ◌^◌, ◌<◌, ◌≤◌, ◌↔◌, true, false, Some, length, take, drop, min, IsErr, IsOkAnd, IfOk, IfSome, IfNone, Contains, option_map};
ghost use Rattle.std.specs.Option.{option_copied};
ghost use Rattle.tydi_io.specs.Faults.{HasCause};
ghost use Rattle.tydi_io.specs.Store.{Finds, Pulls};
ghost use Rattle.tydi_io.specs.MemStore.{file_in, name_at, bytes_at, pull_count, store_at_first, store_after_start, store_after_pull};

use crate::calls::Calls;
use crate::failed::Failed;
use crate::started::Started;
use crate::store::Store;
use std::alloc::Global;
use std::marker::Model;
use tydi_base::{List, Memory, Text};

/// Files in memory, which give a few bytes at a time and fail exactly where they are to.
#[derive(Debug, Drop)]
pub struct MemStore {
    files: List<(Text, List<u8>)>,
    most: usize,
    calls: Calls,
    started: Option<Started>,
}

impl Model for MemStore {
    ghost use Rattle.std.specs.Prelude.{◌≤◌};
    ghost use Rattle.tydi_io.specs.MemStore.{MemStoreState};

    ghost Value = { MemStoreState };

    ghost use Rattle.tydi_io.specs.Started.{state_of, IsAnyStartedIn};

    ghost view = { state_of };

    ghost invariant = { λ s. (1 ≤ s.most) × IsAnyStartedIn s.files s.started };
}

impl MemStore {
    /// A store of these files, none of them started. Where two files have one name, the first counts. A pull gives at most
    /// `most` bytes. The calls of `start` and `pull` are numbered together from 0, and the number stays at the greatest `u64` once
    /// it is reached; a call fails exactly where its number is in `failing`. Nothing is copied, so memory is never missing.
    pub fn new(
        _alloc: Global,
        files: List<(Text, List<u8>)>,
        most: usize,
        failing: List<u64>,
    ) -> Result<MemStore, Memory>
        requires { 1 ≤ most }
        ensures { IsOkAnd result (λ store. store ≡ store_at_first files most failing) }
    {
        Ok(MemStore {
            files,
            most,
            calls: Calls::new(failing),
            started: None,
        })
    }

    /// The name of the started file, and `None` exactly where none is started.
    pub fn started(&self) -> Option<&str>
        ensures { option_copied result ≡ option_map (λ started. started.0) self.now.started }
    {
        let started = self.started?;
        let (name, _) = self.files.get(started.file)?;
        Some(name.as_str())
    }
}

impl Store for MemStore {
    ghost allowed = { λ _ _. true };

    ghost files = { λ store. Some (file_in store.files) };

    ghost started = { λ store. store.started };

    ghost faults = { λ store. store.faults };

    fn start(&mut self, name: &str) -> Result<bool, Failed>
        ensures fails { IsErr result ↔ Contains self.old.failing self.old.calls }
        ensures found { Finds (file_in self.old.files) name.now result }
        ensures state { self.new ≡ store_after_start self.old name.now result }
        ensures missing { IfOk result (λ found. found ≡ false → self.new.faults ≡ self.old.faults) }
        ensures cause { HasCause self.old.faults self.new.faults result }
    {
        let found = find_file(self.files.as_slice(), name);
        self.started = found.map(Started::at_first_byte);
        self.calls.count()?;
        Ok(found.is_some())
    }

    fn pull(&mut self, into: &mut [u8]) -> Result<usize, Failed>
        ensures fails { IsErr result ↔ Contains self.old.failing self.old.calls }
        ensures count { IfOk result (λ n. n ≡ pull_count self.old (length into.new)) }
        ensures state { self.new ≡ store_after_pull self.old result }
        ensures within { IfOk result (λ n. n ≤ length into.new) }
        ensures pulled { Pulls (file_in self.old.files) self.old.started self.new.started into.new result }
        ensures cause { HasCause self.old.faults self.new.faults result }
    {
        self.calls.count()?;
        let Some(started) = self.started else {
            return Ok(0);
        };
        let left = left_in(self.files.as_slice(), started);
        let count = copy_front(left, self.most, into);
        self.started = Some(Started {
            file: started.file,
            given: started.given + count,
        });
        Ok(count)
    }
}

/// The index of the first file of this name.
fn find_file(files: &[(Text, List<u8>)], name: &str) -> Option<usize>
    ensures missing { IfNone result (file_in files.now name.now ≡ None) }
    ensures there { IfSome result (λ file. file < length files.now) }
    ensures first { IfSome result (λ file. file_in files.now name.now ≡ Some (bytes_at files.now file)) }
    ensures named { IfSome result (λ file. name_at files.now file ≡ name.now) }
{
    for (index, file) in files.iter().enumerate() {
        if file.0.as_str() == name {
            return Some(index);
        }
    }
    None
}

/// The bytes of the started file that were not given yet.
fn left_in(files: &[(Text, List<u8>)], started: Started) -> &[u8]
    requires there { started.file < length files.now }
    requires within { started.given ≤ length (bytes_at files.now started.file) }
    ensures left { result.now ≡ drop started.given (bytes_at files.now started.file) }
    ensures fits { started.given + length result.now < 2 ^ 64 }
{
    let (_, bytes) = &files[started.file];
    &bytes.as_slice()[started.given..]
}

/// Copies the front of these bytes, at most so many, and says how many those are.
fn copy_front(bytes: &[u8], most: usize, into: &mut [u8]) -> usize
    ensures count { result ≡ min most (min (length into.new) (length bytes.now)) }
    ensures copied { take result into.new ≡ take result bytes.now }
{
    let count = most.min(into.len()).min(bytes.len());
    into[..count].copy_from_slice(&bytes[..count]);
    count
}
