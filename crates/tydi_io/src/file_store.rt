ghost use Rattle.std.specs.Prelude.{◌≡◌, ◌≤◌, ◌↔◌, true, false, Some, None, Ok, length, IsTrue, IfOk};
ghost use Rattle.std.specs.IoError.{error_kind};
ghost use Rattle.std.specs.Io.KnownBytes.{ReadConsumes};
ghost use Rattle.tydi_io.specs.Faults.{Rose, HasCause, one_more, faults_after};
ghost use Rattle.tydi_io.specs.FileStore.{has_started};

use crate::failed::Failed;
use crate::store::Store;
use std::fs;
use std::io::{Error, ErrorKind, Read};
use std::marker::Model;
use std::rt::Files;

/// The system's files, by their paths. As a `Store` it does not report what they hold. An error of the system is `Failed`,
/// but a missing file is an answer. A folder may be started, and its pull fails.
#[derive(Drop)]
pub struct FileStore<'a, R: Files> {
    files: &'a R,
    started: Option<R::File>,
    faults: u64,
}

impl<'a, R: Files> Model for FileStore<'a, R> {
    ghost use Rattle.std.specs.Prelude.{is_some, option_and_then};
    ghost use Rattle.tydi_io.specs.FileStore.{FileStoreState};

    ghost Value = { FileStoreState };

    ghost view = { λ s. record {
      is_started = is_some s.started;
      left = option_and_then R.File.remaining s.started;
      faults = s.faults;
    } };
}

impl<'a, R: Files> FileStore<'a, R> {
    /// A store over these files, none of them started.
    pub fn new(files: &'a R) -> FileStore<'a, R>
        ensures { result ≡ record { is_started = false; left = None; faults = 0 } }
    {
        FileStore {
            files,
            started: None,
            faults: 0,
        }
    }

    /// Counts a failed call.
    fn fault(&mut self) -> Failed
        ensures state { self.new ≡ record self.old { faults = one_more self.old.faults } }
        ensures later { self.old.faults ≤ self.new.faults }
        ensures rose { Rose self.old.faults self.new.faults }
    {
        self.faults = self.faults.saturating_add(1);
        Failed
    }
}

impl<'a, R: Files> Store for FileStore<'a, R> {
    ghost allowed = { λ _ _. true };

    ghost files = { λ _. None };

    ghost started = { λ _. None };

    ghost faults = { λ store. store.faults };

    fn start(&mut self, name: &str) -> Result<bool, Failed>
        ensures started { self.new.is_started ≡ has_started result }
        ensures faults { self.new.faults ≡ faults_after self.old.faults result }
        ensures missing { IfOk result (λ found. found ≡ false → self.new.faults ≡ self.old.faults) }
        ensures cause { HasCause self.old.faults self.new.faults result }
    {
        self.started = None;
        match fs::open(self.files, name) {
            Ok(file) => {
                self.started = Some(file);
                Ok(true)
            }
            Err(error) if is_missing(&error) => Ok(false),
            Err(_) => Err(self.fault()),
        }
    }

    fn pull(&mut self, into: &mut [u8]) -> Result<usize, Failed>
        ensures none { self.old.is_started ≡ false → result ≡ Ok 0 }
        ensures within { IfOk result (λ n. n ≤ length into.new) }
        ensures started { self.new.is_started ≡ self.old.is_started }

        // The bytes that the reader gives are passed on unchanged.
        ensures bytes { ReadConsumes self.old.left self.new.left result into.new }
        ensures faults { self.new.faults ≡ faults_after self.old.faults result }
        ensures cause { HasCause self.old.faults self.new.faults result }
    {
        let Some(file) = &mut self.started else {
            return Ok(0);
        };
        match file.read(into) {
            Ok(count) => Ok(count),
            Err(_) => Err(self.fault()),
        }
    }
}

/// Whether the system says that there is no such file. Any other error, for instance a file that may not be read, is a failure.
fn is_missing(error: &Error) -> bool
    ensures { IsTrue result ↔ (error_kind error.now ≡ ErrorKind.NotFound) }
{
    error.kind() == ErrorKind::NotFound
}
