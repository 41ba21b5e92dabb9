//! The program: the words, the system's files and the standard streams, handed to `run`; the exit status is that of the run.
#![tactic(auto)]

ghost use Rattle.std.specs.Prelude.{◌≡◌, drop, map, string_bytes, IfOk, IfErr};
ghost use Rattle.std.specs.IoError.{error_kind};
ghost use Rattle.std.specs.Process.{exit_status};
ghost use Rattle.std.specs.Vec.Iter.{into_iter_items};
ghost use Rattle.tydi.specs.Exit.{EndsAsRun, EndsByWords, IsWithoutWords};
ghost use Rattle.tydi_io.specs.Faults.{Rose};
ghost use Rattle.tydi_tool.specs.Outcome.{exit_code};
ghost use Rattle.tydi_tool.specs.Run.{Runs};
ghost use Rattle.tydi_tool.specs.Words.{Allows, request_of};
ghost use Rattle.tydi_tool.specs.declared.status.Status.TheVariants as statuses;

use std::alloc::Global;
use std::env::{self, Args};
use std::io::{Error, ErrorKind};
use std::process::ExitCode;
use std::rt::Env;
use tydi_base::{List, Text};
use tydi_io::{FileStore, Sink, Store, StreamSink};
use tydi_tool::{Status, run};

fn main(rt: HostRuntime) -> ExitCode {
    match words_after_name(&rt) {
        Ok(words) => run_with(&rt, words.as_slice()),
        Err(status) => exit_of(status),
    }
}

/// The exit status that a run ends with.
fn exit_of(status: Status) -> ExitCode
    ensures { exit_status result ≡ exit_code status }
{
    ExitCode::from(status.number())
}

/// Runs the tool over the system's files and the standard streams, and answers the exit status. It is 2 only where the words spell
/// no command; there it is 2, or 4 where the line could not be written.
fn run_with(rt: &HostRuntime, words: &[Text]) -> ExitCode
    ensures { EndsByWords (request_of words.now) (exit_status result) }
{
    let mut store = FileStore::new(rt);
    let mut out = StreamSink::new(rt.stdout());
    let mut err = StreamSink::new(rt.stderr());
    exit_of_run(rt.alloc(), words, &mut store, &mut out, &mut err)
}

/// Runs the tool over this store and these sinks, and answers the exit status: that of the run, which reads from the store, writes
/// its answer to out, and the line of an error to err.
fn exit_of_run<S: Store, O: Sink, E: Sink>(
    alloc: Global,
    words: &[Text],
    store: &mut S,
    out: &mut O,
    err: &mut E,
) -> ExitCode
    requires { Allows (S.allowed store.old) (request_of words.now) }
    ensures run { EndsAsRun (λ status. Runs (Rose (S.faults store.old) (S.faults store.new)) (Rose (O.faults out.old) (O.faults out.new))
        (Rose (E.faults err.old) (E.faults err.new)) (request_of words.now) (S.files store.old) (S.started store.old) (S.started store.new)
        status (O.taken out.old) (O.taken out.new) (E.taken err.old) (E.taken err.new)) (exit_status result) }
    ensures words { EndsByWords (request_of words.now) (exit_status result) }
{
    exit_of(run(alloc, words, store, out, err))
}

/// The words after the program's name. A word that is no text ends the program as Usage.
fn words_after_name(rt: &(impl Env + AllocGlobal)) -> Result<List<Text>, Status>
    ensures { IfErr result IsWithoutWords }
{
    match env::args(rt) {
        Ok(words) => texts_after_first(rt.alloc(), words),
        Err(error) => Err(status_of_words(&error)),
    }
}

/// The words after the first as texts, each as it is.
fn texts_after_first(alloc: Global, words: Args) -> Result<List<Text>, Status>
    ensures all { IfOk result (λ texts. texts ≡ map string_bytes (drop 1 (into_iter_items words))) }
    ensures memory { IfErr result (λ status. status ≡ statuses.Memory) }
{
    let mut words = words;
    let _name = words.next();
    let mut texts = List::new(alloc);
    'words: for word in words {
        if texts.push(Text::from_string(word)).is_err() {
            return Err(Status::Memory);
        }
    }
    Ok(texts)
}

/// The status where the words could not be had.
fn status_of_words(error: &Error) -> Status
    ensures memory { error_kind error.now ≡ ErrorKind.OutOfMemory → result ≡ statuses.Memory }
    ensures no_text { (error_kind error.now ≡ ErrorKind.OutOfMemory → ⊥) → result ≡ statuses.Usage }
{
    if error.kind() == ErrorKind::OutOfMemory {
        Status::Memory
    } else {
        Status::Usage
    }
}
