ghost use Rattle.std.specs.Prelude.{◌≡◌, ◌<◌, ◌≤◌, length, take, IsOk, OnOk, OnErr};
ghost use Rattle.tydi_io.specs.Faults.{Rose, HasCause};
ghost use Rattle.tydi_tool.specs.Delivery.{Adds, AddsFront, Writes, WritesPiece, TakesLine, Delivers, DeliversText};

use crate::answer::{Answer, Reply};
use crate::output::Output;
use crate::status::Status;
use std::alloc::Global;
use tydi_base::{List, Memory};
use tydi_io::{Failed, Sink};

/// Why a text was not written to its end.
#[derive(Clone, Copy)]
pub(crate) enum WriteError {
    /// The sink failed.
    Failed,
    /// There was no memory to make the rest.
    Memory,
}

/// Pushes all of the bytes.
fn push_all<S: Sink>(sink: &mut S, bytes: &[u8]) -> Result<(), Failed>
    ensures ok { OnOk result (Adds (S.taken sink.old) (S.taken sink.new) bytes.now) }
    ensures err { OnErr result (AddsFront (S.taken sink.old) (S.taken sink.new) bytes.now) }
    ensures some { OnErr result (0 < length bytes.now) }
    ensures cause { HasCause (S.faults sink.old) (S.faults sink.new) result }
{
    let mut at = 0;
    while at < bytes.len() {
        at += sink.push(&bytes[at..])?;
    }
    Ok(())
}

/// Pushes a text, piece by piece, as it is made.
fn write_text<S: Sink>(alloc: Global, text: Output, sink: &mut S) -> Result<(), WriteError>
    ensures writes { Writes (Rose (S.faults sink.old) (S.faults sink.new)) result (S.taken sink.old) (S.taken sink.new) text }
{
    let mut left = text;
    let mut piece = List::new(alloc);
    'pieces: while left.len() > 0 {
        match write_piece(alloc, &mut left, &mut piece, sink) {
            Ok(()) => {}
            Err(error) => return Err(error),
        }
    }
    Ok(())
}

/// Makes the next piece of a text, in the room of the last one, and pushes it.
fn write_piece<S: Sink>(
    alloc: Global,
    text: &mut Output,
    piece: &mut List<u8>,
    sink: &mut S,
) -> Result<(), WriteError>
    requires { 0 < length text.old }
    ensures writes { WritesPiece (Rose (S.faults sink.old) (S.faults sink.new)) result (S.taken sink.old) (S.taken sink.new) text.old text.new }
    ensures later { S.faults sink.old ≤ S.faults sink.new }
{
    match text.next(alloc, piece) {
        Ok(()) => match push_all(sink, piece.as_slice()) {
            Ok(()) => Ok(()),
            Err(Failed) => Err(WriteError::Failed),
        },
        Err(Memory) => Err(WriteError::Memory),
    }
}

/// Writes a line to err, and answers how the run ends: as asked, or, where err failed, as WriteFault.
pub(crate) fn deliver_line<E: Sink>(line: &[u8], wanted: Status, err: &mut E) -> Status
    ensures { TakesLine (Rose (E.faults err.old) (E.faults err.new)) result wanted (E.taken err.old) (E.taken err.new) line.now }
{
    match push_all(err, line) {
        Ok(()) => wanted,
        Err(Failed) => Status::WriteFault,
    }
}

/// Writes a text to out, and answers how the run ends: as asked, or with a line to err. Where out failed, a failure of err is
/// ignored.
fn deliver_text<O: Sink, E: Sink>(
    alloc: Global,
    text: Output,
    wanted: Status,
    out: &mut O,
    err: &mut E,
) -> Status
    ensures { DeliversText (Rose (O.faults out.old) (O.faults out.new)) (Rose (E.faults err.old) (E.faults err.new))
        text wanted result (O.taken out.old) (O.taken out.new) (E.taken err.old) (E.taken err.new) }
{
    match write_text(alloc, text, out) {
        Ok(()) => wanted,
        Err(WriteError::Failed) => {
            let _ = push_all(err, b"tydi: WriteFault\n");
            Status::WriteFault
        }
        Err(WriteError::Memory) => deliver_line(b"tydi: Memory\n", Status::Memory, err),
    }
}

/// Writes the reply, and answers how the run ends.
pub(crate) fn deliver<O: Sink, E: Sink>(
    alloc: Global,
    reply: Reply,
    out: &mut O,
    err: &mut E,
) -> Status
    ensures { Delivers (Rose (O.faults out.old) (O.faults out.new)) (Rose (E.faults err.old) (E.faults err.new))
        reply result (O.taken out.old) (O.taken out.new) (E.taken err.old) (E.taken err.new) }
{
    match reply {
        Reply::Says(Answer::Refused(line)) => {
            deliver_line(line.as_slice(), Status::Refused, err)
        }
        Reply::Says(Answer::Verdict(line)) => {
            deliver_text(alloc, Output::whole(line), Status::Verdict, out, err)
        }
        Reply::Says(Answer::Done(text)) => deliver_text(alloc, text, Status::Done, out, err),
        Reply::ReadFault(line) => deliver_line(line.as_slice(), Status::ReadFault, err),
        Reply::Memory => deliver_line(b"tydi: Memory\n", Status::Memory, err),
    }
}
