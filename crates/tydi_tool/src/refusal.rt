//! The lines of errors: a name, and details after it.

ghost use Rattle.std.specs.Prelude.{◌≡◌, ◌⊎◌, ◌++◌, map, IfOk, OnOk, OnErr};
ghost use Rattle.tydi_base.specs.Writing.{StandsInFront};
ghost use Rattle.tydi_tool.specs.Refusals.{said_by, said_text, detail_text, refusal_line, At, Port};
ghost use Rattle.tydi_tool.specs.declared.answer.Answer.TheVariants as answers;
ghost use Rattle.tydi_tool.specs.declared.answer.Reply.TheVariants as replies;

use crate::answer::{Answer, Reply};
use std::alloc::Global;
use tydi_base::{Colons, Each, List, Memory, Name, Path, Place, Text, Written, emit};

/// A detail of an error line, after the name of the error.
#[derive(Clone, Copy)]
pub enum Detail<'a> {
    /// A word of the command.
    Word(&'a Text),
    /// The path of a stream.
    Stream(&'a Path),
    /// A number, in decimal.
    Number(u64),
    /// A line and a column, each from 1.
    At(Place),
    /// A name that the tool knows.
    Name(&'a str),
    /// A port of the streamlet of a path, as `a::b::s.p`.
    Port(&'a Path, &'a Name),
}

/// It is written after a space.
impl Written for Detail<'_> {
    ghost text = { λ detail. detail_text (said_by detail) };

    fn write_to(&self, out: &mut List<u8>) -> Result<(), Memory> {
        out.extend_from_slice(b" ")?;
        match self {
            Detail::Word(word) => word.write_to(out),
            Detail::Stream(path) => path.write_to(out),
            Detail::Number(number) => number.write_to(out),
            Detail::At(place) => write_place(*place, out),
            Detail::Name(name) => name.write_to(out),
            Detail::Port(streamlet, port) => write_port(streamlet, port, out),
        }
    }
}

/// The line of an error of this name.
pub(crate) fn fault_line(
    alloc: Global,
    name: &str,
    details: &[Detail<'_>],
) -> Result<List<u8>, Memory>
    ensures { IfOk result (λ line. line ≡ refusal_line (record { name = name.now; details = map said_by details.now })) }
{
    let mut line = List::new(alloc);
    emit!(line; "tydi: ", name, Each(details), "\n")?;
    Ok(line)
}

/// The reply that refuses an input by this error.
pub(crate) fn refused(alloc: Global, name: &str, details: &[Detail<'_>]) -> Reply
    ensures { (result ≡ replies.Says (answers.Refused (refusal_line (record { name = name.now; details = map said_by details.now }))))
        ⊎ (result ≡ replies.Memory) }
{
    match fault_line(alloc, name, details) {
        Ok(line) => Reply::Says(Answer::Refused(line)),
        Err(Memory) => Reply::Memory,
    }
}

/// A port of the streamlet of a path.
fn write_port(streamlet: &Path, port: &Name, out: &mut List<u8>) -> Result<(), Memory>
    ensures ok { OnOk result (out.new ≡ out.old ++ said_text (Port streamlet.now port.now)) }
    ensures err { OnErr result (StandsInFront out.old out.new) }
{
    emit!(out; Colons(streamlet), ".", port)
}

/// The line and the column of a place.
fn write_place(place: Place, out: &mut List<u8>) -> Result<(), Memory>
    ensures ok { OnOk result (out.new ≡ out.old ++ said_text (At place)) }
    ensures err { OnErr result (StandsInFront out.old out.new) }
{
    emit!(out; place.line, ":", place.column)
}
