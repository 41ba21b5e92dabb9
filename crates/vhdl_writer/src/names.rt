//! The names of signals.

ghost use Rattle.std.specs.Prelude.{◌≡◌, ◌++◌, IfOk};
ghost use Rattle.std.specs.Option.{option_copied};
ghost use Rattle.vhdl_writer.specs.Names as spec;

use signal_layout::Signal;
use std::alloc::Global;
use std::str;
use tydi_base::{Memory, Name, Path, Text};
use vhdl_text::signal_word;

/// The text of a name.
pub(crate) fn text_of_name(name: &Name) -> &str
    ensures { result.now ≡ name.now }
{
    match str::from_utf8(name.as_bytes()) {
        Ok(text) => text,
        Err(_) => unreachable!(),
    }
}

/// These texts, one after another.
fn joined(alloc: Global, first: &str, second: &str, third: &str) -> Result<Text, Memory>
    ensures { IfOk result (λ text. text ≡ first.now ++ second.now ++ third.now) }
{
    let mut string = String::from_str(alloc, first)?;
    string.push_str(second)?;
    string.push_str(third)?;
    Ok(Text::from_string(string))
}

/// An extended identifier.
pub(crate) fn quoted(alloc: Global, name: &Text) -> Result<Text, Memory>
    ensures { IfOk result (λ text. text ≡ spec.quoted name.now) }
{
    joined(alloc, "\\", name.as_str(), "\\")
}

/// The front of the names of the signals of a physical stream of this path, in a port of this name.
pub(crate) fn stem_of(alloc: Global, port: &Name, path: &Path) -> Result<Text, Memory>
    ensures { IfOk result (λ text. text ≡ spec.stem_of port.now path.now) }
{
    let mut string = String::from_str(alloc, text_of_name(port))?;
    'names: for name in path.names() {
        string.push_str(".")?;
        string.push_str(text_of_name(name))?;
    }
    Ok(Text::from_string(string))
}

/// The name of a signal of a physical stream.
pub(crate) fn name_in(alloc: Global, stem: &Text, signal: Signal) -> Result<Text, Memory>
    ensures { IfOk result (λ text. text ≡ spec.name_in stem.now signal) }
{
    joined(alloc, stem.as_str(), ".", signal_word(signal))
}

/// The name of a signal of a port of an instance.
fn name_under(alloc: Global, instance: &Name, name: &Text) -> Result<Text, Memory>
    ensures { IfOk result (λ text. text ≡ spec.name_under instance.now name.now) }
{
    joined(alloc, text_of_name(instance), ".", name.as_str())
}

/// The identifier of a signal of a port of an instance.
pub(crate) fn wire_name(alloc: Global, instance: &Name, name: &Text) -> Result<Text, Memory>
    ensures { IfOk result (λ text. text ≡ spec.quoted (spec.name_under instance.now name.now)) }
{
    quoted(alloc, &name_under(alloc, instance, name)?)
}

/// The identifier of a signal of an own port, or of a port of an instance where there is one.
pub(crate) fn end_name(alloc: Global, instance: Option<&Name>, name: &Text) -> Result<Text, Memory>
    ensures { IfOk result (λ text. text ≡ spec.quoted (spec.name_at (option_copied instance.entry) name.now)) }
{
    match instance {
        None => quoted(alloc, name),
        Some(instance) => wire_name(alloc, instance, name),
    }
}
