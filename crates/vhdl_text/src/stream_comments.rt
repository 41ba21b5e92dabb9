//! The streams of a bench, read from the comments at its begin.

ghost use Rattle.std.specs.Prelude.{◌≡◌, [], IfOk, List, None, Ok, Some, drop, length, option_map, ℕ, if◌then◌else◌};
ghost use Rattle.tydi_base.specs.Path.{path_text};
ghost use Rattle.tydi_base.specs.Reading.{Gives, or_fault};
ghost use Rattle.tydi_base.specs.TextSet.{AddsText, HasTexts};
ghost use Rattle.tydi_reading.specs.Reading.{Reads};
ghost use Rattle.tydi_reading.specs.declared.fault.Fault.TheVariants as refusals;
ghost use Rattle.physical_stream.specs.StreamLine.{head_of};
ghost use Rattle.vhdl_text.specs.Lines.{refusal_in};
ghost use Rattle.vhdl_text.specs.Reading as spec;

use crate::lines::Lines;
use crate::refusal::Fault;
use physical_stream::{Head, Misspelling, head_of};
use std::alloc::Global;
use std::collections::BTreeSet;
use tydi_base::{List, Memory, Path, add_text};
use tydi_reading::Source;

/// The most streams of a bench.
const MOST_STREAMS: usize = 65536;

/// The heads of the comments that the lines begin with. The first such line that spells no head is refused; so is one that repeats a path, and
/// one after 65,536 others.
pub fn read_heads(alloc: Global, lines: &mut Lines<'_>) -> Result<List<Head>, Fault>
    ensures { Reads (spec.heads_from [] lines.old) result lines.new }
{
    let mut paths = BTreeSet::new(alloc);
    let mut heads = List::new(alloc);
    'lines: while let Some(line) = lines.first() {
        let Some(text) = stream_of(line) else {
            return Ok(heads);
        };
        let head = head_after(alloc, &mut paths, heads.len(), text)?;
        heads.push(head)?;
        lines.skip();
    }
    Ok(heads)
}

/// The line of a stream, without the hyphens before it. None where a line is no stream as a comment.
fn stream_of(line: &[u8]) -> Option<&[u8]>
    ensures { option_map (λ text. text.now) result ≡ (if spec.is_comment line.now then Some (drop 3 line.now) else None) }
{
    if line.starts_with(b"-- stream ") {
        Some(&line[3..])
    } else {
        None
    }
}

/// The head that the line of a stream spells after so many streams, the texts of whose paths are these; and its path is one of these from
/// then on.
fn head_after(
    alloc: Global,
    paths: &mut BTreeSet<Vec<u8>>,
    count: usize,
    text: &[u8],
) -> Result<Head, Fault>
    ensures gives { (texts : List (List ℕ)) → HasTexts paths.old texts → length texts ≡ count
        → Gives refusal_in (λ head. head) result (or_fault refusals.Refused (spec.new_head texts (head_of text.now))) }
    ensures added { IfOk result (λ head. AddsText paths.old paths.new (path_text head.path)) }
{
    match head_of(alloc, text) {
        Ok(head) => new_head(alloc, paths, count, head),
        Err(Misspelling::NotForm) => Err(Fault::Refused),
        Err(Misspelling::Memory) => Err(Fault::Memory),
    }
}

/// The same head, where its path is none of these, and there are not too many.
fn new_head(
    alloc: Global,
    paths: &mut BTreeSet<Vec<u8>>,
    count: usize,
    head: Head,
) -> Result<Head, Fault>
    ensures gives { (texts : List (List ℕ)) → HasTexts paths.old texts → length texts ≡ count
        → Gives refusal_in (λ found. found) result (or_fault refusals.Refused (spec.new_head texts (Ok head))) }
    ensures added { IfOk result (λ found. AddsText paths.old paths.new (path_text found.path)) }
{
    if count >= MOST_STREAMS {
        return Err(Fault::Refused);
    }
    let text = path_text(alloc, &head.path)?;
    if !add_text(paths, text)? {
        return Err(Fault::Refused);
    }
    Ok(head)
}

/// The text of a path.
fn path_text(alloc: Global, path: &Path) -> Result<Vec<u8>, Memory>
    ensures { IfOk result (λ text. text.items ≡ path_text path.now) }
{
    let mut out = List::new(alloc);
    path.write_dotted(&mut out)?;
    Ok(out.into_vec())
}
