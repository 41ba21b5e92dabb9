//! The header of a trace text: its number of cycles, and a head for each stream.

ghost use Rattle.std.specs.Prelude.{◌≡◌, ◌+◌, ◌<◌, ◌≤◌, length, IfOk, ℕ, List};
ghost use Rattle.tydi_base.specs.Reading.{Gives};
ghost use Rattle.tydi_base.specs.Path.{path_text};
ghost use Rattle.tydi_base.specs.TextSet.{AddsText, HasTexts};
ghost use Rattle.physical_stream.specs.StreamLine.{misspelling_in, not_form_in};
ghost use Rattle.cycle_trace.specs.Faults.{fault_in, header_fault};
ghost use Rattle.cycle_trace.specs.HeaderText as spec;

use crate::fault::TraceFault;
use crate::version::Version;
use physical_stream::{Head, Misspelling, NotForm, head_of, header_number};
use std::alloc::Global;
use std::collections::BTreeSet;
use tydi_base::{List, Memory, Path, add_text};

/// The most streams of a trace.
const MOST_STREAMS: usize = 65536;

/// The version that the first line spells.
#[tactic(auto, unfolding(crate::specs::HeaderText::title_of))]
pub(crate) fn read_title(line: &[u8]) -> Result<Version, NotForm>
    ensures { Gives not_form_in (λ version. version) result (spec.title_of line.now) }
{
    if line == b"tydi-trace 1".as_slice() {
        Ok(Version::One)
    } else if line == b"tydi-trace 2".as_slice() {
        Ok(Version::Two)
    } else {
        Err(NotForm)
    }
}

/// The error of the header line of this number, which was not read for this reason.
fn header_fault(line: u64, misspelling: Misspelling) -> TraceFault
    ensures { fault_in result ≡ header_fault line (misspelling_in misspelling) }
{
    match misspelling {
        Misspelling::NotForm => TraceFault::BadHeader(line),
        Misspelling::Memory => TraceFault::Memory,
    }
}

/// The head that a stream line of a text of this version spells after so many stream lines, the texts of whose paths are these;
/// and its path is one of these from then on.
pub(crate) fn next_head(
    alloc: Global,
    version: Version,
    paths: &mut BTreeSet<Vec<u8>>,
    count: usize,
    line: &[u8],
) -> Result<Head, TraceFault>
    requires { count ≤ 65536 }
    ensures gives { (texts : List (List ℕ)) → HasTexts paths.old texts → length texts ≡ count
        → Gives fault_in (λ head. head) result (spec.in_header (3 + count) (spec.head_after version texts line.now)) }
    ensures added { IfOk result (λ head. AddsText paths.old paths.new (path_text head.path)) }
{
    match head_after(alloc, version, paths, count, line) {
        Ok(head) => Ok(head),
        Err(e) => Err(header_fault(3 + count as u64, e)),
    }
}

/// The same, with what keeps the line from being read.
fn head_after(
    alloc: Global,
    version: Version,
    paths: &mut BTreeSet<Vec<u8>>,
    count: usize,
    line: &[u8],
) -> Result<Head, Misspelling>
    ensures gives { (texts : List (List ℕ)) → HasTexts paths.old texts → length texts ≡ count
        → Gives misspelling_in (λ head. head) result (spec.head_after version texts line.now) }
    ensures added { IfOk result (λ head. AddsText paths.old paths.new (path_text head.path)) }
{
    let head = head_of(alloc, line)?;
    if !version.may_have(&head) {
        return Err(Misspelling::NotForm);
    }
    if count >= MOST_STREAMS {
        return Err(Misspelling::NotForm);
    }
    let text = path_text(alloc, &head.path)?;
    if !add_text(paths, text)? {
        return Err(Misspelling::NotForm);
    }
    Ok(head)
}

/// The text of a path.
fn path_text(alloc: Global, path: &Path) -> Result<Vec<u8>, Memory>
    ensures { IfOk result (λ text. text.items ≡ path_text path.now) }
{
    let mut out = List::new(alloc);
    path.write_dotted(&mut out)?;
    Ok(out.into_vec())
}

/// Whether a line begins with `stream` and a space.
pub(crate) fn is_head_line(line: &[u8]) -> bool
    ensures { result ≡ spec.is_head_line line.now }
{
    line.starts_with(b"stream ")
}

/// The number of cycles that the second line spells.
#[tactic(auto, unfolding(crate::specs::HeaderText::count_of_cycles))]
pub(crate) fn read_cycles(line: &[u8]) -> Result<u64, NotForm>
    ensures { Gives not_form_in (λ n. n) result (spec.count_of_cycles line.now) }
{
    if !line.starts_with(b"cycles ") {
        return Err(NotForm);
    }
    header_number(&line[7..])
}
