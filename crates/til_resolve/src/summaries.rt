//! The summary of the type of each declaration.

ghost use Rattle.std.specs.Prelude.{◌≡◌, ◌↔◌, refl, length, IsTrue, IfOk, None};
ghost use Rattle.logical_types.specs.Summary as spec;
ghost use Rattle.logical_types.specs.Summary.{IsShownValid};
ghost use Rattle.til_resolve.specs.BadTypes.{AreAcyclic, first_fault};
ghost use Rattle.til_resolve.specs.Folds.{AreFolds, IsFoldOf, written_names};
ghost use Rattle.til_resolve.specs.Scope.{declarations_of};
ghost use Rattle.til_resolve.specs.Written.{IsWithin, ltype_of};

use crate::folding::{Fold, entry_in, value_of};
use crate::replacing::sync_of;
use crate::scope::Scope;
use crate::tables::{Entries, table_of};
use crate::written::Written;
use logical_types::{
    Named, PartsSummary, Summary, has_name_twice, summary_of_bits, summary_of_no_parts,
    summary_of_null, summary_of_stream, valid_types_are_shown,
};
use std::alloc::Global;
use til_parser::{AstPart, AstStream, AstType};
use tydi_base::{List, Memory};

// Written parts, by their names.
#[derive(Clone, Copy)]
struct WrittenParts<'a>(&'a [AstPart]);

impl Named for WrittenParts<'_> {
    ghost names = { λ parts. written_names parts.0.now };

    fn len(&self) -> usize {
        self.0.len()
    }

    fn name(&self, index: usize) -> &[u8] {
        self.0[index].name.name.as_bytes()
    }
}

/// The fold that gives each type its summary, or None where it has none.
pub struct SummaryFold;

impl Fold for SummaryFold {
    type Value = Option<Summary>;

    type Sum = Option<PartsSummary>;

    ghost layers = { spec.summarized };

    fn null() -> Option<Summary> {
        Some(summary_of_null())
    }

    fn bits(width: u64) -> Option<Summary> {
        summary_of_bits(width)
    }

    fn group(parts: &[AstPart], sum: Option<PartsSummary>) -> Option<Summary> {
        if has_name_twice(&WrittenParts(parts)) {
            return None;
        }
        sum?.in_group()
    }

    fn union(parts: &[AstPart], sum: Option<PartsSummary>) -> Option<Summary> {
        if has_name_twice(&WrittenParts(parts)) {
            return None;
        }
        sum?.in_union(parts.len())
    }

    fn stream(
        stream: &AstStream,
        element: Option<Summary>,
        user: Option<Summary>,
    ) -> Option<Summary> {
        summary_of_stream(
            &element?,
            &user?,
            stream.throughput,
            stream.dims,
            sync_of(stream.sync),
        )
    }

    fn no_parts() -> Option<PartsSummary> {
        Some(summary_of_no_parts())
    }

    fn and(sum: Option<PartsSummary>, part: Option<Summary>) -> Option<PartsSummary> {
        Some(sum?.and(&part?))
    }
}

impl Entries for SummaryFold {
    type Entry = Option<Summary>;

    ghost least = { spec.summarized.of_null };

    ghost is_entry = { IsFoldOf spec.summarized };

    fn least() -> Option<Summary> {
        Some(summary_of_null())
    }

    fn entry<'a>(
        _alloc: Global,
        scope: &Scope<'a>,
        number: usize,
        ltype: &'a AstType,
        table: &[Option<Summary>],
    ) -> Result<Option<Summary>, Memory> {
        Ok(entry_in::<SummaryFold>(scope, number, ltype, table))
    }

    ghost is_least = { refl };
}

/// A table of the summaries of all declarations, as far as there are any.
pub fn summaries(alloc: Global, scope: &Scope<'_>) -> Result<List<Option<Summary>>, Memory>
    ensures { IfOk result (AreFolds spec.summarized (declarations_of scope.now.declared) (length (declarations_of scope.now.declared))) }
{
    table_of::<SummaryFold>(alloc, scope)
}

/// Whether a written type is shown to be valid by its summary: exactly where it is, and the upper parts of the throughputs on each way to
/// a Stream in it, multiplied as they stand, fit 64 bits, and so do the lower ones.
pub fn is_shown_valid<'a>(scope: &Scope<'a>, one: &Written<'a>, table: &[Option<Summary>]) -> bool
    requires within { IsWithin (declarations_of scope.now.declared) one.now }
    requires acyclic { AreAcyclic (declarations_of scope.now.declared) }
    requires table { AreFolds spec.summarized (declarations_of scope.now.declared) (length (declarations_of scope.now.declared)) table.now }
    ensures shown { IsTrue result ↔ IsShownValid (ltype_of (declarations_of scope.now.declared) one.now) }
    ensures valid { IsTrue result → first_fault (ltype_of (declarations_of scope.now.declared) one.now) ≡ None }
{
    valid_types_are_shown();
    match value_of::<SummaryFold>(scope, one, table) {
        Some(summary) => summary.shows_valid(),
        None => false,
    }
}
