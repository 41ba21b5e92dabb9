//! The outcome of the rows that a decoder was given.

ghost use Rattle.std.specs.Prelude.{◌≡◌, ℕ, List, Option};
ghost use Rattle.nest_shape.specs.Shape.{IsSeriesOf};
ghost use Rattle.physical_stream.specs.declared.item.Item.{Item};
ghost use Rattle.type_split.specs.Streams.{plain_split};
ghost use Rattle.cycle_trace.specs.Trace.{TraceText};
ghost use Rattle.trace_decode.specs.Finishing.{AreFinished, IsBuilt, IsJoined, fault_of_join, fault_of_survey};
ghost use Rattle.trace_decode.specs.Outcome.{IsDecoded};
ghost use Rattle.trace_decode.specs.Standing.{CanDecode, RunsOver};

use crate::decode_run::DecodeRun;
use crate::decoded::Decoded;
use crate::fault::DecodeFault;
use crate::stream_kept::StreamKept;
use cycle_trace::{SurveyFault, with_offence};
use nest_shape::{Builder, Nest};
use std::alloc::Global;
use tydi_base::List;
use type_split::Split;
use value_views::{JoinFault, join};

impl DecodeRun {
    /// The outcome of the rows that were taken.
    pub(crate) fn finish(self, alloc: Global, split: &Split<'_>) -> Result<Decoded, DecodeFault>
        requires can { CanDecode (plain_split split.now) }
        requires stands { (t : TraceText) × RunsOver (plain_split split.now) t self }
        ensures { (t : TraceText) → RunsOver (plain_split split.now) t self → IsDecoded (plain_split split.now) t result }
    {
        let DecodeRun {
            surveyor,
            kept,
            rows: _,
            tag,
            tagged: _,
        } = self;
        match with_offence(surveyor.finish(alloc), tag) {
            Ok(_) => joined(alloc, split, kept),
            Err(fault) => Err(fault_of_survey(fault)),
        }
    }
}

/// The error of a decoder whose survey found this.
fn fault_of_survey(fault: SurveyFault) -> DecodeFault
    ensures { result ≡ fault_of_survey fault }
{
    match fault {
        SurveyFault::Offence {
            cycle,
            stream,
            rule,
        } => DecodeFault::Offence {
            cycle,
            stream,
            rule,
        },
        SurveyFault::Unfinished { stream, end } => DecodeFault::Unfinished { stream, end },
        SurveyFault::Memory => DecodeFault::Memory,
    }
}

/// The value that the streams carry, and the user words of each, where each has done whole packets of words that stand for values.
fn joined(alloc: Global, split: &Split<'_>, kept: Vec<StreamKept>) -> Result<Decoded, DecodeFault>
    requires can { CanDecode (plain_split split.now) }
    requires finished { (done : List (List Item)) × AreFinished (plain_split split.now) done kept.items }
    ensures { (done : List (List Item)) → AreFinished (plain_split split.now) done kept.items → IsJoined (plain_split split.now) done kept.items result }
{
    let mut views = List::new(alloc);
    let mut users = List::new(alloc);
    'kept: for one in kept {
        let StreamKept {
            builder,
            users: words,
        } = one;
        views.push(series_of(builder))?;
        users.push(words)?;
    }
    match join(alloc, split, views) {
        Ok(value) => Ok(Decoded { value, users }),
        Err(fault) => Err(fault_of_join(fault)),
    }
}

/// The series of items that are nested and whole.
fn series_of(builder: Option<Builder>) -> List<Nest>
    requires { (dims : ℕ) × ((done : List Item) × IsBuilt dims done builder) }
    ensures { (dims : ℕ) (done : List Item) → IsBuilt dims done builder → IsSeriesOf dims done result }
{
    match builder {
        Some(builder) => finished(builder),
        None => unreachable!(),
    }
}

/// The series of items that are nested and whole, which a builder was given.
fn finished(builder: Builder) -> List<Nest>
    requires { (dims : ℕ) × ((done : List Item) × IsBuilt dims done (Option.Some builder)) }
    ensures { (dims : ℕ) (done : List Item) → IsBuilt dims done (Option.Some builder) → IsSeriesOf dims done result }
{
    match builder.finish() {
        Ok(series) => series,
        Err(_) => unreachable!(),
    }
}

/// The error of a decoder whose streams are not joined.
fn fault_of_join(fault: JoinFault) -> DecodeFault
    ensures { result ≡ fault_of_join fault }
{
    match fault {
        JoinFault::Disagree(path, packet) => DecodeFault::Disagree(path, packet),
        JoinFault::Memory => DecodeFault::Memory,
    }
}
