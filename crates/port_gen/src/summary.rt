//! A job, run once.

ghost use Rattle.std.specs.Prelude.{◌≡◌, ◌<◌, ℕ, List, Ok, IfOk, length};
ghost use Rattle.cycle_trace.specs.Trace.{TraceText, streams_of};
ghost use Rattle.logical_value.specs.Tree.{Tree, plain_port};
ghost use Rattle.type_split.specs.Streams.{plain_split};
ghost use Rattle.tydi_base.specs.Reading.{Gives};
ghost use Rattle.trace_decode.specs.Outcome.{users_on};
ghost use Rattle.trace_decode.specs.Standing.{CanDecode};
ghost use Rattle.value_text.specs.Canonical.{canonical};
ghost use Rattle.port_drive.specs.Starting.{StandsAtStart};
ghost use Rattle.port_gen.specs.Found.{HaveTaken, IsKnown};
ghost use Rattle.port_gen.specs.Jobs.{job_of, job_value, reason_in};
ghost use Rattle.port_gen.specs.Starting.{job_in};
ghost use Rattle.port_gen.specs.Summaries.{job_trace, summary_in, summary_of, summary_of_trace};

use crate::both::Both;
use crate::fault::JobFault;
use crate::handing::hand_rows;
use crate::starting::{JobRun, job_run};
use crate::surveyed::{carried_value, legal_counts};
use crate::text_sum::TextSum;
use cycle_trace::{Counts, RowSink, Surveyor};
use physical_stream::Header;
use port_drive::{heads_of, heads_stand_together};
use std::alloc::Global;
use trace_decode::{Decoded, Decoder};
use tydi_base::Memory;
use type_split::Split;
use value_text::text_length;

/// What is said of a job.
#[derive(Debug, Drop)]
pub struct JobSummary {
    /// The transfers and the packets of each stream, in the order of the split.
    pub counts: Counts,
    /// How many cycles it has.
    pub cycles: u32,
    /// The bytes of the canonical text of the value that its trace carries, and of the user words of the transfers done.
    pub text: u64,
    /// The sum of all bytes of the text of its trace, modulo 2^32.
    pub trace: u32,
}

/// The summary of the job that a seed and a count make of a port, each of whose nodes is carried. The seed is below 65,536. The job is run
/// once, and of its rows only what is said of them is kept. `TooManyLeaves` comes exactly where the value has over 1,000,000 leaves;
/// `CountNotMultiple` where it has not, and a stream has no schedule, with the first such stream; `TooManyCycles` where each stream has one,
/// and one of them has over 1,000,000 transfers. `Memory` comes where there is none for the value, the runs, what is kept of the rows, or
/// a piece of the value's text.
pub fn job_summary(
    alloc: Global,
    split: &Split<'_>,
    seed: u32,
    count: u32,
) -> Result<JobSummary, JobFault>
    requires can { CanDecode (plain_split split.now) }
    requires seed { seed < 65536 }
    ensures { Gives reason_in summary_in result (summary_of (plain_split split.now) seed count) }
{
    match job_run(alloc, split, seed, count) {
        Ok(job) => Ok(summarized(alloc, split, job)?),
        Err(fault) => Err(fault),
    }
}

/// The summary of a job that has not begun.
fn summarized(alloc: Global, split: &Split<'_>, job: JobRun) -> Result<JobSummary, Memory>
    requires can { CanDecode (plain_split split.now) }
    requires start { StandsAtStart job.cycles job.run }
    requires made { (seed : ℕ) × ((count : ℕ) × (job_of (plain_split split.now) seed count ≡ Ok (job_in job))) }
    ensures { IfOk result (λ summary. (seed count : ℕ) → job_of (plain_split split.now) seed count ≡ Ok (job_in job)
        → summary_in summary ≡ summary_of_trace (plain_split split.now) (job_value (plain_split split.now) seed count) (job_trace (plain_split split.now) (job_in job))) }
{
    heads_stand_together(split);
    let JobRun { run, cycles } = job;
    let mut run = run;
    let header = Header {
        cycles,
        heads: heads_of(alloc, split.streams.as_slice())?,
    };
    let mut sinks = Both {
        one: TextSum::new(),
        other: Both {
            one: Surveyor::new(),
            other: Decoder::new(split),
        },
    };
    sinks.start(alloc, &header)?;
    hand_rows(alloc, &mut run, &mut sinks)?;
    let Both { one: text, other } = sinks;
    let Both {
        one: surveyor,
        other: decoder,
    } = other;
    found(alloc, split, cycles, &text, surveyor, decoder)
}

/// The summary of what the sinks found of a trace of so many cycles, which breaks no rule, ends whole and carries a value.
fn found(
    alloc: Global,
    split: &Split<'_>,
    cycles: u32,
    text: &TextSum,
    surveyor: Surveyor,
    decoder: Decoder<'_, '_>,
) -> Result<JobSummary, Memory>
    requires { (value : List (List Tree)) × ((t : TraceText) × (IsKnown (plain_split split.now) value (users_on (streams_of t)) cycles t
        × HaveTaken (plain_split split.now) t text.now surveyor decoder)) }
    ensures { IfOk result (λ summary. (value : List (List Tree)) (t : TraceText) → IsKnown (plain_split split.now) value (users_on (streams_of t)) cycles t
        → HaveTaken (plain_split split.now) t text.now surveyor decoder.entry → summary_in summary ≡ summary_of_trace (plain_split split.now) value t) }
{
    let counts = legal_counts(surveyor.finish(alloc))?;
    let decoded = carried_value(decoder.finish(alloc))?;
    Ok(JobSummary {
        counts,
        cycles,
        text: decoded_length(alloc, split, &decoded)?,
        trace: text.total(),
    })
}

/// The bytes of the text of what a trace carries, which is not made. A text of 2^64 bytes or more has no room in any memory.
fn decoded_length(alloc: Global, split: &Split<'_>, decoded: &Decoded) -> Result<u64, Memory>
    ensures { IfOk result (λ bytes. bytes ≡ length (canonical (plain_split split.now) (plain_port decoded.now.value) decoded.now.users)) }
{
    match text_length(alloc, &decoded.value, split, decoded.users.as_slice()) {
        Ok(u64::MAX) => Err(Memory),
        Ok(bytes) => Ok(bytes),
        Err(Memory) => Err(Memory),
    }
}
