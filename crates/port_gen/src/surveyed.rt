//! What is found of a trace that breaks no rule, ends whole and carries a value.

ghost use Rattle.std.specs.Prelude.{◌≡◌, Bool, List, Err, IfOk, IsErr};
ghost use Rattle.logical_value.specs.Tree.{Tree, plain_port};
ghost use Rattle.type_split.specs.Streams.{PlainSplit};
ghost use Rattle.cycle_trace.specs.Survey.{counts_of};
ghost use Rattle.cycle_trace.specs.Trace.{TraceText, streams_of};
ghost use Rattle.port_gen.specs.Found.{IsCarriedDecoding, IsLegalSurvey};

use cycle_trace::{Counts, SurveyFault};
use trace_decode::{DecodeFault, Decoded};
use tydi_base::Memory;

/// The counts of a trace that breaks no rule and ends whole.
pub(crate) fn legal_counts(found: Result<Counts, SurveyFault>) -> Result<Counts, Memory>
    requires { (t : TraceText) × IsLegalSurvey t found }
    ensures { IfOk result (λ counts. (t : TraceText) → IsLegalSurvey t found → counts ≡ counts_of (streams_of t)) }
{
    match found {
        Ok(counts) => Ok(counts),
        Err(fault) => not_legal(fault),
    }
}

/// The answer where memory was missing for the counts of a trace that breaks no rule and ends whole.
fn not_legal(fault: SurveyFault) -> Result<Counts, Memory>
    requires { (t : TraceText) × IsLegalSurvey t (Err fault) }
    ensures { IsErr result }
{
    match fault {
        SurveyFault::Memory => Err(Memory),
        SurveyFault::Offence {
            cycle: _,
            stream: _,
            rule: _,
        } => unreachable!(),
        SurveyFault::Unfinished { stream: _, end: _ } => unreachable!(),
    }
}

/// The value of a trace that carries one, and the user words of the transfers done.
pub(crate) fn carried_value(found: Result<Decoded, DecodeFault>) -> Result<Decoded, Memory>
    requires { (split : PlainSplit) × ((t : TraceText) × ((value : List (List Tree)) × ((users : List (List (List Bool))) × IsCarriedDecoding split t value users found))) }
    ensures { IfOk result (λ decoded. (split : PlainSplit) (t : TraceText) (value : List (List Tree)) (users : List (List (List Bool)))
        → IsCarriedDecoding split t value users found → (plain_port decoded.value ≡ value) × (decoded.users ≡ users)) }
{
    match found {
        Ok(decoded) => Ok(decoded),
        Err(fault) => not_carried(fault),
    }
}

/// The answer where memory was missing for the value of a trace that carries one.
fn not_carried(fault: DecodeFault) -> Result<Decoded, Memory>
    requires { (split : PlainSplit) × ((t : TraceText) × ((value : List (List Tree)) × ((users : List (List (List Bool))) × IsCarriedDecoding split t value users (Err fault)))) }
    ensures { IsErr result }
{
    match fault {
        DecodeFault::Memory => Err(Memory),
        DecodeFault::OtherHeader(_) => unreachable!(),
        DecodeFault::Offence {
            cycle: _,
            stream: _,
            rule: _,
        } => unreachable!(),
        DecodeFault::Unfinished { stream: _, end: _ } => unreachable!(),
        DecodeFault::Disagree(_, _) => unreachable!(),
    }
}
