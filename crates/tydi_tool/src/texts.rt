//! How the texts of a value and of a plan of a port are read.

ghost use Rattle.std.specs.Prelude.{◌≡◌, ◌<◌, ◌-◌, ◌^◌, length};
ghost use Rattle.type_split.specs.Streams.{plain_split};
ghost use Rattle.tydi_tool.specs.Reading.{IsRefusedBy, ReadsAs};
ghost use Rattle.tydi_tool.specs.Refusals.{refusal_of_plan, refusal_of_value};
ghost use Rattle.tydi_tool.specs.Texts.{ReadsPlan, ReadsValue};

use crate::answer::Reply;
use crate::gather::TextReader;
use crate::refusal::{Detail, refused};
use logical_value::PortValue;
use plan_text::{Plan, PlanFault};
use std::alloc::Global;
use tydi_base::Text;
use type_split::Split;
use value_text::ValueFault;

/// Reads the text of the value of this word, of the port that was split.
#[derive(Clone, Copy, Drop)]
pub(crate) struct ValueText<'a> {
    pub(crate) word: &'a Text,
    pub(crate) split: &'a Split<'a>,
}

impl<'a> TextReader<PortValue> for ValueText<'a> {
    ghost reads = { λ text bytes read. ReadsValue text.word.now (plain_split text.split.now) bytes read };

    fn read(&self, alloc: Global, bytes: &[u8]) -> Result<PortValue, Reply> {
        read_value(alloc, self.word, self.split, bytes)
    }
}

/// Reads the text of the plan of this word, of the port that was split.
#[derive(Clone, Copy, Drop)]
pub(crate) struct PlanText<'a> {
    pub(crate) word: &'a Text,
    pub(crate) split: &'a Split<'a>,
}

impl<'a> TextReader<Plan> for PlanText<'a> {
    ghost reads = { λ text bytes read. ReadsPlan text.word.now (plain_split text.split.now) bytes read };

    fn read(&self, alloc: Global, bytes: &[u8]) -> Result<Plan, Reply> {
        read_plan(alloc, self.word, self.split, bytes)
    }
}

/// The value of the bytes of a file.
fn read_value(
    alloc: Global,
    word: &Text,
    split: &Split<'_>,
    bytes: &[u8],
) -> Result<PortValue, Reply>
    requires { length bytes.now < 2 ^ 32 - 1 }
    ensures { ReadsAs (ReadsValue word.now (plain_split split.now) bytes.now) result }
{
    match value_text::read(alloc, split, bytes) {
        Ok(value) => Ok(value),
        Err(fault) => Err(no_value(alloc, word, fault)),
    }
}

/// The reply to a text that is no value.
fn no_value(alloc: Global, word: &Text, fault: ValueFault) -> Reply
    ensures { IsRefusedBy (refusal_of_value word.now fault) result }
{
    let (name, place) = match fault {
        ValueFault::Syntax(place) => ("Syntax", place),
        ValueFault::WrongShape(place) => ("WrongShape", place),
        ValueFault::UnknownField(place) => ("UnknownField", place),
        ValueFault::OutOfRange(place) => ("OutOfRange", place),
        ValueFault::TooManyLeaves(place) => ("TooManyLeaves", place),
        ValueFault::Memory => return Reply::Memory,
    };
    refused(alloc, name, &[Detail::Word(word), Detail::At(place)])
}

/// The plan of the bytes of a file.
fn read_plan(alloc: Global, word: &Text, split: &Split<'_>, bytes: &[u8]) -> Result<Plan, Reply>
    requires { length bytes.now < 2 ^ 32 - 1 }
    ensures { ReadsAs (ReadsPlan word.now (plain_split split.now) bytes.now) result }
{
    match plan_text::read(alloc, split, bytes) {
        Ok(plan) => Ok(plan),
        Err(fault) => Err(no_plan(alloc, word, fault)),
    }
}

/// The reply to a text that is no plan.
fn no_plan(alloc: Global, word: &Text, fault: PlanFault) -> Reply
    ensures { IsRefusedBy (refusal_of_plan word.now fault) result }
{
    let (name, place) = match fault {
        PlanFault::Syntax(place) => ("Syntax", place),
        PlanFault::UnknownStream(place) => ("UnknownStream", place),
        PlanFault::StreamTwice(place) => ("StreamTwice", place),
        PlanFault::ReadyLength(place) => ("ReadyLength", place),
        PlanFault::MaskTooWide(place) => ("MaskTooWide", place),
        PlanFault::UserTooWide(place) => ("UserTooWide", place),
        PlanFault::TooManyCycles(place) => ("TooManyCycles", place),
        PlanFault::Memory => return Reply::Memory,
    };
    refused(alloc, name, &[Detail::Word(word), Detail::At(place)])
}
