//! How a command ends: with a verdict, or with a text.

ghost use Rattle.std.specs.Prelude.{◌≡◌, ◌<◌, ◌⊎◌, ℕ, List, length, Ok, Err, MatchResult};
ghost use Rattle.split_text.specs.Text.{IsUpTo};
ghost use Rattle.tydi_tool.specs.Outcome.{output_answer, output_limit};
ghost use Rattle.tydi_tool.specs.declared.answer.Answer.TheVariants as answers;
ghost use Rattle.tydi_tool.specs.declared.answer.Reply.TheVariants as replies;

use crate::answer::{Answer, Reply};
use crate::output::Output;
use crate::refusal::refused;
use std::alloc::Global;
use tydi_base::{List, Memory};

/// The most bytes that an answer gives to out: 64 MiB.
pub(crate) const OUTPUT_LIMIT: u64 = 67_108_864;

/// A line as the verdict, or want of memory.
pub(crate) fn verdict(line: Result<List<u8>, Memory>) -> Reply
    ensures { MatchResult line (λ line. result ≡ replies.Says (answers.Verdict line)) (λ _. result ≡ replies.Memory) }
{
    match line {
        Ok(line) => Reply::Says(Answer::Verdict(line)),
        Err(Memory) => Reply::Memory,
    }
}

/// A text that is there as the answer, where it is not too long, or want of memory.
pub(crate) fn answered(alloc: Global, text: Result<List<u8>, Memory>) -> Reply
    ensures { MatchResult text (λ text. (result ≡ replies.Says (output_answer text)) ⊎ (result ≡ replies.Memory)) (λ _. result ≡ replies.Memory) }
{
    match text {
        Ok(text) => output(alloc, Output::whole(text)),
        Err(Memory) => Reply::Memory,
    }
}

/// A text as the answer, by a front that is all of it or already too long, or want of memory.
pub(crate) fn answered_front(alloc: Global, front: List<u8>) -> Reply
    ensures { (text : List ℕ) → IsUpTo output_limit text front → (result ≡ replies.Says (output_answer text)) ⊎ (result ≡ replies.Memory) }
{
    output(alloc, Output::whole(front))
}

/// The reply for a text that is too long, or want of memory.
pub(crate) fn too_long(alloc: Global) -> Reply
    ensures { (text : List ℕ) → output_limit < length text → (result ≡ replies.Says (output_answer text)) ⊎ (result ≡ replies.Memory) }
{
    refused(alloc, "OutputTooLong", &[])
}

/// A text as the answer, where it is not too long.
pub(crate) fn output(alloc: Global, text: Output) -> Reply
    ensures { (result ≡ replies.Says (output_answer text)) ⊎ (result ≡ replies.Memory) }
{
    if text.len() <= OUTPUT_LIMIT {
        return Reply::Says(Answer::Done(text));
    }
    too_long(alloc)
}
