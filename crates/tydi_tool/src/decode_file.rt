//! How the text of the trace of a port is read: as what was found of it.

ghost use Rattle.std.specs.Prelude.{ℕ, List, Err};
ghost use Rattle.trace_decode.specs.Standing.{CanDecode};
ghost use Rattle.trace_decode.specs.Texts.{IsReadBack};
ghost use Rattle.type_split.specs.Streams.{PlainSplit, plain_split};
ghost use Rattle.tydi_tool.specs.DecodeFiles.{IsFedSome, IsNewFor, decodes_after};
ghost use Rattle.tydi_tool.specs.Decodes.{ReadsOutcome, outcome_in};
ghost use Rattle.tydi_tool.specs.Reading.{ReadsAs, Seen};

use crate::answer::Reply;
use crate::decoding::{Decoding, decoding_of};
use crate::reader::Reader;
use crate::traces::faulted;
use std::alloc::Global;
use trace_decode::{Decoded, TextDecoder, TextFault};
use tydi_base::{Memory, Text};
use type_split::Split;

/// Reads the text of the trace of this word as it comes, against a port.
#[derive(Drop)]
pub(crate) struct DecodeFile<'a> {
    word: &'a Text,
    decoder: TextDecoder<'a, 'a>,
    fed: u64,
}

impl<'a> DecodeFile<'a> {
    pub(crate) fn new(alloc: Global, word: &'a Text, split: &'a Split<'a>) -> DecodeFile<'a>
        requires { CanDecode (plain_split split.now) }
        ensures { IsNewFor (plain_split split.now) word.now result }
    {
        DecodeFile {
            word,
            decoder: TextDecoder::new(alloc, split),
            fed: 0,
        }
    }
}

impl Reader<Decoding> for DecodeFile<'_> {
    ghost reads = { decodes_after };

    ghost fed = { λ file. file.fed };

    ghost stands = { IsFedSome };

    fn feed(&mut self, alloc: Global, piece: &[u8]) -> Result<(), Memory> {
        self.fed += piece.len() as u64;
        self.decoder.feed(alloc, piece)
    }

    fn finish(self, alloc: Global) -> Result<Decoding, Reply> {
        let DecodeFile { word, decoder, .. } = self;
        found(alloc, word, decoder.finish(alloc))
    }
}

/// What was found of a text that was read to its end, or the reply to its first error.
fn found(
    alloc: Global,
    word: &Text,
    finished: Result<Decoded, TextFault>,
) -> Result<Decoding, Reply>
    ensures { (split : PlainSplit) (bytes : List ℕ) → IsReadBack split bytes finished → ReadsAs (Seen outcome_in (ReadsOutcome split word.now bytes)) result }
{
    match finished {
        Ok(decoded) => Ok(Decoding::Carried(decoded)),
        Err(fault) => found_none(alloc, word, fault),
    }
}

/// What was found of a text that has no value, or the reply to its first error.
fn found_none(alloc: Global, word: &Text, fault: TextFault) -> Result<Decoding, Reply>
    ensures { (split : PlainSplit) (bytes : List ℕ) → IsReadBack split bytes (Err fault) → ReadsAs (Seen outcome_in (ReadsOutcome split word.now bytes)) result }
{
    match fault {
        TextFault::Misspelled(fault) => Err(faulted(alloc, word, fault)),
        TextFault::NoValue(fault) => decoding_of(fault),
    }
}
