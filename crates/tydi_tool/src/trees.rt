//! How the text of a project is read as its tree.

ghost use Rattle.std.specs.Prelude.{◌≡◌, ◌<◌, ◌-◌, ◌^◌, Ok, length};
ghost use Rattle.til_lexer.specs.Tokens.{tokens_of};
ghost use Rattle.til_parser.specs.Faults.{NamesToken};
ghost use Rattle.tydi_tool.specs.Trees.{ReadsTree, ReadsTokens, refusal_of_parsing};
ghost use Rattle.tydi_tool.specs.Reading.{IsRefusedBy, ReadsAs};
ghost use Rattle.tydi_tool.specs.Refusals.{refusal_of_lexing};

use crate::answer::Reply;
use crate::gather::TextReader;
use crate::refusal::{Detail, refused};
use std::alloc::Global;
use std::str;
use til_lexer::{LexFault, Token, lex};
use til_parser::{Ast, ParseFault, parse};
use tydi_base::Text;

/// Reads the text of the project of this word as its tree.
#[derive(Clone, Copy, Drop)]
pub(crate) struct TreeText<'a> {
    pub(crate) word: &'a Text,
}

impl<'a> TextReader<Ast> for TreeText<'a> {
    ghost reads = { λ tree bytes read. ReadsTree tree.word.now bytes read };

    fn read(&self, alloc: Global, bytes: &[u8]) -> Result<Ast, Reply> {
        read_tree(alloc, self.word, bytes)
    }
}

/// The tree of the bytes of a project.
pub(crate) fn read_tree(alloc: Global, word: &Text, bytes: &[u8]) -> Result<Ast, Reply>
    requires { length bytes.now < 2 ^ 32 - 1 }
    ensures { ReadsAs (ReadsTree word.now bytes.now) result }
{
    match str::from_utf8(bytes) {
        Ok(text) => read_text(alloc, word, text),
        Err(error) => {
            let front = Detail::Number(error.valid_up_to() as u64);
            Err(refused(alloc, "NotUtf8", &[Detail::Word(word), front]))
        }
    }
}

/// The tree of the text of a project.
fn read_text(alloc: Global, word: &Text, text: &str) -> Result<Ast, Reply>
    requires { length text.now < 2 ^ 32 - 1 }
    ensures { ReadsAs (ReadsTokens word.now text.now (tokens_of text.now)) result }
{
    match lex(alloc, text) {
        Ok(tokens) => read_tokens(alloc, word, text, tokens.as_slice()),
        Err(fault) => Err(misspelled(alloc, word, fault)),
    }
}

/// The reply to a text with this error of its tokens.
fn misspelled(alloc: Global, word: &Text, fault: LexFault) -> Reply
    ensures { IsRefusedBy (refusal_of_lexing word.now fault) result }
{
    let (name, place) = match fault {
        LexFault::StrayChar(place) => ("StrayChar", place),
        LexFault::OpenString(place) => ("OpenString", place),
        LexFault::OpenDoc(place) => ("OpenDoc", place),
        LexFault::NameNotAscii(place) => ("NameNotAscii", place),
        LexFault::BadName(place) => ("BadName", place),
        LexFault::NumberTooLong(place) => ("NumberTooLong", place),
        LexFault::Memory => return Reply::Memory,
    };
    refused(alloc, name, &[Detail::Word(word), Detail::At(place)])
}

/// The tree of the tokens of a text.
fn read_tokens(alloc: Global, word: &Text, text: &str, tokens: &[Token]) -> Result<Ast, Reply>
    requires { tokens_of text.now ≡ Ok tokens.now }
    ensures { ReadsAs (ReadsTokens word.now text.now (Ok tokens.now)) result }
{
    match parse(alloc, text, tokens) {
        Ok(ast) => Ok(ast),
        Err(fault) => Err(unparsed(alloc, word, tokens, fault)),
    }
}

/// The reply to tokens that spell no tree, with this error.
fn unparsed(alloc: Global, word: &Text, tokens: &[Token], fault: ParseFault) -> Reply
    requires { NamesToken (length tokens.now) fault }
    ensures { IsRefusedBy (refusal_of_parsing word.now tokens.now fault) result }
{
    let file = Detail::Word(word);
    match fault {
        ParseFault::Unexpected(index) => {
            refused(
                alloc,
                "Unexpected",
                &[file, Detail::At(tokens[index].place)],
            )
        }
        ParseFault::EndOfText => refused(alloc, "EndOfText", &[file]),
        ParseFault::TooDeep(index) => {
            refused(alloc, "TooDeep", &[file, Detail::At(tokens[index].place)])
        }
        ParseFault::Memory => Reply::Memory,
    }
}
