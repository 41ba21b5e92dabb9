//! The tree that tokens spell.

ghost use Rattle.std.specs.Prelude.{◌≡◌, ◌≢◌, Ok, IfOk, IfErr, length};
ghost use Rattle.til_lexer.specs.Tokens.{tokens_of};
ghost use Rattle.til_parser.specs.declared.fault.ParseFault.TheVariants as faults;
ghost use Rattle.til_parser.specs.Faults as spec;
ghost use Rattle.til_parser.specs.Faults.{NamesToken, IsFaultOf, IsTold};
ghost use Rattle.til_parser.specs.Grammar.{Spells, SpellNone, IsWithin, most_levels};
ghost use Rattle.til_parser.specs.Lexemes.{lexemes_of};

use crate::fault::ParseFault;
use crate::parser::Parser;
use crate::refusal::Fault;
use crate::tree::Ast;
use std::alloc::Global;
use til_lexer::{Token, tokens_are_of_the_text, tokens_have_their_form};

/// How deep types may nest.
const MOST_LEVELS: usize = 64;

/// The tree that the tokens of a text spell, as `lex` gives them, with the places of its names; its types nest at most 64 deep.
/// Apart from `Memory` it fails exactly where the tokens spell no such tree, and the error says why: see `ParseFault`. Where it names
/// a token, it is one of `tokens`. `IsFaultOf` defines each error by the texts of the language alone. Tokens have at most one
/// error, and it is the one reported.
pub fn parse(alloc: Global, text: &str, tokens: &[Token]) -> Result<Ast, ParseFault>
    requires { tokens_of text.now ≡ Ok tokens.now }
    ensures spelled { IfOk result (λ ast. Spells ast (lexemes_of text.now tokens.now)) }
    ensures within { IfOk result (λ ast. IsWithin most_levels ast) }
    ensures none { IfErr result (λ fault. fault ≢ faults.Memory → SpellNone (lexemes_of text.now tokens.now)) }
    ensures named { IfErr result (NamesToken (length tokens.now)) }
    ensures exact { IfErr result (λ fault. fault ≢ faults.Memory → IsFaultOf (lexemes_of text.now tokens.now) fault) }
    ensures told { IsTold (lexemes_of text.now tokens.now) result }
{
    tokens_are_of_the_text();
    tokens_have_their_form();
    let mut parser = Parser::new(alloc, text, tokens);
    match parser.project(MOST_LEVELS) {
        Ok(ast) => Ok(ast),
        Err(fault) => Err(fault_at(fault, tokens.len(), parser.left())),
    }
}

/// The error of a text with so many tokens, where the parser failed with so many left.
fn fault_at(fault: Fault, count: usize, left: usize) -> ParseFault
    ensures { result ≡ spec.fault_at fault count left }
{
    match fault {
        Fault::Refused if left == 0 => ParseFault::EndOfText,
        Fault::Refused => ParseFault::Unexpected(count.saturating_sub(left)),
        Fault::Unfit(_) => ParseFault::TooDeep(count.saturating_sub(left)),
        Fault::Memory => ParseFault::Memory,
    }
}
