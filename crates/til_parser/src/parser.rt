//! The tokens that are not taken yet, and the steps over them.

ghost use Rattle.std.specs.Prelude.{◌≡◌, ℕ, true, false, if◌then◌else◌, All, IfSome, List, Option, length, option_map};
ghost use denote.Ref.{Bor};
ghost use Rattle.til_lexer.specs.Slices.{IsTokenOf};
ghost use Rattle.til_lexer.specs.Spelling.{HasForm, own_text};
ghost use Rattle.til_parser.specs.Lexemes.{Lexeme, HasFormIn, lexemes_of};
ghost use Rattle.til_parser.specs.Reading as spec;
ghost use Rattle.til_parser.specs.declared.ltype.AstType.{AstType};
ghost use Rattle.til_parser.specs.declared.refusal.TooDeep.{TooDeep};
ghost use Rattle.tydi_reading.specs.Calls.{Means};
ghost use Rattle.tydi_reading.specs.Reading.{Outcome, ReadsAlways, rest_of, stopped, tells, told_by, unfit};
ghost use Rattle.til_parser.specs.Words.{argument_at, type_word_at};

use crate::keyword::{Argument, TypeWord, argument_of, type_word_of};
use crate::refusal::{Fault, TooDeep};
use std::alloc::Global;
use std::marker::Model;
use til_lexer::{Token, TokenKind};
use tydi_base::Place;
use tydi_reading::{Source, mark};

/// The tokens of a text that are not taken yet. Contracts see these.
#[derive(Drop)]
pub(crate) struct Parser<'a> {
    alloc: Global,
    text: &'a str,
    rest: &'a [Token],
}

impl<'a> Model for Parser<'a> {
    ghost use Rattle.std.specs.Prelude.{List};
    ghost use Rattle.til_parser.specs.Lexemes.{Lexeme};

    ghost Value = { List Lexeme };

    ghost use Rattle.til_parser.specs.Cursor.{tokens_left, IsReady};

    ghost view = { tokens_left };

    ghost invariant = { IsReady };
}

impl<'a> Source for Parser<'a> {
    ghost use Rattle.til_parser.specs.Cursor.{tokens};
    ghost use Rattle.til_parser.specs.Lexemes.{Lexeme};

    ghost Thing = { Lexeme };

    ghost left = { tokens };

    fn skip(&mut self) {
        if let [_, rest @ ..] = self.rest {
            self.rest = rest;
        }
    }
}

impl<'a> Parser<'a> {
    /// All tokens of a text.
    pub(crate) fn new(alloc: Global, text: &'a str, tokens: &'a [Token]) -> Parser<'a>
        requires each { All (IsTokenOf text.now) tokens.now }
        requires formed { All (HasFormIn text.now) tokens.now }
        ensures { result ≡ lexemes_of text.now tokens.now }
    {
        Parser {
            alloc,
            text,
            rest: tokens,
        }
    }

    pub(crate) fn alloc(&self) -> Global {
        self.alloc
    }

    /// How many tokens are left.
    pub(crate) fn left(&self) -> usize
        ensures { result ≡ length self.now }
    {
        self.rest.len()
    }

    /// Whether no token is left.
    pub(crate) fn is_at_end(&self) -> bool
        ensures { result ≡ tells (λ _. false) true self.now }
    {
        self.rest.is_empty()
    }

    /// Whether the next token is of this kind.
    pub(crate) fn sees(&self, kind: TokenKind) -> bool
        ensures { result ≡ tells (spec.is_kind kind) false self.now }
    {
        match self.rest {
            [next, ..] => same_kind(next.kind, kind),
            [] => false,
        }
    }

    /// Whether the next token is this word.
    pub(crate) fn sees_word(&self, word: &str) -> bool
        ensures { result ≡ tells (spec.is_word word.now) false self.now }
    {
        match self.rest {
            [next, ..] => {
                same_kind(next.kind, TokenKind::Word) && spelling(self.text, next) == word
            }
            [] => false,
        }
    }

    /// The place and the text of the next token, where it is of this kind.
    pub(crate) fn next_of(&self, kind: TokenKind) -> Option<(Place, &'a str)>
        ensures value { option_map (λ next. (next.0, next.1.now)) result ≡ spec.next_of kind self.now }
        ensures formed { IfSome result (λ next. HasForm kind next.1.now) }
    {
        match self.rest {
            [next, ..] if same_kind(next.kind, kind) => {
                Some((next.place, spelling(self.text, next)))
            }
            _ => None,
        }
    }

    /// The word of a type that stands next, if one does.
    pub(crate) fn type_word(&self) -> Option<TypeWord>
        ensures { result ≡ told_by type_word_at self.now }
    {
        match self.rest {
            [next, ..] if same_kind(next.kind, TokenKind::Word) => {
                type_word_of(spelling(self.text, next))
            }
            _ => None,
        }
    }

    /// The argument that the next token names, if it names one.
    pub(crate) fn argument_name(&self) -> Option<Argument>
        ensures { result ≡ told_by argument_at self.now }
    {
        match self.rest {
            [next, ..] if same_kind(next.kind, TokenKind::Word) => {
                argument_of(spelling(self.text, next))
            }
            _ => None,
        }
    }

    /// Takes the next token where it is of this kind, and says whether it was.
    pub(crate) fn eat(&mut self, kind: TokenKind) -> bool
        ensures seen { result ≡ tells (spec.is_kind kind) false self.old }
        ensures taken { self.new ≡ (if result then rest_of self.old else self.old) }
    {
        let seen = self.sees(kind);
        if seen {
            self.skip();
        }
        seen
    }

    /// Takes the next token, which is to be of this kind.
    pub(crate) fn expect(&mut self, kind: TokenKind) -> Result<(), Fault>
        ensures { ReadsAlways (spec.expect kind self.old) result self.new }
    {
        mark(self, |rest| rest.sees(kind))
    }

    /// Takes the next token, which is to be this word.
    pub(crate) fn expect_word(&mut self, word: &str) -> Result<(), Fault>
        ensures { ReadsAlways (spec.expect_word word.now self.old) result self.new }
    {
        mark(self, |rest| rest.sees_word(word))
    }

    /// Takes the next token, which is to be of this kind and to have a meaning, and gives the meaning.
    #[tactic(auto, unfolding(crate::specs::Reading::token))]
    pub(crate) fn token<A: Drop, F: Fn(&str) -> Option<A>>(
        &mut self,
        kind: TokenKind,
        meaning: F,
    ) -> Result<A, Fault>
        requires { (text : Bor (List ℕ)) → HasForm kind text.now → F.Fn.pre meaning (text, tt) }
        ensures { (means : List ℕ → Option A) → Means F.Fn meaning means → ReadsAlways (spec.token kind (λ place spelling. means spelling) self.old) result self.new }
    {
        let Some((_, spelling)) = self.next_of(kind) else {
            return Err(Fault::Refused);
        };
        let Some(found) = meaning(spelling) else {
            return Err(Fault::Refused);
        };
        self.skip();
        Ok(found)
    }

    /// Why no type may stand here, inside as many others as are allowed.
    pub(crate) fn too_deep(&self) -> Fault
        ensures { ◌≡◌ {A = Outcome TooDeep Lexeme AstType} (unfit (record {}) spec.begins_type self.now) (stopped result self.now) }
    {
        match self.rest {
            [next, ..] if same_kind(next.kind, TokenKind::Word) => Fault::Unfit(TooDeep),
            _ => Fault::Refused,
        }
    }
}

/// The text of a token.
fn spelling<'a>(text: &'a str, token: &Token) -> &'a str
    requires { IsTokenOf text.now token.now }
    ensures { result.now ≡ own_text text.now token.now }
{
    &text[token.from as usize..token.to as usize]
}

#[tactic(auto, unfolding(crate::specs::Reading::same_kind))]
fn same_kind(one: TokenKind, other: TokenKind) -> bool
    ensures { result ≡ spec.same_kind one other }
{
    one == other
}
