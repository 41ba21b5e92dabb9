//! Lists in braces and in brackets, over what one item or one step is.

ghost use Rattle.std.specs.Prelude.{◌≡◌};
ghost use Rattle.til_parser.specs.Cursor.{tokens};
ghost use Rattle.til_parser.specs.Lexemes.{Lexeme};
ghost use Rattle.til_parser.specs.ReadDecls as decls;
ghost use Rattle.til_parser.specs.ReadTypes as types;
ghost use Rattle.til_parser.specs.declared.refusal.TooDeep.{TooDeep};
ghost use Rattle.tydi_reading.specs.Calls.{DoesRead, DoesShrink, DoesStep, StepsShrink};
ghost use Rattle.tydi_reading.specs.Reading.{Reader, Reads, Shrinks};

use crate::parser::Parser;
use crate::refusal::Fault;
use til_lexer::TokenKind;
use tydi_base::List;
use tydi_reading::{repeated, steps};

impl<'a> Parser<'a> {
    /// `"{" { item } "}"`
    #[tactic(auto, unfolding(crate::specs::ReadDecls::braced))]
    pub(crate) fn braced<A: Drop, P: Fn(&mut Parser<'a>) -> Result<A, Fault>>(
        &mut self,
        item: P,
    ) -> Result<List<A>, Fault>
        requires calls { P.IsAlwaysCallable item }
        requires less { DoesShrink tokens P.Fn item }
        ensures { (read : Reader TooDeep Lexeme A) → DoesRead tokens P.Fn item read → Shrinks read → Reads (decls.braced read self.old) result self.new }
    {
        self.expect(TokenKind::OpenBrace)?;
        let none = List::new(self.alloc());
        let items = repeated(self, none, |rest| rest.sees(TokenKind::CloseBrace), item)?;
        self.expect(TokenKind::CloseBrace)?;
        Ok(items)
    }

    /// `"(" [ step { "," step } [ "," ] ] ")"`
    #[tactic(auto, unfolding(crate::specs::ReadTypes::bracketed_steps))]
    pub(crate) fn bracketed<S: Drop, P: Fn(&mut Parser<'a>, S) -> Result<S, Fault>>(
        &mut self,
        start: S,
        step: P,
    ) -> Result<S, Fault>
        requires calls { P.IsAlwaysCallable step }
        requires less { StepsShrink tokens P.Fn step }
        ensures { (read : S → Reader TooDeep Lexeme S) → DoesStep tokens P.Fn step read → ((s : S) → Shrinks (read s)) → Reads (types.bracketed_steps read start self.old) result self.new }
    {
        self.expect(TokenKind::OpenParen)?;
        let end = steps(
            self,
            start,
            |rest| rest.sees(TokenKind::CloseParen),
            |rest| rest.sees(TokenKind::Comma),
            step,
        )?;
        self.expect(TokenKind::CloseParen)?;
        Ok(end)
    }
}
