//! Whether a text has the form of a value.

ghost use Rattle.std.specs.Prelude.{◌≡◌, IfOk, MatchOption};
ghost use Rattle.value_text.specs.Grammar.{Text};
ghost use Rattle.value_text.specs.Stops.{stop_of};
ghost use Rattle.value_text.specs.Syntax as syntax;
ghost use Rattle.value_text.specs.Tokens.{tokens_of};

use crate::tokens::Tokens;
use std::alloc::Global;
use tydi_base::Memory;
use tydi_reading::Fault;

/// Where reading stops at a text whose tokens have not the form of a value's text, by how many bytes there are from the next token on.
/// None exactly where they have the form.
pub(crate) fn refused_at(alloc: Global, text: &[u8]) -> Result<Option<usize>, Memory>
    ensures form { IfOk result (λ stop. MatchOption stop (Text (tokens_of text.now)) (λ left. Text (tokens_of text.now) → ⊥)) }
    ensures stop { IfOk result (λ stop. stop ≡ stop_of (syntax.text (tokens_of text.now))) }
{
    let mut tokens = Tokens::new(text);
    match tokens.pass_text(alloc) {
        Ok(()) => Ok(tokens.stop()),
        Err(Fault::Memory) => Err(Memory),
        Err(Fault::Refused) => Ok(Some(tokens.bytes_left())),
        Err(Fault::Unfit(_)) => Ok(Some(tokens.bytes_left())),
    }
}
