//! The laws of the tokens of a text.

ghost use Rattle.til_lexer.specs.Slices.{TokensAreOfTheText};
ghost use Rattle.til_lexer.specs.Spelling.{SpelledTokensAreRead, SpellingsAreTheirTexts, TokensHaveTheirForm};

/// The law of tokens: each token of a text is the piece that stands at its place, and is cut from the text between whole
/// characters.
pub fn tokens_are_of_the_text()
    ensures { TokensAreOfTheText }
{}

/// The law of forms: the text of each token has the form of its kind.
pub fn tokens_have_their_form()
    ensures { TokensHaveTheirForm }
{}

/// The law of spelling: tokens that are spelled one after another, each in its form, with white space after it where it would
/// else go on with the next, are read as these tokens, and the text of each is its spelling.
pub fn spelled_tokens_are_read()
    ensures read { SpelledTokensAreRead }
    ensures texts { SpellingsAreTheirTexts }
{}
