use tydi_base::Place;

/// The kind of a token.
#[derive(Clone, Copy, Debug, PartialEq, Eq)]
pub enum TokenKind {
    /// A word that has the form of a name. Reserved words and the language's own words are words too.
    Word,
    /// Digits, or digits, `.` and digits.
    Number,
    /// Text from `"` to the next `"`, both included.
    Quoted,
    /// Documentation from `#` to the next `#`, both included.
    Doc,
    /// `{`
    OpenBrace,
    /// `}`
    CloseBrace,
    /// `(`
    OpenParen,
    /// `)`
    CloseParen,
    /// `:`
    Colon,
    /// `::`
    DoubleColon,
    /// `;`
    Semicolon,
    /// `,`
    Comma,
    /// `=`
    Equals,
    /// `.`
    Point,
    /// `--`
    DoubleDash,
}

/// A token of a text. Its own text is the slice of the source from `from` up to `to`.
#[derive(Clone, Copy, Debug, PartialEq, Eq)]
pub struct Token {
    /// Its kind.
    pub kind: TokenKind,
    /// Where its first byte stands in the source.
    pub from: u32,
    /// Where the byte after it stands in the source.
    pub to: u32,
    /// The place of its first byte.
    pub place: Place,
}
