//! The tokens of texts. Their errors are tried on the program, by the table of tokens among the examples.

use crate::calls::number;
use std::alloc::Global;
use til_lexer::{Token, TokenKind, lex};
use tydi_base::{List, Memory, emit};

/// Texts: each token by its kind, from where to where it stands, its line and its byte in that.
pub(crate) const TOKENS: &[(&str, &str, &str)] = &[
    // Every kind of token, with characters of two bytes before some of them.
    (
        "namespace a::b { // \u{3c0}\n\t#d\u{e9}\n#type T1_x=Bits(8.25);\r\n\"\u{e9}\"--1.,.:}",
        "",
        "word 0-9 1:1, word 10-11 1:11, :: 11-13 1:12, word 13-14 1:14, { 15-16 1:16, doc 24-30 2:2, word 30-34 3:2, word 35-39 3:7, \
         = 39-40 3:11, word 40-44 3:12, ( 44-45 3:16, number 45-49 3:17, ) 49-50 3:21, ; 50-51 3:22, quoted 53-57 4:1, -- 57-59 4:5, \
         number 59-60 4:7, . 60-61 4:8, , 61-62 4:9, . 62-63 4:10, : 63-64 4:11, } 64-65 4:12, ",
    ),
    ("", "", ""),
    (" \t\r\n// a_", "", ""),
    (
        "123456789012345678 123456789.123456789",
        "",
        "number 0-18 1:1, number 19-38 1:20, ",
    ),
    (
        "Null Bits Group Union Stream",
        "",
        "word 0-4 1:1, word 5-9 1:6, word 10-15 1:11, word 16-21 1:17, word 22-28 1:23, ",
    ),
    (
        "a:::b--c",
        "",
        "word 0-1 1:1, :: 1-3 1:2, : 3-4 1:4, word 4-5 1:5, -- 5-7 1:6, word 7-8 1:8, ",
    ),
    (
        "1.2.3//4\n5",
        "",
        "number 0-3 1:1, . 3-4 1:4, number 4-5 1:5, number 9-10 2:1, ",
    ),
];

/// A number, and a line: how many tokens there are in so many such lines, 4 MiB.
pub(crate) const COUNTED: &[(&str, &str, &str)] = &[(
    "65536",
    "type word_of_bits = Stream(data: Bits(16), complexity: 8); // c\n",
    "1114112",
)];

fn name_of(kind: TokenKind) -> &'static str {
    match kind {
        TokenKind::Word => "word",
        TokenKind::Number => "number",
        TokenKind::Quoted => "quoted",
        TokenKind::Doc => "doc",
        TokenKind::OpenBrace => "{",
        TokenKind::CloseBrace => "}",
        TokenKind::OpenParen => "(",
        TokenKind::CloseParen => ")",
        TokenKind::Colon => ":",
        TokenKind::DoubleColon => "::",
        TokenKind::Semicolon => ";",
        TokenKind::Comma => ",",
        TokenKind::Equals => "=",
        TokenKind::Point => ".",
        TokenKind::DoubleDash => "--",
    }
}

// A token whose place has another offset is not written, so that no row shows it.
fn write_token(token: &Token, out: &mut List<u8>) -> Result<(), Memory> {
    if token.place.offset != token.from {
        return Err(Memory);
    }
    emit!(out; name_of(token.kind), " ", token.from, "-", token.to)?;
    emit!(out; " ", token.place.line, ":", token.place.column, ", ")
}

fn write_tokens(tokens: &[Token], out: &mut List<u8>) -> Result<(), Memory> {
    for token in tokens {
        write_token(token, out)?;
    }
    Ok(())
}

pub(crate) fn tokens(alloc: Global, text: &str, out: &mut List<u8>) -> Result<(), Memory> {
    if text.len() > 1_000_000 {
        return Err(Memory);
    }
    match lex(alloc, text) {
        Ok(tokens) => write_tokens(tokens.as_slice(), out),
        Err(_) => Err(Memory),
    }
}

fn repeated(alloc: Global, count: u64, line: &str) -> Result<String, Memory> {
    let mut text = String::new(alloc);
    for _ in 0..count {
        text.push_str(line)?;
    }
    Ok(text)
}

pub(crate) fn counted(
    alloc: Global,
    count: &str,
    line: &str,
    out: &mut List<u8>,
) -> Result<(), Memory> {
    let text = repeated(alloc, number(count), line)?;
    if text.len() != 4_194_304 {
        return Err(Memory);
    }
    match lex(alloc, text.as_str()) {
        Ok(tokens) => emit!(out; tokens.len()),
        Err(_) => Err(Memory),
    }
}
