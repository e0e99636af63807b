//! The tokens of the lines of a row.

use anyhow::{Context, Result};
use std::alloc::Global;

#[derive(Clone, Copy)]
pub(crate) enum Token<'a> {
    /// The text between two quotes.
    Quoted(&'a str),
    /// Hexadecimal digits, a name or another word.
    Word(&'a str),
    /// An opening bracket. The length of its contents comes before them, in this number of bytes.
    Open(usize),
    Close,
    /// `*N`: the part before it occurs N times.
    Times(usize),
    Equals,
    Arrow,
}

const MARKS: [(&str, Token); 7] = [
    ("(", Token::Open(0)),
    ("u2[", Token::Open(2)),
    ("u4[", Token::Open(4)),
    (")", Token::Close),
    ("]", Token::Close),
    ("=", Token::Equals),
    ("->", Token::Arrow),
];

fn ends_a_word(byte: u8) -> bool {
    matches!(
        byte,
        b' ' | b'\t' | b'"' | b'(' | b')' | b']' | b'*' | b'=' | b'#'
    )
}

fn split_word(text: &str) -> (&str, &str) {
    for (place, byte) in text.as_bytes().iter().enumerate() {
        if ends_a_word(*byte) {
            return text.split_at_checked(place).unwrap_or((text, ""));
        }
    }
    (text, "")
}

/// Returns the token at the front of a text that does not begin with a space, and the text after the token.
fn first_token(text: &str) -> Result<(Token<'_>, &str)> {
    for (mark, token) in MARKS {
        if let Some(rest) = text.strip_prefix(mark) {
            return Ok((token, rest));
        }
    }
    if let Some(rest) = text.strip_prefix('"') {
        return quoted(rest);
    }
    if let Some(rest) = text.strip_prefix('*') {
        return times(rest);
    }
    let (word, rest) = split_word(text);
    Ok((Token::Word(word), rest))
}

/// Reads the text up to the next quote.
fn quoted(text: &str) -> Result<(Token<'_>, &str)> {
    let (quoted, rest) = text.split_once('"').context("a quote without its end")?;
    Ok((Token::Quoted(quoted), rest))
}

/// Reads the number after a star.
fn times(text: &str) -> Result<(Token<'_>, &str)> {
    let (digits, rest) = split_word(text);
    let times = digits
        .parse::<usize>()
        .context("a star without its number")?;
    Ok((Token::Times(times), rest))
}

/// Returns the tokens of a line before its comment or its arrow, and the text after the arrow if there is one.
pub(crate) fn tokens_of(alloc: Global, line: &str) -> Result<(Vec<Token<'_>>, Option<&str>)> {
    let mut tokens = Vec::new(alloc);
    let mut rest = line.trim_start();
    for _ in 0..line.len() {
        if rest.is_empty() || rest.starts_with('#') {
            break;
        }
        let (token, behind) = first_token(rest)?;
        if matches!(token, Token::Arrow) {
            return Ok((tokens, Some(behind)));
        }
        tokens.push(token)?;
        rest = behind.trim_start();
    }
    Ok((tokens, None))
}
