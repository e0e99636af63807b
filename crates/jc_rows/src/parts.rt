//! The bytes of the parts of a row.

use crate::class_answers::has_short_fronts;
use crate::tokens::Token;
use anyhow::{Context, Result, bail, ensure};
use jc_base::ByteMap;
use std::alloc::{AllocError, Global};

/// The bytes of each name that a file of rows defines.
pub(crate) type Names = ByteMap<Vec<u8>>;

/// The bytes so far, the open brackets, and the place where the last part begins.
#[derive(Drop)]
struct Parts {
    bytes: Vec<u8>,
    open: Vec<Bracket>,
    last: usize,
}

/// The place where the contents of a bracket begin, and the number of bytes of the length before them.
#[derive(Drop)]
struct Bracket {
    at: usize,
    length_bytes: usize,
}

impl Parts {
    fn add(&mut self, alloc: Global, names: &Names, token: Token) -> Result<()> {
        match token {
            Token::Quoted(text) => self.push(text.as_bytes())?,
            Token::Word(word) => self.push_word(alloc, names, word)?,
            Token::Times(times) => self.repeat(alloc, times)?,
            Token::Open(length_bytes) => self.open.push(Bracket {
                at: self.bytes.len(),
                length_bytes,
            })?,
            Token::Close => {
                let bracket = self.open.pop().context("a bracket too many")?;
                self.close(alloc, bracket)?;
            }
            _ => bail!("a mark is no part"),
        }
        Ok(())
    }

    fn push(&mut self, part: &[u8]) -> Result<(), AllocError> {
        self.last = self.bytes.len();
        self.bytes.extend_from_slice(part)
    }

    /// Adds the bytes of hexadecimal digits or of a name.
    fn push_word(&mut self, alloc: Global, names: &Names, word: &str) -> Result<()> {
        if is_hexadecimal(word) {
            let bytes = hex::decode(alloc, word).context(word)?;
            return Ok(self.push(&bytes)?);
        }
        let Some(bytes) = names.get(word.as_bytes()) else {
            bail!("nothing has the name {word}");
        };
        Ok(self.push(bytes)?)
    }

    /// Inserts the length of the contents of a bracket before them.
    fn close(&mut self, alloc: Global, bracket: Bracket) -> Result<()> {
        let Bracket { at, length_bytes } = bracket;
        let held = Vec::from_slice(alloc, self.bytes.get(at..).unwrap_or(&[]))?;
        self.bytes.truncate(at);
        let length = u32::try_from(held.len()).context("a bracket that holds too much")?;
        let digits = length.to_be_bytes();
        let front = digits.len().saturating_sub(length_bytes);
        self.bytes
            .extend_from_slice(digits.get(front..).unwrap_or(&[]))?;
        self.bytes.extend_from_slice(&held)?;
        self.last = at;
        Ok(())
    }

    /// Repeats the last part, so that it occurs `times` times.
    fn repeat(&mut self, alloc: Global, times: usize) -> Result<(), AllocError> {
        let part = Vec::from_slice(alloc, self.bytes.get(self.last..).unwrap_or(&[]))?;
        self.bytes.truncate(self.last);
        for _ in 0..times {
            self.bytes.extend_from_slice(&part)?;
        }
        Ok(())
    }
}

fn is_hexadecimal(word: &str) -> bool {
    for byte in word.as_bytes() {
        if !matches!(byte, b'0'..=b'9' | b'a'..=b'f') {
            return false;
        }
    }
    true
}

/// Returns the bytes of the tokens. If they are a class file, each truncation of it must be refused as `Short`.
pub(crate) fn bytes_of(alloc: Global, names: &Names, tokens: &[Token]) -> Result<Vec<u8>> {
    let mut parts = Parts {
        bytes: Vec::new(alloc),
        open: Vec::new(alloc),
        last: 0,
    };
    for token in tokens {
        parts.add(alloc, names, *token)?;
    }
    ensure!(parts.open.is_empty(), "a bracket is not closed");
    ensure!(
        has_short_fronts(alloc, &parts.bytes),
        "a front of a class file is not 7 Short"
    );
    Ok(parts.bytes)
}
