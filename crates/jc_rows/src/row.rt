//! The rows of a file, with their lines.

use crate::tokens::{Token, tokens_of};
use anyhow::{Context, Result, bail};
use std::alloc::Global;

/// A row or a definition: its first line, and the lines that continue it.
#[derive(Drop)]
pub(crate) struct Row<'a> {
    pub(crate) number: usize,
    pub(crate) head: &'a str,
    pub(crate) more: Vec<&'a str>,
}

/// The contents of a row that is not a dialogue.
#[derive(Drop)]
pub(crate) struct Statement<'a> {
    pub(crate) tokens: Vec<Token<'a>>,
    /// The text after the arrow, on its line and on the lines after it.
    pub(crate) answer: Option<String>,
}

impl<'a> Row<'a> {
    /// Parses all lines of the row.
    pub(crate) fn statement(&self, alloc: Global) -> Result<Statement<'a>> {
        let mut statement = head_of(alloc, self.head)?;
        for line in &self.more {
            statement.go_on(alloc, line)?;
        }
        Ok(statement)
    }
}

impl<'a> Statement<'a> {
    /// Returns the tokens after the first two.
    pub(crate) fn parts(&self) -> &[Token<'a>] {
        &self.tokens[self.tokens.len().min(2)..]
    }

    fn go_on(&mut self, alloc: Global, line: &'a str) -> Result<()> {
        if let Some(answer) = &mut self.answer {
            answer.push_str(" ")?;
            return Ok(answer.push_str(without_comment(line))?);
        }
        let (tokens, answer) = tokens_of(alloc, line)?;
        self.tokens.extend_from_slice(&tokens)?;
        if let Some(answer) = answer {
            self.answer = Some(String::from_str(alloc, without_comment(answer))?);
        }
        Ok(())
    }
}

/// Returns the text before a comment, without spaces around it.
pub(crate) fn without_comment(text: &str) -> &str {
    let (text, _) = text.split_once('#').unwrap_or((text, ""));
    text.trim()
}

/// Parses the first line of a row.
pub(crate) fn head_of<'a>(alloc: Global, head: &'a str) -> Result<Statement<'a>> {
    let mut statement = Statement {
        tokens: Vec::new(alloc),
        answer: None,
    };
    statement.go_on(alloc, head)?;
    Ok(statement)
}

/// Returns the rows of a text. Blank lines and comments are skipped.
pub(crate) fn rows_of(alloc: Global, text: &str) -> Result<Vec<Row<'_>>> {
    let mut rows: Vec<Row<'_>> = Vec::new(alloc);
    for (index, line) in text.lines().enumerate() {
        let trimmed = line.trim();
        if trimmed.is_empty() || trimmed.starts_with('#') {
            continue;
        }
        let number = index.saturating_add(1);
        if !line.starts_with(' ') {
            rows.push(Row {
                number,
                head: line,
                more: Vec::new(alloc),
            })?;
        } else if let Some(row) = rows.last_mut() {
            row.more.push(trimmed)?;
        } else {
            bail!("line {number} goes on with no row");
        }
    }
    Ok(rows)
}
