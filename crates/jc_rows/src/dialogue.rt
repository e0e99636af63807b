//! The lines of a row with the input of a run and the output that is wanted.

use crate::doubles::Refusal;
use crate::outcome::Expected;
use crate::parts::{Names, bytes_of};
use crate::tokens::{Token, tokens_of};
use anyhow::{Context, Result, bail};
use jc_session::SourceError;
use std::alloc::{AllocError, Global};

/// A file with its name.
#[derive(Drop)]
pub(crate) struct NamedFile<'a> {
    pub(crate) name: &'a str,
    pub(crate) bytes: Vec<u8>,
}

/// The input of a run, and the result that is wanted.
#[derive(Drop)]
pub(crate) struct Dialogue<'a> {
    pub(crate) files: Vec<NamedFile<'a>>,
    /// The files that the session must have after the run.
    pub(crate) held: Vec<NamedFile<'a>>,
    pub(crate) refusal: Option<Refusal>,
    pub(crate) takes_bytes: bool,
    pub(crate) words: Vec<&'a str>,
    pub(crate) input: Vec<u8>,
    pub(crate) fails: bool,
    /// The results of the source, in order.
    pub(crate) answers: Vec<Result<Vec<u8>, SourceError>>,
    /// The room of the output in bytes, if it is limited.
    pub(crate) room: Option<usize>,
    /// The room of standard error in bytes, if it is limited.
    pub(crate) error_room: Option<usize>,
    pub(crate) wanted: Expected,
}

impl<'a> Dialogue<'a> {
    fn new(alloc: Global) -> Dialogue<'a> {
        Dialogue {
            files: Vec::new(alloc),
            held: Vec::new(alloc),
            refusal: None,
            takes_bytes: true,
            words: Vec::new(alloc),
            input: Vec::new(alloc),
            fails: false,
            answers: Vec::new(alloc),
            room: None,
            error_room: None,
            wanted: Expected::new(alloc),
        }
    }

    /// Parses the lines of a dialogue.
    pub(crate) fn read(alloc: Global, names: &Names, lines: &[&'a str]) -> Result<Dialogue<'a>> {
        let mut dialogue = Dialogue::new(alloc);
        dialogue.add_lines(alloc, names, lines)?;
        Ok(dialogue)
    }

    fn add_lines(&mut self, alloc: Global, names: &Names, lines: &[&'a str]) -> Result<()> {
        for line in lines {
            let (word, rest) = line.split_once(' ').unwrap_or((*line, ""));
            self.add(alloc, names, word, rest).context(*line)?;
        }
        Ok(())
    }

    fn add(&mut self, alloc: Global, names: &Names, word: &str, rest: &'a str) -> Result<()> {
        match self.stream(word) {
            Some(stream) => push_stream(stream, names, word, rest),
            None => self.add_rest(alloc, names, word, rest),
        }
    }

    /// Reads a line that is not about a stream.
    fn add_rest(&mut self, alloc: Global, names: &Names, word: &str, rest: &'a str) -> Result<()> {
        match word {
            "source" => self.push_answers(alloc, names, 1, rest),
            "sources" => self.push_counted(alloc, names, rest),
            "file" => push_file(&mut self.files, names, rest),
            "holds" => push_file(&mut self.held, names, rest),
            "words" => push_words(&mut self.words, rest),
            _ => self.add_ending(word, rest),
        }
    }

    /// Reads a line about the end of a stream or of the run.
    fn add_ending(&mut self, word: &str, rest: &str) -> Result<()> {
        if self.switch(word, rest) {
            return Ok(());
        }
        match word {
            "ends" => Ok(self.wanted.ending.push_str(rest)?),
            _ => self.limit(word, rest),
        }
    }

    /// Returns the bytes that a line with this first word adds to.
    fn stream(&mut self, word: &str) -> Option<&mut Vec<u8>> {
        match word {
            "<" | "<<" => Some(&mut self.input),
            ">" | ">>" => Some(&mut self.wanted.output),
            "!" | "!!" => Some(&mut self.wanted.told),
            _ => None,
        }
    }

    /// Reads a line without a number and without bytes, and returns whether it is one.
    fn switch(&mut self, word: &str, rest: &str) -> bool {
        match (word, rest) {
            ("files", "no-memory") => self.refusal = Some(Refusal::NoMemory),
            ("files", "unread") => self.refusal = Some(Refusal::UnreadFiles),
            ("folders", "unread") => self.refusal = Some(Refusal::UnreadFolders),
            ("input", "fails") => self.fails = true,
            ("output", "takes nothing") => self.takes_bytes = false,
            _ => return false,
        }
        true
    }

    fn limit(&mut self, word: &str, rest: &str) -> Result<()> {
        let room = Some(rest.parse::<usize>()?);
        match word {
            "room" => self.room = room,
            "error-room" => self.error_room = room,
            _ => bail!("no such line of a dialogue"),
        }
        Ok(())
    }

    fn push_counted(&mut self, alloc: Global, names: &Names, rest: &str) -> Result<()> {
        let (count, parts) = rest.split_once(' ').unwrap_or((rest, ""));
        self.push_answers(alloc, names, count.parse::<u32>()?, parts)
    }

    fn push_answers(
        &mut self,
        alloc: Global,
        names: &Names,
        count: u32,
        answer: &str,
    ) -> Result<()> {
        for _ in 0..count {
            self.answers.push(source_answer(alloc, names, answer)?)?;
        }
        Ok(())
    }
}

fn push_line(bytes: &mut Vec<u8>, line: &str) -> Result<(), AllocError> {
    bytes.extend_from_slice(line.as_bytes())?;
    bytes.push(b'\n')?;
    Ok(())
}

/// Adds a line if the word has one character, or else the bytes of parts.
fn push_stream(bytes: &mut Vec<u8>, names: &Names, word: &str, rest: &str) -> Result<()> {
    if word.len() == 1 {
        Ok(push_line(bytes, rest)?)
    } else {
        push_parts(bytes, names, rest)
    }
}

fn push_parts(bytes: &mut Vec<u8>, names: &Names, parts: &str) -> Result<()> {
    let alloc = *bytes.allocator();
    let (tokens, _) = tokens_of(alloc, parts)?;
    bytes.extend_from_slice(&bytes_of(alloc, names, &tokens)?)?;
    Ok(())
}

fn push_file<'a>(files: &mut Vec<NamedFile<'a>>, names: &Names, text: &'a str) -> Result<()> {
    let (name, parts) = text.split_once(' ').unwrap_or((text, ""));
    let mut bytes = Vec::new(*files.allocator());
    push_parts(&mut bytes, names, parts)?;
    files.push(NamedFile { name, bytes })?;
    Ok(())
}

fn source_answer(
    alloc: Global,
    names: &Names,
    answer: &str,
) -> Result<Result<Vec<u8>, SourceError>> {
    match answer {
        "unread" => return Ok(Err(SourceError::Unread)),
        "no-memory" => return Ok(Err(SourceError::NoMemory)),
        _ => {}
    }
    let mut bytes = Vec::new(alloc);
    push_parts(&mut bytes, names, answer)?;
    Ok(Ok(bytes))
}

fn push_words<'a>(words: &mut Vec<&'a str>, text: &'a str) -> Result<()> {
    for token in &tokens_of(*words.allocator(), text)?.0 {
        let Token::Quoted(word) = token else {
            bail!("a word without quotes");
        };
        words.push(*word)?;
    }
    Ok(())
}
