//! Sources of the bytes of files.
ghost use Rattle.std.specs.Prelude.{◌≡◌, ◌↔◌, Option, map};
ghost use Rattle.std.specs.declared.option.Option.TheVariants.{None, Some};
ghost use Rattle.std.specs.IoError.{error_kind};
ghost use Rattle.jc_input.specs.declared.source.SourceError.TheVariants.{NoMemory};
ghost use Rattle.jc_input.specs.Sources.{SourceAnswers, TakesAnswer, answer_of, by_any_path};

use std::alloc::Global;
use std::fs;
use std::io::{self, ErrorKind, Read};
use std::marker::Model;
use std::rt::Files;
use thiserror::Error;

/// Why a source does not return the bytes of a file.
#[derive(Clone, Copy, Debug, PartialEq, Eq, Error)]
pub enum SourceError {
    /// The file cannot be read.
    #[error("the file can't be read")]
    Unread,
    /// An allocation failed.
    #[error("memory was refused")]
    NoMemory,
}

impl SourceError {
    ghost use Rattle.jc_input.specs.Sources.{source_error_code};

    /// Returns the number of the error, from 1, in the order of the variants.
    pub fn code(&self) -> u8
        ensures { result ≡ source_error_code self.now }
    {
        match self {
            SourceError::Unread => 1,
            SourceError::NoMemory => 2,
        }
    }
}

/// A source of the bytes of files.
pub trait Source {
    /// The answers to the next calls, as functions of their paths, if they are known.
    ghost answers: { Self → Option SourceAnswers };

    /// Returns the bytes of the file at the path.
    fn read(&mut self, path: &[u8]) -> Result<Vec<u8>, SourceError>
        ensures { TakesAnswer (answers self.old) path.now (answer_of result) (answers self.new) };
}

/// A source that returns given answers, one at each call, and then `Unread`. It ignores the paths.
#[derive(Drop)]
pub struct MemSource {
    // In reverse order.
    answers: Vec<Result<Vec<u8>, SourceError>>,
}

impl Model for MemSource {
    ghost use Rattle.std.specs.Prelude.{ℕ, List, Result, map, reverse};
    ghost use Rattle.jc_input.specs.declared.source.SourceError.{SourceError};
    ghost use Rattle.jc_input.specs.Sources.{answer_of};

    ghost Value = { List (Result (List ℕ) SourceError) };

    ghost view = { λ a. map answer_of (reverse a.answers.items) };
}

impl MemSource {
    /// Returns a source with these answers, in their order.
    pub fn new(answers: Vec<Result<Vec<u8>, SourceError>>) -> MemSource
        ensures { result ≡ map answer_of answers.items }
    {
        let mut answers = answers;
        answers.reverse();
        MemSource { answers }
    }
}

impl Source for MemSource {
    ghost answers = { λ source. Some (map by_any_path source) };

    fn read(&mut self, _path: &[u8]) -> Result<Vec<u8>, SourceError> {
        self.answers.pop().unwrap_or(Err(SourceError::Unread))
    }
}

/// The largest number of bytes that are read of a file: one more than a file may have.
const MOST_BYTES: u64 = 16_777_217;

/// The number of bytes that one read of a file asks for. Most class files have fewer.
const ROOM: usize = 16_384;

/// A source that reads files. Contracts say nothing of what it returns.
#[derive(Drop)]
pub struct FileSource<'a, R> {
    rt: &'a R,
    /// A buffer for reads; empty before the first file is read.
    room: Vec<u8>,
}

impl<'a, R: Files + AllocGlobal> FileSource<'a, R> {
    ghost use Rattle.jc_input.specs.FileSource.{runtime_of};

    /// Returns a source of the files of a runtime.
    pub fn new(rt: &'a R) -> FileSource<'a, R>
        ensures { runtime_of result ≡ rt.now }
    {
        FileSource {
            rt,
            room: Vec::new(rt.alloc()),
        }
    }

    /// Reads a file, or its first 16,777,217 bytes. The list has no spare capacity.
    fn read_file(&mut self, path: &str) -> io::Result<Vec<u8>> {
        if self.room.is_empty() {
            self.room.resize(ROOM, 0)?;
        }
        let mut file = fs::open(self.rt, path)?.take(MOST_BYTES);
        read_all(self.rt.alloc(), &mut file, &mut self.room)
    }
}

impl<R: Files + AllocGlobal> Source for FileSource<'_, R> {
    ghost answers = { λ _. None };

    /// Returns the bytes of the file, or the first 16,777,217 of them. A path that is not UTF-8 is `Unread`.
    fn read(&mut self, path: &[u8]) -> Result<Vec<u8>, SourceError> {
        match str::from_utf8(path) {
            Ok(path) => match self.read_file(path) {
                Ok(bytes) => Ok(bytes),
                Err(error) => Err(refusal(&error)),
            },
            Err(_) => Err(SourceError::Unread),
        }
    }
}

/// Returns all bytes of a reader, without spare capacity. Reads them through the buffer `room`, which later files use
/// again.
fn read_all<R: Read>(alloc: Global, reader: &mut R, room: &mut [u8]) -> io::Result<Vec<u8>> {
    let mut bytes = Vec::new(alloc);
    for _ in 0..u64::MAX {
        match reader.read(room) {
            Ok(0) => break,
            Ok(count) => bytes.extend_from_slice(&room[..count])?,
            Err(error) if error.kind() == ErrorKind::Interrupted => {}
            Err(error) => return Err(error),
        }
    }
    bytes.shrink_to_fit();
    Ok(bytes)
}

/// Returns the error of a source for an error of a file.
fn refusal(error: &io::Error) -> SourceError
    ensures { (result ≡ NoMemory) ↔ (error_kind error.now ≡ ErrorKind.OutOfMemory) }
{
    match error.kind() {
        ErrorKind::OutOfMemory => SourceError::NoMemory,
        _ => SourceError::Unread,
    }
}
