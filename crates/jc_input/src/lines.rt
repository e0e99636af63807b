//! Reads an input line by line.
ghost use Rattle.std.specs.Prelude.{◌≡◌, ◌+◌, ◌<◌, ◌≤◌, ◌++◌, [], false, true, IfErr, IfOk, IsSome, IsTrue, OnErr, OnOk, drop, is_some, length, position, take};
ghost use Rattle.std.specs.List.{after_first, before_first};
ghost use Rattle.std.specs.Io.KnownBytes.{Consumes, IsAtEnd, Keeps};
ghost use Rattle.jc_base.specs.Device.{CountsFault};
ghost use Rattle.jc_input.specs.declared.run_error.RunError.TheVariants.{Read};
ghost use Rattle.jc_input.specs.RunErrors.{CountsReads};
ghost use Rattle.jc_input.specs.LineReading.{LosesPart, TakesLine, bytes_left, is_line_feed};

use crate::run_error::RunError;
use jc_base::{DeviceFault, Input, NoMemory};
use std::alloc::Global;
use std::marker::Model;

/// The number of bytes of a line that are kept: one more than a line may have.
const KEPT: usize = 8193;

/// The number of bytes that one read asks for.
const CHUNK: usize = 4096;

/// A buffer for one line, without its LF. It keeps the first 8,193 bytes of the line and drops the others.
#[derive(Drop)]
pub struct Line {
    bytes: Vec<u8>,
}

/// A buffer of bytes that were read ahead and do not belong to a line yet.
#[derive(Drop)]
pub struct Ahead {
    chunk: [u8; CHUNK],
    start: usize,
    end: usize,
}

impl Model for Line {
    ghost use Rattle.std.specs.Prelude.{◌≤◌, List, ℕ, length, vec_capacity};

    ghost Value = { List ℕ };

    ghost view = { λ a. a.bytes.items };

    ghost invariant = { λ a. (length a.bytes.items ≤ 8193) × (8193 ≤ vec_capacity a.bytes) };
}

impl Line {
    /// Returns an empty line, with all the memory that lines need. Returns `NoMemory` only when an allocation fails.
    pub fn new(alloc: Global) -> Result<Line, NoMemory>
        ensures { IfOk result (λ line. line ≡ []) }
    {
        Ok(Line {
            bytes: Vec::with_capacity(alloc, KEPT)?,
        })
    }

    /// Returns the bytes of the line, at most 8,193.
    pub fn bytes(&self) -> &[u8]
        ensures { result.now ≡ self.now }
    {
        self.bytes.as_slice()
    }

    /// Empties the line.
    fn clear(&mut self)
        ensures { self.new ≡ [] }
    {
        self.bytes.clear();
    }

    /// Appends bytes. Those after the first 8,193 of the line are dropped.
    fn keep(&mut self, bytes: &[u8])
        ensures { self.new ≡ take 8193 (self.old ++ bytes.now) }
    {
        let count = bytes.len().min(KEPT - self.bytes.len());
        self.bytes.extend_from_slice(&bytes[..count]).unwrap();
    }
}

impl Model for Ahead {
    ghost use Rattle.std.specs.Prelude.{◌≤◌, List, ℕ, drop, take};

    ghost Value = { List ℕ };

    ghost view = { λ a. drop a.start (take a.end a.chunk) };

    ghost invariant = { λ a. (a.start ≤ a.end) × (a.end ≤ 4096) };
}

impl Ahead {
    /// Returns an empty buffer.
    pub fn new() -> Ahead
        ensures { result ≡ [] }
    {
        Ahead {
            chunk: [0; CHUNK],
            start: 0,
            end: 0,
        }
    }

    /// Returns the bytes that were read ahead.
    fn bytes(&self) -> &[u8]
        ensures { result.now ≡ self.now }
    {
        &self.chunk[self.start..self.end]
    }

    /// Removes the first bytes.
    fn consume(&mut self, count: usize)
        requires { count ≤ length self.old }
        ensures { self.new ≡ drop count self.old }
    {
        self.start += count;
    }

    /// Reads once, and returns the number of bytes that were read.
    fn refill<R: Input>(&mut self, input: &mut R) -> Result<usize, DeviceFault>
        requires empty { self.old ≡ [] }
        requires goes_on { R.ended input.old ≡ false }
        ensures count { IfOk result (λ count. length self.new ≡ count) }
        ensures bytes { OnOk result (Consumes (R.remaining input.old) (R.remaining input.new) self.new) }
        ensures end { IfOk result (λ count. count ≡ 0 → IsAtEnd (R.remaining input.new)) }
        ensures bound { IfOk result (λ count. R.bound input.new + count ≤ R.bound input.old) }
        ensures failures { CountsFault result (R.failures input.old) (R.failures input.new) }
        ensures err { OnErr result (self.new ≡ []) }
        ensures kept { OnErr result (Keeps (R.remaining input.old) (R.remaining input.new)) }
    {
        self.start = 0;
        self.end = 0;
        self.end = input.read(&mut self.chunk)?;
        Ok(self.end)
    }
}

/// Reads the next line, and returns whether an LF ended it. If not, the line is the rest of the input, which has no LF.
///
/// Bytes that were read after the end of the line stay in `ahead`. Nothing is read while `ahead` has a whole line, nor
/// after the input has ended.
///
/// Returns [`RunError::Read`] when the input fails. Then `ahead` is empty, and the beginning of the unfinished line is
/// lost.
pub fn read_line<R: Input>(
    line: &mut Line,
    ahead: &mut Ahead,
    input: &mut R,
) -> Result<bool, RunError>
    ensures takes { IfOk result (λ is_whole. TakesLine
        (bytes_left ahead.old (R.remaining input.old))
        is_whole
        line.new
        (bytes_left ahead.new (R.remaining input.new))) }
    ensures loses { OnErr result (LosesPart
        (bytes_left ahead.old (R.remaining input.old))
        (R.remaining input.new)) }
    ensures dropped { OnErr result (ahead.new ≡ []) }
    ensures nearer { IfOk result (λ is_whole. IsTrue is_whole →
        R.bound input.new + length ahead.new < R.bound input.old + length ahead.old) }
    ensures failures { CountsReads result (R.failures input.old) (R.failures input.new) }
    ensures err { IfErr result (λ e. e ≡ Read) }

    // If `ahead` has a line, nothing is read. An input that has ended is not read again.
    ensures ahead { IsSome (position is_line_feed ahead.old) → input.new ≡ input.old }
    ensures ended { R.ended input.old ≡ true → input.new ≡ input.old }
{
    line.clear();
    while !take_front(line, ahead) {
        if input.has_ended() {
            return Ok(false);
        }
        match ahead.refill(input) {
            Ok(0) => return Ok(false),
            Ok(_) => {}
            Err(_) => return Err(RunError::Read),
        }
    }
    Ok(true)
}

/// Moves the bytes before the first LF, or all of them, from `ahead` to the line. Returns whether there was an LF,
/// which is dropped.
fn take_front(line: &mut Line, ahead: &mut Ahead) -> bool
    ensures found { result ≡ is_some (position is_line_feed ahead.old) }
    ensures line { line.new ≡ take 8193 (line.old ++ before_first is_line_feed ahead.old) }
    ensures rest { ahead.new ≡ after_first is_line_feed ahead.old }
{
    let bytes = ahead.bytes();
    match line_feed(bytes) {
        Some(count) => {
            line.keep(&bytes[..count]);
            ahead.consume(count + 1);
            true
        }
        None => {
            line.keep(bytes);
            let count = bytes.len();
            ahead.consume(count);
            false
        }
    }
}

/// Returns the place of the first LF.
fn line_feed(bytes: &[u8]) -> Option<usize>
    ensures { result ≡ position is_line_feed bytes.now }
{
    bytes.iter().position(|byte| *byte == b'\n')
}
