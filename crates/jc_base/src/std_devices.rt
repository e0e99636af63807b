//! Devices over readers and writers of std.
ghost use Rattle.std.specs.Prelude.{◌≡◌, ◌+◌, ◌<◌, ◌≤◌, ◌^◌, ◌==◌, ◌&&◌, []};
ghost use Rattle.std.specs.Prelude.{nat_lt, false, true, IfOk, IsErr, MatchResult, OnErr, length, unwrap_or};
ghost use Rattle.std.proofs.Common.{arith};
ghost use Rattle.std.specs.Io.KnownBytes.{ReadConsumes};
ghost use Rattle.jc_base.specs.Device.{CountsFault};

use crate::device::{DeviceFault, Input, Output, one_more};
use std::io::{Read, Write};

/// The maximum number of bytes that an input returns.
const MOST_BYTES: u64 = 1 << 62;

/// An input over a reader of std.
///
/// Each error of the reader is a failure, even an interruption. After 2^62 bytes, a read into a buffer that is not
/// empty fails.
#[derive(Drop)]
pub struct StdInput<R: Read> {
    inner: R,
    allowance: u64,
    failures: u64,
    ended: bool,
    ghost limited: { allowance ≤ 2 ^ 62 },
    ghost at_end: { ended ≡ true → unwrap_or (R.remaining inner) [] ≡ [] },
}

/// An output over a writer of std.
///
/// Each error of the writer is a failure, even an interruption. A write of some bytes that takes none of them is a
/// failure too.
#[derive(Drop)]
pub struct StdOutput<W> {
    inner: W,
    failures: u64,
}

impl<R: Read> StdInput<R> {
    ghost use Rattle.jc_base.specs.StdDevices.{input_reader, input_allowance, input_ended, input_failures};

    /// Creates an input that has returned no bytes, and has neither failed nor ended.
    pub fn new(inner: R) -> StdInput<R>
        ensures reader { input_reader result ≡ inner }
        ensures allowance { input_allowance result ≡ 2 ^ 62 }
        ensures failures { input_failures result ≡ 0 }
        ensures ended { input_ended result ≡ false }
    {
        StdInput {
            inner,
            allowance: MOST_BYTES,
            failures: 0,
            ended: false,
        }
    }

    /// Returns the reader, in the state after the reads so far.
    pub fn into_inner(self) -> R
        ensures { result ≡ input_reader self }
    {
        self.inner
    }
}

impl<R: Read + Drop> Input for StdInput<R> {
    ghost use Rattle.jc_base.specs.StdDevices.{input_reader, input_allowance, input_ended, input_failures};
    ghost use Rattle.jc_base.specs.inside.Ended.{is_at_end-of};

    ghost remaining = { λ input. R.remaining (input_reader input) };

    ghost failures = { input_failures };

    ghost bound = { input_allowance };

    ghost ended = { input_ended };

    /// Returns whether a read into a buffer that is not empty has returned no bytes.
    fn has_ended(&self) -> bool
        ensures { result ≡ input_ended self.now }
    {
        self.ended
    }

    fn read(&mut self, buffer: &mut [u8]) -> Result<usize, DeviceFault>
        requires { input_ended self.old ≡ false }
        ensures room { IfOk result (λ n. n ≤ length buffer.new) }
        ensures bytes { ReadConsumes (R.remaining (input_reader self.old)) (R.remaining (input_reader self.new)) result buffer.new }

        // The input ends when a read into a buffer that is not empty returns no bytes, and at no other read.
        ensures ended { IfOk result (λ n. input_ended self.new ≡ (n == 0 && nat_lt 0 (length buffer.new))) }
        ensures unended { OnErr result (input_ended self.new ≡ false) }
        ensures failures { CountsFault result (input_failures self.old) (input_failures self.new) }
        ensures bound { MatchResult result
            (λ n. input_allowance self.new + n ≡ input_allowance self.old)
            (λ _. input_allowance self.new ≡ input_allowance self.old) }

        // After its maximum number of bytes, the input fails.
        ensures spent { input_allowance self.old ≡ 0 → 0 < length buffer.old → IsErr result }
    {
        let room = buffer.len().min(self.allowance as usize);
        if room == 0 && !buffer.is_empty() {
            return Err(one_more(&mut self.failures));
        }
        match self.inner.read(&mut buffer[..room]) {
            Ok(count) => {
                self.allowance -= count as u64;
                self.ended = count == 0 && !buffer.is_empty();
                Ok(count)
            }
            Err(_) => Err(one_more(&mut self.failures)),
        }
    }

    ghost bound_fits = { λ input. Prim.omega arith };

    ghost ended_at_end = { λ input h. is_at_end-of (R.remaining (input_reader input)) (input.at_end h) };
}

impl<W> StdOutput<W> {
    ghost use Rattle.jc_base.specs.StdDevices.{output_writer, output_failures};

    /// Creates an output that has not failed.
    pub fn new(inner: W) -> StdOutput<W>
        ensures writer { output_writer result ≡ inner }
        ensures failures { output_failures result ≡ 0 }
    {
        StdOutput { inner, failures: 0 }
    }

    /// Returns the writer. It is not flushed.
    pub fn into_inner(self) -> W
        ensures { result ≡ output_writer self }
    {
        self.inner
    }
}

impl<W: Write + Drop> Output for StdOutput<W> {
    ghost use Rattle.jc_base.specs.StdDevices.{output_writer, output_failures};

    ghost written = { λ output. W.contents (output_writer output) };

    ghost failures = { output_failures };

    fn write(&mut self, bytes: &[u8]) -> Result<usize, DeviceFault> {
        match self.inner.write(bytes) {
            Ok(0) if !bytes.is_empty() => Err(one_more(&mut self.failures)),
            Ok(count) => Ok(count),
            Err(_) => Err(one_more(&mut self.failures)),
        }
    }
}
