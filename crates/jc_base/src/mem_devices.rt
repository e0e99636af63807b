//! Devices over memory.
ghost use Rattle.std.specs.Prelude.{◌≡◌, ◌+◌, ◌-◌, ◌<◌, ◌≤◌, ◌^◌, ◌++◌, ◌↔◌, [], false, true};
ghost use Rattle.std.specs.Prelude.{IfOk, IsErr, IsOk, IsTrue, MatchResult, OnErr, Some, min, take, drop, length, vec_capacity};
ghost use Rattle.std.proofs.Common.{arith};
ghost use Rattle.std.proofs.lemmas.Grind.{common_steps};
ghost use Rattle.std.specs.Io.KnownBytes.{ReadConsumes, WriteAppends};
ghost use Rattle.jc_base.specs.Device.{CountsFault, more};
ghost use Rattle.jc_base.specs.MemDevices.{InputState, OutputState, has_ended, mem_allowance};

use crate::device::{DeviceFault, Input, Output, one_more};
use crate::no_memory::NoMemory;
use std::alloc::Global;
use std::marker::Model;

/// An input over given bytes, after which it ends or fails.
#[derive(Drop)]
pub struct MemInput<'a> {
    rest: &'a [u8],
    fails: bool,
    failures: u64,
}

/// An output that keeps the bytes that are written, up to a fixed number. After that, writes fail.
#[derive(Drop)]
pub struct MemOutput {
    bytes: Vec<u8>,
    room: usize,
    failures: u64,
}

impl<'a> Model for MemInput<'a> {
    ghost Value = { InputState };

    ghost view = { λ a. record { remaining = a.rest.now; fails = a.fails; failures = a.failures } };

    ghost invariant = { λ a. length a.rest.now < 2 ^ 63 };
}

impl<'a> MemInput<'a> {
    /// Creates an input over these bytes. After them, each read fails if `fails` is set; otherwise the input ends.
    pub fn new(bytes: &'a [u8], fails: bool) -> MemInput<'a>
        ensures state { result ≡ record { remaining = bytes.now; fails = fails; failures = 0 } }
        ensures bound { ⟦<MemInput<'a> as Input>⟧.bound result ≡ length bytes.now }
    {
        MemInput {
            rest: bytes,
            fails,
            failures: 0,
        }
    }
}

impl<'a> Input for MemInput<'a> {
    ghost remaining = { λ input. Some input.remaining };

    ghost failures = { λ input. input.failures };

    ghost bound = { mem_allowance };

    ghost ended = { has_ended };

    /// Returns whether no bytes are left and reads do not fail.
    fn has_ended(&self) -> bool
        ensures { result ≡ has_ended self.now }
    {
        self.rest.is_empty() && !self.fails
    }

    fn read(&mut self, buffer: &mut [u8]) -> Result<usize, DeviceFault>
        requires { has_ended self.old ≡ false }
        ensures room { IfOk result (λ n. n ≤ length buffer.new) }
        ensures bytes { ReadConsumes (Some self.old.remaining) (Some self.new.remaining) result buffer.new }
        ensures ended { IfOk result (λ n. n ≡ 0 → 0 < length buffer.new → has_ended self.new ≡ true) }
        ensures failures { CountsFault result self.old.failures self.new.failures }
        ensures bound { MatchResult result
            (λ n. mem_allowance self.new + n ≤ mem_allowance self.old)
            (λ _. mem_allowance self.new ≤ mem_allowance self.old) }

        // A read fails only after the last byte, and only if `fails` was set.
        ensures fails { IsErr result ↔ (IsTrue self.old.fails × (self.old.remaining ≡ []) × (0 < length buffer.old)) }

        // A read returns as many bytes as fit, and changes nothing else.
        ensures most { IfOk result (λ n. n ≡ min (length buffer.old) (length self.old.remaining)) }
        ensures ok { IfOk result (λ n. self.new ≡ record self.old { remaining = drop n self.old.remaining }) }
        ensures err { OnErr result (self.new ≡ record self.old { failures = more self.old.failures 1 }) }
    {
        let count = buffer.len().min(self.rest.len());
        if count == 0 && self.fails && !buffer.is_empty() {
            return Err(one_more(&mut self.failures));
        }
        let (front, rest) = self.rest.split_at(count);
        buffer[..count].copy_from_slice(front);
        self.rest = rest;
        Ok(count)
    }

    ghost bound_fits = { λ input. Prim.omega arith };

    ghost ended_at_end = { λ input h. Prim.grind (arith, common_steps) };
}

impl Model for MemOutput {
    ghost Value = { OutputState };

    ghost view = { λ a. record { written = a.bytes.items; room = a.room; failures = a.failures } };

    ghost invariant = { λ a. (length a.bytes.items ≤ a.room) × (a.room ≤ vec_capacity a.bytes) };
}

impl MemOutput {
    /// Creates an output for at most `room` bytes, which are allocated at once. Returns `NoMemory` only when an
    /// allocation fails.
    pub fn new(alloc: Global, room: usize) -> Result<MemOutput, NoMemory>
        ensures ok { IfOk result (λ output. output ≡ record { written = []; room = room; failures = 0 }) }
        ensures none { room ≡ 0 → IsOk result }
    {
        Ok(MemOutput {
            bytes: Vec::with_capacity(alloc, room)?,
            room,
            failures: 0,
        })
    }

    /// Returns the bytes that were written.
    pub fn bytes(&self) -> &[u8]
        ensures { result.now ≡ self.now.written }
    {
        self.bytes.as_slice()
    }
}

impl Output for MemOutput {
    ghost written = { λ output. Some output.written };

    ghost failures = { λ output. output.failures };

    fn write(&mut self, bytes: &[u8]) -> Result<usize, DeviceFault>
        ensures room { IfOk result (λ n. n ≤ length bytes.now) }
        ensures some { 0 < length bytes.now → IfOk result (λ n. 0 < n) }
        ensures bytes { WriteAppends (Some self.old.written) (Some self.new.written) result bytes.now }
        ensures failures { CountsFault result self.old.failures self.new.failures }

        // A write fails only if no room is left.
        ensures full { IsErr result ↔ ((length self.old.written ≡ self.old.room) × (0 < length bytes.now)) }

        // A write takes as many bytes as fit, and changes nothing else.
        ensures most { IfOk result (λ n. n ≡ min (length bytes.now) (self.old.room - length self.old.written)) }
        ensures ok { IfOk result (λ n. self.new ≡ record self.old { written = self.old.written ++ take n bytes.now }) }
        ensures err { OnErr result (self.new ≡ record self.old { failures = more self.old.failures 1 }) }
    {
        let count = bytes.len().min(self.room - self.bytes.len());
        if count == 0 && !bytes.is_empty() {
            return Err(one_more(&mut self.failures));
        }
        self.bytes.extend_from_slice(&bytes[..count]).unwrap();
        Ok(count)
    }
}
