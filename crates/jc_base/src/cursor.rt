//! A cursor over bytes that reads numbers and slices (JVMS 4: "in big-endian order").

ghost use Rattle.std.specs.Prelude.{◌≡◌, ◌==◌, ◌+◌, ◌<◌, ◌↔◌};
ghost use Rattle.std.specs.Prelude.{◌^◌, not, length, take, drop, IsSome, IfSome, IfNone};
ghost use Rattle.byteorder.specs.Endian.{big_number};
ghost use Rattle.jc_base.specs.Cursor.{HasLeft, past};

use byteorder::{BigEndian, ByteOrder};
use std::marker::Model;

/// A position in bytes, from which numbers and slices are read.
///
/// If fewer bytes are left than a read needs, the read returns `None` and changes nothing.
#[derive(Drop)]
pub struct Cursor<'a> {
    place: usize,
    rest: &'a [u8],
}

impl<'a> Model for Cursor<'a> {
    ghost use Rattle.std.specs.Prelude.{◌+◌, ◌<◌, ◌^◌, length};
    ghost use Rattle.jc_base.specs.Cursor.{Reading};

    ghost Value = { Reading };

    ghost view = { λ c. record { place = c.place; rest = c.rest.now } };

    ghost invariant = { λ c. c.place + length c.rest.now < 2 ^ 63 };
}

impl<'a> Cursor<'a> {
    /// Creates a cursor at the front of the bytes.
    pub fn new(bytes: &'a [u8]) -> Cursor<'a>
        ensures place { result.place ≡ 0 }
        ensures rest { result.rest ≡ bytes.now }
    {
        Cursor {
            place: 0,
            rest: bytes,
        }
    }

    /// Returns the number of bytes before the cursor.
    pub fn place(&self) -> usize
        ensures { result ≡ self.now.place }
    {
        self.place
    }

    /// Returns whether bytes are left.
    pub fn has_left(&self) -> bool
        ensures { result ≡ not (length self.now.rest == 0) }
    {
        !self.rest.is_empty()
    }

    /// Returns the bytes that are left, as a slice of the input.
    pub fn rest(&self) -> &'a [u8]
        ensures { result.now ≡ self.now.rest }
    {
        self.rest
    }

    /// Returns another cursor at the same position.
    pub fn fork(&self) -> Cursor<'a>
        ensures { result ≡ self.now }
    {
        Cursor {
            place: self.place,
            rest: self.rest,
        }
    }

    /// Reads the next `count` bytes, and returns a cursor over them. Its first place is the place of this cursor before
    /// the call.
    pub fn part(&mut self, count: usize) -> Option<Cursor<'a>>
        ensures some { IsSome result ↔ HasLeft count self.old }
        ensures place { IfSome result (λ part. part.place ≡ self.old.place) }
        ensures rest { IfSome result (λ part. part.rest ≡ take count self.old.rest) }
        ensures moved { IfSome result (λ _. self.new ≡ past count self.old) }
        ensures none { IfNone result (self.new ≡ self.old) }
    {
        let place = self.place;
        let rest = self.take(count)?;
        Some(Cursor { place, rest })
    }

    /// Reads the next `count` bytes, and returns them as a slice of the input.
    pub fn take(&mut self, count: usize) -> Option<&'a [u8]>
        ensures some { IsSome result ↔ HasLeft count self.old }
        ensures slice { IfSome result (λ bytes. bytes.now ≡ take count self.old.rest) }
        ensures moved { IfSome result (λ _. self.new ≡ past count self.old) }
        ensures none { IfNone result (self.new ≡ self.old) }
    {
        if count > self.rest.len() {
            return None;
        }
        let (front, rest) = self.rest.split_at(count);
        self.place += count;
        self.rest = rest;
        Some(front)
    }

    /// Reads the next byte.
    pub fn u1(&mut self) -> Option<u8>
        ensures some { IsSome result ↔ HasLeft 1 self.old }
        ensures number { IfSome result (λ n. n ≡ big_number 1 self.old.rest) }
        ensures moved { IfSome result (λ _. self.new ≡ past 1 self.old) }
        ensures none { IfNone result (self.new ≡ self.old) }
    {
        let front = self.take(1)?;
        Some(front[0])
    }

    /// Reads the next two bytes as a big-endian number.
    pub fn u2(&mut self) -> Option<u16>
        ensures some { IsSome result ↔ HasLeft 2 self.old }
        ensures number { IfSome result (λ n. n ≡ big_number 2 self.old.rest) }
        ensures moved { IfSome result (λ _. self.new ≡ past 2 self.old) }
        ensures none { IfNone result (self.new ≡ self.old) }
    {
        let front = self.take(2)?;
        Some(BigEndian::read_u16(front))
    }

    /// Reads the next four bytes as a big-endian number.
    pub fn u4(&mut self) -> Option<u32>
        ensures some { IsSome result ↔ HasLeft 4 self.old }
        ensures number { IfSome result (λ n. n ≡ big_number 4 self.old.rest) }
        ensures moved { IfSome result (λ _. self.new ≡ past 4 self.old) }
        ensures none { IfNone result (self.new ≡ self.old) }
    {
        let front = self.take(4)?;
        Some(BigEndian::read_u32(front))
    }
}
