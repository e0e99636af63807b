//! An iterator over the code units of a text.

ghost use Rattle.std.specs.Prelude.{◌≡◌, ℕ, List, take};
ghost use Rattle.jc_base.specs.CodeUnits.{units_before};
ghost use Rattle.jc_base.specs.ModifiedUtf8.{Spells, IsLongestFront};

use crate::modified_utf8::unit_at;
use std::marker::Model;

/// An iterator over the UTF-16 code units that a text of modified UTF-8 encodes (JVMS 4.4.7). If the bytes are not
/// modified UTF-8, it ends before the first bytes that encode no unit. Does not allocate.
#[derive(Drop)]
pub struct Units<'a> {
    rest: &'a [u8],
}

impl<'a> Model for Units<'a> {
    ghost use Rattle.std.specs.Prelude.{ℕ, List};
    ghost use Rattle.jc_base.specs.CodeUnits.{units_before};

    ghost Value = { List ℕ };

    ghost view = { λ a. units_before a.rest.now };
}

impl<'a> Units<'a> {
    /// Creates an iterator over the code units of `text`.
    pub fn new(text: &'a [u8]) -> Units<'a>
        ensures { result ≡ units_before text.now }
    {
        Units { rest: text }
    }

    /// Returns the bytes after the units that the iterator has returned.
    pub fn rest(&self) -> &'a [u8]
        ensures { units_before result.now ≡ self.now }
    {
        self.rest
    }
}

impl<'a> Iterator for Units<'a> {
    ghost use Rattle.std.specs.Iterator.{YieldsFirst, item_count};

    type Item = u16;

    ghost next_gives = { YieldsFirst (λ left. left) };

    ghost remaining = { item_count (λ left. left) };

    fn next(&mut self) -> Option<u16> {
        let (unit, size) = unit_at(self.rest)?;
        self.rest = &self.rest[size..];
        Some(unit)
    }
}

/// States that the units of a text are all that it encodes. The units of other bytes are those of their longest prefix
/// that is modified UTF-8.
pub fn units_end_at_the_first_wrong_spelling()
    ensures text { (us bytes : List ℕ) → Spells us bytes → units_before bytes ≡ us }
    ensures front { (us bytes : List ℕ) (n : ℕ) →
        IsLongestFront bytes n → Spells us (take n bytes) → units_before bytes ≡ us }
{}
