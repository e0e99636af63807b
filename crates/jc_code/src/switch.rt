//! `tableswitch` and `lookupswitch` (JVMS 6.5).

ghost use Rattle.std.specs.Prelude.{◌≡◌, length};
ghost use Rattle.std.specs.List.{flat_map};
ghost use Rattle.jc_view.specs.Reading.{after};
ghost use Rattle.jc_view.specs.Moves.{Lends};
ghost use Rattle.jc_code.specs.Insns.{target_bytes, case_bytes};
ghost use Rattle.jc_code.specs.InsnReading.{case_value};
ghost use Rattle.jc_code.specs.inside.Decoding.{same};

use crate::numbers::{as_bytes, int_at, read_int, target};
use jc_base::Cursor;
use std::marker::Model;

/// A `tableswitch`: a target for each value from `low` to `high`, and one for all other values.
///
/// A target is an offset from the start of the code. It can be negative or past the end of the code. The model has the
/// default target, `low`, `high` and the other targets.
#[derive(Drop)]
pub struct TableSwitch<'a> {
    pub(crate) place: u32,
    /// The default target, `low`, `high` and the targets.
    pub(crate) bytes: &'a [u8],
}

impl<'a> Model for TableSwitch<'a> {
    ghost use Rattle.jc_code.specs.Switches.{TableSwitch};

    ghost Value = { TableSwitch };

    ghost use Rattle.jc_code.specs.inside.Decoding.{table_switch, IsTableBytes};

    ghost view = { table_switch };

    ghost invariant = { IsTableBytes };
}

impl<'a> TableSwitch<'a> {
    /// Returns the target for a value below `low` or above `high`.
    pub fn default(&self) -> i64
        ensures { result ≡ self.now.default }
    {
        target(self.place, int_at(self.bytes, 0))
    }

    /// Returns the lowest value that has a target of its own.
    pub fn low(&self) -> i32
        ensures { result ≡ self.now.low }
    {
        int_at(self.bytes, 4)
    }

    /// Returns the highest value that has a target of its own.
    pub fn high(&self) -> i32
        ensures { result ≡ self.now.high }
    {
        int_at(self.bytes, 8)
    }

    /// Returns an iterator over the targets, from that of `low` to that of `high`.
    pub fn targets(&self) -> Targets<'a>
        ensures { result ≡ self.now.targets }
    {
        let (_, table) = self.bytes.split_at(12);
        Targets {
            place: self.place,
            left: (table.len() / 4) as u16,
            cursor: Cursor::new(table),
        }
    }
}

/// An iterator over the targets of a `tableswitch`, which decodes each target when it reaches it.
///
/// Its model has the offset of the instruction, and the list of the targets that are left.
#[derive(Drop)]
pub struct Targets<'a> {
    pub(crate) place: u32,
    pub(crate) left: u16,
    pub(crate) cursor: Cursor<'a>,
}

impl<'a> Model for Targets<'a> {
    ghost use Rattle.jc_code.specs.Switches.{TargetsLeft};

    ghost Value = { TargetsLeft };

    ghost use Rattle.jc_code.specs.inside.Decoding.{targets_left, AreTargets};

    ghost view = { targets_left };

    ghost invariant = { AreTargets };
}

impl<'a> Targets<'a> {
    /// Returns the number of targets that are left.
    pub fn len(&self) -> u16
        ensures { result ≡ length self.now.left }
    {
        self.left
    }

    /// Returns the bytes of the targets that are left, as a slice of the code. Each target has four bytes: its signed
    /// offset from the instruction.
    pub fn bytes(&self) -> &'a [u8]
        ensures { result.now ≡ flat_map (target_bytes self.now.place) self.now.left }
    {
        as_bytes(self.cursor.rest())
    }
}

impl<'a> Iterator for Targets<'a> {
    ghost use Rattle.std.specs.Iterator.{item_count};
    ghost use Rattle.jc_code.specs.Switches.{GivesTarget};

    type Item = i64;

    ghost next_gives = { GivesTarget };

    ghost remaining = { item_count (λ it. it.left) };

    fn next(&mut self) -> Option<i64> {
        self.left = self.left.checked_sub(1)?;
        let offset = read_int(&mut self.cursor)?;
        Some(target(self.place, offset))
    }
}

/// A `lookupswitch`: values with a target each, and a target for all other values.
///
/// A target is an offset from the start of the code. It can be negative or past the end of the code. The model has the
/// default target and the cases.
#[derive(Drop)]
pub struct LookupSwitch<'a> {
    pub(crate) place: u32,
    /// The default target, the number of cases, and the cases.
    pub(crate) bytes: &'a [u8],
}

impl<'a> Model for LookupSwitch<'a> {
    ghost use Rattle.jc_code.specs.Switches.{LookupSwitch};

    ghost Value = { LookupSwitch };

    ghost use Rattle.jc_code.specs.inside.Decoding.{lookup_switch, IsLookupBytes};

    ghost view = { lookup_switch };

    ghost invariant = { IsLookupBytes };
}

impl<'a> LookupSwitch<'a> {
    /// Returns the target for a value that no case has.
    pub fn default(&self) -> i64
        ensures { result ≡ self.now.default }
    {
        target(self.place, int_at(self.bytes, 0))
    }

    /// Returns an iterator over the cases, in the order of the table.
    pub fn cases(&self) -> Cases<'a>
        ensures { result ≡ self.now.cases }
    {
        let (_, table) = self.bytes.split_at(8);
        Cases {
            place: self.place,
            left: (table.len() / 8) as u16,
            cursor: Cursor::new(table),
        }
    }
}

/// A value of a `lookupswitch`, and its target, which is an offset from the start of the code.
#[derive(Clone, Copy)]
pub struct Case {
    pub value: i32,
    pub target: i64,
}

/// An iterator over the cases of a `lookupswitch`, which decodes each case when it reaches it.
///
/// Its model has the offset of the instruction, and the list of the cases that are left.
#[derive(Drop)]
pub struct Cases<'a> {
    pub(crate) place: u32,
    pub(crate) left: u16,
    pub(crate) cursor: Cursor<'a>,
}

impl<'a> Model for Cases<'a> {
    ghost use Rattle.jc_code.specs.Switches.{CasesLeft};

    ghost Value = { CasesLeft };

    ghost use Rattle.jc_code.specs.inside.Decoding.{cases_left, AreCases};

    ghost view = { cases_left };

    ghost invariant = { AreCases };
}

impl<'a> Cases<'a> {
    /// Returns the number of cases that are left.
    pub fn len(&self) -> u16
        ensures { result ≡ length self.now.left }
    {
        self.left
    }

    /// Returns the bytes of the cases that are left, as a slice of the code. Each case has eight bytes: its value, and
    /// the signed offset of its target from the instruction.
    pub fn bytes(&self) -> &'a [u8]
        ensures { result.now ≡ flat_map (case_bytes self.now.place) self.now.left }
    {
        as_bytes(self.cursor.rest())
    }
}

impl<'a> Iterator for Cases<'a> {
    ghost use Rattle.std.specs.Iterator.{item_count};
    ghost use Rattle.jc_code.specs.Switches.{GivesCase};

    type Item = Case;

    ghost next_gives = { GivesCase };

    ghost remaining = { item_count (λ it. it.left) };

    fn next(&mut self) -> Option<Case> {
        self.left = self.left.checked_sub(1)?;
        let case = read_case(self.place, &mut self.cursor)?;
        Some(case)
    }
}

/// Reads a case of the `lookupswitch` that is at the offset `place` of the code.
fn read_case(place: u32, cursor: &mut Cursor) -> Option<Case>
    ensures { Lends same (after 8) (case_value place) cursor.old result cursor.new }
{
    let value = read_int(cursor)?;
    let offset = read_int(cursor)?;
    Some(Case {
        value,
        target: target(place, offset),
    })
}
