//! What the first of some names are, by a table.

ghost use Rattle.std.specs.Prelude.{◌≡◌, ◌≤◌, ℕ, List, [], IfOk, OnOk, length};
ghost use Rattle.jc_classes.specs.Lent.{stands_of};
ghost use Rattle.jc_classes.specs.Names.{Name};
ghost use Rattle.jc_classes.specs.Numbers.{IsOnce};
ghost use Rattle.jc_link.specs.Meters.{counted};
ghost use Rattle.jc_link.specs.Tables.{world};
ghost use Rattle.jc_link.specs.inside.Gathering.{supertypes_in, stands_in};
ghost use Rattle.jc_link.specs.inside.GraphAsked.{IsAskedBy, IsMore, asked_count};
ghost use Rattle.jc_link.specs.inside.GraphShown.{AllReached, AreKept};

use crate::meter::Meter;
use crate::numbering::number_supertypes;
use crate::outside::Outside;
use crate::table::Table;
use jc_base::NoMemory;
use jc_classes::{Numbers, Standing};
use std::alloc::Global;

/// For each of the first names, what it is and the numbers of its direct supertypes.
#[derive(Drop)]
pub(crate) struct Reached<'t> {
    pub(crate) standing: Vec<Standing<'t>>,
    pub(crate) supertypes: Vec<Vec<usize>>,
}

impl<'t> Reached<'t> {
    /// Returns an empty value, with room for `room` names.
    pub(crate) fn with_room(alloc: Global, room: usize) -> Result<Self, NoMemory>
        ensures standing { IfOk result (λ r. stands_in r.standing.items ≡ []) }
        ensures supertypes { IfOk result (λ r. supertypes_in r.supertypes.items ≡ []) }
    {
        Ok(Reached {
            standing: Vec::with_capacity(alloc, room)?,
            supertypes: Vec::with_capacity(alloc, room)?,
        })
    }

    /// Appends an item for the next name, and numbers its supertypes.
    fn push(
        &mut self,
        alloc: Global,
        numbers: &mut Numbers,
        next: Standing<'t>,
    ) -> Result<(), NoMemory>
        requires { IsOnce numbers.old }
        ensures { OnOk result (IsMore numbers.old self.old (stands_of next.entry) numbers.new self.new) }
    {
        let direct = number_supertypes(alloc, numbers, next)?;
        self.standing.push(next)?;
        self.supertypes.push(direct)?;
        Ok(())
    }
}

/// Looks up each name that was not looked up yet, and numbers its supertypes, which are then looked up too.
pub(crate) fn ask_all<'t>(
    alloc: Global,
    table: &'t Table,
    outside: &Outside,
    numbers: &mut Numbers,
    reached: &mut Reached<'t>,
    meter: &mut Meter,
) -> Result<(), NoMemory>
    requires { IsAskedBy (world table.now outside.now) numbers.old reached.old }
    ensures asked { OnOk result (IsAskedBy (world table.now outside.now) numbers.new reached.new) }
    ensures whole { OnOk result (length numbers.new ≤ asked_count reached.new) }
    ensures kept { OnOk result (AreKept numbers.old numbers.new) }
    ensures reached { OnOk result ((classes : List Name) → AllReached (world table.now outside.now) classes numbers.old
        → AllReached (world table.now outside.now) classes numbers.new) }
    ensures asks { OnOk result ((count : ℕ) → meter.old.asks ≡ counted count (asked_count reached.old)
        → meter.new.asks ≡ counted count (asked_count reached.new)) }
    ensures asks_rise { meter.old.asks ≤ meter.new.asks }
    ensures made { meter.new.made ≡ meter.old.made }
{
    while reached.standing.len() < numbers.len() {
        let next = stand_at(table, outside, numbers.name(reached.standing.len()), meter);
        reached.push(alloc, numbers, next)?;
    }
    Ok(())
}

/// Looks up what a name is. The meter counts one look-up.
fn stand_at<'t>(table: &'t Table, outside: &Outside, name: &[u8], meter: &mut Meter) -> Standing<'t>
    ensures stands { stands_of result ≡ world table.now outside.now name.now }
    ensures asks { meter.new.asks ≡ counted meter.old.asks 1 }
    ensures made { meter.new.made ≡ meter.old.made }
{
    match table.get(name, meter) {
        Some(facts) => Standing::Class(facts),
        None => {
            if outside.covers(name) {
                Standing::Outside
            } else {
                Standing::Absent
            }
        }
    }
}
