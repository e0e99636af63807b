//! The entry of a class.

ghost use Rattle.std.specs.Prelude.{◌≡◌, ◌<◌, ◌≤◌, ℕ, IfOk, OnOk, length};
ghost use Rattle.std.specs.Option.{option_copied};
ghost use Rattle.jc_classes.specs.Names.{names_of};
ghost use Rattle.jc_classes.specs.Numbers.{name_at};
ghost use Rattle.jc_classes.specs.Worlds.{World};
ghost use Rattle.jc_link.specs.Meters.{counted};
ghost use Rattle.jc_link.specs.Graphs.{IsIn};
ghost use Rattle.jc_report.specs.RequiredRows.{spelled_all};
ghost use Rattle.jc_linkage.specs.inside.Kept.{AllFresh, AreKeys, IsClassAt, IsKeptOf, fresh_names, required_by};

use crate::row_list::RowList;
use jc_base::{ByteMap, NoMemory};
use jc_classes::Facts;
use jc_index::PackedNames;
use jc_link::{Meter, Part, PartMaker};
use std::alloc::Global;

/// The entry of a class: its part, the names of its reach, and the rows that it requires.
#[derive(Drop)]
pub(crate) struct ClassEntry {
    pub(crate) part: Part,
    /// The names of its reach, in ascending order.
    pub(crate) reach: PackedNames,
    /// The rows that it requires.
    pub(crate) required: RowList,
}

/// The new entry of a class.
#[derive(Drop)]
pub(crate) struct NewEntry {
    pub(crate) name: Vec<u8>,
    pub(crate) kept: ClassEntry,
}

/// Computes the entries of the first classes of a graph, which have these names. It reuses the sorted rows of their old
/// entries.
pub(crate) fn make_fresh(
    alloc: Global,
    maker: &mut PartMaker,
    kept: &ByteMap<ClassEntry>,
    names: &[Vec<u8>],
    meter: &mut Meter,
) -> Result<Vec<NewEntry>, NoMemory>
    requires { (place : ℕ) → place < length names.now → IsClassAt maker.old place (name_at (names_of names.now) place) }
    ensures names { IfOk result (λ fresh. fresh_names fresh.items ≡ names_of names.now) }
    ensures kept { (m : World) → IsIn m maker.old → IfOk result (λ fresh. AllFresh m fresh.items) }
    ensures graph { maker.new ≡ maker.old }
    ensures made { OnOk result (meter.new.made ≡ counted meter.old.made (length names.now)) }
    ensures made_rise { meter.old.made ≤ meter.new.made }
    ensures asks { meter.new.asks ≡ meter.old.asks }
{
    let mut fresh = Vec::new(alloc);
    for name in names {
        let before = kept.get(name);
        let one = make_one(alloc, maker, fresh.len(), name, before, meter)?;
        fresh.push(one)?;
    }
    Ok(fresh)
}

/// Computes the entry of the class with this name, which is at a place of the graph. It reuses the sorted rows of its
/// old entry.
pub(crate) fn make_one(
    alloc: Global,
    maker: &mut PartMaker,
    place: usize,
    name: &[u8],
    before: Option<&ClassEntry>,
    meter: &mut Meter,
) -> Result<NewEntry, NoMemory>
    requires { IsClassAt maker.old place name.now }
    ensures name { IfOk result (λ fresh. fresh.name.items ≡ name.now) }
    ensures kept { (m : World) → IsIn m maker.old → IfOk result (λ fresh. IsKeptOf m name.now fresh.kept) }
    ensures graph { maker.new ≡ maker.old }
    ensures made { OnOk result (meter.new.made ≡ counted meter.old.made 1) }
    ensures made_rise { meter.old.made ≤ meter.new.made }
    ensures asks { meter.new.asks ≡ meter.old.asks }
{
    let name_kept = Vec::from_slice(alloc, name)?;
    let part = maker.part(alloc, place, meter)?;
    let required = required_by(alloc, maker.record(place), &part, before)?;
    let reach = maker.reach(alloc, place)?;
    let kept = ClassEntry {
        part,
        reach,
        required,
    };
    Ok(NewEntry {
        name: name_kept,
        kept,
    })
}

/// Returns the rows that a class requires by its facts. A name without facts requires none.
fn required_by(
    alloc: Global,
    own: Option<&Facts>,
    part: &Part,
    before: Option<&ClassEntry>,
) -> Result<RowList, NoMemory>
    ensures { IfOk result (λ rows. AreKeys (spelled_all rows) (required_by (option_copied own.entry) part.now)) }
{
    match own {
        Some(facts) => RowList::of(alloc, facts, part, rows_kept(before)),
        None => Ok(RowList::new(alloc)),
    }
}

/// Returns the rows of an entry.
fn rows_kept(kept: Option<&ClassEntry>) -> Option<&RowList> {
    match kept {
        Some(kept) => Some(&kept.required),
        None => None,
    }
}
