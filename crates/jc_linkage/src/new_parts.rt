//! Computation and linking of the parts that an edit needs, before any outdated entry is removed.

ghost use Rattle.std.specs.Prelude.{◌≡◌, ◌≤◌, ◌++◌, IfErr, IfOk, IfSome, None, OnErr, OnOk, Some, length};
ghost use Rattle.std.specs.FinMap as map;
ghost use Rattle.std.specs.Option.{option_copied, option_to_list};
ghost use Rattle.jc_classes.specs.Names.{Name, names_of};
ghost use Rattle.jc_classes.specs.Worlds.{World};
ghost use Rattle.jc_link.specs.Graphs.{IsIn};
ghost use Rattle.jc_link.specs.Meters.{counted};
ghost use Rattle.jc_linkage.specs.inside.Kept.{AllFresh, AreLinked, IsClassAt, fresh_at, fresh_names};
ghost use Rattle.jc_linkage.specs.inside.LinkSets.{AreLinks, held_and_fresh, links_of, together};
ghost use Rattle.jc_linkage.specs.inside.Prepared.{IsPrepared, Prepares};

use crate::class_entry::{ClassEntry, NewEntry, make_fresh, make_one};
use crate::dependants::Dependants;
use crate::replacement::{link_fresh, undo_fresh, undo_links};
use jc_base::{ByteMap, NoMemory};
use jc_link::{ClassGraph, Meter, Outside, PartMaker, Table};
use std::alloc::{AllocFailed, Global};

/// Computes the entries of the affected classes and of an added class, and adds their links. The entry of the added
/// class is put into the map. If an allocation fails, the links and the map stay as they were.
pub(crate) fn prepare(
    alloc: Global,
    table: &Table,
    outside: &Outside,
    kept: &mut ByteMap<ClassEntry>,
    dependants: &mut Dependants,
    names: &[Vec<u8>],
    comes: Option<&[u8]>,
    meter: &mut Meter,
) -> Result<Vec<NewEntry>, NoMemory>
    requires linked { AreLinked kept.old dependants.old }
    requires absent { (n : Name) → option_copied comes ≡ Some n → map.get kept.old n ≡ None }
    ensures kept_err { OnErr result (kept.new ≡ kept.old) }
    ensures linked_err { OnErr result (AreLinked kept.old dependants.new) }
    ensures ready { Prepares result table.now outside.now names.now comes.entry kept.old kept.new meter.old meter.new }
    ensures linked { IfOk result (λ fresh. AreLinks (held_and_fresh kept.new fresh.items) dependants.new) }
    ensures asks_rise { meter.old.asks ≤ meter.new.asks }
    ensures made_rise { meter.old.made ≤ meter.new.made }
{
    if names.is_empty() && comes.is_none() {
        return Ok(Vec::new(alloc));
    }
    let graph = ClassGraph::around(alloc, table, outside, names, comes, meter)?;
    let mut maker = PartMaker::new(alloc, &graph)?;
    let fresh = prepare_all(alloc, &mut maker, kept, dependants, names, comes, meter)?;
    Ok(fresh)
}

/// Does this over the graph of these classes.
fn prepare_all(
    alloc: Global,
    maker: &mut PartMaker,
    kept: &mut ByteMap<ClassEntry>,
    dependants: &mut Dependants,
    names: &[Vec<u8>],
    comes: Option<&[u8]>,
    meter: &mut Meter,
) -> Result<Vec<NewEntry>, NoMemory>
    requires classes { maker.old.classes ≡ names_of names.now ++ option_to_list (option_copied comes) }
    requires linked { AreLinked kept.old dependants.old }
    requires absent { (n : Name) → option_copied comes ≡ Some n → map.get kept.old n ≡ None }
    ensures kept_err { OnErr result (kept.new ≡ kept.old) }
    ensures linked_err { OnErr result (AreLinked kept.old dependants.new) }
    ensures ready { (m : World) → IsIn m maker.old
        → IfOk result (λ fresh. IsPrepared m (names_of names.now) (option_copied comes.entry) kept.old kept.new fresh.items meter.old meter.new) }
    ensures linked { IfOk result (λ fresh. AreLinks (held_and_fresh kept.new fresh.items) dependants.new) }
    ensures asks { meter.new.asks ≡ meter.old.asks }
    ensures made_rise { meter.old.made ≤ meter.new.made }
{
    let fresh = make_fresh(alloc, maker, kept, names, meter)?;
    let newcomer = make_newcomer(alloc, maker, names.len(), comes, meter)?;
    link_all(kept, dependants, &fresh, newcomer)?;
    Ok(fresh)
}

/// Computes the entry of the added class, which is at a place of the graph.
fn make_newcomer(
    alloc: Global,
    maker: &mut PartMaker,
    place: usize,
    comes: Option<&[u8]>,
    meter: &mut Meter,
) -> Result<Option<NewEntry>, NoMemory>
    requires { (n : Name) → option_copied comes ≡ Some n → IsClassAt maker.old place n }
    ensures names { IfOk result (λ newcomer. fresh_names (option_to_list newcomer) ≡ option_to_list (option_copied comes.entry)) }
    ensures kept { (m : World) → IsIn m maker.old → IfOk result (λ newcomer. AllFresh m (option_to_list newcomer)) }
    ensures made { OnOk result (meter.new.made ≡ counted meter.old.made (length (option_to_list (option_copied comes.entry)))) }
    ensures made_rise { meter.old.made ≤ meter.new.made }
    ensures asks { meter.new.asks ≡ meter.old.asks }
{
    let Some(name) = comes else {
        return Ok(None);
    };
    let newcomer = make_one(alloc, maker, place, name, None, meter)?;
    Ok(Some(newcomer))
}

/// Adds the links of new entries. The entry of an added class is put into the map. If an allocation fails, the links
/// and the map stay as they were.
fn link_all(
    kept: &mut ByteMap<ClassEntry>,
    dependants: &mut Dependants,
    fresh: &[NewEntry],
    newcomer: Option<NewEntry>,
) -> Result<(), NoMemory>
    requires linked { AreLinked kept.old dependants.old }
    requires absent { IfSome newcomer (λ x. map.get kept.old x.name.items ≡ None) }
    ensures kept_err { OnErr result (kept.new ≡ kept.old) }
    ensures linked_err { OnErr result (AreLinked kept.old dependants.new) }
    ensures kept_ok { OnOk result ((d : Name) → map.get kept.new d ≡ fresh_at (option_to_list newcomer) d (map.get kept.old d)) }
    ensures linked { OnOk result (AreLinks (held_and_fresh kept.new fresh.now) dependants.new) }
{
    let Some(newcomer) = newcomer else {
        return link_others(kept, dependants, fresh);
    };
    match link_and_keep(kept, dependants, fresh, newcomer) {
        Ok(()) => Ok(()),
        Err(newcomer) => {
            drop(newcomer);
            Err(NoMemory)
        }
    }
}

/// Adds the links of new entries and of an added class, whose entry is put into the map. If an allocation fails, this
/// entry is returned, and the links and the map stay as they were.
fn link_and_keep(
    kept: &mut ByteMap<ClassEntry>,
    dependants: &mut Dependants,
    fresh: &[NewEntry],
    newcomer: NewEntry,
) -> Result<(), NewEntry>
    requires linked { AreLinked kept.old dependants.old }
    requires absent { map.get kept.old newcomer.name.items ≡ None }
    ensures kept_err { OnErr result (kept.new ≡ kept.old) }
    ensures linked_err { OnErr result (AreLinked kept.old dependants.new) }
    ensures back { IfErr result (λ back. back ≡ newcomer) }
    ensures kept_ok { OnOk result (kept.new ≡ map.insert kept.old newcomer.name.items newcomer.kept) }
    ensures linked { OnOk result (AreLinks (held_and_fresh kept.new fresh.now) dependants.new) }
{
    match link_with(dependants, kept, fresh, &newcomer.name, &newcomer.kept) {
        Ok(()) => {}
        Err(_) => return Err(newcomer),
    }
    match keep(kept, newcomer) {
        Ok(()) => Ok(()),
        Err(newcomer) => {
            undo_links(dependants, kept, fresh, &newcomer.name, &newcomer.kept);
            Err(newcomer)
        }
    }
}

/// Puts the entry of an added class into the map. If an allocation fails, the entry is returned, and the map stays as
/// it was.
fn keep(kept: &mut ByteMap<ClassEntry>, newcomer: NewEntry) -> Result<(), NewEntry>
    ensures ok { OnOk result (kept.new ≡ map.insert kept.old newcomer.name.items newcomer.kept) }
    ensures err { OnErr result (kept.new ≡ kept.old) }
    ensures back { IfErr result (λ back. back ≡ newcomer) }
{
    match kept.insert(newcomer.name, newcomer.kept) {
        Ok(_) => Ok(()),
        Err(
            AllocFailed {
                value: (name, kept),
            },
        ) => Err(NewEntry { name, kept }),
    }
}

/// Adds the links of new entries and of an added class. If an allocation fails, the links stay as they were.
fn link_with(
    dependants: &mut Dependants,
    kept: &ByteMap<ClassEntry>,
    fresh: &[NewEntry],
    name: &[u8],
    newcomer: &ClassEntry,
) -> Result<(), NoMemory>
    requires linked { AreLinked kept.now dependants.old }
    requires absent { map.get kept.now name.now ≡ None }
    ensures ok { OnOk result (AreLinks (together (held_and_fresh kept.now fresh.now) (links_of name.now newcomer.now)) dependants.new) }
    ensures err { OnErr result (AreLinked kept.now dependants.new) }
{
    match link_fresh(dependants, kept, fresh) {
        Ok(()) => {}
        Err(_) => {
            undo_links(dependants, kept, fresh, name, newcomer);
            return Err(NoMemory);
        }
    }
    match dependants.link(name, newcomer) {
        Ok(()) => Ok(()),
        Err(_) => {
            undo_links(dependants, kept, fresh, name, newcomer);
            Err(NoMemory)
        }
    }
}

/// Adds the links of new entries, if there is no added class. If an allocation fails, the links stay as they were.
fn link_others(
    kept: &ByteMap<ClassEntry>,
    dependants: &mut Dependants,
    fresh: &[NewEntry],
) -> Result<(), NoMemory>
    requires { AreLinked kept.now dependants.old }
    ensures ok { OnOk result (AreLinks (held_and_fresh kept.now fresh.now) dependants.new) }
    ensures err { OnErr result (AreLinked kept.now dependants.new) }
{
    match link_fresh(dependants, kept, fresh) {
        Ok(()) => Ok(()),
        Err(_) => {
            undo_fresh(dependants, kept, fresh);
            Err(NoMemory)
        }
    }
}
