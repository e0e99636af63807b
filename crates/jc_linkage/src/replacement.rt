//! Replacement of entries. Links are added first: this may fail, and is then undone. Links are removed last, which
//! cannot fail.

ghost use Rattle.std.specs.Prelude.{◌≡◌, true, IsSome, None, OnErr, OnOk, Some};
ghost use Rattle.std.specs.FinMap as map;
ghost use Rattle.jc_classes.specs.Names.{Name};
ghost use Rattle.jc_classes.specs.NameLists.{has};
ghost use Rattle.jc_linkage.specs.Affected.{NoRepeat};
ghost use Rattle.jc_linkage.specs.inside.Kept.{AreLinked, Relation, fresh_at, fresh_names, held_in, linked};
ghost use Rattle.jc_linkage.specs.inside.LinkSets.{Adds, AddsSome, AreLinkedAndSome, AreLinks, TakesOut};
ghost use Rattle.jc_linkage.specs.inside.LinkSets.{all_fresh, all_held, held_and_fresh, together, without};
ghost use Rattle.jc_linkage.specs.inside.LinkSets.{links_but, links_held, links_lost, links_of};

use crate::class_entry::{ClassEntry, NewEntry};
use crate::dependants::Dependants;
use jc_base::{ByteMap, NoMemory};
use std::mem;

/// Adds the links of new entries that the old entries lack. If an allocation fails, some of these links may have been
/// added.
pub(crate) fn link_fresh(
    dependants: &mut Dependants,
    kept: &ByteMap<ClassEntry>,
    fresh: &[NewEntry],
) -> Result<(), NoMemory>
    requires { AreLinked kept.now dependants.old }
    ensures ok { OnOk result (Adds (all_fresh fresh.now) dependants.old dependants.new) }
    ensures err { OnErr result (AddsSome (all_fresh fresh.now) dependants.old dependants.new) }
{
    for one in fresh {
        link_one(dependants, kept, one)?;
    }
    Ok(())
}

/// Adds the links of one new entry.
fn link_one(
    dependants: &mut Dependants,
    kept: &ByteMap<ClassEntry>,
    one: &NewEntry,
) -> Result<(), NoMemory>
    requires { (r : Relation) (n d : Name) → held_in r kept.now d n ≡ true → linked r dependants.old n d ≡ true }
    ensures ok { OnOk result (Adds (links_of one.now.name.items one.now.kept) dependants.old dependants.new) }
    ensures err { OnErr result (AddsSome (links_of one.now.name.items one.now.kept) dependants.old dependants.new) }
{
    match kept.get(&one.name) {
        Some(now) => dependants.link_but(&one.name, &one.kept, now),
        None => dependants.link(&one.name, &one.kept),
    }
}

/// Removes the links of new entries that the old entries lack. Some of these links may be absent. Does not allocate.
pub(crate) fn undo_fresh(
    dependants: &mut Dependants,
    kept: &ByteMap<ClassEntry>,
    fresh: &[NewEntry],
)
    ensures { TakesOut (without (all_fresh fresh.now) (all_held kept.now)) dependants.old dependants.new }
{
    for one in fresh {
        undo_one(dependants, kept, one);
    }
}

/// Removes the links of one new entry that its old entry lacks.
fn undo_one(dependants: &mut Dependants, kept: &ByteMap<ClassEntry>, one: &NewEntry)
    ensures { TakesOut (without (links_of one.now.name.items one.now.kept) (all_held kept.now)) dependants.old dependants.new }
{
    match kept.get(&one.name) {
        Some(now) => dependants.unlink_but(&one.name, &one.kept, now),
        None => dependants.unlink(&one.name, &one.kept),
    }
}

/// Removes the links of new entries that the old entries lack, and those of a class without an old entry. Does not
/// allocate.
pub(crate) fn undo_links(
    dependants: &mut Dependants,
    kept: &ByteMap<ClassEntry>,
    fresh: &[NewEntry],
    name: &[u8],
    newcomer: &ClassEntry,
)
    requires absent { map.get kept.now name.now ≡ None }
    requires between { AreLinkedAndSome kept.now (together (all_fresh fresh.now) (links_of name.now newcomer.now)) dependants.old }
    ensures { AreLinked kept.now dependants.new }
{
    dependants.unlink(name, newcomer);
    undo_fresh(dependants, kept, fresh);
}

/// Replaces entries, and removes the links that the new entries lack. Does not allocate.
pub(crate) fn commit(
    kept: &mut ByteMap<ClassEntry>,
    dependants: &mut Dependants,
    fresh: Vec<NewEntry>,
)
    requires there { (d : Name) → has (fresh_names fresh.items) d ≡ true → IsSome (map.get kept.old d) }
    requires apart { NoRepeat (fresh_names fresh.items) }
    requires linked { AreLinks (held_and_fresh kept.old fresh.items) dependants.old }
    ensures kept { (d : Name) → map.get kept.new d ≡ fresh_at fresh.items d (map.get kept.old d) }
    ensures linked { AreLinked kept.new dependants.new }
{
    let mut fresh = fresh;
    while let Some(one) = fresh.pop() {
        put_one(kept, dependants, one);
    }
}

/// Replaces one entry, and removes the links that the new entry lacks.
fn put_one(kept: &mut ByteMap<ClassEntry>, dependants: &mut Dependants, one: NewEntry)
    requires there { IsSome (map.get kept.old one.name.items) }
    ensures kept { kept.new ≡ map.insert kept.old one.name.items one.kept }
    ensures linked { TakesOut (links_lost one.name.items kept.old one.kept) dependants.old dependants.new }
{
    let NewEntry { name, kept: now } = one;
    let Some(place) = kept.get_mut(&name) else {
        unreachable!();
    };
    dependants.unlink_but(&name, place, &now);
    drop(mem::replace(place, now));
}

/// Removes the entry of a class, and its links. Does not allocate.
pub(crate) fn remove_entry(kept: &mut ByteMap<ClassEntry>, dependants: &mut Dependants, name: &[u8])
    ensures kept { kept.new ≡ map.remove kept.old name.now }
    ensures linked { TakesOut (links_held name.now kept.old) dependants.old dependants.new }
{
    if let Some(gone) = kept.remove(name) {
        dependants.unlink(name, &gone);
    }
}
