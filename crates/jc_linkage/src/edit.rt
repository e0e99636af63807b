//! Edits of the classes of one or two names.

ghost use Rattle.std.specs.Prelude.{◌≡◌, ◌≤◌, ◌&&◌, not, false, true, Decides, IfOk, IsSome, None, OnErr, OnOk, Some, cond, is_some};
ghost use Rattle.std.specs.FinMap as map;
ghost use Rattle.std.specs.Option.{option_copied};
ghost use Rattle.jc_classes.specs.Names.{Name};
ghost use Rattle.jc_link.specs.Tables.{class_at};
ghost use Rattle.jc_linkage.specs.Affected.{NoRepeat};
ghost use Rattle.jc_linkage.specs.Steps as steps;
ghost use Rattle.jc_linkage.specs.Steps.{at_step, step_class};
ghost use Rattle.jc_linkage.specs.inside.Holding as holding;
ghost use Rattle.jc_linkage.specs.inside.Holding.{AreBack, AreNamed, AreThere, CountsStep, Holds, IsCountedOver, IsCounting, IsHeld, IsIdle, IsPutting, PutsClass};
ghost use Rattle.jc_linkage.specs.inside.Holding.{at_either, given_in, stepped_by};
ghost use Rattle.jc_linkage.specs.inside.Kept.{AreLinked, fresh_at, fresh_names};
ghost use Rattle.jc_linkage.specs.inside.LinkSets.{AreLinks, TakesOut, held_and_fresh, links_gone};
ghost use Rattle.jc_linkage.specs.inside.Users.{AreKeptBut, is_name, kept_but};
ghost use Rattle.jc_linkage.specs.inside.Stepping.{AreTaken, Fills, MayVacate, NoneVacant};

use crate::affected::users_of;
use crate::class_entry::{ClassEntry, NewEntry};
use crate::dependants::Dependants;
use crate::new_parts::prepare;
use crate::replacement::{commit, remove_entry};
use crate::step::{Step, make_step, take_back};
use jc_base::{ByteMap, NoMemory};
use jc_classes::{Facts, same};
use jc_link::{Meter, Outside, Table};
use std::alloc::Global;

/// Returns the step, unless it changes nothing. It changes nothing if its name has no class, is the name of the put
/// class, or has the step's class already.
pub(crate) fn counting(table: &Table, first: Option<Step>, put: &Option<Facts>) -> Option<Step>
    ensures { IsCounting (class_at table.now) put.now first result }
{
    let step = first?;
    if is_idle(table, &step, put) {
        None
    } else {
        Some(step)
    }
}

/// Returns the step that puts a class, if there is one, unless the class is at its name already.
pub(crate) fn putting(table: &Table, put: Option<Facts>) -> Option<Step>
    ensures { IsPutting (class_at table.now) put result }
{
    let facts = put?;
    if stands(table, &facts) {
        None
    } else {
        Some(Step::Put(facts))
    }
}

/// Returns whether a step changes nothing.
fn is_idle(table: &Table, step: &Step, put: &Option<Facts>) -> bool
    ensures { Decides result (IsIdle (class_at table.now) put.now step.now) }
{
    match table.class(step.name()) {
        Some(there) => is_class(put, step.name()) || leaves(step, there),
        None => true,
    }
}

/// Returns whether a step puts a class with these facts.
fn leaves(step: &Step, there: &Facts) -> bool
    ensures { Decides result (step_class step.now ≡ Some there.now) }
{
    match step {
        Step::Put(facts) => facts.is_same(there),
        Step::Remove(_) => false,
    }
}

/// Returns whether the table has exactly these facts for their class.
fn stands(table: &Table, facts: &Facts) -> bool
    ensures { Decides result (class_at table.now facts.now.name ≡ Some facts.now) }
{
    match table.class(facts.name()) {
        Some(there) => there.is_same(facts),
        None => false,
    }
}

/// Returns whether this is the name of the put class.
fn is_class(put: &Option<Facts>, name: &[u8]) -> bool
    ensures { result ≡ steps.is_class put.now name.now }
{
    match put {
        Some(facts) => same(name, facts.name()),
        None => false,
    }
}

/// Applies two steps, and recomputes the parts that they affect. If an allocation fails, the classes stay as they were.
pub(crate) fn change_classes(
    alloc: Global,
    outside: &Outside,
    table: &mut Table,
    kept: &mut ByteMap<ClassEntry>,
    dependants: &mut Dependants,
    first: Option<Step>,
    second: Option<Step>,
    meter: &mut Meter,
) -> Result<(), NoMemory>
    requires held { IsHeld table.old outside.now kept.old dependants.old }
    requires named { AreNamed table.old }
    requires first { CountsStep (class_at table.old) first second }
    requires second { PutsClass second }
    requires taken { NoneVacant table.old }
    ensures ok { OnOk result ((n : Name) → class_at table.new n ≡ stepped_by second (stepped_by first (class_at table.old)) n) }
    ensures err { OnErr result ((n : Name) → class_at table.new n ≡ class_at table.old n) }
    ensures held { IsHeld table.new outside.now kept.new dependants.new }
    ensures counted { OnOk result (IsCountedOver table.new outside.now (at_either first second) meter.old meter.new) }
    ensures asks_rise { meter.old.asks ≤ meter.new.asks }
    ensures made_rise { meter.old.made ≤ meter.new.made }
    ensures taken { NoneVacant table.new }
{
    let leaves = is_removal(&first);
    let (first, second) = make_both(alloc, table, first, second)?;
    let gone = removed_name(leaves, &first);
    match remake(
        alloc, outside, table, kept, dependants, &first, &second, gone, meter,
    ) {
        Ok(()) => Ok(()),
        Err(_) => {
            unmake_both(table, first, second);
            Err(NoMemory)
        }
    }
}

/// Recomputes the parts that two steps affect. `first` and `second` undo the steps that were made, and `gone` is the
/// name of the removed class. If an allocation fails, the table, the entries and the links stay as they were.
fn remake(
    alloc: Global,
    outside: &Outside,
    table: &mut Table,
    kept: &mut ByteMap<ClassEntry>,
    dependants: &mut Dependants,
    first: &Option<Step>,
    second: &Option<Step>,
    gone: Option<&[u8]>,
    meter: &mut Meter,
) -> Result<(), NoMemory>
    requires linked { AreLinked kept.old dependants.old }
    requires gone { (n : Name) → is_name (option_copied gone) n ≡ (at_step first.now n && not (given_in table.old n)) }
    requires second { (n : Name) → at_step second.now n ≡ true → given_in table.old n ≡ true }
    ensures err { OnErr result (table.new ≡ table.old) }
    ensures kept_err { OnErr result (kept.new ≡ kept.old) }
    ensures linked_err { OnErr result (AreLinked kept.old dependants.new) }
    ensures ok { OnOk result ((n : Name) → class_at table.new n ≡ class_at table.old n) }
    ensures held { Holds result first.now second.now outside.now table.old table.new
        kept.old kept.new dependants.old dependants.new meter.old meter.new }
    ensures asks_rise { meter.old.asks ≤ meter.new.asks }
    ensures made_rise { meter.old.made ≤ meter.new.made }
    ensures taken { OnOk result (AreTaken (at_either first.now second.now) table.old → NoneVacant table.new) }
{
    let names = users_of(alloc, dependants, name_of(first), name_of(second), gone)?;
    let comes = new_name(kept, second);
    let fresh = prepare(
        alloc, table, outside, kept, dependants, &names, comes, meter,
    )?;
    finish(table, kept, dependants, gone, fresh);
    Ok(())
}

/// Makes two steps, and returns the steps that undo them. If an allocation fails, no step is made.
fn make_both(
    alloc: Global,
    table: &mut Table,
    first: Option<Step>,
    second: Option<Step>,
) -> Result<(Option<Step>, Option<Step>), NoMemory>
    requires named { AreNamed table.old }
    ensures ok { OnOk result ((n : Name) → class_at table.new n ≡ stepped_by second (stepped_by first (class_at table.old)) n) }
    ensures first { IfOk result (λ back. AreBack back.0 first (class_at table.old)) }
    ensures second { IfOk result (λ back. AreBack back.1 second (stepped_by first (class_at table.old))) }
    ensures there_first { IfOk result (λ back. AreThere back.0 table.new) }
    ensures there_second { IfOk result (λ back. AreThere back.1 table.new) }
    ensures err { OnErr result ((n : Name) → class_at table.new n ≡ class_at table.old n) }
    ensures taken { IfOk result (λ back. NoneVacant table.old → AreTaken (at_either back.0 back.1) table.new) }
    ensures taken_err { OnErr result (NoneVacant table.old → NoneVacant table.new) }
{
    let first = make(alloc, table, first)?;
    match make(alloc, table, second) {
        Ok(second) => Ok((first, second)),
        Err(_) => {
            unmake(table, first);
            Err(NoMemory)
        }
    }
}

/// Undoes two steps that were made. Does not allocate.
fn unmake_both(table: &mut Table, first: Option<Step>, second: Option<Step>)
    requires first { AreThere first table.old }
    requires second { AreThere second table.old }
    requires apart { (n : Name) → at_step first n ≡ true → at_step second n ≡ false }
    ensures classes { (n : Name) → class_at table.new n ≡ stepped_by first (stepped_by second (class_at table.old)) n }
    ensures taken { AreTaken (at_either first second) table.old → NoneVacant table.new }
{
    unmake(table, second);
    unmake(table, first);
}

/// Makes a step, if there is one, and returns the step that undoes it.
fn make(alloc: Global, table: &mut Table, step: Option<Step>) -> Result<Option<Step>, NoMemory>
    requires { AreNamed table.old }
    ensures ok { OnOk result ((n : Name) → class_at table.new n ≡ stepped_by step (class_at table.old) n) }
    ensures back { IfOk result (λ back. AreBack back step (class_at table.old)) }
    ensures there { OnOk result ((n : Name) → IsSome (map.get table.old n) → IsSome (map.get table.new n)) }
    ensures err { OnErr result (table.new ≡ table.old) }
    ensures taken { IfOk result (λ back. MayVacate (at_step back) table.old table.new) }
{
    let Some(step) = step else {
        return Ok(None);
    };
    let back = make_step(alloc, table, step)?;
    Ok(Some(back))
}

/// Undoes a step, if there is one. Does not allocate.
fn unmake(table: &mut Table, back: Option<Step>)
    requires { AreThere back table.old }
    ensures ok { (n : Name) → class_at table.new n ≡ stepped_by back (class_at table.old) n }
    ensures there { (n : Name) → at_step back n ≡ false → IsSome (map.get table.old n) → IsSome (map.get table.new n) }
    ensures taken { Fills (at_step back) table.old table.new }
{
    let Some(back) = back else {
        return;
    };
    take_back(table, back);
}

/// Returns whether a step removes a class.
fn is_removal(step: &Option<Step>) -> bool
    ensures { result ≡ is_some (holding.removed_name step.now) }
{
    match step {
        Some(Step::Remove(_)) => true,
        _ => false,
    }
}

/// Returns the name of the class that a step removed.
fn removed_name(leaves: bool, back: &Option<Step>) -> Option<&[u8]>
    ensures { option_copied result ≡ cond leaves (holding.name_of back.now) None }
{
    if leaves { name_of(back) } else { None }
}

fn name_of(step: &Option<Step>) -> Option<&[u8]>
    ensures { option_copied result ≡ holding.name_of step.now }
{
    match step {
        Some(step) => Some(step.name()),
        None => None,
    }
}

/// Returns the name of a step, if it has no entry: then its class is new.
fn new_name<'a>(kept: &ByteMap<ClassEntry>, step: &'a Option<Step>) -> Option<&'a [u8]>
    ensures { option_copied result ≡ holding.new_name kept.now step.now }
{
    let name = name_of(step)?;
    if kept.contains_key(name) {
        None
    } else {
        Some(name)
    }
}

/// Removes a class, if there is one to remove, and replaces the entries of others. Does not allocate.
fn finish(
    table: &mut Table,
    kept: &mut ByteMap<ClassEntry>,
    dependants: &mut Dependants,
    gone: Option<&[u8]>,
    fresh: Vec<NewEntry>,
)
    requires there { AreKeptBut (option_copied gone) kept.old (fresh_names fresh.items) }
    requires once { NoRepeat (fresh_names fresh.items) }
    requires linked { AreLinks (held_and_fresh kept.old fresh.items) dependants.old }
    requires vacant { (n : Name) → is_name (option_copied gone) n ≡ true → class_at table.old n ≡ None }
    ensures classes { (n : Name) → class_at table.new n ≡ class_at table.old n }
    ensures kept { (d : Name) → map.get kept.new d ≡ fresh_at fresh.items d (kept_but (option_copied gone.entry) kept.old d) }
    ensures linked { AreLinked kept.new dependants.new }
    ensures taken { AreTaken (is_name (option_copied gone.entry)) table.old → NoneVacant table.new }
{
    remove_class(table, kept, dependants, gone);
    commit(kept, dependants, fresh);
}

/// Removes a class that no file gives, with its entry and its place. Does not allocate.
fn remove_class(
    table: &mut Table,
    kept: &mut ByteMap<ClassEntry>,
    dependants: &mut Dependants,
    gone: Option<&[u8]>,
)
    requires { (n : Name) → is_name (option_copied gone) n ≡ true → class_at table.old n ≡ None }
    ensures classes { (n : Name) → class_at table.new n ≡ class_at table.old n }
    ensures kept { (d : Name) → map.get kept.new d ≡ kept_but (option_copied gone.entry) kept.old d }
    ensures linked { TakesOut (links_gone (option_copied gone.entry) kept.old) dependants.old dependants.new }
    ensures taken { AreTaken (is_name (option_copied gone.entry)) table.old → NoneVacant table.new }
{
    let Some(name) = gone else {
        return;
    };
    remove_entry(kept, dependants, name);
    table.remove(name);
}
