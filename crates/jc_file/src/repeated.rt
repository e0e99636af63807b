//! A search, with numbered texts, for members that have the name and descriptor of an earlier one.

ghost use Rattle.std.specs.Prelude.{◌≡◌, ◌<◌, ◌^◌, ◌++◌, [], false, map, length, IfOk, OnOk};
ghost use Rattle.std.specs.List.{list_any};
ghost use Rattle.std.specs.Option.{option_map_or};
ghost use Rattle.indexmap.specs.IndexSet.{insert_key};
ghost use Rattle.jc_file.specs.Faults.{repeated, fault_at};
ghost use Rattle.jc_file.specs.inside.Repeated.{repeated_left};
ghost use Rattle.jc_file.specs.inside.TextNumbers.{same_numbers, AreNumbers, KeepsNumbers, IsNumberedKey};

use crate::broken::add_if;
use crate::fault::{Fault, FormatRule};
use crate::text_numbers::TextNumbers;
use indexmap::IndexSet;
use jc_base::NoMemory;
use jc_view::{ClassView, ConstantIndex, Member, Members};
use std::alloc::Global;

/// The numbers of a name and a descriptor.
type NumberedKey = (ConstantIndex, ConstantIndex);

/// Adds a fault for each field that has the name and descriptor of an earlier one. After an error, the list may have
/// some of them.
pub(crate) fn add_repeated_fields(
    alloc: Global,
    faults: &mut Vec<Fault>,
    class: &ClassView,
    rule: FormatRule,
) -> Result<(), NoMemory>
    ensures { OnOk result (faults.new.items ≡ faults.old.items ++ map (fault_at rule) (repeated class.now class.now.fields)) }
{
    add_repeated(alloc, faults, class.fields(), rule)
}

/// Adds a fault for each method that has the name and descriptor of an earlier one. After an error, the list may have
/// some of them.
pub(crate) fn add_repeated_methods(
    alloc: Global,
    faults: &mut Vec<Fault>,
    class: &ClassView,
    rule: FormatRule,
) -> Result<(), NoMemory>
    ensures { OnOk result (faults.new.items ≡ faults.old.items ++ map (fault_at rule) (repeated class.now class.now.methods)) }
{
    add_repeated(alloc, faults, class.methods(), rule)
}

/// Adds a fault for each member that has the name and descriptor of an earlier one.
fn add_repeated(
    alloc: Global,
    faults: &mut Vec<Fault>,
    members: Members,
    rule: FormatRule,
) -> Result<(), NoMemory>
    requires { length members.left < 2 ^ 16 }
    ensures { OnOk result (faults.new.items ≡ faults.old.items ++ map (fault_at rule) (repeated_left members.entry)) }
{
    let mut texts = TextNumbers::new(alloc, members.class())?;
    let mut seen = IndexSet::new(alloc);
    add_each(faults, &mut texts, &mut seen, members, rule)
}

/// Adds the faults of all members. The set of keys that were seen begins empty.
fn add_each<'a>(
    faults: &mut Vec<Fault>,
    texts: &mut TextNumbers<'a>,
    seen: &mut IndexSet<NumberedKey>,
    members: Members<'_, 'a>,
    rule: FormatRule,
) -> Result<(), NoMemory>
    requires few { length members.left < 2 ^ 16 }
    requires numbers { AreNumbers members.class texts.old }
    requires none { seen.old.keys ≡ [] }
    ensures { OnOk result (faults.new.items ≡ faults.old.items ++ map (fault_at rule) (repeated_left members.entry)) }
{
    for (place, member) in members.enumerate() {
        let is_repeated = note(seen, numbered_key(texts, &member)?)?;
        add_if(faults, is_repeated, rule, place)?;
    }
    Ok(())
}

/// Returns the numbers of the name and the descriptor of a member.
fn numbered_key<'a>(
    texts: &mut TextNumbers<'a>,
    member: &Member<'_, 'a>,
) -> Result<Option<NumberedKey>, NoMemory>
    requires { AreNumbers member.now.class texts.now }
    ensures sound { AreNumbers member.now.class texts.new }
    ensures keeps { KeepsNumbers texts.old texts.new }
    ensures ok { IfOk result (IsNumberedKey member.now.class texts.new member.now.member.member) }
{
    let name = texts.number(member.class(), member.name_index())?;
    let descriptor = texts.number(member.class(), member.descriptor_index())?;
    Ok(name.zip(descriptor))
}

/// Inserts a key, and returns whether the set had it already.
fn note(seen: &mut IndexSet<NumberedKey>, key: Option<NumberedKey>) -> Result<bool, NoMemory>
    ensures was { IfOk result (λ was. was ≡ option_map_or (λ k. list_any (same_numbers k) seen.old.keys) key false) }
    ensures ok { OnOk result (seen.new.keys ≡ option_map_or (insert_key same_numbers seen.old.keys) key seen.old.keys) }
{
    match key {
        Some(key) => Ok(!seen.insert(key)?),
        None => Ok(false),
    }
}
