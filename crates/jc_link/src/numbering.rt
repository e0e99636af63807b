//! Numbers for the supertypes of a class, and for the classes that its references name.

ghost use Rattle.jc_classes.specs.Worlds.{Stands as stands};
ghost use Rattle.std.specs.Prelude.{◌≡◌, ◌<◌, [], IfOk, OnOk, length};
ghost use Rattle.std.specs.List.{All};
ghost use Rattle.std.specs.Option.{option_copied, option_to_list};
ghost use Rattle.jc_classes.specs.Lent.{stands_of};
ghost use Rattle.jc_classes.specs.Numbers.{IsOnce, AddsNumbers, name_at};
ghost use Rattle.jc_classes.specs.Worlds.{references_of, supertypes_of};
ghost use Rattle.jc_link.specs.inside.Gathering.{Nodes, NumbersAt};

use jc_base::NoMemory;
use jc_classes::{Facts, Numbers, Standing};
use std::alloc::Global;

/// Returns the numbers of the direct supertypes of a class. Other names have none.
pub(crate) fn number_supertypes(
    alloc: Global,
    numbers: &mut Numbers,
    standing: Standing<'_>,
) -> Result<Vec<usize>, NoMemory>
    requires { IsOnce numbers.old }
    ensures { IfOk result (λ supertypes. AddsNumbers numbers.old [] numbers.new supertypes.items
        (supertypes_of (stands_of standing.entry))) }
{
    match standing {
        Standing::Class(facts) => number_supertypes_of(alloc, numbers, facts),
        _ => Ok(Vec::new(alloc)),
    }
}

fn number_supertypes_of(
    alloc: Global,
    numbers: &mut Numbers,
    facts: &Facts,
) -> Result<Vec<usize>, NoMemory>
    requires { IsOnce numbers.old }
    ensures { IfOk result (λ supertypes. AddsNumbers numbers.old [] numbers.new supertypes.items (supertypes_of (stands.Class facts.now))) }
{
    let mut supertypes = Vec::with_capacity(alloc, facts.interface_count().saturating_add(1))?;
    number_some(alloc, numbers, &mut supertypes, facts.superclass())?;
    number_interfaces(alloc, numbers, &mut supertypes, facts)?;
    Ok(supertypes)
}

/// Appends the number of a name, if there is one.
pub(crate) fn number_some(
    alloc: Global,
    numbers: &mut Numbers,
    direct: &mut Vec<usize>,
    name: Option<&[u8]>,
) -> Result<(), NoMemory>
    requires once { IsOnce numbers.old }
    requires direct { All (λ v. v < length numbers.old) direct.old.items }
    ensures { OnOk result (AddsNumbers numbers.old direct.old.items numbers.new direct.new.items
        (option_to_list (option_copied name.entry))) }
{
    match name {
        Some(name) => {
            numbers.number_into(alloc, direct, name)?;
            Ok(())
        }
        None => Ok(()),
    }
}

/// Appends the numbers of the direct superinterfaces.
fn number_interfaces(
    alloc: Global,
    numbers: &mut Numbers,
    direct: &mut Vec<usize>,
    facts: &Facts,
) -> Result<(), NoMemory>
    requires once { IsOnce numbers.old }
    requires direct { All (λ v. v < length numbers.old) direct.old.items }
    ensures { OnOk result (AddsNumbers numbers.old direct.old.items numbers.new direct.new.items facts.now.interfaces) }
{
    for number in 0..facts.interface_count() {
        let name = interface_name(facts, number);
        numbers.number_into(alloc, direct, name)?;
    }
    Ok(())
}

/// Returns the name of the direct superinterface of a number. Returns an empty name if there is none.
fn interface_name(facts: &Facts, number: usize) -> &[u8]
    ensures { result.now ≡ name_at facts.now.interfaces number }
{
    match facts.interface(number) {
        Some(name) => name,
        None => &[],
    }
}

/// Returns for each reference of a class the number of the class that it names. Other names have no references.
pub(crate) fn number_references(
    alloc: Global,
    numbers: &mut Numbers,
    standing: Standing<'_>,
) -> Result<Vec<Option<u32>>, NoMemory>
    requires { IsOnce numbers.old }
    ensures { IfOk result (λ nodes. Nodes numbers.old [] numbers.new nodes.items (references_of (stands_of standing.entry))) }
{
    match standing {
        Standing::Class(facts) => number_references_of(alloc, numbers, facts),
        _ => Ok(Vec::new(alloc)),
    }
}

fn number_references_of(
    alloc: Global,
    numbers: &mut Numbers,
    facts: &Facts,
) -> Result<Vec<Option<u32>>, NoMemory>
    requires { IsOnce numbers.old }
    ensures { IfOk result (λ nodes. Nodes numbers.old [] numbers.new nodes.items facts.now.references) }
{
    let count = facts.reference_count();
    let before = facts.named_before(alloc)?;
    let mut nodes = Vec::with_capacity(alloc, count)?;
    for number in 0..count {
        let node = match before[number] {
            Some(earlier) => nodes[earlier],
            None => number_reference(alloc, numbers, facts, number)?,
        };
        nodes.push(node)?;
    }
    Ok(nodes)
}

/// Returns the number of the class that a reference names; for an array, of its innermost class, if there is one.
/// Returns `NoMemory` when an allocation fails, and when the names have more than 4,294,967,295 bytes in total.
fn number_reference(
    alloc: Global,
    numbers: &mut Numbers,
    facts: &Facts,
    number: usize,
) -> Result<Option<u32>, NoMemory>
    requires { IsOnce numbers.old }
    ensures { IfOk result (NumbersAt numbers.old numbers.new facts.now.references number) }
{
    let Some(reference) = facts.reference(number) else {
        return Ok(None);
    };
    let Some(name) = reference.class_name() else {
        return Ok(None);
    };
    match u32::try_from(numbers.number(alloc, name)?) {
        Ok(node) => Ok(Some(node)),
        Err(_) => Err(NoMemory),
    }
}
