//! Members that have the name and descriptor of an earlier one (JVMS 4.5, 4.6).

ghost use Rattle.std.specs.Prelude.{◌≡◌, [], Some, true, filter, map, IfOk, IfSome, OnOk};
ghost use Rattle.std.specs.List.{list_any};
ghost use Rattle.jc_file.specs.declared.fault.FormatRule.TheVariants as rules;
ghost use Rattle.jc_file.specs.Faults.{fault_at, key_of, repeated, same_key};
ghost use Rattle.jc_file.specs.inside.Repeated.{key_now};
ghost use Rattle.jc_file.specs.inside.Broken.{AddsPlaces};
ghost use Rattle.jc_file.specs.inside.RuleSets.{same_rule};
ghost use Rattle.jc_file.specs.inside.RuleTables.{repeated_places};

use crate::broken::{Broken, add_broken};
use crate::fault::{Fault, FormatRule};
use crate::repeated::{add_repeated_fields, add_repeated_methods};
use crate::rule_set::RuleSet;
use jc_base::NoMemory;
use jc_view::{ClassView, Member, Members};
use std::alloc::Global;

/// The name and the descriptor of a member.
type Key<'a> = (&'a [u8], &'a [u8]);

/// The maximum number of members that are compared with each other. For more members, a map finds equal ones faster.
const MOST_KEYS: usize = 64;

/// The maximum length of a text that is compared in this way. Many members may have the same text, so long texts would
/// be expensive.
const LONGEST_TEXT: usize = 128;

/// Adds the rules that are broken by fields and methods that repeat an earlier one.
pub(crate) fn add_repeats(
    alloc: Global,
    broken: &mut Vec<Broken>,
    class: &ClassView,
) -> Result<(), NoMemory>
    ensures { OnOk result (AddsPlaces (repeated_places class.now) broken.old.items broken.new.items) }
{
    let fields = repeated_fields(alloc, class)?;
    add_each(broken, &fields)?;
    let methods = repeated_methods(alloc, class)?;
    add_each(broken, &methods)?;
    Ok(())
}

/// Adds the rule of each fault at its place.
fn add_each(broken: &mut Vec<Broken>, faults: &[Fault]) -> Result<(), NoMemory>
    ensures { OnOk result (AddsPlaces (λ rule. map (λ fault. fault.place) (filter (λ fault. same_rule fault.rule rule) faults.now)) broken.old.items broken.new.items) }
{
    for fault in faults {
        add_broken(broken, fault.place, RuleSet::none().with(fault.rule, true))?;
    }
    Ok(())
}

/// Returns a fault for each field that repeats an earlier one.
fn repeated_fields(alloc: Global, class: &ClassView) -> Result<Vec<Fault>, NoMemory>
    ensures { IfOk result (λ faults. faults.items ≡ map (fault_at rules.F18) (repeated class.now class.now.fields)) }
{
    let mut faults = Vec::new(alloc);
    if are_few_and_apart(alloc, class.fields())? {
        return Ok(faults);
    }
    add_repeated_fields(alloc, &mut faults, class, FormatRule::F18)?;
    Ok(faults)
}

/// Returns a fault for each method that repeats an earlier one.
fn repeated_methods(alloc: Global, class: &ClassView) -> Result<Vec<Fault>, NoMemory>
    ensures { IfOk result (λ faults. faults.items ≡ map (fault_at rules.F22) (repeated class.now class.now.methods)) }
{
    let mut faults = Vec::new(alloc);
    if are_few_and_apart(alloc, class.methods())? {
        return Ok(faults);
    }
    add_repeated_methods(alloc, &mut faults, class, FormatRule::F22)?;
    Ok(faults)
}

/// Returns whether the members are few, and each has a short name and descriptor that no earlier one has.
fn are_few_and_apart(alloc: Global, members: Members) -> Result<bool, NoMemory>
    ensures { IfOk result (λ apart. apart ≡ true → repeated members.entry.class (map (λ m. m.member) members.entry.left) ≡ []) }
{
    let mut keys = Vec::new(alloc);
    for member in members {
        match short_key(&member) {
            Some(key) if keys.len() < MOST_KEYS && !has_key(&keys, key) => keys.push(key)?,
            _ => return Ok(false),
        }
    }
    Ok(true)
}

/// Returns the name and the descriptor of a member, if both are present and short.
fn short_key<'a>(member: &Member<'_, 'a>) -> Option<Key<'a>>
    ensures { IfSome result (λ key. key_of member.now.class member.now.member.member ≡ Some (key_now key)) }
{
    let name = member.name()?;
    let descriptor = member.descriptor()?;
    if name.len() > LONGEST_TEXT || descriptor.len() > LONGEST_TEXT {
        return None;
    }
    Some((name, descriptor))
}

fn has_key(keys: &[Key], key: Key) -> bool
    ensures { result ≡ list_any (λ earlier. same_key (key_now key.entry) (key_now earlier)) keys.now }
{
    let (name, descriptor) = key;
    keys.iter()
        .any(|earlier| name == earlier.0 && descriptor == earlier.1)
}
