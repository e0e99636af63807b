//! The format faults of a class file (JVMS 4.1 to 4.8).

ghost use Rattle.std.specs.Prelude.{◌↔◌, ◌≡◌, IfOk, map};
ghost use Rattle.std.specs.List.{Contains, flat_map};
ghost use Rattle.std.specs.List.Sorted.{IsStrictlySortedBy};
ghost use Rattle.jc_file.specs.declared.fault.Fault.{Fault};
ghost use Rattle.jc_file.specs.declared.fault.FormatRule.{FormatRule};
ghost use Rattle.jc_file.specs.declared.fault.TheConstants.FormatRule.{ALL};
ghost use Rattle.jc_file.specs.FaultOrder.{fault_cmp};
ghost use Rattle.jc_file.specs.Faults.{fault_at, faults, places};
ghost use Rattle.jc_file.specs.Violations.{Violates};
ghost use Rattle.jc_file.specs.inside.Broken.{places_in};

use crate::attributes::add_with_inner;
use crate::broken::{Broken, add_broken, add_faults};
use crate::classes::class_rules;
use crate::fault::{Fault, FormatRule};
use crate::fault_laws::{faults_are_exact, faults_are_violations};
use crate::repeats::add_repeats;
use crate::tables::{add_constants, add_fields, add_interfaces, add_methods};
use crate::texts::Texts;
use jc_base::NoMemory;
use jc_view::ClassView;
use std::alloc::Global;

/// Returns the format faults of a class file, sorted by rule, then by place.
///
/// Returns `NoMemory` only when an allocation fails. Each constant, member and attribute is judged once.
pub fn format_faults(alloc: Global, class: &ClassView) -> Result<Vec<Fault>, NoMemory>
    ensures listed { IfOk result (λ found. found.items ≡ faults class.now) }
    ensures violated { IfOk result (λ found. (fault : Fault)
        → Contains found.items fault ↔ Violates fault.rule class.now fault.place) }
    ensures rising { IfOk result (λ found. IsStrictlySortedBy fault_cmp found.items) }
{
    let _file = class.bytes();
    faults_are_exact();
    faults_are_violations();
    find_faults(alloc, class)
}

/// Finds the broken rules in one pass over the constants, members and attributes, then lists the faults by rule.
fn find_faults(alloc: Global, class: &ClassView) -> Result<Vec<Fault>, NoMemory>
    ensures { IfOk result (λ found. found.items ≡ faults class.now) }
{
    let broken = broken_rules(alloc, class)?;
    list_faults(alloc, &broken)
}

/// Returns the rules that are broken at each place.
fn broken_rules(alloc: Global, class: &ClassView) -> Result<Vec<Broken>, NoMemory>
    ensures { IfOk result (λ broken. (rule : FormatRule) → places_in rule broken.items ≡ places class.now rule) }
{
    let mut broken = Vec::new(alloc);
    let mut attributes = Vec::new(alloc);
    let mut texts = Texts::new(alloc, class)?;
    add_broken(&mut broken, 0, class_rules(class))?;
    add_constants(&mut broken, &mut texts)?;
    add_interfaces(&mut broken, &mut texts)?;
    add_fields(&mut broken, &mut attributes, &mut texts)?;
    add_methods(&mut broken, &mut attributes, &mut texts)?;
    add_repeats(alloc, &mut broken, class)?;
    add_with_inner(&mut attributes, class.attributes())?;
    broken.extend_from_slice(&attributes)?;
    Ok(broken)
}

/// Returns the faults, sorted by rule, then by place.
fn list_faults(alloc: Global, broken: &[Broken]) -> Result<Vec<Fault>, NoMemory>
    ensures { IfOk result (λ found. found.items ≡ flat_map (λ rule. map (fault_at rule) (places_in rule broken.now)) ALL) }
{
    let mut faults = Vec::new(alloc);
    if broken.is_empty() {
        return Ok(faults);
    }
    for rule in FormatRule::ALL {
        add_faults(&mut faults, broken, rule)?;
    }
    Ok(faults)
}
