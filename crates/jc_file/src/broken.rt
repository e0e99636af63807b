//! Lists of the rules that are broken at each place.

ghost use Rattle.std.specs.Prelude.{◌≡◌, ◌++◌, [], ◌∷◌, cond, map, OnOk};
ghost use Rattle.jc_file.specs.Faults.{fault_at};
ghost use Rattle.jc_file.specs.inside.Broken.{AddsPlaces, places_in};
ghost use Rattle.jc_file.specs.inside.RuleSets.{has};

use crate::fault::{Fault, FormatRule};
use crate::rule_set::RuleSet;
use jc_base::NoMemory;

/// The rules that are broken at a place. The meaning of the place depends on the rule, as in a [`Fault`].
#[derive(Clone, Copy)]
pub(crate) struct Broken {
    pub(crate) place: usize,
    pub(crate) rules: RuleSet,
}

/// Adds the rules that are broken at a place, if there are any.
pub(crate) fn add_broken(
    broken: &mut Vec<Broken>,
    place: usize,
    rules: RuleSet,
) -> Result<(), NoMemory>
    ensures { OnOk result (AddsPlaces (λ rule. cond (has rules rule) (place ∷ []) []) broken.old.items broken.new.items) }
{
    if !rules.is_empty() {
        broken.push(Broken { place, rules })?;
    }
    Ok(())
}

/// Adds the faults against a rule.
pub(crate) fn add_faults(
    faults: &mut Vec<Fault>,
    broken: &[Broken],
    rule: FormatRule,
) -> Result<(), NoMemory>
    ensures { OnOk result (faults.new.items ≡ faults.old.items ++ map (fault_at rule) (places_in rule broken.now)) }
{
    for at in broken {
        add_if(faults, at.rules.has(rule), rule, at.place)?;
    }
    Ok(())
}

/// Adds a fault if the rule is broken.
pub(crate) fn add_if(
    faults: &mut Vec<Fault>,
    is_broken: bool,
    rule: FormatRule,
    place: usize,
) -> Result<(), NoMemory>
    ensures { OnOk result (faults.new.items ≡ faults.old.items ++ cond is_broken (fault_at rule place ∷ []) []) }
{
    if is_broken {
        faults.push(Fault { rule, place })?;
    }
    Ok(())
}
