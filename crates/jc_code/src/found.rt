//! Faults in the order in which they are found.

ghost use Rattle.std.specs.Prelude.{◌≡◌, ◌++◌, [], ◌∷◌, cond, IfOk, OnOk};
ghost use Rattle.jc_code.specs.CodeFaults.{fault_at};
ghost use Rattle.jc_code.specs.inside.Found.{against, by_rule};

use crate::code_fault::{CodeFault, CodeRule};
use jc_base::NoMemory;
use std::alloc::Global;

/// Adds a fault if its rule is broken.
pub(crate) fn add_if(
    found: &mut Vec<CodeFault>,
    is_broken: bool,
    rule: CodeRule,
    place: u32,
) -> Result<(), NoMemory>
    ensures { OnOk result (found.new.items ≡ found.old.items ++ cond is_broken (fault_at rule place ∷ []) []) }
{
    if is_broken {
        found.push(CodeFault { rule, place })?;
    }
    Ok(())
}

/// Returns the faults in the order of their rules. Those against one rule stay in their order.
pub(crate) fn by_rule(alloc: Global, found: &[CodeFault]) -> Result<Vec<CodeFault>, NoMemory>
    ensures { IfOk result (λ faults. faults.items ≡ by_rule found.now) }
{
    let mut faults = Vec::new(alloc);
    if found.is_empty() {
        return Ok(faults);
    }
    for rule in CodeRule::ALL {
        add_against(&mut faults, found, rule)?;
    }
    Ok(faults)
}

/// Adds the faults against a rule.
fn add_against(
    faults: &mut Vec<CodeFault>,
    found: &[CodeFault],
    rule: CodeRule,
) -> Result<(), NoMemory>
    ensures { OnOk result (faults.new.items ≡ faults.old.items ++ against rule found.now) }
{
    for fault in found {
        add_if(
            faults,
            fault.rule.number() == rule.number(),
            fault.rule,
            fault.place,
        )?;
    }
    Ok(())
}
