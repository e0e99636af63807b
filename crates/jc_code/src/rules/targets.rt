//! The rules S2 to S5, for branches and switches.

ghost use Rattle.std.specs.Prelude.{◌≡◌, ◌==◌, ◌||◌, map, not};
ghost use Rattle.std.specs.List.{list_all};
ghost use Rattle.jc_code.specs.declared.insn.Insn.TheVariants as insns;
ghost use Rattle.jc_code.specs.CodeRules.{breaks_s4, do_rise, is_target};
ghost use Rattle.jc_code.specs.Insns.{jsr, jsr_w};

use crate::opcode::Opcode;
use crate::scope::Scope;
use crate::switch::{Cases, LookupSwitch, TableSwitch, Targets};

pub(crate) fn breaks_s2(opcode: Opcode) -> bool
    ensures { result ≡ (opcode == jsr || opcode == jsr_w) }
{
    opcode == Opcode::JSR || opcode == Opcode::JSR_W
}

pub(crate) fn breaks_s3(scope: &Scope, target: i64) -> bool
    ensures { result ≡ not (is_target scope.now target) }
{
    !scope.is_target(target)
}

/// Returns whether a target of a `tableswitch` is not the start of an instruction.
pub(crate) fn table_breaks_s4(scope: &Scope, switch: &TableSwitch) -> bool
    ensures { result ≡ breaks_s4 scope.now (insns.TableSwitch switch.now) }
{
    !(scope.is_target(switch.default()) && all_hit(scope, switch.targets()))
}

/// Returns whether a target of a `lookupswitch` is not the start of an instruction.
pub(crate) fn lookup_breaks_s4(scope: &Scope, switch: &LookupSwitch) -> bool
    ensures { result ≡ breaks_s4 scope.now (insns.LookupSwitch switch.now) }
{
    !(scope.is_target(switch.default()) && all_cases_hit(scope, switch.cases()))
}

/// Returns whether each target is the start of an instruction.
fn all_hit(scope: &Scope, targets: Targets) -> bool
    ensures { result ≡ list_all (is_target scope.now) targets.entry.left }
{
    for target in targets {
        if !scope.is_target(target) {
            return false;
        }
    }
    true
}

fn all_cases_hit(scope: &Scope, cases: Cases) -> bool
    ensures { result ≡ list_all (λ case. is_target scope.now case.target) cases.entry.left }
{
    for case in cases {
        if !scope.is_target(case.target) {
            return false;
        }
    }
    true
}

pub(crate) fn breaks_s5(switch: &LookupSwitch) -> bool
    ensures { result ≡ not (do_rise (map (λ case. case.value) switch.now.cases.left)) }
{
    !values_rise(switch.cases())
}

/// Returns whether the values are in strictly ascending order.
fn values_rise(mut cases: Cases) -> bool
    ensures { result ≡ do_rise (map (λ case. case.value) cases.entry.left) }
{
    let Some(first) = cases.next() else {
        return true;
    };
    let mut last = first.value;
    for case in cases {
        if case.value <= last {
            return false;
        }
        last = case.value;
    }
    true
}
