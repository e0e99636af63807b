//! The faults of single instructions (JVMS 4.9.1).

ghost use Rattle.std.specs.Prelude.{◌≡◌, ◌++◌, OnOk};
ghost use Rattle.jc_code.specs.declared.insn.Insn.TheVariants as insns;
ghost use Rattle.jc_code.specs.inside.Found.{insn_faults};

use crate::code_fault::{CodeFault, CodeRule};
use crate::found::add_if;
use crate::insn::Insn;
use crate::opcode::Opcode;
use crate::rules::constants::{
    breaks_s6, breaks_s7, breaks_s8, breaks_s14, breaks_s17, breaks_s18, breaks_s19, breaks_s20,
    breaks_s21, is_bad_special, is_interface_method, is_other_count, is_right_entry,
    is_right_special,
};
use crate::rules::locals::breaks_s22;
use crate::rules::targets::{breaks_s2, breaks_s3, breaks_s5, lookup_breaks_s4, table_breaks_s4};
use crate::scope::Scope;
use crate::switch::LookupSwitch;
use jc_base::NoMemory;
use jc_view::ConstantIndex;

/// Adds the faults of an instruction at a place, by rule.
#[tactic(auto, unfolding(crate::specs::CodeFaults::insn_breaks))]
pub(crate) fn add_insn_faults(
    found: &mut Vec<CodeFault>,
    scope: &Scope,
    place: u32,
    insn: &Insn,
) -> Result<(), NoMemory>
    ensures { OnOk result (found.new.items ≡ found.old.items ++ insn_faults scope.now (place, insn.now)) }
{
    match insn {
        Insn::Push { .. } => Ok(()),
        Insn::Plain { .. } | Insn::Local { .. } | Insn::Increment { .. } => {
            add_if(found, breaks_s22(scope, insn), CodeRule::S22, place)
        }
        Insn::Branch { opcode, target } => add_branch(found, scope, place, *opcode, *target),
        Insn::TableSwitch(switch) => {
            add_if(found, table_breaks_s4(scope, switch), CodeRule::S4, place)
        }
        Insn::LookupSwitch(switch) => add_lookup_switch(found, scope, place, switch),
        Insn::Ldc { opcode, index } => add_ldc(found, scope, place, *opcode, *index),
        Insn::Field { index, .. } => {
            add_if(found, breaks_s8(scope, *index), CodeRule::S8, place)
        }
        Insn::Invoke { opcode, index } => add_invoke(found, scope, place, *opcode, *index),
        Insn::InvokeInterface { index, count, last } => {
            add_invoke_interface(found, scope, place, *index, *count, *last)
        }
        Insn::InvokeDynamic { index, last } => {
            add_invoke_dynamic(found, scope, place, *index, *last)
        }
        Insn::Type { opcode, index } => add_type(found, scope, place, *opcode, *index),
        Insn::MultiNewArray { index, dimensions } => {
            add_multi_new_array(found, scope, place, *index, *dimensions)
        }
        Insn::NewArray { element } => { add_if(found, breaks_s21(*element), CodeRule::S21, place) }
    }
}

fn add_branch(
    found: &mut Vec<CodeFault>,
    scope: &Scope,
    place: u32,
    opcode: Opcode,
    target: i64,
) -> Result<(), NoMemory>
    ensures { OnOk result (found.new.items ≡ found.old.items ++ insn_faults scope.now (place, insns.Branch opcode target)) }
{
    add_if(found, breaks_s2(opcode), CodeRule::S2, place)?;
    add_if(found, breaks_s3(scope, target), CodeRule::S3, place)
}

fn add_lookup_switch(
    found: &mut Vec<CodeFault>,
    scope: &Scope,
    place: u32,
    switch: &LookupSwitch,
) -> Result<(), NoMemory>
    ensures { OnOk result (found.new.items ≡ found.old.items ++ insn_faults scope.now (place, insns.LookupSwitch switch.now)) }
{
    add_if(found, lookup_breaks_s4(scope, switch), CodeRule::S4, place)?;
    add_if(found, breaks_s5(switch), CodeRule::S5, place)
}

fn add_ldc(
    found: &mut Vec<CodeFault>,
    scope: &Scope,
    place: u32,
    opcode: Opcode,
    index: ConstantIndex,
) -> Result<(), NoMemory>
    ensures { OnOk result (found.new.items ≡ found.old.items ++ insn_faults scope.now (place, insns.Ldc opcode index)) }
{
    add_if(found, breaks_s6(scope, opcode, index), CodeRule::S6, place)?;
    add_if(found, breaks_s7(scope, opcode, index), CodeRule::S7, place)
}

fn add_invoke(
    found: &mut Vec<CodeFault>,
    scope: &Scope,
    place: u32,
    opcode: Opcode,
    index: ConstantIndex,
) -> Result<(), NoMemory>
    ensures { OnOk result (found.new.items ≡ found.old.items ++ insn_faults scope.now (place, insns.Invoke opcode index)) }
{
    if is_right_entry(scope, opcode, index) {
        let is_bad = is_bad_special(scope, opcode, index);
        return add_if(found, is_bad, CodeRule::S16, place);
    }
    if opcode == Opcode::INVOKEVIRTUAL {
        return add_if(found, true, CodeRule::S9, place);
    }
    add_if(found, true, CodeRule::S10, place)
}

fn add_invoke_interface(
    found: &mut Vec<CodeFault>,
    scope: &Scope,
    place: u32,
    index: ConstantIndex,
    count: u8,
    last: u8,
) -> Result<(), NoMemory>
    ensures { OnOk result (found.new.items ≡ found.old.items ++ insn_faults scope.now (place, insns.InvokeInterface index count last)) }
{
    let is_right = is_interface_method(scope, index);
    add_if(found, !is_right, CodeRule::S11, place)?;
    add_if(
        found,
        is_other_count(scope, index, count),
        CodeRule::S12,
        place,
    )?;
    add_if(found, last != 0, CodeRule::S13, place)?;
    add_if(
        found,
        is_right_special(scope, is_right, index),
        CodeRule::S16,
        place,
    )
}

fn add_invoke_dynamic(
    found: &mut Vec<CodeFault>,
    scope: &Scope,
    place: u32,
    index: ConstantIndex,
    last: u16,
) -> Result<(), NoMemory>
    ensures { OnOk result (found.new.items ≡ found.old.items ++ insn_faults scope.now (place, insns.InvokeDynamic index last)) }
{
    add_if(found, breaks_s14(scope, index), CodeRule::S14, place)?;
    add_if(found, last != 0, CodeRule::S15, place)
}

fn add_type(
    found: &mut Vec<CodeFault>,
    scope: &Scope,
    place: u32,
    opcode: Opcode,
    index: ConstantIndex,
) -> Result<(), NoMemory>
    ensures { OnOk result (found.new.items ≡ found.old.items ++ insn_faults scope.now (place, insns.Type opcode index)) }
{
    add_if(found, breaks_s17(scope, index), CodeRule::S17, place)?;
    add_if(
        found,
        breaks_s18(scope, opcode, index),
        CodeRule::S18,
        place,
    )?;
    add_if(
        found,
        breaks_s19(scope, opcode, index),
        CodeRule::S19,
        place,
    )
}

fn add_multi_new_array(
    found: &mut Vec<CodeFault>,
    scope: &Scope,
    place: u32,
    index: ConstantIndex,
    dimensions: u8,
) -> Result<(), NoMemory>
    ensures { OnOk result (found.new.items ≡ found.old.items ++ insn_faults scope.now (place, insns.MultiNewArray index dimensions)) }
{
    add_if(found, breaks_s17(scope, index), CodeRule::S17, place)?;
    add_if(
        found,
        breaks_s20(scope, index, dimensions),
        CodeRule::S20,
        place,
    )
}
