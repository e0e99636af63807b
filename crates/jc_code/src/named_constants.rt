//! The constants that the code of a method names (JVMS 4.7.3, 6.5).

ghost use Rattle.std.specs.Prelude.{◌≡◌, ◌++◌, map, OnErr, OnOk};
ghost use Rattle.std.specs.Option.{option_to_list};
ghost use Rattle.jc_code.specs.NamedConstants.{named_by_insn};
ghost use Rattle.jc_code.specs.inside.Fronts.{BeginsWith};

use crate::insn::Insn;
use jc_base::NoMemory;
use jc_view::{Code, ConstantIndex};

/// Adds the constant that an instruction names, if it names one.
pub(crate) fn push_named(names: &mut Vec<ConstantIndex>, insn: &Insn) -> Result<(), NoMemory>
    ensures ok { OnOk result (names.new.items ≡ names.old.items ++ option_to_list (named_by_insn insn.now)) }
    ensures err { OnErr result (names.new.items ≡ names.old.items) }
{
    if let Some(index) = named_by_insn(insn) {
        names.push(index)?;
    }
    Ok(())
}

/// Returns the constant that an instruction names, if it names one.
fn named_by_insn(insn: &Insn) -> Option<ConstantIndex>
    ensures { result ≡ named_by_insn insn.now }
{
    match insn {
        Insn::Ldc { index, .. }
        | Insn::Field { index, .. }
        | Insn::Invoke { index, .. }
        | Insn::InvokeInterface { index, .. }
        | Insn::InvokeDynamic { index, .. }
        | Insn::Type { index, .. }
        | Insn::MultiNewArray { index, .. } => Some(*index),
        _ => None,
    }
}

/// Adds the classes that the handlers of a code catch.
pub(crate) fn push_catch_types(names: &mut Vec<ConstantIndex>, code: &Code) -> Result<(), NoMemory>
    ensures ok { OnOk result (names.new.items ≡ names.old.items ++ map (λ h. h.catch_type) code.now.code.handlers) }
    ensures kept { BeginsWith names.new.items names.old.items }
{
    for handler in code.handlers() {
        names.push(handler.catch_type)?;
    }
    Ok(())
}
