//! The rule over local variables.

ghost use Rattle.std.specs.Prelude.{◌≡◌, ◌<◌, ◌^◌, IfSome};
ghost use Rattle.jc_code.specs.CodeRules.{breaks_s22, local_of};

use crate::insn::Insn;
use crate::opcode::Operands;
use crate::scope::Scope;

pub(crate) fn breaks_s22(scope: &Scope, insn: &Insn) -> bool
    ensures { result ≡ breaks_s22 scope.now insn.now }
{
    match local_of(insn) {
        Some((index, slots)) => {
            u32::from(scope.max_locals) < u32::from(index) + u32::from(slots)
        }
        None => false,
    }
}

/// Returns the local variable that an instruction uses, and its number of slots.
fn local_of(insn: &Insn) -> Option<(u16, u16)>
    ensures { result ≡ local_of insn.now }
{
    match insn {
        Insn::Plain { opcode } => match opcode.operands() {
            Operands::ImplicitLocal { index, slots } => Some((index, slots)),
            _ => None,
        },
        Insn::Local { opcode, index, .. } => match opcode.operands() {
            Operands::Local { slots } => Some((*index, slots)),
            _ => None,
        },
        Insn::Increment { index, .. } => Some((*index, 1)),
        _ => None,
    }
}
