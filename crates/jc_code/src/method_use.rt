//! How the instructions of methods use the references that they name (JVMS 6.5).

ghost use Rattle.std.specs.Prelude.{◌≡◌, ◌++◌, OnErr, OnOk};
ghost use Rattle.std.specs.Option.{option_to_list};
ghost use Rattle.jc_code.specs.MethodUses.{use_at};

use crate::insn::{Insn, LinkKind};
use jc_base::NoMemory;

/// An instruction that may fail to link although its reference resolves.
#[derive(Clone, Copy, PartialEq, Eq)]
pub struct MethodUse {
    /// The number of the method that contains the instruction.
    pub method: u16,
    /// The offset of the instruction from the start of the code.
    pub place: u16,
    pub kind: LinkKind,
    /// The index of the constant that is the reference.
    pub index: u16,
}

/// Adds the use of a reference by an instruction, if it may fail to link.
pub(crate) fn push_use(
    uses: &mut Vec<MethodUse>,
    method: u16,
    place: u16,
    insn: &Insn,
) -> Result<(), NoMemory>
    ensures ok { OnOk result (uses.new.items ≡ uses.old.items ++ option_to_list (use_at method (place, insn.now))) }
    ensures err { OnErr result (uses.new.items ≡ uses.old.items) }
{
    if let Some((kind, index)) = insn.link_use() {
        uses.push(MethodUse {
            method,
            place,
            kind,
            index,
        })?;
    }
    Ok(())
}
