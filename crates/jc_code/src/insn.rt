//! Instructions (JVMS 6.5).

ghost use Rattle.std.specs.Prelude.{◌≡◌, Some};
ghost use Rattle.jc_code.specs.Opcodes.{mnemonic_of};
ghost use Rattle.jc_code.specs.Insns.{opcode_of, field_use, invoke_use, link_use};

use crate::opcode::Opcode;
use crate::switch::{LookupSwitch, TableSwitch};
use jc_view::ConstantIndex;

/// An instruction and its operands.
///
/// A target is an offset from the start of the code. It can be negative or past the end of the code.
#[derive(Drop)]
pub enum Insn<'a> {
    /// An instruction without operands, such as `nop`, `iload_0` or `return`.
    Plain {
        opcode: Opcode,
    },
    /// `bipush` and `sipush`.
    Push {
        opcode: Opcode,
        value: i16,
    },
    /// `ldc`, `ldc_w` and `ldc2_w`.
    Ldc {
        opcode: Opcode,
        index: ConstantIndex,
    },
    /// A load, a store or `ret` with the index of a local variable as an operand, `wide` or not.
    Local {
        opcode: Opcode,
        index: u16,
        wide: bool,
    },
    /// `iinc`, `wide` or not.
    Increment {
        index: u16,
        amount: i16,
        wide: bool,
    },
    /// A jump, conditional or not, and `jsr`. The offset has two bytes or four.
    Branch {
        opcode: Opcode,
        target: i64,
    },
    TableSwitch(TableSwitch<'a>),
    LookupSwitch(LookupSwitch<'a>),
    /// `getstatic`, `putstatic`, `getfield` and `putfield`.
    Field {
        opcode: Opcode,
        index: ConstantIndex,
    },
    /// `invokevirtual`, `invokespecial` and `invokestatic`.
    Invoke {
        opcode: Opcode,
        index: ConstantIndex,
    },
    /// `invokeinterface`. `count` must be the number of slots of its receiver and its arguments, and `last` must be 0.
    InvokeInterface {
        index: ConstantIndex,
        count: u8,
        last: u8,
    },
    /// `invokedynamic`. `last` has the last two bytes, which must be 0.
    InvokeDynamic {
        index: ConstantIndex,
        last: u16,
    },
    /// `new`, `anewarray`, `checkcast` and `instanceof`.
    Type {
        opcode: Opcode,
        index: ConstantIndex,
    },
    /// `newarray`, and the number of a primitive type (JVMS 6.5, table 6.5.newarray-A).
    NewArray {
        element: u8,
    },
    /// `multianewarray`.
    MultiNewArray {
        index: ConstantIndex,
        dimensions: u8,
    },
}

/// A kind of instruction that may fail to link although its reference resolves (JVMS 6.5).
#[derive(Clone, Copy, PartialEq, Eq)]
pub enum LinkKind {
    GetStatic,
    PutStatic,
    GetField,
    PutField,
    InvokeVirtual,
    InvokeSpecial,
    InvokeStatic,
    InvokeInterface,
    New,
}

impl<'a> Insn<'a> {
    /// Returns the opcode. For `wide`, it is the opcode of the widened instruction.
    pub fn opcode(&self) -> Opcode
        ensures { result ≡ opcode_of self.now }
    {
        match self {
            Insn::Plain { opcode }
            | Insn::Push { opcode, .. }
            | Insn::Ldc { opcode, .. }
            | Insn::Local { opcode, .. }
            | Insn::Branch { opcode, .. }
            | Insn::Field { opcode, .. }
            | Insn::Invoke { opcode, .. }
            | Insn::Type { opcode, .. } => *opcode,
            Insn::Increment { .. } => Opcode::IINC,
            Insn::TableSwitch(_) => Opcode::TABLESWITCH,
            Insn::LookupSwitch(_) => Opcode::LOOKUPSWITCH,
            Insn::InvokeInterface { .. } => Opcode::INVOKEINTERFACE,
            Insn::InvokeDynamic { .. } => Opcode::INVOKEDYNAMIC,
            Insn::NewArray { .. } => Opcode::NEWARRAY,
            Insn::MultiNewArray { .. } => Opcode::MULTIANEWARRAY,
        }
    }

    /// Returns the mnemonic. For `wide`, it is the mnemonic of the widened instruction.
    pub fn mnemonic(&self) -> &'static str
        ensures { Some result.now ≡ mnemonic_of (opcode_of self.now) }
    {
        self.opcode().mnemonic()
    }

    /// Returns how the instruction uses the reference that it names, and the index of the reference in the constant
    /// pool.
    ///
    /// Returns `None` if the instruction is of no [`LinkKind`].
    pub fn link_use(&self) -> Option<(LinkKind, u16)>
        ensures { result ≡ link_use self.now }
    {
        match self {
            Insn::Field { opcode, index } => Some((field_use(*opcode)?, index.0)),
            Insn::Invoke { opcode, index } => Some((invoke_use(*opcode)?, index.0)),
            Insn::InvokeInterface { index, .. } => Some((LinkKind::InvokeInterface, index.0)),
            Insn::Type { opcode, index } if *opcode == Opcode::NEW => {
                Some((LinkKind::New, index.0))
            }
            _ => None,
        }
    }
}

/// Returns how an opcode of `Insn::Field` uses the field that it names.
fn field_use(opcode: Opcode) -> Option<LinkKind>
    ensures { result ≡ field_use opcode }
{
    if opcode == Opcode::GETSTATIC {
        Some(LinkKind::GetStatic)
    } else if opcode == Opcode::PUTSTATIC {
        Some(LinkKind::PutStatic)
    } else if opcode == Opcode::GETFIELD {
        Some(LinkKind::GetField)
    } else if opcode == Opcode::PUTFIELD {
        Some(LinkKind::PutField)
    } else {
        None
    }
}

/// Returns how an opcode of `Insn::Invoke` uses the method that it names.
fn invoke_use(opcode: Opcode) -> Option<LinkKind>
    ensures { result ≡ invoke_use opcode }
{
    if opcode == Opcode::INVOKEVIRTUAL {
        Some(LinkKind::InvokeVirtual)
    } else if opcode == Opcode::INVOKESPECIAL {
        Some(LinkKind::InvokeSpecial)
    } else if opcode == Opcode::INVOKESTATIC {
        Some(LinkKind::InvokeStatic)
    } else {
        None
    }
}
