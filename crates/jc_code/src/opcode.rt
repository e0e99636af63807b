//! Opcodes: their mnemonics, and their kinds of operands (JVMS 6.5, 7).

ghost use Rattle.std.specs.Prelude.{◌≡◌, ◌<◌, Some, length, map, slice_get};
ghost use Rattle.jc_code.specs.Opcodes.{opcode_at, opcodes, mnemonic_of, operands_of};
ghost use Rattle.jc_code.specs.inside.Entries.{entry_of};

use std::marker::Model;

/// The kind of an opcode's operands (JVMS 6.5).
#[derive(Clone, Copy)]
pub enum Operands {
    /// No operands.
    Empty,
    /// No operands: the opcode implies the index of a local variable. The variable has 1 or 2 slots.
    ImplicitLocal { index: u16, slots: u16 },
    /// The index of a local variable, in one byte, or in two after `wide`. The variable has 1 or 2 slots.
    Local { slots: u16 },
    /// A signed byte.
    Byte,
    /// A signed number of two bytes.
    Short,
    /// A constant, by an index of one byte.
    ShortLoad,
    /// A constant, by an index of two bytes.
    Load,
    /// The index of a local variable and a signed number, of one byte each, or of two after `wide`.
    Increment,
    /// A signed offset of two bytes.
    Branch,
    /// A signed offset of four bytes.
    WideBranch,
    /// A pad of 0 to 3 bytes, a default offset, the lowest and the highest value, and an offset for each value.
    TableSwitch,
    /// A pad of 0 to 3 bytes, a default offset, and a counted list of pairs of a value and an offset.
    LookupSwitch,
    /// A field, by its index.
    Field,
    /// A method, by its index.
    Invoke,
    /// A method, by its index, a count and a byte.
    InvokeInterface,
    /// A call site, by its index, and two bytes.
    InvokeDynamic,
    /// A class, by its index.
    Type,
    /// A byte, which is the number of a primitive type.
    NewArray,
    /// A class, by its index, and a number of dimensions.
    MultiNewArray,
    /// An opcode and its operands in their wide form.
    Wide,
}

/// An opcode of the instruction set: a number from 0 to 201.
#[derive(Clone, Copy, PartialEq, Eq)]
pub struct Opcode {
    number: u8,
}

impl Model for Opcode {
    ghost use Rattle.std.specs.Prelude.{◌<◌, ℕ};

    ghost Value = { ℕ };

    ghost view = { λ o. o.number };

    ghost inverse = { λ n. record { number = n } };

    ghost invariant = { λ o. o.number < 202 };
}

/// A row of the table of opcodes: the mnemonic, and the kind of operands.
#[derive(Clone, Copy)]
struct Entry(&'static str, Operands);

impl Opcode {
    pub const BIPUSH: Opcode = Opcode { number: 16 };

    pub const LDC2_W: Opcode = Opcode { number: 20 };

    pub const IINC: Opcode = Opcode { number: 132 };

    pub const JSR: Opcode = Opcode { number: 168 };

    pub const TABLESWITCH: Opcode = Opcode { number: 170 };

    pub const LOOKUPSWITCH: Opcode = Opcode { number: 171 };

    pub const GETSTATIC: Opcode = Opcode { number: 178 };

    pub const PUTSTATIC: Opcode = Opcode { number: 179 };

    pub const GETFIELD: Opcode = Opcode { number: 180 };

    pub const PUTFIELD: Opcode = Opcode { number: 181 };

    pub const INVOKEVIRTUAL: Opcode = Opcode { number: 182 };

    pub const INVOKESPECIAL: Opcode = Opcode { number: 183 };

    pub const INVOKESTATIC: Opcode = Opcode { number: 184 };

    pub const INVOKEINTERFACE: Opcode = Opcode { number: 185 };

    pub const INVOKEDYNAMIC: Opcode = Opcode { number: 186 };

    pub const NEW: Opcode = Opcode { number: 187 };

    pub const NEWARRAY: Opcode = Opcode { number: 188 };

    pub const ANEWARRAY: Opcode = Opcode { number: 189 };

    pub const WIDE: Opcode = Opcode { number: 196 };

    pub const MULTIANEWARRAY: Opcode = Opcode { number: 197 };

    pub const JSR_W: Opcode = Opcode { number: 201 };

    /// Returns the opcode with this number, or `None` if the number is above 201.
    pub fn new(number: u8) -> Option<Opcode>
        ensures { result ≡ opcode_at number }
    {
        if number as usize >= OPCODES.len() {
            return None;
        }
        Some(Opcode { number })
    }

    /// Returns the number of the opcode.
    pub fn number(self) -> u8
        ensures { result ≡ self }
    {
        self.number
    }

    /// Returns the mnemonic of the opcode.
    pub fn mnemonic(self) -> &'static str
        ensures { Some result.now ≡ mnemonic_of self }
    {
        self.entry().0
    }

    /// Returns the kind of operands of the opcode.
    pub fn operands(self) -> Operands
        ensures { Some result ≡ operands_of self }
    {
        self.entry().1
    }

    fn entry(self) -> &'static Entry
        ensures { Some (entry_of result.now) ≡ slice_get opcodes self }
    {
        row(&OPCODES, self.number)
    }
}

/// Returns the row of a number in a table.
fn row<'a>(rows: &'a [Entry], number: u8) -> &'a Entry
    requires { number < length rows.now }
    ensures { Some (entry_of result.now) ≡ slice_get (map entry_of rows.now) number }
{
    &rows[number as usize]
}

/// The opcodes, by number.
static OPCODES: [Entry; 202] = [
    Entry("nop", Operands::Empty),
    Entry("aconst_null", Operands::Empty),
    Entry("iconst_m1", Operands::Empty),
    Entry("iconst_0", Operands::Empty),
    Entry("iconst_1", Operands::Empty),
    Entry("iconst_2", Operands::Empty),
    Entry("iconst_3", Operands::Empty),
    Entry("iconst_4", Operands::Empty),
    Entry("iconst_5", Operands::Empty),
    Entry("lconst_0", Operands::Empty),
    Entry("lconst_1", Operands::Empty),
    Entry("fconst_0", Operands::Empty),
    Entry("fconst_1", Operands::Empty),
    Entry("fconst_2", Operands::Empty),
    Entry("dconst_0", Operands::Empty),
    Entry("dconst_1", Operands::Empty),
    Entry("bipush", Operands::Byte),
    Entry("sipush", Operands::Short),
    Entry("ldc", Operands::ShortLoad),
    Entry("ldc_w", Operands::Load),
    Entry("ldc2_w", Operands::Load),
    Entry("iload", Operands::Local { slots: 1 }),
    Entry("lload", Operands::Local { slots: 2 }),
    Entry("fload", Operands::Local { slots: 1 }),
    Entry("dload", Operands::Local { slots: 2 }),
    Entry("aload", Operands::Local { slots: 1 }),
    Entry("iload_0", Operands::ImplicitLocal { index: 0, slots: 1 }),
    Entry("iload_1", Operands::ImplicitLocal { index: 1, slots: 1 }),
    Entry("iload_2", Operands::ImplicitLocal { index: 2, slots: 1 }),
    Entry("iload_3", Operands::ImplicitLocal { index: 3, slots: 1 }),
    Entry("lload_0", Operands::ImplicitLocal { index: 0, slots: 2 }),
    Entry("lload_1", Operands::ImplicitLocal { index: 1, slots: 2 }),
    Entry("lload_2", Operands::ImplicitLocal { index: 2, slots: 2 }),
    Entry("lload_3", Operands::ImplicitLocal { index: 3, slots: 2 }),
    Entry("fload_0", Operands::ImplicitLocal { index: 0, slots: 1 }),
    Entry("fload_1", Operands::ImplicitLocal { index: 1, slots: 1 }),
    Entry("fload_2", Operands::ImplicitLocal { index: 2, slots: 1 }),
    Entry("fload_3", Operands::ImplicitLocal { index: 3, slots: 1 }),
    Entry("dload_0", Operands::ImplicitLocal { index: 0, slots: 2 }),
    Entry("dload_1", Operands::ImplicitLocal { index: 1, slots: 2 }),
    Entry("dload_2", Operands::ImplicitLocal { index: 2, slots: 2 }),
    Entry("dload_3", Operands::ImplicitLocal { index: 3, slots: 2 }),
    Entry("aload_0", Operands::ImplicitLocal { index: 0, slots: 1 }),
    Entry("aload_1", Operands::ImplicitLocal { index: 1, slots: 1 }),
    Entry("aload_2", Operands::ImplicitLocal { index: 2, slots: 1 }),
    Entry("aload_3", Operands::ImplicitLocal { index: 3, slots: 1 }),
    Entry("iaload", Operands::Empty),
    Entry("laload", Operands::Empty),
    Entry("faload", Operands::Empty),
    Entry("daload", Operands::Empty),
    Entry("aaload", Operands::Empty),
    Entry("baload", Operands::Empty),
    Entry("caload", Operands::Empty),
    Entry("saload", Operands::Empty),
    Entry("istore", Operands::Local { slots: 1 }),
    Entry("lstore", Operands::Local { slots: 2 }),
    Entry("fstore", Operands::Local { slots: 1 }),
    Entry("dstore", Operands::Local { slots: 2 }),
    Entry("astore", Operands::Local { slots: 1 }),
    Entry("istore_0", Operands::ImplicitLocal { index: 0, slots: 1 }),
    Entry("istore_1", Operands::ImplicitLocal { index: 1, slots: 1 }),
    Entry("istore_2", Operands::ImplicitLocal { index: 2, slots: 1 }),
    Entry("istore_3", Operands::ImplicitLocal { index: 3, slots: 1 }),
    Entry("lstore_0", Operands::ImplicitLocal { index: 0, slots: 2 }),
    Entry("lstore_1", Operands::ImplicitLocal { index: 1, slots: 2 }),
    Entry("lstore_2", Operands::ImplicitLocal { index: 2, slots: 2 }),
    Entry("lstore_3", Operands::ImplicitLocal { index: 3, slots: 2 }),
    Entry("fstore_0", Operands::ImplicitLocal { index: 0, slots: 1 }),
    Entry("fstore_1", Operands::ImplicitLocal { index: 1, slots: 1 }),
    Entry("fstore_2", Operands::ImplicitLocal { index: 2, slots: 1 }),
    Entry("fstore_3", Operands::ImplicitLocal { index: 3, slots: 1 }),
    Entry("dstore_0", Operands::ImplicitLocal { index: 0, slots: 2 }),
    Entry("dstore_1", Operands::ImplicitLocal { index: 1, slots: 2 }),
    Entry("dstore_2", Operands::ImplicitLocal { index: 2, slots: 2 }),
    Entry("dstore_3", Operands::ImplicitLocal { index: 3, slots: 2 }),
    Entry("astore_0", Operands::ImplicitLocal { index: 0, slots: 1 }),
    Entry("astore_1", Operands::ImplicitLocal { index: 1, slots: 1 }),
    Entry("astore_2", Operands::ImplicitLocal { index: 2, slots: 1 }),
    Entry("astore_3", Operands::ImplicitLocal { index: 3, slots: 1 }),
    Entry("iastore", Operands::Empty),
    Entry("lastore", Operands::Empty),
    Entry("fastore", Operands::Empty),
    Entry("dastore", Operands::Empty),
    Entry("aastore", Operands::Empty),
    Entry("bastore", Operands::Empty),
    Entry("castore", Operands::Empty),
    Entry("sastore", Operands::Empty),
    Entry("pop", Operands::Empty),
    Entry("pop2", Operands::Empty),
    Entry("dup", Operands::Empty),
    Entry("dup_x1", Operands::Empty),
    Entry("dup_x2", Operands::Empty),
    Entry("dup2", Operands::Empty),
    Entry("dup2_x1", Operands::Empty),
    Entry("dup2_x2", Operands::Empty),
    Entry("swap", Operands::Empty),
    Entry("iadd", Operands::Empty),
    Entry("ladd", Operands::Empty),
    Entry("fadd", Operands::Empty),
    Entry("dadd", Operands::Empty),
    Entry("isub", Operands::Empty),
    Entry("lsub", Operands::Empty),
    Entry("fsub", Operands::Empty),
    Entry("dsub", Operands::Empty),
    Entry("imul", Operands::Empty),
    Entry("lmul", Operands::Empty),
    Entry("fmul", Operands::Empty),
    Entry("dmul", Operands::Empty),
    Entry("idiv", Operands::Empty),
    Entry("ldiv", Operands::Empty),
    Entry("fdiv", Operands::Empty),
    Entry("ddiv", Operands::Empty),
    Entry("irem", Operands::Empty),
    Entry("lrem", Operands::Empty),
    Entry("frem", Operands::Empty),
    Entry("drem", Operands::Empty),
    Entry("ineg", Operands::Empty),
    Entry("lneg", Operands::Empty),
    Entry("fneg", Operands::Empty),
    Entry("dneg", Operands::Empty),
    Entry("ishl", Operands::Empty),
    Entry("lshl", Operands::Empty),
    Entry("ishr", Operands::Empty),
    Entry("lshr", Operands::Empty),
    Entry("iushr", Operands::Empty),
    Entry("lushr", Operands::Empty),
    Entry("iand", Operands::Empty),
    Entry("land", Operands::Empty),
    Entry("ior", Operands::Empty),
    Entry("lor", Operands::Empty),
    Entry("ixor", Operands::Empty),
    Entry("lxor", Operands::Empty),
    Entry("iinc", Operands::Increment),
    Entry("i2l", Operands::Empty),
    Entry("i2f", Operands::Empty),
    Entry("i2d", Operands::Empty),
    Entry("l2i", Operands::Empty),
    Entry("l2f", Operands::Empty),
    Entry("l2d", Operands::Empty),
    Entry("f2i", Operands::Empty),
    Entry("f2l", Operands::Empty),
    Entry("f2d", Operands::Empty),
    Entry("d2i", Operands::Empty),
    Entry("d2l", Operands::Empty),
    Entry("d2f", Operands::Empty),
    Entry("i2b", Operands::Empty),
    Entry("i2c", Operands::Empty),
    Entry("i2s", Operands::Empty),
    Entry("lcmp", Operands::Empty),
    Entry("fcmpl", Operands::Empty),
    Entry("fcmpg", Operands::Empty),
    Entry("dcmpl", Operands::Empty),
    Entry("dcmpg", Operands::Empty),
    Entry("ifeq", Operands::Branch),
    Entry("ifne", Operands::Branch),
    Entry("iflt", Operands::Branch),
    Entry("ifge", Operands::Branch),
    Entry("ifgt", Operands::Branch),
    Entry("ifle", Operands::Branch),
    Entry("if_icmpeq", Operands::Branch),
    Entry("if_icmpne", Operands::Branch),
    Entry("if_icmplt", Operands::Branch),
    Entry("if_icmpge", Operands::Branch),
    Entry("if_icmpgt", Operands::Branch),
    Entry("if_icmple", Operands::Branch),
    Entry("if_acmpeq", Operands::Branch),
    Entry("if_acmpne", Operands::Branch),
    Entry("goto", Operands::Branch),
    Entry("jsr", Operands::Branch),
    Entry("ret", Operands::Local { slots: 1 }),
    Entry("tableswitch", Operands::TableSwitch),
    Entry("lookupswitch", Operands::LookupSwitch),
    Entry("ireturn", Operands::Empty),
    Entry("lreturn", Operands::Empty),
    Entry("freturn", Operands::Empty),
    Entry("dreturn", Operands::Empty),
    Entry("areturn", Operands::Empty),
    Entry("return", Operands::Empty),
    Entry("getstatic", Operands::Field),
    Entry("putstatic", Operands::Field),
    Entry("getfield", Operands::Field),
    Entry("putfield", Operands::Field),
    Entry("invokevirtual", Operands::Invoke),
    Entry("invokespecial", Operands::Invoke),
    Entry("invokestatic", Operands::Invoke),
    Entry("invokeinterface", Operands::InvokeInterface),
    Entry("invokedynamic", Operands::InvokeDynamic),
    Entry("new", Operands::Type),
    Entry("newarray", Operands::NewArray),
    Entry("anewarray", Operands::Type),
    Entry("arraylength", Operands::Empty),
    Entry("athrow", Operands::Empty),
    Entry("checkcast", Operands::Type),
    Entry("instanceof", Operands::Type),
    Entry("monitorenter", Operands::Empty),
    Entry("monitorexit", Operands::Empty),
    Entry("wide", Operands::Wide),
    Entry("multianewarray", Operands::MultiNewArray),
    Entry("ifnull", Operands::Branch),
    Entry("ifnonnull", Operands::Branch),
    Entry("goto_w", Operands::WideBranch),
    Entry("jsr_w", Operands::WideBranch),
];
