//! The static constraints of code, and faults against them (JVMS 4.7.3, 4.9.1).

ghost use Rattle.std.specs.Prelude.{◌≡◌};
ghost use Rattle.jc_code.specs.CodeFaultOrder.{rule_number};

/// A static constraint of a method's code.
///
/// If a constant or its text is missing or of the wrong kind, only the rules that require it are
/// broken.
#[derive(Clone, Copy, PartialEq, Eq)]
pub enum CodeRule {
    /// The code consists of instructions, from its first byte to its last (JVMS 4.9.1).
    S1,
    /// There is no `jsr` and no `jsr_w` (JVMS 4.9.1).
    S2,
    /// The target of a branch is an instruction of the method (JVMS 4.9.1).
    S3,
    /// Each target of a switch is an instruction of the method (JVMS 4.9.1).
    S4,
    /// The match values of a `lookupswitch` are in strictly ascending order (JVMS 6.5, lookupswitch).
    S5,
    /// `ldc` and `ldc_w` load an `Integer`, a `Float`, a `String`, a `Class`, a `MethodType` or a
    /// `MethodHandle` (JVMS 4.9.1).
    S6,
    /// `ldc2_w` loads a `Long` or a `Double` (JVMS 4.9.1).
    S7,
    /// `getfield`, `putfield`, `getstatic` and `putstatic` name a `Fieldref` (JVMS 4.9.1).
    S8,
    /// `invokevirtual` names a `Methodref` (JVMS 4.9.1).
    S9,
    /// `invokespecial` and `invokestatic` name a `Methodref` or, from version 52 on, an
    /// `InterfaceMethodref` (JVMS 4.9.1).
    S10,
    /// `invokeinterface` names an `InterfaceMethodref` (JVMS 4.9.1).
    S11,
    /// The count of `invokeinterface` is the number of slots of the descriptor's parameters and of the
    /// receiver (JVMS 4.9.1).
    S12,
    /// The last byte of `invokeinterface` is 0 (JVMS 4.9.1).
    S13,
    /// `invokedynamic` names an `InvokeDynamic` (JVMS 4.9.1).
    S14,
    /// The last two bytes of `invokedynamic` are 0 (JVMS 4.9.1).
    S15,
    /// Only `invokespecial` invokes `<init>`, and no instruction invokes another method whose name
    /// begins with `<` (JVMS 4.9.1).
    S16,
    /// `new`, `anewarray`, `checkcast`, `instanceof` and `multianewarray` name a `Class` (JVMS 4.9.1).
    S17,
    /// `new` does not create an array (JVMS 4.9.1).
    S18,
    /// `anewarray` does not create an array of more than 255 dimensions (JVMS 4.9.1).
    S19,
    /// `multianewarray` creates at least one dimension, and no more than the class has (JVMS 4.9.1).
    S20,
    /// The `atype` of `newarray` is the number of a primitive type, 4 to 11 (JVMS 4.9.1).
    S21,
    /// The index of a local variable is below `max_locals`. A `long` or a `double` takes this index
    /// and the next, and both are below `max_locals` (JVMS 4.9.1).
    S22,
    /// A handler's range is from one instruction to a later one or to the end of the code, and its
    /// `handler_pc` is an instruction (JVMS 4.7.3).
    S23,
    /// The `catch_type` of a handler is 0 or the index of a `Class` (JVMS 4.7.3).
    S24,
}

impl CodeRule {
    /// Returns the number of the rule, from 1.
    pub fn number(self) -> u8
        ensures { result ≡ rule_number self }
    {
        match self {
            CodeRule::S1 => 1,
            CodeRule::S2 => 2,
            CodeRule::S3 => 3,
            CodeRule::S4 => 4,
            CodeRule::S5 => 5,
            CodeRule::S6 => 6,
            CodeRule::S7 => 7,
            CodeRule::S8 => 8,
            CodeRule::S9 => 9,
            CodeRule::S10 => 10,
            CodeRule::S11 => 11,
            CodeRule::S12 => 12,
            CodeRule::S13 => 13,
            CodeRule::S14 => 14,
            CodeRule::S15 => 15,
            CodeRule::S16 => 16,
            CodeRule::S17 => 17,
            CodeRule::S18 => 18,
            CodeRule::S19 => 19,
            CodeRule::S20 => 20,
            CodeRule::S21 => 21,
            CodeRule::S22 => 22,
            CodeRule::S23 => 23,
            CodeRule::S24 => 24,
        }
    }

    /// All rules, in ascending order of number.
    pub const ALL: [CodeRule; 24] = [
        CodeRule::S1,
        CodeRule::S2,
        CodeRule::S3,
        CodeRule::S4,
        CodeRule::S5,
        CodeRule::S6,
        CodeRule::S7,
        CodeRule::S8,
        CodeRule::S9,
        CodeRule::S10,
        CodeRule::S11,
        CodeRule::S12,
        CodeRule::S13,
        CodeRule::S14,
        CodeRule::S15,
        CodeRule::S16,
        CodeRule::S17,
        CodeRule::S18,
        CodeRule::S19,
        CodeRule::S20,
        CodeRule::S21,
        CodeRule::S22,
        CodeRule::S23,
        CodeRule::S24,
    ];
}

/// A place where a rule is broken.
///
/// The place is the offset of the instruction. For S1, it is the offset where the instructions end,
/// before the end of the code. For S23 and S24, it is the number of the exception handler, from 0.
#[derive(Clone, Copy, PartialEq, Eq)]
pub struct CodeFault {
    pub rule: CodeRule,
    pub place: u32,
}
