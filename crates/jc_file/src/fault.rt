//! The rules of the class file format, and faults against them (JVMS 4.1 to 4.8).

ghost use Rattle.std.specs.Prelude.{◌≡◌};
ghost use Rattle.jc_file.specs.FaultOrder.{rule_number};

/// A rule of the class file format. If a constant or a text is missing or of the wrong kind, this breaks only the rules
/// that require it.
#[derive(Clone, Copy, PartialEq, Eq)]
pub enum FormatRule {
    /// An index in a constant, other than a `MethodHandle`, names a constant of the right kind (JVMS 4.4).
    F1,
    /// The text of a `Utf8` is modified UTF-8 (JVMS 4.4.7).
    F2,
    /// The text of a `Class` is a class name or an array descriptor (JVMS 4.4.1).
    F3,
    /// The descriptor of a `NameAndType` is a field descriptor or a method descriptor (JVMS 4.4.6).
    F4,
    /// The name of a `NameAndType` fits its descriptor. With a field descriptor it is an unqualified name, and with a
    /// method descriptor a method name (JVMS 4.4.6, 4.2.2).
    F5,
    /// A `Fieldref` has a field descriptor. A `Methodref`, an `InterfaceMethodref` and an `InvokeDynamic` have a method
    /// descriptor (JVMS 4.4.2, 4.4.10).
    F6,
    /// If the name in a `Methodref` begins with `<`, it is `<init>` and the method returns nothing (JVMS 4.4.2).
    F7,
    /// The kind of a `MethodHandle` is 1 to 9, and it refers to a constant that fits its kind (JVMS 4.4.8).
    F8,
    /// A `MethodHandle` of kind 8 names `<init>`. One of kind 5, 6, 7 or 9 names neither `<init>` nor `<clinit>` (JVMS
    /// 4.4.8).
    F9,
    /// The text of a `MethodType` is a method descriptor (JVMS 4.4.9).
    F10,
    /// A class with an `InvokeDynamic` has one `BootstrapMethods`, and the index of the bootstrap method is in its
    /// range (JVMS 4.4.10).
    F11,
    /// The flags of the class are a permitted combination (JVMS 4.1).
    F12,
    /// `java/lang/Object` has no superclass, and every other class has one. The superclass is a `Class` with the name
    /// of a class, and for an interface it is `java/lang/Object` (JVMS 4.1).
    F13,
    /// A direct superinterface is a `Class` with the name of a class (JVMS 4.1).
    F14,
    /// The name of a field is an unqualified name (JVMS 4.5).
    F15,
    /// The descriptor of a field is a field descriptor (JVMS 4.5).
    F16,
    /// The flags of a field are a permitted combination (JVMS 4.5).
    F17,
    /// No earlier field has the same name and descriptor (JVMS 4.5).
    F18,
    /// The name of a method is a method name (JVMS 4.6).
    F19,
    /// The descriptor of a method is a method descriptor. Its parameters and the receiver take at most 255 slots (JVMS
    /// 4.6, 4.3.3).
    F20,
    /// The flags of a method other than `<clinit>` are a permitted combination (JVMS 4.6).
    F21,
    /// No earlier method has the same name and descriptor (JVMS 4.6).
    F22,
    /// A method has one `Code`. A native or abstract method other than `<clinit>` has none (JVMS 4.7.3).
    F23,
    /// The `Code` of a method is well-formed (JVMS 4.7.3).
    F24,
    /// A static field has at most one `ConstantValue`, which fits its type (JVMS 4.7.2).
    F25,
    /// A method has at most one `Exceptions`, which is a list of `Class` constants (JVMS 4.7.5).
    F26,
    /// A class has at most one `BootstrapMethods`, which is well-formed (JVMS 4.7.23).
    F27,
    /// The name of an attribute is a `Utf8` (JVMS 4.7).
    F28,
    /// An attribute of a kind with a fixed length has this length (JVMS 4.7.2, 4.7.7 to 4.7.10, 4.7.15).
    F29,
    /// A `SourceFile` or a `Signature` names a `Utf8`. An `EnclosingMethod` names a `Class`, and a `NameAndType` or
    /// nothing (JVMS 4.7.7, 4.7.9, 4.7.10).
    F30,
}

impl FormatRule {
    /// Returns the number of the rule, from 1.
    pub fn number(self) -> u8
        ensures { result ≡ rule_number self }
    {
        match self {
            FormatRule::F1 => 1,
            FormatRule::F2 => 2,
            FormatRule::F3 => 3,
            FormatRule::F4 => 4,
            FormatRule::F5 => 5,
            FormatRule::F6 => 6,
            FormatRule::F7 => 7,
            FormatRule::F8 => 8,
            FormatRule::F9 => 9,
            FormatRule::F10 => 10,
            FormatRule::F11 => 11,
            FormatRule::F12 => 12,
            FormatRule::F13 => 13,
            FormatRule::F14 => 14,
            FormatRule::F15 => 15,
            FormatRule::F16 => 16,
            FormatRule::F17 => 17,
            FormatRule::F18 => 18,
            FormatRule::F19 => 19,
            FormatRule::F20 => 20,
            FormatRule::F21 => 21,
            FormatRule::F22 => 22,
            FormatRule::F23 => 23,
            FormatRule::F24 => 24,
            FormatRule::F25 => 25,
            FormatRule::F26 => 26,
            FormatRule::F27 => 27,
            FormatRule::F28 => 28,
            FormatRule::F29 => 29,
            FormatRule::F30 => 30,
        }
    }

    /// All rules, in ascending order of their numbers.
    pub const ALL: [FormatRule; 30] = [
        FormatRule::F1,
        FormatRule::F2,
        FormatRule::F3,
        FormatRule::F4,
        FormatRule::F5,
        FormatRule::F6,
        FormatRule::F7,
        FormatRule::F8,
        FormatRule::F9,
        FormatRule::F10,
        FormatRule::F11,
        FormatRule::F12,
        FormatRule::F13,
        FormatRule::F14,
        FormatRule::F15,
        FormatRule::F16,
        FormatRule::F17,
        FormatRule::F18,
        FormatRule::F19,
        FormatRule::F20,
        FormatRule::F21,
        FormatRule::F22,
        FormatRule::F23,
        FormatRule::F24,
        FormatRule::F25,
        FormatRule::F26,
        FormatRule::F27,
        FormatRule::F28,
        FormatRule::F29,
        FormatRule::F30,
    ];
}

/// A rule, and a place where it is broken.
///
/// The meaning of `place` depends on the rule:
/// - F1 to F11: an index of the constant pool.
/// - F12, F13 and F27: 0.
/// - F14: the number of a direct superinterface, from 0.
/// - F15 to F18 and F25: the number of a field, from 0.
/// - F19 to F24 and F26: the number of a method, from 0.
/// - F28 to F30: the number of bytes before the attribute in the file.
#[derive(Clone, Copy, PartialEq, Eq)]
pub struct Fault {
    pub rule: FormatRule,
    pub place: usize,
}
