//! Constants, their kinds and their indexes (JVMS 4.4).

ghost use Rattle.std.specs.Prelude.{◌≡◌};
ghost use Rattle.jc_view.specs.ConstantPool.{kind_name, kind_of_tag, is_wide, tag_of};

/// An index into the constant pool (JVMS 4.1). There need not be a constant at the index.
#[derive(Clone, Copy, PartialEq, Eq, Hash)]
pub struct ConstantIndex(pub u16);

/// A kind of constant (JVMS 4.4, table 4.4-A).
#[derive(Clone, Copy)]
pub enum ConstantKind {
    Utf8,
    Integer,
    Float,
    Long,
    Double,
    Class,
    String,
    Fieldref,
    Methodref,
    InterfaceMethodref,
    NameAndType,
    MethodHandle,
    MethodType,
    InvokeDynamic,
}

/// A constant of a constant pool (JVMS 4.4). The text of a `Utf8` is a slice of the file. The value of an `Integer`,
/// `Float`, `Long` or `Double` is given by its bits.
#[derive(Clone, Copy)]
pub enum Constant<'a> {
    /// The bytes of the text, which need not be modified UTF-8.
    Utf8(&'a [u8]),
    Integer(u32),
    Float(u32),
    Long(u64),
    Double(u64),
    /// `name_index`.
    Class(ConstantIndex),
    /// `string_index`.
    String(ConstantIndex),
    /// `class_index` and `name_and_type_index`.
    Fieldref(ConstantIndex, ConstantIndex),
    /// `class_index` and `name_and_type_index`.
    Methodref(ConstantIndex, ConstantIndex),
    /// `class_index` and `name_and_type_index`.
    InterfaceMethodref(ConstantIndex, ConstantIndex),
    /// `name_index` and `descriptor_index`.
    NameAndType(ConstantIndex, ConstantIndex),
    /// `reference_kind` and `reference_index`.
    MethodHandle(u8, ConstantIndex),
    /// `descriptor_index`.
    MethodType(ConstantIndex),
    /// `bootstrap_method_attr_index` and `name_and_type_index`.
    InvokeDynamic(u16, ConstantIndex),
}

impl ConstantKind {
    /// Returns the kind of constants with this tag, or `None` if no kind has the tag (JVMS 4.4, table 4.4-A).
    pub fn of_tag(tag: u8) -> Option<ConstantKind>
        ensures { result ≡ kind_of_tag tag }
    {
        Some(match tag {
            1 => ConstantKind::Utf8,
            3 => ConstantKind::Integer,
            4 => ConstantKind::Float,
            5 => ConstantKind::Long,
            6 => ConstantKind::Double,
            7 => ConstantKind::Class,
            8 => ConstantKind::String,
            9 => ConstantKind::Fieldref,
            10 => ConstantKind::Methodref,
            11 => ConstantKind::InterfaceMethodref,
            12 => ConstantKind::NameAndType,
            15 => ConstantKind::MethodHandle,
            16 => ConstantKind::MethodType,
            18 => ConstantKind::InvokeDynamic,
            _ => return None,
        })
    }

    /// Returns the tag of constants of this kind (JVMS 4.4, table 4.4-A).
    pub fn tag(self) -> u8
        ensures { result ≡ tag_of self }
    {
        match self {
            ConstantKind::Utf8 => 1,
            ConstantKind::Integer => 3,
            ConstantKind::Float => 4,
            ConstantKind::Long => 5,
            ConstantKind::Double => 6,
            ConstantKind::Class => 7,
            ConstantKind::String => 8,
            ConstantKind::Fieldref => 9,
            ConstantKind::Methodref => 10,
            ConstantKind::InterfaceMethodref => 11,
            ConstantKind::NameAndType => 12,
            ConstantKind::MethodHandle => 15,
            ConstantKind::MethodType => 16,
            ConstantKind::InvokeDynamic => 18,
        }
    }

    /// Returns the name of this kind in the JVMS, without `CONSTANT_` (JVMS 4.4, table 4.4-A).
    pub fn name(self) -> &'static str
        ensures { result.now ≡ kind_name self }
    {
        match self {
            ConstantKind::Utf8 => "Utf8",
            ConstantKind::Integer => "Integer",
            ConstantKind::Float => "Float",
            ConstantKind::Long => "Long",
            ConstantKind::Double => "Double",
            ConstantKind::Class => "Class",
            ConstantKind::String => "String",
            ConstantKind::Fieldref => "Fieldref",
            ConstantKind::Methodref => "Methodref",
            ConstantKind::InterfaceMethodref => "InterfaceMethodref",
            ConstantKind::NameAndType => "NameAndType",
            ConstantKind::MethodHandle => "MethodHandle",
            ConstantKind::MethodType => "MethodType",
            ConstantKind::InvokeDynamic => "InvokeDynamic",
        }
    }

    /// Returns whether a constant of this kind takes two indexes: a `Long` or a `Double` (JVMS 4.4.5).
    pub fn is_wide(self) -> bool
        ensures { result ≡ is_wide self }
    {
        matches!(self, ConstantKind::Long | ConstantKind::Double)
    }
}

impl<'a> Constant<'a> {
    ghost use Rattle.jc_view.specs.ConstantPool.{kind_of};
    ghost use Rattle.jc_view.specs.Lent.{constant_of};

    /// Returns the kind of the constant.
    pub fn kind(self) -> ConstantKind
        ensures { result ≡ kind_of (constant_of self.entry) }
    {
        match self {
            Constant::Utf8(_) => ConstantKind::Utf8,
            Constant::Integer(_) => ConstantKind::Integer,
            Constant::Float(_) => ConstantKind::Float,
            Constant::Long(_) => ConstantKind::Long,
            Constant::Double(_) => ConstantKind::Double,
            Constant::Class(_) => ConstantKind::Class,
            Constant::String(_) => ConstantKind::String,
            Constant::Fieldref(_, _) => ConstantKind::Fieldref,
            Constant::Methodref(_, _) => ConstantKind::Methodref,
            Constant::InterfaceMethodref(_, _) => ConstantKind::InterfaceMethodref,
            Constant::NameAndType(_, _) => ConstantKind::NameAndType,
            Constant::MethodHandle(_, _) => ConstantKind::MethodHandle,
            Constant::MethodType(_) => ConstantKind::MethodType,
            Constant::InvokeDynamic(_, _) => ConstantKind::InvokeDynamic,
        }
    }
}
