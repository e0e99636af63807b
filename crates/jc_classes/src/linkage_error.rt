//! The errors of loading, of resolution and of instructions (JVMS 5.3, 5.4.3, 6.5).

ghost use Rattle.std.specs.Prelude.{◌≡◌};
ghost use Rattle.jc_classes.specs.LinkageErrors.{error_code, error_name};

/// An error of linkage: why a class does not load, a reference does not resolve, or an instruction does not link.
#[derive(Clone, Copy)]
pub enum LinkageError {
    /// No class has the name (`NoClassDefFoundError`, JVMS 5.3).
    NoClass,
    /// The class breaks a rule of the format (`ClassFormatError`, JVMS 4.8, 5.3.5).
    Format,
    /// The class is one of its own transitive supertypes (`ClassCircularityError`, JVMS 5.3.5).
    Circular,
    /// A class where an interface is required, or the reverse (`IncompatibleClassChangeError`, JVMS 5.3.5, 5.4.3.3,
    /// 5.4.3.4). Also a STATIC member where an instance member is required, or the reverse, or a PRIVATE method that
    /// `invokeinterface` names (JVMS 6.5).
    Incompatible,
    /// The class or the member is not accessible (`IllegalAccessError`, JVMS 5.4.4). Also a store into a FINAL field
    /// outside `<clinit>` (`putstatic`) or `<init>` (`putfield`) of the class that declares it (JVMS 6.5).
    IllegalAccess,
    /// Look-up finds no field (`NoSuchFieldError`, JVMS 5.4.3.2).
    NoField,
    /// Look-up finds no method (`NoSuchMethodError`, JVMS 5.4.3.3, 5.4.3.4). Also an `<init>` that `invokespecial`
    /// names and that the named class does not declare itself (JVMS 6.5).
    NoMethod,
    /// The class is an interface or ABSTRACT, and `new` names it (`InstantiationError`, JVMS 6.5).
    Instantiation,
}

impl LinkageError {
    /// Returns the number of the error in the report.
    pub fn code(self) -> u8
        ensures { result ≡ error_code self }
    {
        match self {
            LinkageError::NoClass => 1,
            LinkageError::Format => 2,
            LinkageError::Circular => 3,
            LinkageError::Incompatible => 4,
            LinkageError::IllegalAccess => 5,
            LinkageError::NoField => 6,
            LinkageError::NoMethod => 7,
            LinkageError::Instantiation => 8,
        }
    }

    /// Returns the name of the error in the report.
    pub fn name(self) -> &'static str
        ensures { result.now ≡ error_name self }
    {
        match self {
            LinkageError::NoClass => "NoClass",
            LinkageError::Format => "Format",
            LinkageError::Circular => "Circular",
            LinkageError::Incompatible => "Incompatible",
            LinkageError::IllegalAccess => "IllegalAccess",
            LinkageError::NoField => "NoField",
            LinkageError::NoMethod => "NoMethod",
            LinkageError::Instantiation => "Instantiation",
        }
    }
}
