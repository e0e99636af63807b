//! Access flags and their names (JVMS 4.1; 4.5, table 4.5-A; 4.6, table 4.6-A).

ghost use Rattle.std.specs.Prelude.{◌≡◌};
ghost use Rattle.jc_file.specs.declared.access_flag.TheConstants.AccessFlag.{OF_CLASS, OF_FIELD, OF_METHOD};
ghost use Rattle.jc_file.specs.AccessFlags.{class_flags, field_flags, flag_name, has, mask_of, method_flags};

use crate::flags::{
    ABSTRACT, ANNOTATION, BRIDGE, ENUM, FINAL, INTERFACE, NATIVE, PRIVATE, PROTECTED, PUBLIC,
    STATIC, STRICT, SUPER, SYNCHRONIZED, SYNTHETIC, TRANSIENT, VARARGS, VOLATILE, has,
};

/// An access flag. Some flags share a bit, whose meaning differs between classes, fields and methods. `ACC_MODULE` is
/// missing, because a class file can set it only from version 53.0 on.
#[derive(Clone, Copy)]
pub enum AccessFlag {
    Public,
    Private,
    Protected,
    Static,
    Final,
    Super,
    Synchronized,
    Volatile,
    Bridge,
    Transient,
    Varargs,
    Native,
    Interface,
    Abstract,
    Strict,
    Synthetic,
    Annotation,
    Enum,
}

impl AccessFlag {
    /// The flags of a class, from the lowest bit to the highest.
    pub const OF_CLASS: [AccessFlag; 8] = [
        AccessFlag::Public,
        AccessFlag::Final,
        AccessFlag::Super,
        AccessFlag::Interface,
        AccessFlag::Abstract,
        AccessFlag::Synthetic,
        AccessFlag::Annotation,
        AccessFlag::Enum,
    ];

    /// The flags of a field, from the lowest bit to the highest.
    pub const OF_FIELD: [AccessFlag; 9] = [
        AccessFlag::Public,
        AccessFlag::Private,
        AccessFlag::Protected,
        AccessFlag::Static,
        AccessFlag::Final,
        AccessFlag::Volatile,
        AccessFlag::Transient,
        AccessFlag::Synthetic,
        AccessFlag::Enum,
    ];

    /// The flags of a method, from the lowest bit to the highest.
    pub const OF_METHOD: [AccessFlag; 12] = [
        AccessFlag::Public,
        AccessFlag::Private,
        AccessFlag::Protected,
        AccessFlag::Static,
        AccessFlag::Final,
        AccessFlag::Synchronized,
        AccessFlag::Bridge,
        AccessFlag::Varargs,
        AccessFlag::Native,
        AccessFlag::Abstract,
        AccessFlag::Strict,
        AccessFlag::Synthetic,
    ];

    /// Returns the mask of the flag, in which only its bit is set.
    pub fn mask(self) -> u16
        ensures { result ≡ mask_of self }
    {
        match self {
            AccessFlag::Public => PUBLIC,
            AccessFlag::Private => PRIVATE,
            AccessFlag::Protected => PROTECTED,
            AccessFlag::Static => STATIC,
            AccessFlag::Final => FINAL,
            AccessFlag::Super => SUPER,
            AccessFlag::Synchronized => SYNCHRONIZED,
            AccessFlag::Volatile => VOLATILE,
            AccessFlag::Bridge => BRIDGE,
            AccessFlag::Transient => TRANSIENT,
            AccessFlag::Varargs => VARARGS,
            AccessFlag::Native => NATIVE,
            AccessFlag::Interface => INTERFACE,
            AccessFlag::Abstract => ABSTRACT,
            AccessFlag::Strict => STRICT,
            AccessFlag::Synthetic => SYNTHETIC,
            AccessFlag::Annotation => ANNOTATION,
            AccessFlag::Enum => ENUM,
        }
    }

    /// Returns the name of the flag in the JVMS, without `ACC_`.
    pub fn name(self) -> &'static str
        ensures { result.now ≡ flag_name self }
    {
        match self {
            AccessFlag::Public => "PUBLIC",
            AccessFlag::Private => "PRIVATE",
            AccessFlag::Protected => "PROTECTED",
            AccessFlag::Static => "STATIC",
            AccessFlag::Final => "FINAL",
            AccessFlag::Super => "SUPER",
            AccessFlag::Synchronized => "SYNCHRONIZED",
            AccessFlag::Volatile => "VOLATILE",
            AccessFlag::Bridge => "BRIDGE",
            AccessFlag::Transient => "TRANSIENT",
            AccessFlag::Varargs => "VARARGS",
            AccessFlag::Native => "NATIVE",
            AccessFlag::Interface => "INTERFACE",
            AccessFlag::Abstract => "ABSTRACT",
            AccessFlag::Strict => "STRICT",
            AccessFlag::Synthetic => "SYNTHETIC",
            AccessFlag::Annotation => "ANNOTATION",
            AccessFlag::Enum => "ENUM",
        }
    }

    /// Returns whether the flag is set in `flags`.
    pub fn is_in(self, flags: u16) -> bool
        ensures { result ≡ has flags (mask_of self) }
    {
        has(flags, self.mask())
    }
}

/// States that [`AccessFlag::OF_CLASS`], [`AccessFlag::OF_FIELD`] and [`AccessFlag::OF_METHOD`] are the lists of flags
/// in the definitions.
pub fn access_flags_are_tabled()
    ensures class { OF_CLASS ≡ class_flags }
    ensures field { OF_FIELD ≡ field_flags }
    ensures method { OF_METHOD ≡ method_flags }
{}
