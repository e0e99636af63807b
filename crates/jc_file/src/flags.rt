//! The bits of access flags (JVMS 4.1; 4.5, table 4.5-A; 4.6, table 4.6-A).

ghost use Rattle.std.specs.Prelude.{◌≡◌};
ghost use Rattle.jc_file.specs.AccessFlags.{has, has_two_accesses};

pub(crate) const PUBLIC: u16 = 0x0001;

pub(crate) const PRIVATE: u16 = 0x0002;

pub(crate) const PROTECTED: u16 = 0x0004;

pub(crate) const STATIC: u16 = 0x0008;

pub(crate) const FINAL: u16 = 0x0010;
/// A flag of classes.
pub(crate) const SUPER: u16 = 0x0020;
/// A flag of methods.
pub(crate) const SYNCHRONIZED: u16 = 0x0020;
/// A flag of fields.
pub(crate) const VOLATILE: u16 = 0x0040;
/// A flag of methods.
pub(crate) const BRIDGE: u16 = 0x0040;
/// A flag of fields.
pub(crate) const TRANSIENT: u16 = 0x0080;
/// A flag of methods.
pub(crate) const VARARGS: u16 = 0x0080;

pub(crate) const NATIVE: u16 = 0x0100;

pub(crate) const INTERFACE: u16 = 0x0200;

pub(crate) const ABSTRACT: u16 = 0x0400;

pub(crate) const STRICT: u16 = 0x0800;

pub(crate) const SYNTHETIC: u16 = 0x1000;

pub(crate) const ANNOTATION: u16 = 0x2000;

pub(crate) const ENUM: u16 = 0x4000;

/// Returns whether a flag is set.
pub(crate) fn has(flags: u16, flag: u16) -> bool
    ensures { result ≡ has flags flag }
{
    flags & flag != 0
}

/// Returns whether at least two of PUBLIC, PRIVATE and PROTECTED are set.
pub(crate) fn has_two_accesses(flags: u16) -> bool
    ensures { result ≡ has_two_accesses flags }
{
    let (public, private, protected) = (
        has(flags, PUBLIC),
        has(flags, PRIVATE),
        has(flags, PROTECTED),
    );
    public && private || public && protected || private && protected
}
