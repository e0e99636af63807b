//! Fields and methods, as a class declares them (JVMS 4.5, 4.6).

ghost use Rattle.std.specs.Prelude.{◌≡◌, ◌&&◌, codes, not};
ghost use Rattle.jc_file.specs.AccessFlags.{has, mask_of};
ghost use Rattle.jc_classes.specs.Names.{same_name};
ghost use Rattle.jc_classes.specs.Access.{is_package_private};
ghost use Rattle.jc_classes.specs.MethodLookup.{is_polymorphic};
ghost use Rattle.jc_classes.specs.Worlds.{is_at};
ghost use Rattle.jc_classes.specs.Lent.{key_lent, member_lent};

use crate::names::same;
use jc_file::AccessFlag;

/// The name and the descriptor of a member.
#[derive(Clone, Copy)]
pub struct Key<'a> {
    pub name: &'a [u8],
    pub descriptor: &'a [u8],
}

/// A field or a method, with its access flags.
#[derive(Clone, Copy)]
pub struct Member<'a> {
    pub name: &'a [u8],
    pub descriptor: &'a [u8],
    pub flags: u16,
}

impl<'a> Member<'a> {
    /// Returns whether the member has an access flag.
    pub fn has(self, flag: AccessFlag) -> bool
        ensures { result ≡ has self.entry.flags (mask_of flag) }
    {
        flag.is_in(self.flags)
    }

    /// Returns whether the member has this name and descriptor.
    pub fn is_at(self, key: Key) -> bool
        ensures { result ≡ is_at (key_lent key.entry) (member_lent self.entry) }
    {
        same(self.name, key.name) && same(self.descriptor, key.descriptor)
    }

    /// Returns whether the member has the name and the descriptor of `clone` of `java/lang/Object`.
    pub fn is_clone(self) -> bool
        ensures { result ≡ (same_name self.entry.name.now (codes "clone")
            && same_name self.entry.descriptor.now (codes "()Ljava/lang/Object;")) }
    {
        same(self.name, b"clone") && same(self.descriptor, b"()Ljava/lang/Object;")
    }

    /// Returns whether the member has the descriptor and the flags of a signature polymorphic method (JVMS 2.9).
    pub fn is_polymorphic(self) -> bool
        ensures { result ≡ is_polymorphic (member_lent self.entry) }
    {
        same(self.descriptor, b"([Ljava/lang/Object;)Ljava/lang/Object;")
            && self.has(AccessFlag::Varargs)
            && self.has(AccessFlag::Native)
    }

    /// Returns whether the member is package-private: not PUBLIC, PROTECTED or PRIVATE.
    pub fn is_package_private(self) -> bool
        ensures { result ≡ is_package_private (member_lent self.entry) }
    {
        !self.has(AccessFlag::Public)
            && !self.has(AccessFlag::Private)
            && !self.has(AccessFlag::Protected)
    }
}
