//! Answers in which classes are numbers.

ghost use Rattle.std.specs.Prelude.{◌≡◌};
ghost use Rattle.jc_classes.specs.Lent.{key_lent};
ghost use Rattle.jc_resolve.specs.inside.Shows.{ShowsHit};

use jc_classes::{Key, LinkageError, same};
use jc_numbered::FoundMember;
use std::alloc::AllocError;

/// The answer to a reference. Its texts are those of the reference, or the name of a class by its number. The number is
/// a node if it is a `usize`. It is the number of a name that is kept with the answers if it is a `u32`.
#[derive(Copy)]
pub(crate) enum Entry<N> {
    /// The reference resolves to the class that it names, with these access flags, or to the array, with the flags 0.
    ToClass(u16),
    /// The reference resolves to a member with these access flags. The class of this number declares it.
    ToMember(u16, N),
    /// The reference resolves to a signature polymorphic method with these access flags. The class of this number
    /// declares it (JVMS 2.9).
    ToPolymorphic(u16, N),
    /// The answer depends on the outside name of this number.
    Outside(N),
    /// The class that has the reference does not load.
    NotLoaded,
    /// The reference does not resolve. The class at fault has this number.
    Error(LinkageError, N),
    /// The reference does not resolve. The class or array that the reference names is at fault.
    OwnError(LinkageError),
}

impl<N: Copy> Clone for Entry<N> {
    ghost is_clone = { λ x y. y ≡ x };

    fn clone(&self) -> Result<Self, AllocError> {
        Ok(*self)
    }
}

/// Returns the answer to a reference whose look-up finds this member.
pub(crate) fn hit_entry(hit: FoundMember<'_>, key: Key<'_>) -> Entry<usize>
    ensures { ShowsHit (key_lent key.entry) hit.entry result }
{
    if same(hit.member.descriptor, key.descriptor) {
        Entry::ToMember(hit.member.flags, hit.node)
    } else {
        Entry::ToPolymorphic(hit.member.flags, hit.node)
    }
}
