//! Signature polymorphic methods (JVMS 2.9).

ghost use Rattle.jc_classes.specs.Worlds.{Stands as stands};
ghost use Rattle.std.specs.Prelude.{◌≡◌, option_map};
ghost use Rattle.jc_classes.specs.Lent.{key_lent, member_lent};
ghost use Rattle.jc_classes.specs.MethodLookup.{declared, polymorphic};

use jc_classes::{Facts, Key, Member, same};

/// Returns the method that look-up finds in the class of this name itself. It is the signature polymorphic method of
/// the name, or else the method with the name and the descriptor (JVMS 5.4.3.3).
pub(crate) fn declared<'a>(facts: &'a Facts, class: &[u8], key: Key) -> Option<Member<'a>>
    ensures { option_map member_lent result ≡ declared class.now (stands.Class facts.now) (key_lent key.entry) }
{
    match find_polymorphic(facts, class, key.name) {
        Some(member) => Some(member),
        None => facts.method(key),
    }
}

/// Returns the signature polymorphic method with this name. It must be the only method of its class with this name.
fn find_polymorphic<'a>(facts: &'a Facts, class: &[u8], name: &[u8]) -> Option<Member<'a>>
    ensures { option_map member_lent result ≡ polymorphic class.now facts.now.methods name.now }
{
    if !same(class, b"java/lang/invoke/MethodHandle") {
        return None;
    }
    let member = facts.sole_named(name)?;
    if member.is_polymorphic() {
        Some(member)
    } else {
        None
    }
}
