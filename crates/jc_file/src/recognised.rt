//! A search for the attributes of a kind.

ghost use Rattle.std.specs.Prelude.{◌≡◌, length, nat_le};
ghost use Rattle.jc_view.specs.Attributes.{of_kind};
ghost use Rattle.jc_file.specs.inside.Recognised.{GivesOfKind};

use jc_view::{Attribute, AttributeKind, Attributes, Member};

/// Returns the next attribute that is recognised as one of this kind.
pub(crate) fn next_of_kind<'v, 'a>(
    attributes: &mut Attributes<'v, 'a>,
    kind: AttributeKind,
) -> Option<Attribute<'v, 'a>>
    ensures { GivesOfKind kind attributes.old result attributes.new }
{
    while let Some(attribute) = attributes.next() {
        if attribute.is(kind) {
            return Some(attribute);
        }
    }
    None
}

/// Returns whether more than one attribute of the member is recognised as one of this kind.
pub(crate) fn has_two(member: &Member, kind: AttributeKind) -> bool
    ensures { result ≡ nat_le 2 (length (of_kind member.now.class kind member.now.member.holder member.now.member.member.attributes)) }
{
    let mut attributes = member.attributes();
    next_of_kind(&mut attributes, kind).is_some() && next_of_kind(&mut attributes, kind).is_some()
}
