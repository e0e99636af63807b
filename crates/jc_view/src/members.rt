//! Fields and methods, and an iterator over a table of them (JVMS 4.5, 4.6).

ghost use Rattle.std.specs.Prelude.{◌≡◌};
ghost use Rattle.std.specs.Option.{option_copied};
ghost use Rattle.jc_view.specs.Lookups.{utf8_at};
ghost use Rattle.jc_view.specs.Places.{member_attributes};
ghost use Rattle.jc_view.specs.inside.Entries.{LendsMember};

use crate::attribute_kind::Holder;
use crate::attributes::Attributes;
use crate::constant_pool::ConstantIndex;
use crate::constant_reader::read_pair;
use crate::entries::Entries;
use crate::layout_reader::skip_attributes;
use crate::view::ClassView;
use jc_base::Cursor;
use std::marker::Model;

/// An iterator over fields or methods, in file order. Its model is the class file and the list of the members that are
/// left, each with its holder and its place.
#[derive(Drop)]
pub struct Members<'v, 'a> {
    pub(crate) class: &'v ClassView<'a>,
    pub(crate) holder: Holder,
    pub(crate) table: Entries<'a>,
}

impl<'v, 'a> Model for Members<'v, 'a> {
    ghost use Rattle.jc_view.specs.Lent.{MembersLeft};

    ghost Value = { MembersLeft };

    ghost use Rattle.jc_view.specs.Reading.{after_member};
    ghost use Rattle.jc_view.specs.inside.Tables.{IsWhole};
    ghost use Rattle.jc_view.specs.inside.Entries.{placed_members};

    ghost view = { λ a. record { class = a.class.now; left = placed_members a.holder a.table } };

    ghost invariant = { λ a. IsWhole after_member a.table };
}

impl<'v, 'a> Members<'v, 'a> {
    /// Returns the class that declares the members.
    pub fn class(&self) -> &'v ClassView<'a>
        ensures { result.now ≡ self.now.class }
    {
        self.class
    }
}

impl<'v, 'a> Iterator for Members<'v, 'a> {
    ghost use Rattle.std.specs.Iterator.{item_count};
    ghost use Rattle.jc_view.specs.Lent.{GivesMember};

    type Item = Member<'v, 'a>;

    ghost next_gives = { GivesMember };

    ghost remaining = { item_count (λ it. it.left) };

    fn next(&mut self) -> Option<Member<'v, 'a>> {
        self.table.left = self.table.left.checked_sub(1)?;
        let entry = read_member(&mut self.table.cursor)?;
        Some(Member {
            class: self.class,
            holder: self.holder,
            entry,
        })
    }
}

/// A field or a method of a class file (JVMS 4.5, 4.6).
#[derive(Drop)]
pub struct Member<'v, 'a> {
    class: &'v ClassView<'a>,
    holder: Holder,
    entry: MemberEntry<'a>,
}

/// An entry of a table of fields or methods. `place` is the number of bytes before it in the file.
#[derive(Drop)]
pub(crate) struct MemberEntry<'a> {
    pub(crate) place: usize,
    pub(crate) flags: u16,
    pub(crate) name: ConstantIndex,
    pub(crate) descriptor: ConstantIndex,
    pub(crate) attributes: Entries<'a>,
}

impl<'v, 'a> Model for Member<'v, 'a> {
    ghost use Rattle.jc_view.specs.Lent.{LentMember};

    ghost Value = { LentMember };

    ghost use Rattle.jc_view.specs.inside.Entries.{placed_member, IsMemberEntry};

    ghost view = { λ a. record { class = a.class.now; member = placed_member a.holder a.entry } };

    ghost invariant = { λ a. IsMemberEntry a.entry };
}

impl<'v, 'a> Member<'v, 'a> {
    /// Returns the class that declares the member.
    pub fn class(&self) -> &'v ClassView<'a>
        ensures { result.now ≡ self.now.class }
    {
        self.class
    }

    /// Returns the access flags, including bits that have no meaning (JVMS 4.5, table 4.5-A; 4.6, table 4.6-A).
    pub fn flags(&self) -> u16
        ensures { result ≡ self.now.member.member.flags }
    {
        self.entry.flags
    }

    /// Returns the name, or `None` if `name_index` does not name a `Utf8` constant.
    pub fn name(&self) -> Option<&'a [u8]>
        ensures { option_copied result ≡ utf8_at self.now.class self.now.member.member.name }
    {
        self.class.utf8(self.entry.name)
    }

    /// Returns the descriptor, or `None` if `descriptor_index` does not name a `Utf8` constant.
    pub fn descriptor(&self) -> Option<&'a [u8]>
        ensures { option_copied result ≡ utf8_at self.now.class self.now.member.member.descriptor }
    {
        self.class.utf8(self.entry.descriptor)
    }

    /// Returns the index of the name.
    pub fn name_index(&self) -> ConstantIndex
        ensures { result ≡ self.now.member.member.name }
    {
        self.entry.name
    }

    /// Returns the index of the descriptor.
    pub fn descriptor_index(&self) -> ConstantIndex
        ensures { result ≡ self.now.member.member.descriptor }
    {
        self.entry.descriptor
    }

    /// Returns the attributes, in file order.
    pub fn attributes(&self) -> Attributes<'v, 'a>
        ensures { result ≡ record { class = self.now.class; left = member_attributes self.now.member } }
    {
        Attributes {
            class: self.class,
            holder: self.holder,
            table: self.entry.attributes.fork(),
        }
    }
}

/// Reads the field or method at the cursor.
#[tactic(auto, unfolding(crate::specs::Reading::after_member))]
fn read_member<'a>(cursor: &mut Cursor<'a>) -> Option<MemberEntry<'a>>
    ensures { LendsMember cursor.old result cursor.new }
{
    let place = cursor.place();
    let flags = cursor.u2()?;
    let (name, descriptor) = read_pair(cursor)?;
    let attributes = skip_attributes(cursor)?;
    Some(MemberEntry {
        place,
        flags,
        name,
        descriptor,
        attributes,
    })
}
