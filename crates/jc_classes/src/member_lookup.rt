//! Look-up of members in one class.

ghost use Rattle.jc_classes.specs.Worlds.{Stands as stands};
ghost use Rattle.std.specs.Prelude.{◌≡◌, option_map};
ghost use Rattle.std.specs.Ordering.{is_lt};
ghost use Rattle.jc_classes.specs.Lent.{key_lent, member_lent};
ghost use Rattle.jc_classes.specs.MemberOrder.{IsOrder, key_cmp};
ghost use Rattle.jc_classes.specs.MethodLookup.{given_by, sole_named};
ghost use Rattle.jc_classes.specs.Worlds.{is_at, key_of, member};
ghost use Rattle.jc_classes.specs.inside.FactsShown.{member_shown};
ghost use Rattle.jc_classes.specs.inside.Ordered.{IsPlace, member_there, named_there};
ghost use Rattle.jc_classes.specs.inside.OrderedMembers.{shown};

use crate::facts::{Facts, MemberEntry};
use crate::member::{Key, Member};
use crate::names::{less, same};
use crate::text_list::TextList;
use jc_file::AccessFlag;
use std::cmp::Ordering;

/// Fewer members than this are searched one after another.
const FEW: usize = 16;

impl Facts {
    /// Returns the field with this name and descriptor that the class declares. If there are several, it is the first
    /// in the file. Does not allocate.
    pub fn field(&self, key: Key) -> Option<Member<'_>>
        ensures { option_map member_lent result ≡ member self.now.fields (key_lent key.entry) }
    {
        let fields = OrderedMembers {
            texts: self.inside.texts.as_ref(),
            members: self.inside.fields.as_slice(),
            order: self.inside.field_order.as_slice(),
        };
        fields.find(key)
    }

    /// Returns the method with this name and descriptor that the class declares. If there are several, it is the first
    /// in the file. Does not allocate.
    pub fn method(&self, key: Key) -> Option<Member<'_>>
        ensures { option_map member_lent result ≡ member self.now.methods (key_lent key.entry) }
    {
        self.ordered_methods().find(key)
    }

    /// Returns the method with this name that the class declares, if exactly one method has the name. Does not
    /// allocate.
    pub fn sole_named(&self, name: &[u8]) -> Option<Member<'_>>
        ensures { option_map member_lent result ≡ sole_named self.now.methods name.now }
    {
        self.ordered_methods().sole_named(name)
    }

    /// Returns the methods, with the order in which they are searched.
    fn ordered_methods(&self) -> OrderedMembers<'_>
        ensures methods { shown result ≡ self.now.methods }
        ensures order { IsOrder self.now.methods result.order.now }
    {
        OrderedMembers {
            texts: self.inside.texts.as_ref(),
            members: self.inside.methods.as_slice(),
            order: self.inside.method_order.as_slice(),
        }
    }

    /// Returns the method with this name and descriptor that an interface declares, if it is neither PRIVATE nor
    /// STATIC. Returns `None` if the class is no interface. Does not allocate.
    pub fn given(&self, key: Key) -> Option<Member<'_>>
        ensures { option_map member_lent result ≡ given_by (stands.Class self.now) (key_lent key.entry) }
    {
        if !AccessFlag::Interface.is_in(self.inside.flags) {
            return None;
        }
        match self.method(key) {
            Some(member) => {
                if member.has(AccessFlag::Private) || member.has(AccessFlag::Static) {
                    None
                } else {
                    Some(member)
                }
            }
            None => None,
        }
    }
}

impl MemberEntry {
    /// Returns the member with its texts.
    pub(crate) fn lend(self, texts: &TextList) -> Member<'_>
        ensures { member_lent result ≡ member_shown texts.now self }
    {
        Member {
            name: texts.text(self.name as usize),
            descriptor: texts.text(self.descriptor as usize),
            flags: self.flags,
        }
    }
}

impl MemberEntry {
    /// Returns whether the member has this name and descriptor. For most members the name decides.
    fn is_at(self, texts: &TextList, key: Key) -> bool
        ensures { result ≡ is_at (key_lent key.entry) (member_shown texts.now self) }
    {
        same(texts.text(self.name as usize), key.name)
            && same(texts.text(self.descriptor as usize), key.descriptor)
    }

    /// Returns whether the member is less than a key: by name, then by descriptor.
    fn is_before(self, texts: &TextList, key: Key) -> bool
        ensures { result ≡ is_lt (key_cmp (key_of (member_shown texts.now self)) (key_lent key.entry)) }
    {
        match texts.text(self.name as usize).cmp(key.name) {
            Ordering::Less => true,
            Ordering::Equal => less(texts.text(self.descriptor as usize), key.descriptor),
            Ordering::Greater => false,
        }
    }
}

/// Fields or methods, with the order in which they are searched.
#[derive(Clone, Copy)]
struct OrderedMembers<'a> {
    texts: &'a TextList,
    members: &'a [MemberEntry],
    order: &'a [u16],
}

impl<'a> OrderedMembers<'a> {
    /// Returns the first member in the file with this name and descriptor.
    fn find(self, key: Key) -> Option<Member<'a>>
        requires { IsOrder (shown self) self.order.now }
        ensures { option_map member_lent result ≡ member (shown self.entry) (key_lent key.entry) }
    {
        if self.members.len() < FEW {
            self.find_in_turn(key)
        } else {
            self.find_in_order(key)
        }
    }

    /// Finds the member with a linear search.
    fn find_in_turn(self, key: Key) -> Option<Member<'a>>
        ensures { option_map member_lent result ≡ member (shown self.entry) (key_lent key.entry) }
    {
        for entry in self.members {
            if entry.is_at(self.texts, key) {
                return Some(entry.lend(self.texts));
            }
        }
        None
    }

    /// Finds the member with a binary search.
    fn find_in_order(self, key: Key) -> Option<Member<'a>>
        requires { IsOrder (shown self) self.order.now }
        ensures { option_map member_lent result ≡ member (shown self.entry) (key_lent key.entry) }
    {
        let member = self.member(self.place(key))?;
        if member.is_at(key) {
            Some(member)
        } else {
            None
        }
    }

    /// Returns the member with this name, if exactly one has it. Members with one name are next to each other in the
    /// order.
    fn sole_named(self, name: &[u8]) -> Option<Member<'a>>
        requires { IsOrder (shown self) self.order.now }
        ensures { option_map member_lent result ≡ sole_named (shown self.entry) name.now }
    {
        let key = Key {
            name,
            descriptor: &[],
        };
        let place = self.place(key);
        let member = self.named(place, name)?;
        match self.named(place + 1, name) {
            Some(_) => None,
            None => Some(member),
        }
    }

    /// Returns the member at a place in the order, if it has this name.
    fn named(self, place: usize, name: &[u8]) -> Option<Member<'a>>
        requires { IsOrder (shown self) self.order.now }
        ensures { option_map member_lent result ≡ named_there (shown self.entry) self.entry.order.now place name.now }
    {
        let member = self.member(place)?;
        if same(member.name, name) {
            Some(member)
        } else {
            None
        }
    }

    /// Returns the member at a place in the order.
    fn member(self, place: usize) -> Option<Member<'a>>
        requires { IsOrder (shown self) self.order.now }
        ensures { option_map member_lent result ≡ member_there (shown self.entry) self.entry.order.now place }
    {
        let number = *self.order.get(place)?;
        Some(self.members[number as usize].lend(self.texts))
    }

    /// Returns the number of members that are less than a key.
    fn place(self, key: Key) -> usize
        requires { IsOrder (shown self) self.order.now }
        ensures { IsPlace (shown self.entry) self.entry.order.now (key_lent key.entry) result }
    {
        let mut low = 0;
        let mut high = self.order.len();
        while low < high {
            let middle = low + (high - low) / 2;
            let number = self.order[middle] as usize;
            if self.members[number].is_before(self.texts, key) {
                low = middle + 1;
            } else {
                high = middle;
            }
        }
        low
    }
}
