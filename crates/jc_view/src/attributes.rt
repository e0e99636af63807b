//! Attributes, and an iterator over a table of them (JVMS 4.7).

ghost use Rattle.std.specs.Prelude.{◌≡◌, IfSome};
ghost use Rattle.std.specs.Option.{option_copied, option_map};
ghost use Rattle.jc_base.specs.Cursor.{Reading};
ghost use Rattle.jc_view.specs.Reading.{after_attribute};
ghost use Rattle.jc_view.specs.Lookups.{utf8_at};
ghost use Rattle.jc_view.specs.Attributes.{IsRecognisedAs, is_recognised};
ghost use Rattle.jc_view.specs.AttributeReading.{code_of};
ghost use Rattle.jc_view.specs.Lent.{LentCode, lent_code};
ghost use Rattle.jc_view.specs.inside.Entries.{LendsAttribute};

use crate::attribute_kind::{AttributeKind, Holder, kind_named};
use crate::code::{Code, read_code};
use crate::constant_pool::ConstantIndex;
use crate::constant_reader::read_index;
use crate::entries::Entries;
use crate::view::ClassView;
use jc_base::Cursor;
use std::marker::Model;

/// An iterator over a table of attributes, in file order. Its model is the class file and the list of the attributes
/// that are left, each with its holder and its place.
#[derive(Drop)]
pub struct Attributes<'v, 'a> {
    pub(crate) class: &'v ClassView<'a>,
    pub(crate) holder: Holder,
    pub(crate) table: Entries<'a>,
}

impl<'v, 'a> Model for Attributes<'v, 'a> {
    ghost use Rattle.jc_view.specs.Lent.{AttributesLeft};

    ghost Value = { AttributesLeft };

    ghost use Rattle.jc_view.specs.Reading.{after_attribute};
    ghost use Rattle.jc_view.specs.inside.Tables.{IsWhole};
    ghost use Rattle.jc_view.specs.inside.Entries.{placed_attributes};

    ghost view = { λ a. record { class = a.class.now; left = placed_attributes a.holder a.table } };

    ghost invariant = { λ a. IsWhole after_attribute a.table };
}

impl<'v, 'a> Iterator for Attributes<'v, 'a> {
    ghost use Rattle.std.specs.Iterator.{item_count};
    ghost use Rattle.jc_view.specs.Lent.{GivesAttribute};

    type Item = Attribute<'v, 'a>;

    ghost next_gives = { GivesAttribute };

    ghost remaining = { item_count (λ it. it.left) };

    fn next(&mut self) -> Option<Attribute<'v, 'a>> {
        self.table.left = self.table.left.checked_sub(1)?;
        let entry = read_attribute(&mut self.table.cursor)?;
        Some(Attribute {
            class: self.class,
            holder: self.holder,
            entry,
        })
    }
}

/// An attribute of a class, a field, a method or a `Code`.
#[derive(Drop)]
pub struct Attribute<'v, 'a> {
    class: &'v ClassView<'a>,
    holder: Holder,
    entry: AttributeEntry<'a>,
}

/// An entry of a table of attributes. `place` is the number of bytes before it in the file, and `body` has the bytes
/// after its `attribute_length`.
#[derive(Drop)]
pub(crate) struct AttributeEntry<'a> {
    pub(crate) place: usize,
    pub(crate) name: ConstantIndex,
    pub(crate) body: Cursor<'a>,
}

impl<'v, 'a> Model for Attribute<'v, 'a> {
    ghost use Rattle.std.specs.Prelude.{◌≡◌, ◌+◌};
    ghost use Rattle.jc_view.specs.Lent.{LentAttribute};

    ghost Value = { LentAttribute };

    ghost use Rattle.jc_view.specs.inside.Entries.{placed_attribute};

    ghost view = { λ a. record { class = a.class.now; attribute = placed_attribute a.holder a.entry } };

    ghost invariant = { λ a. a.entry.body.place ≡ a.entry.place + 6 };
}

impl<'v, 'a> Attribute<'v, 'a> {
    /// Returns the class that the attribute is part of.
    pub fn class(&self) -> &'v ClassView<'a>
        ensures { result.now ≡ self.now.class }
    {
        self.class
    }

    /// Returns the element that the attribute belongs to.
    pub fn holder(&self) -> Holder
        ensures { result ≡ self.now.attribute.holder }
    {
        self.holder
    }

    /// Returns the place of the attribute: the number of bytes before its `attribute_name_index` in the file.
    pub fn place(&self) -> usize
        ensures { result ≡ self.now.attribute.place }
    {
        self.entry.place
    }

    /// Returns the name of the attribute, or `None` if its `attribute_name_index` does not name a `Utf8` constant (JVMS
    /// 4.7).
    pub fn name(&self) -> Option<&'a [u8]>
        ensures { option_copied result ≡ utf8_at self.now.class self.now.attribute.attribute.name }
    {
        self.class.utf8(self.entry.name)
    }

    /// Returns the contents of the attribute, its `info`: the bytes after its `attribute_length` (JVMS 4.7).
    pub fn bytes(&self) -> &'a [u8]
        ensures { result.now ≡ self.now.attribute.attribute.bytes }
    {
        self.entry.body.rest()
    }

    /// Returns the kind of the attribute if it is recognised: its name is that of the kind, and the kind belongs to its
    /// holder.
    pub fn kind(&self) -> Option<AttributeKind>
        ensures { IsRecognisedAs self.now.class self.now.attribute.holder self.now.attribute.attribute result }
    {
        let kind = kind_named(self.name()?)?;
        if kind.belongs_to(self.holder) {
            Some(kind)
        } else {
            None
        }
    }

    /// Returns whether the attribute is recognised as one of this kind: its name is that of the kind, and the kind
    /// belongs to its holder.
    pub fn is(&self, kind: AttributeKind) -> bool
        ensures { result ≡ is_recognised self.now.class kind self.now.attribute.holder self.now.attribute.attribute }
    {
        kind.belongs_to(self.holder) && self.name().is_some_and(|name| name == kind.name())
    }

    /// Returns the code of a method (JVMS 4.7.3). Returns `None` if this is not a `Code` attribute of a method, or if
    /// it is not well-formed. Does not allocate.
    pub fn code(&self) -> Option<Code<'v, 'a>>
        ensures { result ≡ option_map (lent_code self.now) (code_of self.now.class self.now.attribute) }
    {
        if !self.is(AttributeKind::Code) {
            return None;
        }
        let body = read_code(&self.entry.body)?;
        Some(Code {
            class: self.class,
            holder: self.holder,
            entry: self.entry.fork(),
            body,
        })
    }
}

impl<'a> AttributeEntry<'a> {
    fn fork(&self) -> AttributeEntry<'a>
        ensures { result ≡ self.now }
    {
        AttributeEntry {
            place: self.place,
            name: self.name,
            body: self.body.fork(),
        }
    }
}

/// Reads the attribute at the cursor.
#[tactic(auto, unfolding(crate::specs::Reading::after_attribute))]
fn read_attribute<'a>(cursor: &mut Cursor<'a>) -> Option<AttributeEntry<'a>>
    ensures { LendsAttribute cursor.old result cursor.new }
{
    let place = cursor.place();
    let name = read_index(cursor)?;
    let length = cursor.u4()?;
    let body = cursor.part(length as usize)?;
    Some(AttributeEntry { place, name, body })
}
