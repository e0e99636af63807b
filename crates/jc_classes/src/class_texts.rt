//! The texts of a class file that linking uses.

ghost use Rattle.std.specs.Prelude.{◌≡◌, ◌<◌, ◌^◌, IfOk, None, length, map, slice_index_or};
ghost use Rattle.std.specs.List.{All};
ghost use Rattle.jc_classes.specs.FactsOf.{interfaces_in, once, references_in};
ghost use Rattle.jc_classes.specs.MemberOrder.{IsOrder};
ghost use Rattle.jc_classes.specs.inside.ClassTexts.{Tells, TellsMember, TellsMembers, TellsReference, TellsSome, TellsText};
ghost use Rattle.jc_classes.specs.inside.FactsShown.{member_shown, reference_shown, text_at};
ghost use Rattle.jc_classes.specs.inside.Ranks.{AreBelow};

use crate::facts::{MemberEntry, ReferenceEntry};
use crate::member_order::order_members;
use crate::once::once;
use crate::read_facts::{member_entry, name_index, push_some, reference_entry};
use crate::text_list::TextList;
use jc_base::NoMemory;
use jc_view::{ClassView, ConstantIndex, Members};
use std::alloc::Global;
use std::marker::Model;

/// The texts of a class file that were looked up, each with its number. The number 0 is that of the empty text. Its
/// model is the class file and the texts.
#[derive(Drop)]
pub(crate) struct ClassTexts<'c, 'a> {
    alloc: Global,
    class: &'c ClassView<'a>,
    /// The number of each constant's text, by the constant's index, if the text was looked up.
    numbers: Vec<Option<u16>>,
    texts: TextList,
}

impl<'c, 'a> Model for ClassTexts<'c, 'a> {
    ghost use Rattle.jc_classes.specs.inside.ClassTexts.{AreNumbered, KeptTexts};

    ghost Value = { KeptTexts };

    ghost view = { λ a. record { class = a.class.now; texts = a.texts } };

    ghost invariant = { λ a. AreNumbered a.class.now a.numbers.items a.texts };
}

impl<'c, 'a> ClassTexts<'c, 'a> {
    /// Returns the list with only the empty text.
    pub(crate) fn new(
        alloc: Global,
        class: &'c ClassView<'a>,
    ) -> Result<ClassTexts<'c, 'a>, NoMemory>
        ensures { IfOk result (λ texts. texts.class ≡ class.now) }
    {
        let count = class.constant_count() as usize;
        let numbers = vec![in alloc; None; count]?;
        let mut texts = TextList::with_room(alloc, count, class.bytes().len() / 3)?;
        texts.push(&[])?;
        Ok(ClassTexts {
            alloc,
            class,
            numbers,
            texts,
        })
    }

    /// Returns the texts, by their numbers.
    pub(crate) fn into_list(self) -> TextList
        ensures { result ≡ self.entry.texts }
    {
        self.texts.fitted()
    }

    /// Returns the number of the text at an index. It is the number of the empty text if no Utf8 constant has the
    /// index.
    pub(crate) fn number(&mut self, index: u16) -> Result<u16, NoMemory>
        ensures { IfOk result (TellsText self.old self.new index) }
    {
        if let Some(number) = known(&self.numbers, index) {
            return Ok(number);
        }
        let Some(text) = self.class.utf8(ConstantIndex(index)) else {
            return Ok(0);
        };
        let number = self.texts.len() as u16;
        self.texts.push(text)?;
        self.numbers[index as usize] = Some(number);
        Ok(number)
    }

    /// Returns the number of the text at an index, if there is an index.
    pub(crate) fn number_of_some(&mut self, index: Option<u16>) -> Result<Option<u16>, NoMemory>
        ensures { IfOk result (TellsSome self.old self.new index) }
    {
        match index {
            Some(index) => Ok(Some(self.number(index)?)),
            None => Ok(None),
        }
    }

    /// Returns the numbers of the names of the direct superinterfaces.
    pub(crate) fn interfaces(&mut self) -> Result<Vec<u16>, NoMemory>
        ensures { IfOk result (λ names. Tells self.old self.new
            (λ texts. map (text_at texts) names.items ≡ interfaces_in self.old.class)) }
    {
        let class = self.class;
        let mut names = Vec::new(self.alloc);
        for index in class.interface_indexes() {
            let name = self.number_of_some(name_index(class, index))?;
            push_some(&mut names, name)?;
        }
        names.shrink_to_fit();
        Ok(names)
    }

    /// Returns fields or methods, by the numbers of their texts.
    pub(crate) fn members(&mut self, members: Members) -> Result<Vec<MemberEntry>, NoMemory>
        requires { members.class ≡ self.old.class }
        ensures { IfOk result (λ entries. TellsMembers self.old self.new members.entry.left entries.items) }
    {
        let class = self.class;
        let mut entries = Vec::new(self.alloc);
        for member in members {
            let entry = self.member(member_entry(class, &member))?;
            push_some(&mut entries, entry)?;
        }
        entries.shrink_to_fit();
        Ok(entries)
    }

    /// Returns the numbers of members in the order in which they are searched.
    pub(crate) fn order(&self, members: &[MemberEntry]) -> Result<Vec<u16>, NoMemory>
        requires few { length members.now < 2 ^ 16 }
        requires below { AreBelow (length self.now.texts) members.now }
        ensures { IfOk result (λ order. IsOrder (map (member_shown self.now.texts) members.now) order.items) }
    {
        order_members(self.alloc, &self.texts, members)
    }

    /// Returns the numbers of the names, each once, where it occurs first.
    pub(crate) fn once(&self, names: Vec<u16>) -> Result<Vec<u16>, NoMemory>
        requires { All (λ name. name < length self.now.texts) names.items }
        ensures below { IfOk result (λ kept. All (λ name. name < length self.now.texts) kept.items) }
        ensures once { IfOk result (λ kept. map (text_at self.now.texts) kept.items ≡ once (map (text_at self.now.texts) names.items)) }
    {
        once(self.alloc, &self.texts, names)
    }

    /// Returns a member by the numbers of its texts, for a member by indexes, if there is one.
    fn member(&mut self, entry: Option<MemberEntry>) -> Result<Option<MemberEntry>, NoMemory>
        ensures { IfOk result (TellsMember self.old self.new entry) }
    {
        let Some(entry) = entry else {
            return Ok(None);
        };
        let name = self.number(entry.name)?;
        let descriptor = self.number(entry.descriptor)?;
        Ok(Some(MemberEntry {
            name,
            descriptor,
            flags: entry.flags,
        }))
    }

    /// Returns the references, in ascending order of index.
    pub(crate) fn references(&mut self) -> Result<Vec<ReferenceEntry>, NoMemory>
        ensures { IfOk result (λ entries. Tells self.old self.new
            (λ texts. map (reference_shown texts) entries.items ≡ references_in self.old.class)) }
    {
        let class = self.class;
        let room = class.constant_count() as usize / 2;
        let mut entries = Vec::with_capacity(self.alloc, room)?;
        for index in 1..class.constant_count() {
            let entry = self.reference(reference_entry(class, index))?;
            push_some(&mut entries, entry)?;
        }
        entries.shrink_to_fit();
        Ok(entries)
    }

    /// Returns a reference by the numbers of its texts, for a reference by indexes, if there is one.
    fn reference(
        &mut self,
        entry: Option<ReferenceEntry>,
    ) -> Result<Option<ReferenceEntry>, NoMemory>
        ensures { IfOk result (TellsReference self.old self.new entry) }
    {
        let Some(entry) = entry else {
            return Ok(None);
        };
        let class = self.number(entry.class)?;
        let name = self.number(entry.name)?;
        let descriptor = self.number(entry.descriptor)?;
        Ok(Some(ReferenceEntry {
            index: entry.index,
            kind: entry.kind,
            class,
            name,
            descriptor,
        }))
    }
}

/// Returns the number that an index has.
fn known(numbers: &[Option<u16>], index: u16) -> Option<u16>
    ensures { result ≡ slice_index_or numbers.now index None }
{
    *numbers.get(index as usize)?
}
