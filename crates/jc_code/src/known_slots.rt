//! The descriptors of methods that were parsed. Each is parsed once, although any number of constants
//! may name the same long text.

ghost use Rattle.std.specs.Prelude.{◌≡◌, IfOk, None, slice_index_or};
ghost use Rattle.jc_code.specs.inside.TextSizes.{entry_slots, slots_in, slots_of_text};

use jc_base::{MethodDesc, NoMemory};
use jc_view::{ClassView, ConstantIndex};
use std::alloc::Global;
use std::marker::Model;

/// The numbers of slots of methods' parameters, by the index of the descriptor.
///
/// A descriptor is parsed on its first use. The model is the class file.
#[derive(Drop)]
pub(crate) struct KnownSlots<'c, 'a> {
    class: &'c ClassView<'a>,
    /// `Some(None)` for a text that was parsed and is not the descriptor of a method.
    known: Vec<Option<Option<u8>>>,
}

impl<'c, 'a> Model for KnownSlots<'c, 'a> {
    ghost use Rattle.jc_view.specs.ClassFile.{ClassFile};

    ghost Value = { ClassFile };

    ghost use Rattle.jc_code.specs.inside.TextSizes.{AreKnown};

    ghost view = { λ s. s.class.now };

    ghost invariant = { λ s. AreKnown s.class.now s.known.items };
}

impl<'c, 'a> KnownSlots<'c, 'a> {
    /// Returns a table without entries. Does not allocate.
    pub(crate) fn new(alloc: Global, class: &'c ClassView<'a>) -> KnownSlots<'c, 'a>
        ensures { result ≡ class.now }
    {
        KnownSlots {
            class,
            known: Vec::new(alloc),
        }
    }

    pub(crate) fn class(&self) -> &'c ClassView<'a>
        ensures { result.now ≡ self.now }
    {
        self.class
    }

    /// Returns the number of slots, by the index of a `NameAndType`.
    pub(crate) fn by_entry(&mut self, index: ConstantIndex) -> Result<Option<u8>, NoMemory>
        ensures class { self.new ≡ self.old }
        ensures slots { IfOk result (λ slots. slots ≡ entry_slots self.old index) }
    {
        match self.class.name_and_type(index) {
            Some((_, descriptor)) => self.by_descriptor(descriptor),
            None => Ok(None),
        }
    }

    /// Returns the number of slots, by the index of a descriptor. Parses the descriptor on its first use.
    fn by_descriptor(&mut self, index: ConstantIndex) -> Result<Option<u8>, NoMemory>
        ensures class { self.new ≡ self.old }
        ensures slots { IfOk result (λ slots. slots ≡ slots_in self.old index.0) }
    {
        if let Some(slots) = known_at(&self.known, index) {
            return Ok(slots);
        }
        let Some(text) = self.class.utf8(index) else {
            return Ok(None);
        };
        let slots = slots_of(text);
        self.note(index, slots)?;
        Ok(slots)
    }

    /// Records the number of slots, by the index of a descriptor.
    fn note(&mut self, index: ConstantIndex, slots: Option<u8>) -> Result<(), NoMemory>
        requires { slots ≡ slots_in self.old index.0 }
        ensures { self.new ≡ self.old }
    {
        let place = index.0 as usize;
        if place >= self.known.len() {
            self.known.resize(place + 1, None)?;
        }
        self.known[place] = Some(slots);
        Ok(())
    }
}

/// Returns the entry at an index, if there is one.
fn known_at(known: &[Option<Option<u8>>], index: ConstantIndex) -> Option<Option<u8>>
    ensures { result ≡ slice_index_or known.now index.0 None }
{
    *known.get(index.0 as usize)?
}

/// Returns the number of slots of a method's parameters, from the text of its descriptor.
fn slots_of(text: &[u8]) -> Option<u8>
    ensures { result ≡ slots_of_text text.now }
{
    Some(MethodDesc::read(text)?.slots())
}
