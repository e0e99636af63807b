//! The references of a class, shared with its facts.

ghost use Rattle.std.specs.Prelude.{◌≡◌, IfOk, IsTrue, length, option_map, slice_get};
ghost use Rattle.std.specs.Option.{option_copied};
ghost use Rattle.jc_classes.specs.Lent.{reference_lent};
ghost use Rattle.jc_classes.specs.Worlds.{text_of};

use crate::facts::ReferenceEntry;
use crate::reference::Reference;
use crate::text_list::TextList;
use jc_base::NoMemory;
use std::marker::Model;
use std::rc::Rc;

/// The references of a class, in ascending order of the indexes of their constants. They share their texts with the
/// facts of the class. The model is the list of references.
#[derive(Drop)]
pub struct References {
    pub(crate) texts: Rc<TextList>,
    pub(crate) entries: Rc<Vec<ReferenceEntry>>,
}

impl Model for References {
    ghost use Rattle.std.specs.Prelude.{List, map};
    ghost use Rattle.jc_classes.specs.Facts as specs;
    ghost use Rattle.jc_classes.specs.inside.FactsShown.{reference_shown};

    ghost Value = { List specs.Reference };

    ghost view = { λ a. map (reference_shown a.texts.value) a.entries.value.items };
}

impl References {
    /// Returns the number of references. Does not allocate.
    pub fn len(&self) -> usize
        ensures { result ≡ length self.now }
    {
        self.entries.as_ref().len()
    }

    /// Returns the reference at `number`, from 0, or `None` after the last. Does not allocate.
    pub fn at(&self, number: usize) -> Option<Reference<'_>>
        ensures { option_map reference_lent result ≡ slice_get self.now number }
    {
        match self.entries.as_ref().get(number) {
            Some(entry) => Some(entry.lend(self.texts.as_ref())),
            None => None,
        }
    }

    /// Returns the name of the class that the reference at `number` names. If it names an array, returns the descriptor
    /// of the array. Does not allocate.
    pub fn class(&self, number: usize) -> Option<&[u8]>
        ensures { option_copied result ≡ option_map (λ r. text_of r.named) (slice_get self.now number) }
    {
        let entry = self.entries.as_ref().get(number)?;
        Some(self.texts.as_ref().text(entry.class as usize))
    }

    /// Returns whether `other` is known to have the same references. It may return `false` for equal references whose
    /// texts are numbered in another order. Does not allocate.
    pub fn is_same(&self, other: &References) -> bool
        ensures { IsTrue result → self.now ≡ other.now }
    {
        self.entries.as_ref().as_slice() == other.entries.as_ref().as_slice()
            && self.texts.as_ref().is_same(other.texts.as_ref())
    }

    /// Returns the same references, which are shared and not copied.
    ///
    /// Returns `NoMemory` only when the strong count of the `Rc` would overflow.
    pub fn share(&self) -> Result<References, NoMemory>
        ensures { IfOk result (λ references. references ≡ self.now) }
    {
        Ok(References {
            texts: self.texts.clone()?,
            entries: self.entries.clone()?,
        })
    }
}
