//! References that name the same class as an earlier reference. Most of a class's references do.

ghost use Rattle.std.specs.Prelude.{◌≡◌, ℕ, Some, length, slice_get, IfOk, IfSome};
ghost use Rattle.jc_classes.specs.Facts.{IsNamedBefore};
ghost use Rattle.jc_classes.specs.inside.Alike.{IsOfOneClass};

use crate::facts::{Facts, ReferenceEntry};
use jc_base::NoMemory;
use std::alloc::Global;

impl Facts {
    /// Returns for each reference the number of an earlier reference that names the same class, if one is known. It
    /// compares the numbers of the names, so it may miss equal names in several constants.
    ///
    /// Returns `NoMemory` only when an allocation fails.
    pub fn named_before(&self, alloc: Global) -> Result<Vec<Option<usize>>, NoMemory>
        ensures size { IfOk result (λ before. length before.items ≡ length self.now.references) }
        ensures named { IfOk result (λ before. (number k : ℕ) → slice_get before.items number ≡ Some (Some k)
            → IsNamedBefore self.now.references number k) }
    {
        before_each(
            alloc,
            self.inside.references.as_ref().as_slice(),
            self.inside.texts.as_ref().len(),
        )
    }
}

/// Does this for references whose texts are numbered. `texts` is the number of texts.
fn before_each(
    alloc: Global,
    entries: &[ReferenceEntry],
    texts: usize,
) -> Result<Vec<Option<usize>>, NoMemory>
    ensures size { IfOk result (λ before. length before.items ≡ length entries.now) }
    ensures named { IfOk result (λ before. (number k : ℕ) → slice_get before.items number ≡ Some (Some k)
        → IsOfOneClass entries.now number k) }
{
    let mut last = vec![in alloc; 0usize; texts]?;
    let mut before = Vec::with_capacity(alloc, entries.len())?;
    for number in 0..entries.len() {
        before.push(note_class(&mut last, entries, number))?;
    }
    Ok(before)
}

/// Notes a reference as the last one of its class. Returns the reference that was noted before for the class, if there
/// is one. A note that is not about the class is ignored.
fn note_class(last: &mut Vec<usize>, entries: &[ReferenceEntry], number: usize) -> Option<usize>
    ensures { IfSome result (IsOfOneClass entries.now number) }
{
    let class = entries.get(number)?.class;
    let place = class as usize;
    if place >= last.len() {
        return None;
    }
    let before = last[place];
    last[place] = number;
    if before < number && entries.get(before)?.class == class {
        Some(before)
    } else {
        None
    }
}
