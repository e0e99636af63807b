//! References of a class file that resolve to the same answer. A class file may have thousands of them.

ghost use Rattle.std.specs.Prelude.{length, map, IfOk, IsTrue};
ghost use Rattle.jc_classes.specs.Facts.{AreAlike, AreNumbers};
ghost use Rattle.jc_classes.specs.declared.alike.Asked.{Asked as AskedValue};
ghost use Rattle.jc_classes.specs.inside.Alike.{AskAlike};

use crate::facts::{Facts, ReferenceEntry};
use crate::reference::ReferenceKind;
use jc_base::NoMemory;
use std::alloc::Global;

/// With fewer references than this, equal references are not looked for.
const FEW: usize = 256;

/// The kind and the texts of a reference, by their numbers, and the number of the reference.
#[derive(Clone, Copy, PartialEq, Eq, PartialOrd, Ord)]
struct Asked {
    kind: ReferenceKind,
    class: u16,
    name: u16,
    descriptor: u16,
    number: usize,
}

impl Facts {
    /// Returns whether two references, given by number, have the same kind, class and key. It compares the numbers of
    /// their texts, so it returns `false` for equal texts in several constants. Does not allocate.
    pub fn are_alike(&self, one: usize, other: usize) -> bool
        ensures { IsTrue result → AreAlike self.now.references one other }
    {
        let entries = self.inside.references.as_ref().as_slice();
        match (entries.get(one), entries.get(other)) {
            (Some(one), Some(other)) => ask_alike(one, other),
            _ => false,
        }
    }

    /// Returns the numbers of all references, with equal references next to each other. It compares the numbers of
    /// their texts, as `are_alike` does. If there are fewer than 256 references, they are in ascending order instead.
    ///
    /// Returns `NoMemory` only when an allocation fails.
    pub fn alike_references(&self, alloc: Global) -> Result<Vec<usize>, NoMemory>
        ensures { IfOk result (λ numbers. AreNumbers (length self.now.references) numbers.items) }
    {
        let entries = self.inside.references.as_ref().as_slice();
        if entries.len() < FEW {
            return in_turn(alloc, entries.len());
        }
        let asked = ask_in_order(alloc, entries)?;
        let mut numbers = Vec::with_capacity(alloc, asked.len())?;
        for one in &asked {
            numbers.push(one.number)?;
        }
        Ok(numbers)
    }
}

/// Returns whether two references are of one kind and have their texts in the same constants.
fn ask_alike(one: &ReferenceEntry, other: &ReferenceEntry) -> bool
    ensures { IsTrue result → AskAlike one.now other.now }
{
    one.kind == other.kind
        && one.class == other.class
        && one.name == other.name
        && one.descriptor == other.descriptor
}

/// Returns the numbers below a count.
fn in_turn(alloc: Global, count: usize) -> Result<Vec<usize>, NoMemory>
    ensures { IfOk result (λ numbers. AreNumbers count numbers.items) }
{
    let mut numbers = Vec::with_capacity(alloc, count)?;
    for number in 0..count {
        numbers.push(number)?;
    }
    Ok(numbers)
}

/// Returns the kind and the texts of each reference, sorted.
fn ask_in_order(alloc: Global, entries: &[ReferenceEntry]) -> Result<Vec<Asked>, NoMemory>
    ensures { IfOk result (λ asked. AreNumbers (length entries.now) (map (λ (a : AskedValue). a.number) asked.items)) }
{
    let mut asked = Vec::with_capacity(alloc, entries.len())?;
    for number in 0..entries.len() {
        let entry = entries[number];
        asked.push(Asked {
            kind: entry.kind,
            class: entry.class,
            name: entry.name,
            descriptor: entry.descriptor,
            number,
        })?;
    }
    asked.sort_unstable();
    Ok(asked)
}
