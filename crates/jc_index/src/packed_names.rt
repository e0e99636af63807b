//! A sorted list of names in one buffer.

ghost use Rattle.std.specs.Prelude.{◌≡◌, [], is_ok, length, map, IfOk, IsTrue};
ghost use Rattle.std.specs.List.Sorted.{IsStrictlySortedBy};
ghost use Rattle.jc_classes.specs.NameLists.{has};
ghost use Rattle.jc_classes.specs.Names.{Name, name_cmp};
ghost use Rattle.jc_classes.specs.Numbers.{name_at};

use jc_base::NoMemory;
use jc_classes::{TextList, same};
use std::alloc::Global;
use std::cmp::Ordering;
use std::marker::Model;

/// Names in the order of their bytes, without duplicates, in one buffer. The list does not change after it is created.
/// Its model is the list of the names.
#[derive(Drop)]
pub struct PackedNames {
    names: TextList,
}

impl Model for PackedNames {
    ghost use Rattle.std.specs.Prelude.{List};
    ghost use Rattle.std.specs.Coded.{coded_list, coded_ℕ};
    ghost use Rattle.std.specs.List.Sorted.{IsStrictlySortedBy};
    ghost use Rattle.jc_classes.specs.Names.{Name, name_cmp};

    ghost Value = { List Name };

    ghost coded = { coded_list (coded_list coded_ℕ) };

    ghost view = { λ a. a.names };

    ghost invariant = { λ a. IsStrictlySortedBy name_cmp a.names };
}

impl PackedNames {
    /// Creates an empty list. Does not allocate.
    pub fn new(alloc: Global) -> PackedNames
        ensures { result ≡ [] }
    {
        PackedNames {
            names: TextList::new(alloc),
        }
    }

    /// Creates a list of copies of these names: sorts them and removes duplicates.
    ///
    /// Returns `NoMemory` when an allocation fails, and when the names would have more than 4,294,967,295 bytes in
    /// total.
    pub fn of(alloc: Global, names: Vec<&[u8]>) -> Result<PackedNames, NoMemory>
        ensures same { IfOk result (λ packed. (name : Name) → has packed name ≡ has (map (λ n. n.now) names.entry.items) name) }
        ensures rises { IfOk result (λ packed. IsStrictlySortedBy name_cmp packed) }
    {
        let mut names = names;
        names.sort_unstable();
        names.dedup();
        let names = pack(alloc, &names)?;
        Ok(PackedNames { names })
    }

    /// Returns the number of names. Does not allocate.
    pub fn len(&self) -> usize
        ensures { result ≡ length self.now }
    {
        self.names.len()
    }

    /// Returns whether the other list has the same names. The contract covers only the result `true`. Takes time linear
    /// in the size of the buffer. Does not allocate.
    pub fn is_same(&self, other: &PackedNames) -> bool
        ensures { IsTrue result → self.now ≡ other.now }
    {
        self.names.is_same(&other.names)
    }

    /// Returns the name at `place`, counted from 0, or an empty name if there is none. Does not allocate.
    pub fn name(&self, place: usize) -> &[u8]
        ensures { result.now ≡ name_at self.now place }
    {
        self.names.text(place)
    }

    /// Returns the place of a name, or as an error, the place where it can be inserted. Compares the name at `place`
    /// first. Does not allocate.
    pub(crate) fn find_near(&self, place: usize, name: &[u8]) -> Result<usize, usize>
        ensures { is_ok result ≡ has self.now name.now }
    {
        if place < self.names.len() && same(self.names.text(place), name) {
            return Ok(place);
        }
        self.find(name)
    }

    /// Returns the place of a name by a binary search, or as an error, the place where it can be inserted.
    fn find(&self, name: &[u8]) -> Result<usize, usize>
        ensures { is_ok result ≡ has self.now name.now }
    {
        let mut low = 0;
        let mut high = self.names.len();
        while low < high {
            let middle = low + (high - low) / 2;
            match self.names.text(middle).cmp(name) {
                Ordering::Less => low = middle + 1,
                Ordering::Equal => return Ok(middle),
                Ordering::Greater => high = middle,
            }
        }
        Err(low)
    }
}

/// Copies names into one buffer without spare room.
fn pack(alloc: Global, names: &[&[u8]]) -> Result<TextList, NoMemory>
    ensures { IfOk result (λ texts. texts ≡ map (λ name. name.now) names.now) }
{
    let mut texts = TextList::with_room(alloc, names.len(), byte_count(names))?;
    for name in names {
        texts.push(name)?;
    }
    Ok(texts)
}

/// Returns the number of bytes of these names in total, or the greatest number if it is greater.
fn byte_count(names: &[&[u8]]) -> usize {
    let mut count: usize = 0;
    for name in names {
        count = count.saturating_add(name.len());
    }
    count
}
