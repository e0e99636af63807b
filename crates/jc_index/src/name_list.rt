//! A sorted list of names that can change.

ghost use Rattle.std.specs.Prelude.{◌≡◌, ◌∷◌, ◌↔◌, ◌||◌, ◌&&◌, not, IsTrue, OnErr, OnOk, IfErr, IfOk, [], length};
ghost use Rattle.std.specs.List.Sorted.{IsStrictlySortedBy};
ghost use Rattle.jc_classes.specs.NameLists.{has};
ghost use Rattle.jc_classes.specs.Names.{Name, name_cmp, names_of, same_name};
ghost use Rattle.jc_index.specs.inside.Places.{IsGapFor, IsNarrowed, StandsAt};

use jc_base::NoMemory;
use std::alloc::Global;
use std::cmp::Ordering;
use std::marker::Model;

/// Names in the order of their bytes, without duplicates. Its model is the list of them.
#[derive(Drop)]
pub struct NameList {
    names: Vec<Vec<u8>>,
}

impl Model for NameList {
    ghost use Rattle.std.specs.Prelude.{List};
    ghost use Rattle.std.specs.Coded.{coded_list, coded_ℕ};
    ghost use Rattle.std.specs.List.Sorted.{IsStrictlySortedBy};
    ghost use Rattle.jc_classes.specs.Names.{Name, name_cmp, names_of};

    ghost Value = { List Name };

    ghost coded = { coded_list (coded_list coded_ℕ) };

    ghost view = { λ a. names_of a.names.items };

    ghost invariant = { λ a. IsStrictlySortedBy name_cmp (names_of a.names.items) };
}

impl NameList {
    /// Creates a list of one name. Returns `NoMemory` only when an allocation fails.
    pub fn one(alloc: Global, name: Vec<u8>) -> Result<NameList, NoMemory>
        ensures { IfOk result (λ list. list ≡ name.items ∷ []) }
    {
        let mut names = Vec::with_capacity(alloc, 1)?;
        names.push(name)?;
        Ok(NameList { names })
    }

    /// Creates a list of these names: sorts them and removes duplicates. Does not allocate.
    pub fn of(names: Vec<Vec<u8>>) -> NameList
        ensures same { (name : Name) → has result name ≡ has (names_of names.items) name }
        ensures kept { IsStrictlySortedBy name_cmp (names_of names.items) → result ≡ names_of names.items }
        ensures rises { IsStrictlySortedBy name_cmp result }
    {
        let mut names = names;
        names.sort_unstable();
        names.dedup();
        NameList { names }
    }

    /// Returns the names in ascending order. Does not allocate.
    pub fn names(&self) -> &[Vec<u8>]
        ensures names { names_of result.now ≡ self.now }
        ensures rises { IsStrictlySortedBy name_cmp self.now }
    {
        self.names.as_slice()
    }

    /// Returns whether the list is empty. Does not allocate.
    pub fn is_empty(&self) -> bool
        ensures { IsTrue result ↔ (self.now ≡ []) }
    {
        self.names.is_empty()
    }

    /// Returns whether the list has a name, by a binary search. Does not allocate.
    pub fn has(&self, name: &[u8]) -> bool
        ensures { result ≡ has self.now name.now }
    {
        self.place(name).is_ok()
    }

    /// Adds a name at its place, in at most linear time. Allocates only if the list does not have the name. Returns
    /// `NoMemory` only when an allocation fails; then the list is unchanged.
    pub fn add(&mut self, name: Vec<u8>) -> Result<(), NoMemory>
        ensures ok { OnOk result ((n : Name) → has self.new n ≡ (has self.old n || same_name n name.items)) }
        ensures err { OnErr result (self.new ≡ self.old) }
    {
        match self.place(&name) {
            Ok(_) => Ok(()),
            Err(at) => Ok(self.names.insert(at, name)?),
        }
    }

    /// Removes a name, if the list has it, in at most linear time. Does not allocate.
    pub fn remove(&mut self, name: &[u8])
        ensures { (n : Name) → has self.new n ≡ (has self.old n && not (same_name n name.now)) }
    {
        if let Ok(at) = self.place(name) {
            let _ = self.names.remove(at);
        }
    }

    /// Returns the place of a name, or as an error, the place where it can be inserted.
    fn place(&self, name: &[u8]) -> Result<usize, usize>
        ensures found { IfOk result (StandsAt self.now name.now) }
        ensures absent { IfErr result (IsGapFor self.now name.now) }
    {
        let mut low = self.begin(name);
        let mut high = self.names.len();
        while low < high {
            let middle = low + (high - low) / 2;
            match self.names[middle].as_slice().cmp(name) {
                Ordering::Less => low = middle + 1,
                Ordering::Equal => return Ok(middle),
                Ordering::Greater => high = middle,
            }
        }
        Err(low)
    }

    /// Returns the place where the search for a name begins. This is the end of the list for a name after all others,
    /// so names that are added in order need no search.
    fn begin(&self, name: &[u8]) -> usize
        ensures { IsNarrowed self.now name.now result (length self.now) }
    {
        let count = self.names.len();
        if count == 0 {
            return 0;
        }
        match self.names[count - 1].as_slice().cmp(name) {
            Ordering::Less => count,
            Ordering::Equal | Ordering::Greater => 0,
        }
    }
}
