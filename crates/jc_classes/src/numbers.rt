//! Numbers for names.
ghost use Rattle.std.specs.Prelude.{◌≡◌, ◌⊎◌, ◌<◌, ◌∷◌, [], ℕ, length, IfOk, OnErr, OnOk, None};
ghost use Rattle.std.specs.Option.{IfSome};
ghost use Rattle.std.specs.List.{All};
ghost use Rattle.jc_classes.specs.NameLists.{IsRisingOf};
ghost use Rattle.jc_classes.specs.Names.{names_of};
ghost use Rattle.jc_classes.specs.Numbers.{name_at, IsOnce, Grows, AddsNumbers};
ghost use Rattle.jc_classes.specs.inside.Numbering.{AddsPlace, digest_of, place_at};

use crate::names::same;
use crate::text_list::TextList;
use jc_base::{ByteMap, NoMemory};
use std::alloc::Global;
use std::collections::BTreeMap;
use std::collections::btree_map::Entry;
use std::hash::{FoldHasher, Hasher};
use std::marker::Model;

/// Distinct names, numbered from 0 in the order in which they were added.
#[derive(Drop)]
pub struct Numbers {
    /// The number of the first name with each digest.
    places: BTreeMap<u64, usize>,
    /// The numbers of the names whose digest an earlier name has.
    others: ByteMap<usize>,
    names: TextList,
}

impl Model for Numbers {
    ghost use Rattle.std.specs.Prelude.{List};
    ghost use Rattle.jc_classes.specs.Names.{Name};
    ghost use Rattle.jc_classes.specs.inside.Numbering.{IsDigested, place_at};

    ghost Value = { List Name };

    ghost view = { λ a. a.names };

    ghost invariant = { λ a. IsDigested (place_at a.places) a.others a.names };
}

/// Returns a 64-bit hash of a name. Names with the same hash are distinguished by their bytes.
fn digest(name: &[u8]) -> u64
    ensures { result ≡ digest_of name.now }
{
    let mut hasher = FoldHasher::default();
    hasher.write(name);
    hasher.finish()
}

/// Adds the number of a new name under its digest, or under its bytes if another name has the digest.
fn place(
    alloc: Global,
    places: &mut BTreeMap<u64, usize>,
    others: &mut ByteMap<usize>,
    digest: u64,
    name: &[u8],
    node: usize,
) -> Result<(), NoMemory>
    requires { digest ≡ digest_of name.now }
    ensures ok { OnOk result (AddsPlace (place_at places.old) (place_at places.new) others.old others.new name.now node) }
    ensures places_err { OnErr result ((d : ℕ) → place_at places.new d ≡ place_at places.old d) }
    ensures others_err { OnErr result (others.new ≡ others.old) }
{
    match places.entry(digest)? {
        Entry::Vacant(place) => {
            place.insert(node);
        }
        Entry::Occupied(_) => {
            let key = Vec::from_slice(alloc, name)?;
            others.insert(key, node)?;
        }
    }
    Ok(())
}

/// Returns copies of distinct names, in ascending order.
fn rising(alloc: Global, names: &TextList) -> Result<Vec<Vec<u8>>, NoMemory>
    requires { IsOnce names.now }
    ensures { IfOk result (λ rising. IsRisingOf (names_of rising.items) names.now) }
{
    let mut places = ByteMap::new(alloc);
    for number in 0..names.len() {
        let name = Vec::from_slice(alloc, names.text(number))?;
        places.insert(name, number)?;
    }
    places.into_keys(alloc)
}

impl Numbers {
    /// Returns an empty set of names. Does not allocate.
    pub fn new(alloc: Global) -> Numbers
        ensures { result ≡ [] }
    {
        Numbers {
            places: BTreeMap::new(alloc),
            others: ByteMap::new(alloc),
            names: TextList::new(alloc),
        }
    }

    /// Returns the number of names.
    pub fn len(&self) -> usize
        ensures { result ≡ length self.now }
    {
        self.names.len()
    }

    /// Returns the name at the number `node`. There must be such a name.
    pub fn name(&self, node: usize) -> &[u8]
        requires { node < length self.now }
        ensures { result.now ≡ name_at self.now node }
    {
        self.names.text(node)
    }

    /// Returns the number of the name with this digest, if it has one. Does not allocate.
    fn find_digested(&self, digest: u64, name: &[u8]) -> Option<usize>
        requires { digest ≡ digest_of name.now }
        ensures some { IfSome result (λ i. (i < length self.now) × (name_at self.now i ≡ name.now)) }
        ensures none { result ≡ None → (i : ℕ) → i < length self.now → name_at self.now i ≡ name.now → ⊥ }
    {
        let node = *self.places.get(&digest)?;
        if same(self.names.text(node), name) {
            return Some(node);
        }
        match self.others.get(name) {
            Some(node) => {
                let node = *node;
                Some(node)
            }
            None => None,
        }
    }

    /// Returns the number of a name. A name without a number gets the next one.
    ///
    /// Returns `NoMemory` when an allocation fails, and when the names would have more than 4,294,967,295 bytes in total.
    /// Then the names do not change.
    pub fn number(&mut self, alloc: Global, name: &[u8]) -> Result<usize, NoMemory>
        ensures node { IfOk result (λ i. (i < length self.new) × (name_at self.new i ≡ name.now)) }
        ensures grows { OnOk result (Grows self.old self.new (name.now ∷ [])) }
        ensures err { OnErr result (self.new ≡ self.old) }
    {
        let digest = digest(name);
        if let Some(node) = self.find_digested(digest, name) {
            return Ok(node);
        }
        let node = self.names.len();
        self.names.push(name)?;
        if let Ok(()) = place(
            alloc,
            &mut self.places,
            &mut self.others,
            digest,
            name,
            node,
        ) {
            return Ok(node);
        }
        self.names.pop();
        Err(NoMemory)
    }

    /// Appends the number of a name to a list. A name without a number gets the next one.
    ///
    /// Returns `NoMemory` when an allocation fails, and when the names would have more than 4,294,967,295 bytes in total.
    /// Then the list does not change, but the name may have been added.
    pub fn number_into(
        &mut self,
        alloc: Global,
        list: &mut Vec<usize>,
        name: &[u8],
    ) -> Result<(), NoMemory>
        requires { All (λ v. v < length self.old) list.old.items }
        ensures adds { OnOk result (AddsNumbers self.old list.old.items self.new list.new.items (name.now ∷ [])) }
        ensures list_err { OnErr result (list.new.items ≡ list.old.items) }
        ensures names_err { OnErr result ((self.new ≡ self.old) ⊎ Grows self.old self.new (name.now ∷ [])) }
    {
        let node = self.number(alloc, name)?;
        list.push(node)?;
        Ok(())
    }

    /// Returns copies of the names, in ascending order of their bytes.
    ///
    /// Returns `NoMemory` only when an allocation fails.
    pub fn rising(&self, alloc: Global) -> Result<Vec<Vec<u8>>, NoMemory>
        ensures { IfOk result (λ rising. IsRisingOf (names_of rising.items) self.now) }
    {
        rising(alloc, &self.names)
    }
}
