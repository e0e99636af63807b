//! An index from names to the classes that depend on them.

ghost use Rattle.std.specs.Prelude.{◌≡◌, ◌&&◌, not, true, [], Some, IfSome, OnErr, OnOk, slice_get};
ghost use Rattle.std.specs.FinMap as map;
ghost use Rattle.std.specs.Iterator.{YieldsFirstRef, item_count};
ghost use Rattle.std.specs.Option.{option_copied, option_map};
ghost use Rattle.std.specs.List.Sorted.{IsStrictlySortedBy};
ghost use Rattle.jc_classes.specs.NameLists.{has, Lists};
ghost use Rattle.jc_classes.specs.Names.{Name, name_cmp, names_of, same_name};
ghost use Rattle.jc_index.specs.Indexes.{HaveUsers, Linked, LinkedAt, LinkedAtSome, Unlinked, UnlinkedAt, has_but, is_key, users_of};

use crate::name_list::NameList;
use crate::packed_names::PackedNames;
use jc_base::{ByteMap, NoMemory, byte_map};
use std::alloc::Global;
use std::marker::Model;

/// An index from names to their users, which are names too. Each list of users is in ascending order, without
/// duplicates. The index has only names that have a user. Its model is a map from names to lists of names.
#[derive(Drop)]
pub struct Index {
    alloc: Global,
    lists: ByteMap<NameList>,
}

impl Model for Index {
    ghost use Rattle.std.specs.Coded.{coded_list, coded_ℕ};
    ghost use Rattle.std.specs.FinMap as map;
    ghost use Rattle.jc_index.specs.Indexes.{UserLists};
    ghost use Rattle.jc_index.specs.inside.IsIndex.{IsIndex};

    ghost Value = { UserLists };

    ghost coded = { map.code (coded_list coded_ℕ) (coded_list (coded_list coded_ℕ)) };

    ghost view = { λ a. a.lists };

    ghost invariant = { λ a. IsIndex a.lists };
}

impl Index {
    /// Creates an index without users. Does not allocate.
    pub fn new(alloc: Global) -> Index
        ensures { (name : Name) → users_of result name ≡ [] }
    {
        Index {
            alloc,
            lists: ByteMap::new(alloc),
        }
    }

    /// States that each name of the index has a user. Has no effect.
    pub fn names_have_users(&self)
        ensures { HaveUsers self.now }
    {
        let _lists = &self.lists;
    }

    /// Returns the users of a name in ascending order, without duplicates. Does not allocate.
    pub fn users(&self, name: &[u8]) -> &[Vec<u8>]
        ensures users { names_of result.now ≡ users_of self.now name.now }
        ensures rises { IsStrictlySortedBy name_cmp (users_of self.now name.now) }
    {
        match self.lists.get(name) {
            Some(list) => list.names(),
            None => &[],
        }
    }

    /// Returns the list of users of a name, if it has any. Does not allocate.
    pub fn list(&self, name: &[u8]) -> Option<&NameList>
        ensures { option_copied result ≡ map.get self.now name.now }
    {
        self.lists.get(name)
    }

    /// Returns the name at a place in the order of [`Index::keys`], from 0, with its users. Returns `None` after the
    /// last. Takes time linear in the place. Does not allocate.
    pub fn nth(&self, place: usize) -> Option<(&[u8], &NameList)>
        ensures name { option_map (λ entry. entry.0.now) result ≡ slice_get (map.keys self.now) place }
        ensures list { IfSome result (λ entry. map.get self.now entry.0.now ≡ Some entry.1.now) }
    {
        self.lists.iter().nth(place)
    }

    /// Returns an iterator over the names that have users, in ascending order. Does not allocate.
    pub fn keys(&self) -> Keys<'_>
        ensures { Lists result (λ name. is_key self.now name ≡ true) }
    {
        Keys {
            keys: self.lists.keys(),
        }
    }

    /// Adds a user to the list of a name. Returns `NoMemory` only when an allocation fails, and then the index does not
    /// change.
    pub fn link(&mut self, name: &[u8], user: &[u8]) -> Result<(), NoMemory>
        ensures ok { OnOk result (Linked self.old self.new name.now user.now) }
        ensures err { OnErr result (self.new ≡ self.old) }
    {
        let user = Vec::from_slice(self.alloc, user)?;
        if let Some(list) = self.lists.get_mut(name) {
            list.add(user)?;
            return Ok(());
        }
        let name = Vec::from_slice(self.alloc, name)?;
        let list = NameList::one(self.alloc, user)?;
        self.lists.insert(name, list)?;
        Ok(())
    }

    /// Removes a user from the list of a name, if the list has it. Does not allocate.
    pub fn unlink(&mut self, name: &[u8], user: &[u8])
        ensures { Unlinked self.old self.new name.now user.now }
    {
        if let Some(list) = self.lists.get_mut(name) {
            list.remove(user);
            if list.is_empty() {
                self.lists.remove(name);
            }
        }
    }

    /// Adds a user to the list of each of these names. Returns `NoMemory` only when an allocation fails. Then the user
    /// may have been added to some of the lists.
    pub fn link_all(&mut self, names: &PackedNames, user: &[u8]) -> Result<(), NoMemory>
        ensures ok { OnOk result (LinkedAt self.old self.new (has names.now) user.now) }
        ensures err { OnErr result (LinkedAtSome self.old self.new (has names.now) user.now) }
    {
        let none = PackedNames::new(self.alloc);
        self.link_all_but(names, &none, user)
    }

    /// Adds a user to the list of each name of `names` that is not one of `others`. Returns `NoMemory` only when an
    /// allocation fails. Then the user may have been added to some of the lists.
    pub fn link_all_but(
        &mut self,
        names: &PackedNames,
        others: &PackedNames,
        user: &[u8],
    ) -> Result<(), NoMemory>
        ensures ok { OnOk result (LinkedAt self.old self.new (has_but names.now others.now) user.now) }
        ensures err { OnErr result (LinkedAtSome self.old self.new (has_but names.now others.now) user.now) }
    {
        if names.is_same(others) {
            return Ok(());
        }
        let mut near = 0;
        for place in 0..names.len() {
            near = self.link_unless(names.name(place), near, others, user)?;
        }
        Ok(())
    }

    /// Adds a user to the list of a name, unless the name is one of `others`. The search in `others` compares the name
    /// at the place `near` first. Returns the place to compare first for the next name.
    fn link_unless(
        &mut self,
        name: &[u8],
        near: usize,
        others: &PackedNames,
        user: &[u8],
    ) -> Result<usize, NoMemory>
        ensures ok { OnOk result (LinkedAt self.old self.new (λ n. same_name n name.now && not (has others.now n)) user.now) }
        ensures err { OnErr result (self.new ≡ self.old) }
    {
        match others.find_near(near, name) {
            Ok(at) => Ok(at.saturating_add(1)),
            Err(at) => {
                self.link(name, user)?;
                Ok(at)
            }
        }
    }

    /// Removes a user from the list of each of these names. Does not allocate.
    pub fn unlink_all(&mut self, names: &PackedNames, user: &[u8])
        ensures { UnlinkedAt self.old self.new (has names.now) user.now }
    {
        for place in 0..names.len() {
            self.unlink(names.name(place), user);
        }
    }

    /// Removes a user from the list of each name of `names` that is not one of `others`. Does not allocate.
    pub fn unlink_all_but(&mut self, names: &PackedNames, others: &PackedNames, user: &[u8])
        ensures { UnlinkedAt self.old self.new (has_but names.now others.now) user.now }
    {
        if names.is_same(others) {
            return;
        }
        let mut near = 0;
        for place in 0..names.len() {
            near = self.unlink_unless(names.name(place), near, others, user);
        }
    }

    /// Removes a user from the list of a name, unless the name is one of `others`. Searches as `link_unless` does. Does
    /// not allocate.
    fn unlink_unless(
        &mut self,
        name: &[u8],
        near: usize,
        others: &PackedNames,
        user: &[u8],
    ) -> usize
        ensures { UnlinkedAt self.old self.new (λ n. same_name n name.now && not (has others.now n)) user.now }
    {
        match others.find_near(near, name) {
            Ok(at) => at.saturating_add(1),
            Err(at) => {
                self.unlink(name, user);
                at
            }
        }
    }
}

/// An iterator over the names of an [`Index`] that have users, in ascending order. Its model is the list of those that
/// are left.
#[derive(Drop)]
pub struct Keys<'i> {
    keys: byte_map::Keys<'i, NameList>,
}

impl<'i> Model for Keys<'i> {
    ghost use Rattle.std.specs.Prelude.{List};
    ghost use Rattle.jc_classes.specs.Names.{Name};

    ghost Value = { List Name };

    ghost view = { λ a. a.keys };
}

impl<'i> Iterator for Keys<'i> {
    type Item = &'i [u8];

    ghost next_gives = { YieldsFirstRef (λ left. left) };

    ghost remaining = { item_count (λ left. left) };

    fn next(&mut self) -> Option<&'i [u8]> {
        self.keys.next()
    }
}
