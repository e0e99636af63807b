//! An index from rows to the classes that require them.

ghost use Rattle.std.specs.Prelude.{◌≡◌, ◌&&◌, not, true, [], OnErr, OnOk, map as map_each, slice_get};
ghost use Rattle.std.specs.FinMap as map;
ghost use Rattle.std.specs.Iterator.{YieldsFirstBy, item_count};
ghost use Rattle.std.specs.Option.{option_copied, option_map};
ghost use Rattle.jc_classes.specs.NameLists.{has};
ghost use Rattle.jc_classes.specs.Names.{Name, same_name};
ghost use Rattle.jc_index.specs.Indexes.{HaveUsers, Linked, LinkedAt, LinkedAtSome, Unlinked, UnlinkedAt, has_but, users_of};
ghost use Rattle.jc_report.specs.RequiredRows.{AreOf, spelled, spelled_all};
ghost use Rattle.jc_report.specs.RowKeys.{row_key};
ghost use Rattle.jc_report.specs.RowView.{row_lent};

use crate::row_list::RowList;
use crate::row_map::{RowMap, Rows};
use jc_base::NoMemory;
use jc_index::NameList;
use jc_report::{RequiredRow, Row};
use std::alloc::Global;
use std::marker::Model;

/// A map from rows to their users. The users of a row are the names of the classes that require it, in ascending order.
/// The model is a map from the keys of rows to lists of names.
#[derive(Drop)]
pub struct RowIndex {
    alloc: Global,
    lists: RowMap<NameList>,
}

impl Model for RowIndex {
    ghost use Rattle.std.specs.Coded.{coded_list, coded_ℕ};
    ghost use Rattle.std.specs.FinMap as map;
    ghost use Rattle.jc_index.specs.Indexes.{UserLists};
    ghost use Rattle.jc_index.specs.inside.IsIndex.{IsIndex};

    ghost Value = { UserLists };

    ghost coded = { map.code (coded_list coded_ℕ) (coded_list (coded_list coded_ℕ)) };

    ghost view = { λ a. a.lists };

    ghost invariant = { λ a. IsIndex a.lists };
}

impl RowIndex {
    /// Returns an index without users. Does not allocate.
    pub fn new(alloc: Global) -> RowIndex
        ensures { (key : Name) → users_of result key ≡ [] }
    {
        RowIndex {
            alloc,
            lists: RowMap::new(alloc),
        }
    }

    /// States that each row in the index has a user. Has no effect.
    pub fn rows_have_users(&self)
        ensures { HaveUsers self.now }
    {
        let _lists = &self.lists;
    }

    /// Returns the users of the row at `place` in the order of rows, counted from 0, if there is such a row. Takes time
    /// linear in `place`. Does not allocate.
    pub fn nth(&self, place: usize) -> Option<&NameList>
        ensures { option_copied result ≡ option_map (λ entry. entry.1) (slice_get (map.entries self.now) place) }
    {
        match self.lists.iter().nth(place) {
            Some((_, users)) => Some(users),
            None => None,
        }
    }

    /// Returns the rows that have users, sorted. Does not allocate.
    pub fn rows(&self) -> Required<'_>
        ensures { map_each row_key result ≡ map.keys self.now }
    {
        Required {
            rows: self.lists.rows(),
        }
    }

    /// Adds a user to a row.
    fn link(&mut self, row: &RequiredRow, user: &[u8]) -> Result<(), NoMemory>
        ensures ok { OnOk result (Linked self.old self.new (spelled row.now) user.now) }
        ensures err { OnErr result (self.new ≡ self.old) }
    {
        let user = Vec::from_slice(self.alloc, user)?;
        if let Some(list) = self.lists.get_mut(row) {
            list.add(user)?;
            return Ok(());
        }
        let shared = row.share()?;
        let list = NameList::one(self.alloc, user)?;
        self.lists.insert(shared, list)?;
        Ok(())
    }

    /// Removes a user from a row. Does not allocate.
    fn unlink(&mut self, row: &RequiredRow, user: &[u8])
        ensures { Unlinked self.old self.new (spelled row.now) user.now }
    {
        if let Some(list) = self.lists.get_mut(row) {
            list.remove(user);
            if list.is_empty() {
                self.lists.remove(row);
            }
        }
    }

    /// Adds a user to each of these rows. After `NoMemory`, the user may have been added to some of them.
    pub fn link_all(&mut self, rows: &RowList, user: &[u8]) -> Result<(), NoMemory>
        ensures ok { OnOk result (LinkedAt self.old self.new (has (spelled_all rows.now)) user.now) }
        ensures err { OnErr result (LinkedAtSome self.old self.new (has (spelled_all rows.now)) user.now) }
    {
        let none = RowList::new(self.alloc);
        self.link_all_but(rows, &none, user)
    }

    /// Adds a user to each row of `rows` that `others` lacks. After `NoMemory`, the user may have been added to some of
    /// them.
    pub fn link_all_but(
        &mut self,
        rows: &RowList,
        others: &RowList,
        user: &[u8],
    ) -> Result<(), NoMemory>
        ensures ok { OnOk result (LinkedAt self.old self.new (has_but (spelled_all rows.now) (spelled_all others.now)) user.now) }
        ensures err { OnErr result (LinkedAtSome self.old self.new (has_but (spelled_all rows.now) (spelled_all others.now)) user.now) }
    {
        let is_like = rows.is_like(others);
        let mut near = 0;
        for row in rows.rows() {
            near = self.link_unless(row, near, others, is_like, user)?;
        }
        Ok(())
    }

    /// Adds a user to a row, unless `others` has the row. It tries the place `near` first, and compares there by number
    /// if `is_like` is set. Returns the place at which to try for the next row.
    fn link_unless(
        &mut self,
        row: &RequiredRow,
        near: usize,
        others: &RowList,
        is_like: bool,
        user: &[u8],
    ) -> Result<usize, NoMemory>
        requires { is_like ≡ true → AreOf row.now.references others.now }
        ensures ok { OnOk result (LinkedAt self.old self.new (λ n. same_name n (spelled row.now) && not (has (spelled_all others.now) n)) user.now) }
        ensures err { OnErr result (self.new ≡ self.old) }
    {
        match others.find_near(near, row, is_like) {
            Ok(at) => Ok(at.saturating_add(1)),
            Err(at) => {
                self.link(row, user)?;
                Ok(at)
            }
        }
    }

    /// Removes a user from each of these rows. Does not allocate.
    pub fn unlink_all(&mut self, rows: &RowList, user: &[u8])
        ensures { UnlinkedAt self.old self.new (has (spelled_all rows.now)) user.now }
    {
        for row in rows.rows() {
            self.unlink(row, user);
        }
    }

    /// Removes a user from each row of `rows` that `others` lacks. Does not allocate.
    pub fn unlink_all_but(&mut self, rows: &RowList, others: &RowList, user: &[u8])
        ensures { UnlinkedAt self.old self.new (has_but (spelled_all rows.now) (spelled_all others.now)) user.now }
    {
        let is_like = rows.is_like(others);
        let mut near = 0;
        for row in rows.rows() {
            near = self.unlink_unless(row, near, others, is_like, user);
        }
    }

    /// Removes a user from a row, unless `others` has the row. Returns the place at which to try for the next row. Does
    /// not allocate.
    fn unlink_unless(
        &mut self,
        row: &RequiredRow,
        near: usize,
        others: &RowList,
        is_like: bool,
        user: &[u8],
    ) -> usize
        requires { is_like ≡ true → AreOf row.now.references others.now }
        ensures { UnlinkedAt self.old self.new (λ n. same_name n (spelled row.now) && not (has (spelled_all others.now) n)) user.now }
    {
        match others.find_near(near, row, is_like) {
            Ok(at) => at.saturating_add(1),
            Err(at) => {
                self.unlink(row, user);
                at
            }
        }
    }
}

/// An iterator over the rows of a [`RowIndex`], sorted. The model is the list of the rows that are left.
#[derive(Drop)]
pub struct Required<'i> {
    rows: Rows<'i, NameList>,
}

impl<'i> Model for Required<'i> {
    ghost use Rattle.std.specs.Prelude.{List};
    ghost use Rattle.jc_report.specs.Rows.{Row};

    ghost Value = { List Row };

    ghost view = { λ a. a.rows };
}

impl<'i> Iterator for Required<'i> {
    type Item = Row<'i>;

    ghost next_gives = { YieldsFirstBy row_lent (λ left. left) };

    ghost remaining = { item_count (λ left. left) };

    fn next(&mut self) -> Option<Row<'i>> {
        self.rows.next()
    }
}
