//! An ordered map from rows to values.

ghost use Rattle.std.specs.Prelude.{◌≡◌, IfOk, IfErr, OnOk, OnErr, map as map_each};
ghost use Rattle.std.specs.declared.option.Option.TheVariants.{None};
ghost use Rattle.std.specs.Option.{option_copied_mut};
ghost use Rattle.std.specs.Borrow.{LendsIf, sem};
ghost use Rattle.std.specs.Iterator.{YieldsFirstBy, item_count};
ghost use Rattle.std.specs.FinMap as map;
ghost use Rattle.jc_report.specs.RequiredRows.{spelled};
ghost use Rattle.jc_report.specs.RowKeys.{row_key};
ghost use Rattle.jc_report.specs.RowView.{row_lent};
ghost use Rattle.jc_linkage.specs.contracts.row_map.RowMap.{the_row};
ghost use Rattle.jc_linkage.specs.inside.RowMaps.{entry_lent};

use jc_report::{RequiredRow, Row};
use std::alloc::{AllocFailed, Global};
use std::collections::{BTreeMap, btree_map};
use std::marker::Model;

/// A map from rows to values, in the order of the rows. The model is a finite map from the keys of the rows.
#[derive(Drop)]
pub(crate) struct RowMap<V> {
    entries: BTreeMap<RequiredRow, V>,
}

impl<V> Model for RowMap<V> {
    ghost use Rattle.std.specs.Coded.{coded_list, coded_ℕ};
    ghost use Rattle.std.specs.FinMap as map;
    ghost use Rattle.jc_base.specs.Bytes.{bytes_cmp};
    ghost use Rattle.jc_linkage.specs.inside.RowMaps.{keyed};

    ghost Value = { map.FinMap bytes_cmp V };

    ghost coded = { map.code (coded_list coded_ℕ) V.code };

    ghost view = { λ a. map.from_entries (keyed a.entries.entries) };
}

impl<V> RowMap<V> {
    /// Returns an empty map. Does not allocate.
    pub(crate) fn new(alloc: Global) -> RowMap<V>
        ensures { result ≡ map.empty }
    {
        RowMap {
            entries: BTreeMap::new(alloc),
        }
    }

    /// Puts a value at a row, and returns the value that was there. If the map has the row, the new row is dropped.
    /// Returns an error only when an allocation for a new row fails. The error has the row and the value.
    pub(crate) fn insert(
        &mut self,
        row: RequiredRow,
        value: V,
    ) -> Result<Option<V>, AllocFailed<(RequiredRow, V)>>
        ensures before { IfOk result (λ before. before ≡ map.get self.old (spelled row)) }
        ensures ok { OnOk result (self.new ≡ map.insert self.old (spelled row) value) }
        ensures absent { OnErr result (map.get self.old (spelled row) ≡ None) }
        ensures value_returned { IfErr result (λ refused. refused.value ≡ (row, value)) }
        ensures err { OnErr result (self.new ≡ self.old) }
    {
        self.entries.insert(row, value)
    }

    /// Removes a row, and returns the value that was there. Does not allocate.
    pub(crate) fn remove(&mut self, row: &RequiredRow) -> Option<V>
        ensures before { result ≡ map.get self.old (spelled row.now) }
        ensures removed { self.new ≡ map.remove self.old (spelled row.now) }
    {
        self.entries.remove(row)
    }

    /// Returns the value at a row, for change in place. Does not allocate.
    pub(crate) fn get_mut(&mut self, row: &RequiredRow) -> Option<&mut V>
        ensures value { option_copied_mut result ≡ map.get self.old (spelled row.now) }
        ensures* writes_back { sem 𝓛 (LendsIf (the_row V.row) V.row self.entry result
            (map.insert self.entry.now (spelled row.now)) self.entry.now) }
    {
        self.entries.get_mut(row)
    }

    /// Returns the entries, sorted by row. Does not allocate.
    pub(crate) fn iter(&self) -> Iter<'_, V>
        ensures { result ≡ map.entries self.now }
    {
        Iter {
            entries: self.entries.iter(),
        }
    }

    /// Returns the rows, sorted. Does not allocate.
    pub(crate) fn rows(&self) -> Rows<'_, V>
        ensures { map_each row_key result ≡ map.keys self.now }
    {
        Rows {
            rows: self.entries.keys(),
        }
    }
}

/// An iterator over the entries of a [`RowMap`], sorted by row. The model is the list of the entries that are left.
#[derive(Drop)]
pub(crate) struct Iter<'a, V> {
    entries: btree_map::Iter<'a, RequiredRow, V>,
}

impl<'a, V> Model for Iter<'a, V> {
    ghost use Rattle.std.specs.Prelude.{List};
    ghost use Rattle.jc_classes.specs.Names.{Name};
    ghost use Rattle.jc_linkage.specs.inside.RowMaps.{keyed};

    ghost Value = { List (Name × V) };

    ghost view = { λ a. keyed a.entries };
}

impl<'a, V> Iterator for Iter<'a, V> {
    type Item = (&'a RequiredRow, &'a V);

    ghost next_gives = { YieldsFirstBy entry_lent (λ left. left) };

    ghost remaining = { item_count (λ left. left) };

    fn next(&mut self) -> Option<(&'a RequiredRow, &'a V)> {
        self.entries.next()
    }
}

/// An iterator over the rows of a [`RowMap`], sorted. The model is the list of the rows that are left.
#[derive(Drop)]
pub(crate) struct Rows<'a, V> {
    rows: btree_map::Keys<'a, RequiredRow, V>,
}

impl<'a, V> Model for Rows<'a, V> {
    ghost use Rattle.std.specs.Prelude.{List, map};
    ghost use Rattle.jc_report.specs.RequiredRows.{row_required};
    ghost use Rattle.jc_report.specs.Rows as specs;

    ghost Value = { List specs.Row };

    ghost view = { λ a. map row_required a.rows };
}

impl<'a, V> Iterator for Rows<'a, V> {
    type Item = Row<'a>;

    ghost next_gives = { YieldsFirstBy row_lent (λ left. left) };

    ghost remaining = { item_count (λ left. left) };

    fn next(&mut self) -> Option<Row<'a>> {
        Some(self.rows.next()?.row())
    }
}
