//! A sorted set of rows.

ghost use Rattle.std.specs.Prelude.{◌≡◌, ◌++◌, ◌∷◌, [], OnOk, map};
ghost use Rattle.std.specs.List.{Contains};
ghost use Rattle.jc_report.specs.Rows.{AreRows};
ghost use Rattle.jc_report.specs.RowView.{row_lent};
ghost use Rattle.jc_report.specs.inside.RowSets.{HoldSameRows};

use crate::row::Row;
use jc_base::NoMemory;
use std::alloc::Global;
use std::collections::BTreeSet;
use std::marker::Model;

/// A sorted set of rows.
#[derive(Drop)]
pub(crate) struct RowSet<'t> {
    rows: BTreeSet<Row<'t>>,
}

impl<'t> Model for RowSet<'t> {
    ghost use Rattle.std.specs.Prelude.{List, map};
    ghost use Rattle.jc_report.specs.Rows as specs;
    ghost use Rattle.jc_report.specs.RowView.{row_lent};

    ghost Value = { List specs.Row };

    ghost view = { λ a. map row_lent a.rows.keys };
}

impl<'t> RowSet<'t> {
    pub(crate) fn new(alloc: Global) -> RowSet<'t>
        ensures { result ≡ [] }
    {
        RowSet {
            rows: BTreeSet::new(alloc),
        }
    }

    /// Adds a row.
    pub(crate) fn insert(&mut self, row: Row<'t>) -> Result<(), NoMemory>
        ensures { OnOk result (HoldSameRows self.new (self.old ++ row_lent row.entry ∷ [])) }
    {
        self.rows.insert(row)?;
        Ok(())
    }

    /// Copies the rows into an empty list, sorted.
    pub(crate) fn copy_into(&self, rows: &mut Vec<Row<'t>>) -> Result<(), NoMemory>
        requires { map row_lent rows.old.items ≡ [] }
        ensures { OnOk result (AreRows (map row_lent rows.new.items) (Contains self.now)) }
    {
        rows.reserve_exact(self.rows.len())?;
        for row in self.rows.iter() {
            rows.push(*row)?;
        }
        Ok(())
    }
}
