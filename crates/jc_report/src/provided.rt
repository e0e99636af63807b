//! The rows that classes provide.

ghost use Rattle.std.specs.Prelude.{map};
ghost use Rattle.std.specs.Iterator.{YieldsFirstBy, item_count};
ghost use Rattle.std.specs.List.Sorted.{IsStrictlySortedBy};
ghost use Rattle.jc_classes.specs.Names.{name_cmp};
ghost use Rattle.jc_report.specs.ClassRows.{provided_rows};
ghost use Rattle.jc_report.specs.Reports.{GivesRow, name_of};
ghost use Rattle.jc_report.specs.Rows.{AreRows};
ghost use Rattle.jc_report.specs.RowView.{row_lent};
ghost use Rattle.jc_report.specs.inside.ProvidedInOrder.{rows_left};

use crate::class_iterator::{ClassIterator, ClassesLeft};
use crate::provided_rows::{ProvidedRows, provided_in_order};
use crate::row::Row;
use std::marker::Model;

/// An iterator over the rows that the classes of a report provide, sorted. The rows are borrowed from the facts of the
/// classes. Its model is the list of the rows that are left.
#[derive(Drop)]
pub struct Provided<'a, C: ClassesLeft> {
    pub(crate) classes: C,
    /// The rows of the current class that are left.
    pub(crate) rows: Option<ProvidedRows<'a>>,
}

impl<'a, C: ClassesLeft> Model for Provided<'a, C> {
    ghost use Rattle.std.specs.Prelude.{◌++◌, List};
    ghost use Rattle.jc_report.specs.Rows as specs;
    ghost use Rattle.jc_report.specs.inside.ProvidedInOrder.{provided_in, rows_left};

    ghost Value = { List specs.Row };

    ghost view = { λ a. rows_left a.rows ++ provided_in (C.left a.classes) };
}

impl<'a, C: ClassIterator<'a>> Provided<'a, C> {
    /// Returns an iterator over the rows that these classes provide. It is sorted if the classes are sorted by name.
    /// Does not allocate.
    pub fn of(classes: C) -> Provided<'a, C>
        ensures { IsStrictlySortedBy name_cmp (map name_of (C.left classes)) → AreRows result (GivesRow provided_rows (C.left classes)) }
    {
        Provided {
            classes,
            rows: None,
        }
    }
}

impl<'a, C: ClassIterator<'a> + Drop> Iterator for Provided<'a, C> {
    type Item = Row<'a>;

    ghost next_gives = { YieldsFirstBy row_lent (λ left. left) };

    ghost remaining = { item_count (λ left. left) };

    fn next(&mut self) -> Option<Row<'a>> {
        loop {
            if let Some(row) = next_row(&mut self.rows) {
                return Some(row);
            }
            let class = self.classes.next_class()?;
            self.rows = Some(provided_in_order(class.facts, class.part));
        }
    }
}

/// Returns the next row of the current class, if there is one.
fn next_row<'a>(rows: &mut Option<ProvidedRows<'a>>) -> Option<Row<'a>>
    ensures { YieldsFirstBy row_lent rows_left rows.old result rows.new }
{
    match rows {
        Some(rows) => rows.next(),
        None => None,
    }
}
