//! A row that a class requires, with texts that it shares with the class.

ghost use Rattle.std.specs.Prelude.{◌≡◌, IfOk};
ghost use Rattle.std.specs.Cmp.{eq_by_cmp_equiv, on_total, partial_equiv_from_equiv, partial_order_from_agreeing_total};
ghost use Rattle.std.specs.Ordering.{as_partial_cmp, eq_by_cmp, on};
ghost use Rattle.std.proofs.Common.{refl};
ghost use Rattle.jc_base.proofs.maps.FiniteMaps.{bytes_cmp_total};
ghost use Rattle.jc_base.specs.Bytes.{bytes_cmp};
ghost use Rattle.jc_report.specs.RequiredRows.{row_numbered, row_required, spelled};
ghost use Rattle.jc_report.specs.RowView.{row_lent};
ghost use Rattle.jc_report.specs.inside.RowsOfClass.{cmp_in_class};

use crate::class_rows::{class_row, reference_row};
use crate::row::Row;
use jc_base::NoMemory;
use jc_classes::References;
use std::cmp::Ordering;

/// A row that a class requires. It holds the number of a reference and shares the references of the class, so it may
/// outlive the class. Rows are compared by their [`Row`]s.
#[derive(Drop)]
pub struct RequiredRow {
    references: References,
    number: usize,
}

impl RequiredRow {
    /// Returns the row. Does not allocate.
    pub fn row(&self) -> Row<'_>
        ensures { row_lent result ≡ row_required self.now }
    {
        match self.references.at(self.number) {
            Some(reference) => reference_row(reference),
            None => class_row(&[]),
        }
    }

    /// Returns the number of its reference among the references of the class, from 0.
    pub fn number(&self) -> usize
        ensures { result ≡ self.now.number }
    {
        self.number
    }

    /// Returns the class of the row.
    fn class(&self) -> &[u8]
        ensures { result.now ≡ (row_required self.now).class }
    {
        match self.references.class(self.number) {
            Some(class) => class,
            None => &[],
        }
    }

    /// Compares two rows of one class. Most rows that are compared differ in their class, so this is no part of `cmp`.
    #[inline(never)]
    fn cmp_in_class(&self, other: &RequiredRow) -> Ordering
        ensures { result ≡ cmp_in_class (row_required self.now) (row_required other.now) }
    {
        self.row().cmp_in_class(&other.row())
    }

    /// Returns the same row, as one more owner of the texts. Does not allocate.
    ///
    /// Returns `NoMemory` only if the texts have as many owners as can be counted.
    pub fn share(&self) -> Result<RequiredRow, NoMemory>
        ensures { IfOk result (λ row. row ≡ self.now) }
    {
        Ok(RequiredRow {
            references: self.references.share()?,
            number: self.number,
        })
    }
}

impl PartialEq for RequiredRow {
    ghost eq = { eq_by_cmp (on spelled bytes_cmp) };

    ghost laws = { partial_equiv_from_equiv (eq_by_cmp_equiv (on_total spelled bytes_cmp_total)) };

    fn eq(&self, other: &RequiredRow) -> bool {
        self.cmp(other) == Ordering::Equal
    }
}

impl Eq for RequiredRow {
    ghost laws = { eq_by_cmp_equiv (on_total spelled bytes_cmp_total) };
}

impl PartialOrd for RequiredRow {
    ghost partial_cmp = { as_partial_cmp (on spelled bytes_cmp) };

    ghost laws = { partial_order_from_agreeing_total (on spelled bytes_cmp) (on_total spelled bytes_cmp_total) (λ x y. refl) (λ x y. refl) };

    fn partial_cmp(&self, other: &RequiredRow) -> Option<Ordering> {
        Some(self.cmp(other))
    }
}

impl Ord for RequiredRow {
    ghost cmp = { on spelled bytes_cmp };

    ghost total = { on_total spelled bytes_cmp_total };

    ghost matches_partial_cmp = { λ x y. refl };

    ghost matches_eq = { λ x y. refl };

    // The other texts are looked up only if the classes are equal.
    fn cmp(&self, other: &RequiredRow) -> Ordering {
        match self.class().cmp(other.class()) {
            Ordering::Less => Ordering::Less,
            Ordering::Equal => self.cmp_in_class(other),
            Ordering::Greater => Ordering::Greater,
        }
    }
}

/// Returns the row of the reference at `number`. Does not allocate.
///
/// Returns `NoMemory` only if the references have as many owners as can be counted.
pub(crate) fn numbered(references: &References, number: usize) -> Result<RequiredRow, NoMemory>
    ensures row { IfOk result (λ row. row_required row ≡ row_numbered references.now number) }
    ensures of { IfOk result (λ row. row.references ≡ references.now) }
{
    Ok(RequiredRow {
        references: references.share()?,
        number,
    })
}
