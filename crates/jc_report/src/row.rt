//! The rows that a report lists as provided or required.

ghost use Rattle.std.specs.Prelude.{◌≡◌};
ghost use Rattle.jc_report.specs.RowView.{row_lent};
ghost use Rattle.jc_report.specs.inside.RowsOfClass.{cmp_in_class};

use jc_classes::ReferenceKind;
use std::cmp::Ordering;

/// A class, with an empty name and descriptor, or a field or method and the class that a reference names or that declares
/// it. Rows are ordered by class, then by kind, then by name, then by descriptor.
#[derive(Clone, Copy, PartialEq, Eq, PartialOrd, Ord)]
pub struct Row<'a> {
    pub class: &'a [u8],
    pub kind: ReferenceKind,
    pub name: &'a [u8],
    pub descriptor: &'a [u8],
}

impl<'a> Row<'a> {
    /// Compares two rows of one class: by kind, then by name, then by descriptor. Does not allocate.
    pub(crate) fn cmp_in_class(&self, other: &Row<'_>) -> Ordering
        ensures { result ≡ cmp_in_class (row_lent self.now) (row_lent other.now) }
    {
        match self.kind.cmp(&other.kind) {
            Ordering::Equal => {}
            order => return order,
        }
        match self.name.cmp(other.name) {
            Ordering::Equal => self.descriptor.cmp(other.descriptor),
            order => order,
        }
    }
}
