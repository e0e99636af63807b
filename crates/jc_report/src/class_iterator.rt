//! Iterators over classes with their parts.

ghost use Rattle.std.specs.Prelude.{List};
ghost use Rattle.std.specs.Iterator.{YieldsFirstBy};
ghost use Rattle.jc_report.specs.ClassLent.{class_lent};
ghost use Rattle.jc_report.specs.Reports as reports;

use crate::lent_class::LentClass;

/// The classes that are left in a [`ClassIterator`]. This is a trait of its own because the bound of a struct may name no
/// lifetime if its trait has ghost members.
pub trait ClassesLeft {
    /// The classes that are left, in the order of their names.
    ghost left: { Self → List reports.Class };
}

/// An iterator over the classes of a report with their parts, in the order of their names.
pub trait ClassIterator<'a>: ClassesLeft {
    /// Returns the next class, or `None` if none is left. Does not allocate.
    fn next_class(&mut self) -> Option<LentClass<'a>>
        ensures { YieldsFirstBy class_lent Self.left self.old result self.new };
}
