//! The errors of a tree of class files.

ghost use Rattle.std.specs.Prelude.{◌≡◌, ◌==◌, ◌≤◌, ◌&&◌, ◌||◌, [], length, not, slice_index_or, IfOk};
ghost use Rattle.jc_link.specs.Meters.{counted};
ghost use Rattle.jc_report.specs.ErrorsText.{asked_lent, has_error_among, has_inheritance_error, is_asked};
ghost use Rattle.jc_report.specs.Files.{Files};
ghost use Rattle.jc_report.specs.Reports.{name_of};
ghost use Rattle.jc_report.specs.TreeErrors.{IsTreeErrors, is_any};
ghost use Rattle.jc_report.specs.Trees.{IsTree};

use crate::asked::{Asked, is_asked};
use crate::report::{Class, TreeReport};
use crate::tree::Tree;
use jc_base::NoMemory;
use jc_link::{ClassGraph, Meter, Outside, PartMaker};
use jc_resolve::{InheritanceErrors, Unimplemented};
use std::alloc::Global;
use std::marker::Model;

/// The report of a tree, and what it does not have: the errors of inheritance of its classes, and the ABSTRACT methods for
/// which they have no body.
#[derive(Drop)]
pub struct TreeErrors<'t> {
    report: TreeReport<'t>,
    /// The errors of inheritance of each class, in the order of the classes.
    inheritance: Vec<InheritanceErrors>,
    unimplemented: Unimplemented<'t>,
}

impl<'t> Model for TreeErrors<'t> {
    ghost use Rattle.jc_report.specs.Reports.{name_of};
    ghost use Rattle.jc_report.specs.TreeErrors as specs;

    ghost Value = { specs.TreeErrors };

    ghost view = { λ a. record { report = a.report; inheritance = a.inheritance.items; unimplemented = a.unimplemented } };
}

impl<'t> TreeErrors<'t> {
    /// Makes the report of a tree, and finds the errors of inheritance of each class and the methods for which it has no
    /// body. The meter counts the parts and the look-ups.
    ///
    /// Returns `NoMemory` when an allocation fails, when there are too many names for [`ClassGraph::of`], and when there
    /// are too many such methods for [`PartMaker::unimplemented`].
    pub fn make(
        alloc: Global,
        tree: &'t Tree,
        outside: &Outside,
        meter: &mut Meter,
    ) -> Result<TreeErrors<'t>, NoMemory>
        ensures errors { (f : Files) → IsTree f tree.now → IfOk result (λ e. IsTreeErrors f outside.now e) }
        ensures made { IfOk result (λ e. meter.new.made ≡ counted meter.old.made (length e.report.classes)) }
        ensures made_rise { meter.old.made ≤ meter.new.made }
        ensures asks_rise { meter.old.asks ≤ meter.new.asks }
    {
        let graph = ClassGraph::of(alloc, &tree.table, outside, meter)?;
        let mut maker = PartMaker::new(alloc, &graph)?;
        let report = TreeReport::over(alloc, tree, &mut maker, meter)?;
        let inheritance = maker.inheritance_errors(alloc)?;
        let unimplemented = maker.unimplemented(alloc)?;
        Ok(TreeErrors {
            report,
            inheritance,
            unimplemented,
        })
    }

    /// Returns the report.
    pub fn report(&self) -> &TreeReport<'t>
        ensures { result.now ≡ self.now.report }
    {
        &self.report
    }

    /// Returns the errors of inheritance of each class, in the order of the classes.
    pub(crate) fn inheritance(&self) -> &[InheritanceErrors]
        ensures { result.now ≡ self.now.inheritance }
    {
        self.inheritance.as_slice()
    }

    /// Returns the ABSTRACT methods for which each class has no body. The place of a class is its number in the order of
    /// the classes.
    pub(crate) fn unimplemented(&self) -> &Unimplemented<'t>
        ensures { result.now ≡ self.now.unimplemented }
    {
        &self.unimplemented
    }

    /// Returns whether anything that is asked for is wrong, or a class that is asked for has an error of inheritance or
    /// no body for a method.
    pub fn has_error_among(&self, asked: Asked<'_>) -> bool
        ensures { result ≡ has_error_among (asked_lent asked.entry) self.now }
    {
        self.report.wrong_among(asked)
            || has_inheritance_error(
                self.report.classes(),
                self.inheritance(),
                self.unimplemented(),
                asked,
            )
    }
}

/// Returns whether a class that is asked for has an error of inheritance or no body for a method.
fn has_inheritance_error(
    classes: &[Class<'_>],
    inheritance: &[InheritanceErrors],
    unimplemented: &Unimplemented<'_>,
    asked: Asked<'_>,
) -> bool
    ensures { result ≡ has_inheritance_error (asked_lent asked.entry) classes.now inheritance.now unimplemented.now }
{
    for place in 0..inheritance.len() {
        match classes.get(place) {
            Some(class) => {
                if has_error(class, &inheritance[place], unimplemented, place, asked) {
                    return true;
                }
            }
            None => return false,
        }
    }
    false
}

/// Returns whether the class at a place is asked for, and has an error of inheritance or no body for a method.
fn has_error(
    class: &Class<'_>,
    errors: &InheritanceErrors,
    unimplemented: &Unimplemented<'_>,
    place: usize,
    asked: Asked<'_>,
) -> bool
    ensures { result ≡ (is_asked (asked_lent asked.entry) (name_of class.now) && is_any errors.now (slice_index_or unimplemented.now place [])) }
{
    is_asked(asked, class.facts().name()) && is_any(errors, unimplemented.count(place))
}

/// Returns whether there are errors of inheritance, or methods without a body.
fn is_any(errors: &InheritanceErrors, unimplemented: usize) -> bool
    ensures { result ≡ (errors.now.extends_final || not (length errors.now.overridden == 0) || not (unimplemented == 0)) }
{
    errors.extends_final() || !errors.overridden().is_empty() || unimplemented > 0
}
