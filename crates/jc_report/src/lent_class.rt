//! Borrowed classes with their parts.

ghost use Rattle.std.specs.Prelude.{◌≡◌, ◌↔◌, Some, option_map, slice_get};
ghost use Rattle.std.specs.Iterator.{YieldsFirstBy, item_count};
ghost use Rattle.std.specs.List.{Contains};
ghost use Rattle.jc_classes.specs.Resolution as spec;
ghost use Rattle.jc_resolve.specs.Answers.{answer_of};
ghost use Rattle.jc_report.specs.ClassAnswers.{HasAnswerAt};
ghost use Rattle.jc_classes.specs.FactsOrder.{AreByIndex};
ghost use Rattle.jc_report.specs.ClassLent.{class_lent};
ghost use Rattle.jc_report.specs.ClassRows.{provided_rows, required_rows};
ghost use Rattle.jc_report.specs.Rows.{AreRows};

use crate::class_iterator::{ClassIterator, ClassesLeft};
use crate::provided_rows::{ProvidedRows, provided_in_order};
use crate::reference_place::place_of;
use crate::report::Class;
use crate::required_rows::RequiredRows;
use jc_classes::Facts;
use jc_link::Part;
use jc_resolve::{Answer, Answers};
use std::marker::Model;
use std::slice;

/// A class of a tree or of a session: the facts of its winner, and its part. Both are borrowed.
#[derive(Clone, Copy)]
pub struct LentClass<'a> {
    pub facts: &'a Facts,
    pub part: &'a Part,
}

impl<'a> LentClass<'a> {
    /// Returns the answer to the reference of a constant, by the constant's index, or `None` if no reference has this
    /// index. Does not allocate. The references of a class file are in ascending order of index, so this is a binary
    /// search.
    pub fn answer(self, index: u16) -> Option<Answer<'a>>
        ensures { AreByIndex self.entry.facts.now.references → (a : spec.Answer) →
            (option_map answer_of result ≡ Some a) ↔ HasAnswerAt (class_lent self.entry) index a }
    {
        let number = place_of(self.facts, index);
        let reference = self.facts.reference(number)?;
        if reference.index == index {
            numbered(self.part.answers(), number)
        } else {
            None
        }
    }

    /// Returns the rows that the class provides, sorted, each once. Does not allocate.
    pub fn provided(self) -> ProvidedRows<'a>
        ensures { AreRows result (Contains (provided_rows self.entry.facts.now self.entry.part.now)) }
    {
        provided_in_order(self.facts, self.part)
    }

    /// Returns the rows that the class requires, in the order of its references. Does not allocate.
    pub fn required(self) -> RequiredRows<'a>
        ensures { result ≡ required_rows self.entry.facts.now self.entry.part.now }
    {
        RequiredRows::of(self.facts, self.part)
    }
}

/// Returns the answer to the reference at `number`, if there is one.
fn numbered(answers: &Answers, number: usize) -> Option<Answer<'_>>
    ensures { option_map answer_of result ≡ slice_get answers.now number }
{
    if number < answers.len() {
        Some(answers.at(number))
    } else {
        None
    }
}

/// An iterator over the classes of a [`crate::TreeReport`], in the order of their names. Its model is the list of the
/// classes that are left.
#[derive(Drop)]
pub struct LentClasses<'a, 't> {
    pub(crate) classes: slice::Iter<'a, Class<'t>>,
}

impl<'a, 't> Model for LentClasses<'a, 't> {
    ghost use Rattle.std.specs.Prelude.{List};
    ghost use Rattle.std.specs.Slice.Iter.{iter_rest};
    ghost use Rattle.jc_report.specs.Reports as reports;

    ghost Value = { List reports.Class };

    ghost view = { λ a. iter_rest a.classes };
}

impl<'a, 't> Iterator for LentClasses<'a, 't> {
    type Item = LentClass<'a>;

    ghost next_gives = { YieldsFirstBy class_lent (λ left. left) };

    ghost remaining = { item_count (λ left. left) };

    fn next(&mut self) -> Option<LentClass<'a>> {
        let class = self.classes.next()?;
        Some(class.lent())
    }
}

impl<'a, 't> ClassesLeft for LentClasses<'a, 't> {
    ghost left = { λ left. left };
}

impl<'a, 't> ClassIterator<'a> for LentClasses<'a, 't> {
    fn next_class(&mut self) -> Option<LentClass<'a>> {
        self.next()
    }
}
