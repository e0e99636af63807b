//! The rows that a class requires, in the order of its references.

ghost use Rattle.std.specs.Prelude.{◌≡◌, ◌<◌, length, option_map};
ghost use Rattle.std.specs.Iterator.{YieldsFirstBy, item_count};
ghost use Rattle.jc_report.specs.ClassRows.{required_rows};
ghost use Rattle.jc_report.specs.RowView.{row_lent};
ghost use Rattle.jc_report.specs.inside.RequiredLeft as left;

use crate::class_rows::{is_required, reference_row};
use crate::row::Row;
use jc_classes::Facts;
use jc_link::Part;
use jc_resolve::Answers;
use std::marker::Model;

/// An iterator over the rows that a class requires, borrowed from its facts. Its model is the list of the rows that are
/// left.
#[derive(Drop)]
pub struct RequiredRows<'a> {
    facts: &'a Facts,
    answers: &'a Answers,
    number: usize,
}

impl<'a> Model for RequiredRows<'a> {
    ghost use Rattle.std.specs.Prelude.{List};
    ghost use Rattle.jc_report.specs.Rows as rows;
    ghost use Rattle.jc_report.specs.inside.RequiredLeft.{rows_from};

    ghost Value = { List rows.Row };

    ghost view = { λ a. rows_from a.facts.now.references a.answers.now a.number };
}

impl<'a> RequiredRows<'a> {
    /// Returns the rows that a class requires.
    pub(crate) fn of(facts: &'a Facts, part: &'a Part) -> RequiredRows<'a>
        ensures { result ≡ required_rows facts.now part.now }
    {
        RequiredRows {
            facts,
            answers: part.answers(),
            number: 0,
        }
    }
}

impl<'a> Iterator for RequiredRows<'a> {
    type Item = Row<'a>;

    ghost next_gives = { YieldsFirstBy row_lent (λ left. left) };

    ghost remaining = { item_count (λ left. left) };

    fn next(&mut self) -> Option<Row<'a>> {
        while self.number < self.answers.len() {
            let number = self.number;
            self.number = number + 1;
            if let Some(row) = row_at(self.facts, self.answers, number) {
                return Some(row);
            }
        }
        None
    }
}

/// Returns the row of the reference of a number, if it is required.
fn row_at<'a>(facts: &'a Facts, answers: &Answers, number: usize) -> Option<Row<'a>>
    requires { number < length answers.now }
    ensures { option_map row_lent result ≡ left.row_at facts.now.references answers.now number }
{
    if !is_required(answers.kind(number)) {
        return None;
    }
    match facts.reference(number) {
        Some(reference) => Some(reference_row(reference)),
        None => None,
    }
}
