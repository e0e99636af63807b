//! The rows that a class provides, sorted.

ghost use Rattle.std.specs.Prelude.{◌≡◌, ◌++◌, map};
ghost use Rattle.std.specs.Iterator.{YieldsFirstBy, item_count};
ghost use Rattle.std.specs.List.{Contains};
ghost use Rattle.std.specs.Option.{option_to_list};
ghost use Rattle.jc_report.specs.ClassRows.{provided_rows};
ghost use Rattle.jc_report.specs.Rows.{AreRows};
ghost use Rattle.jc_report.specs.RowView.{row_lent};
ghost use Rattle.jc_report.specs.inside.MemberRows.{open_rows};

use crate::class_rows::{class_row, provides};
use crate::member_rows::MemberRows;
use crate::row::Row;
use jc_classes::{Facts, ReferenceKind};
use jc_link::Part;
use std::marker::Model;

/// An iterator over the rows that a class provides, borrowed from its facts. Its model is the list of the rows that are
/// left.
#[derive(Drop)]
pub struct ProvidedRows<'a> {
    class: Option<Row<'a>>,
    fields: MemberRows<'a>,
    methods: MemberRows<'a>,
}

impl<'a> Model for ProvidedRows<'a> {
    ghost use Rattle.std.specs.Prelude.{◌++◌, List, map};
    ghost use Rattle.std.specs.Option.{option_to_list};
    ghost use Rattle.jc_report.specs.Rows as rows;
    ghost use Rattle.jc_report.specs.RowView.{row_lent};

    ghost Value = { List rows.Row };

    ghost view = { λ a. map row_lent (option_to_list a.class) ++ a.fields ++ a.methods };
}

/// Returns the rows that a class provides, sorted, each once. Does not allocate.
pub fn provided_in_order<'a>(facts: &'a Facts, part: &Part) -> ProvidedRows<'a>
    ensures { AreRows result (Contains (provided_rows facts.now part.now)) }
{
    if provides(facts, part) {
        rows_by(
            facts,
            Some(class_row(facts.name())),
            facts.field_order(),
            facts.method_order(),
        )
    } else {
        rows_by(facts, None, &[], &[])
    }
}

/// Returns the row of the class itself, if there is one, followed by the rows of its PUBLIC and PROTECTED members.
fn rows_by<'a>(
    facts: &'a Facts,
    class: Option<Row<'a>>,
    fields: &'a [u16],
    methods: &'a [u16],
) -> ProvidedRows<'a>
    ensures { result ≡ map row_lent (option_to_list class.entry) ++ open_rows facts.now fields.now methods.now }
{
    ProvidedRows {
        class,
        fields: MemberRows::of(facts, ReferenceKind::Field, fields),
        methods: MemberRows::of(facts, ReferenceKind::Method, methods),
    }
}

impl<'a> Iterator for ProvidedRows<'a> {
    type Item = Row<'a>;

    ghost next_gives = { YieldsFirstBy row_lent (λ left. left) };

    ghost remaining = { item_count (λ left. left) };

    fn next(&mut self) -> Option<Row<'a>> {
        if let Some(row) = self.class.take() {
            return Some(row);
        }
        if let Some(row) = self.fields.next() {
            return Some(row);
        }
        self.methods.next()
    }
}
