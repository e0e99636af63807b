//! The rows of the PUBLIC and PROTECTED members of a class, sorted.

ghost use Rattle.std.specs.Prelude.{◌≡◌, slice_get};
ghost use Rattle.std.specs.Iterator.{YieldsFirstBy, item_count};
ghost use Rattle.std.specs.Option.{option_map};
ghost use Rattle.jc_classes.specs.Lent.{key_lent, member_lent};
ghost use Rattle.jc_report.specs.RowView.{row_lent};
ghost use Rattle.jc_report.specs.inside.MemberRows as member_rows;
ghost use Rattle.jc_report.specs.inside.MemberRows.{key_row, members_by, open_key, rows_by};

use crate::class_rows::{is_open, is_open_method};
use crate::row::Row;
use jc_classes::{Facts, Key, Member, ReferenceKind, same};
use std::marker::Model;
use std::slice;

/// An iterator over the rows of the PUBLIC and PROTECTED fields, or methods, of a class. It follows an order of the
/// members' numbers. If adjacent members have the same name and descriptor, only the first has a row. Its model is the
/// list of the rows that are left.
#[derive(Drop)]
pub(crate) struct MemberRows<'a> {
    facts: &'a Facts,
    kind: ReferenceKind,
    order: slice::Iter<'a, u16>,
    last: Option<Key<'a>>,
}

impl<'a> Model for MemberRows<'a> {
    ghost use Rattle.std.specs.Prelude.{List};
    ghost use Rattle.std.specs.Option.{option_map};
    ghost use Rattle.std.specs.Slice.Iter.{iter_rest};
    ghost use Rattle.jc_classes.specs.Lent.{key_lent};
    ghost use Rattle.jc_report.specs.Rows as rows;
    ghost use Rattle.jc_report.specs.inside.MemberRows.{rows_after};

    ghost Value = { List rows.Row };

    ghost view = { λ a. rows_after a.kind a.facts.now (option_map key_lent a.last) (iter_rest a.order) };
}

impl<'a> MemberRows<'a> {
    /// Returns the rows of the fields or of the methods, by `kind`. `order` has the numbers of the members, sorted by
    /// name and descriptor.
    pub(crate) fn of(facts: &'a Facts, kind: ReferenceKind, order: &'a [u16]) -> MemberRows<'a>
        ensures { result ≡ rows_by kind facts.now order.now }
    {
        MemberRows {
            facts,
            kind,
            order: order.iter(),
            last: None,
        }
    }
}

impl<'a> Iterator for MemberRows<'a> {
    type Item = Row<'a>;

    ghost next_gives = { YieldsFirstBy row_lent (λ left. left) };

    ghost remaining = { item_count (λ left. left) };

    fn next(&mut self) -> Option<Row<'a>> {
        loop {
            let number = self.order.next()?;
            if let Some(key) = open_key(self.facts, self.kind, *number as usize)
                && !is_last(self.last, key)
            {
                self.last = Some(key);
                return Some(key_row(self.facts.name(), self.kind, key));
            }
        }
    }
}

/// Returns the name and the descriptor of a field or a method, by its number, if it is PUBLIC or PROTECTED.
fn open_key(facts: &Facts, kind: ReferenceKind, number: usize) -> Option<Key<'_>>
    ensures { option_map key_lent result ≡ open_key kind facts.now number }
{
    let member = member_by(facts, kind, number)?;
    if is_open_by(kind, member) {
        Some(Key {
            name: member.name,
            descriptor: member.descriptor,
        })
    } else {
        None
    }
}

fn member_by(facts: &Facts, kind: ReferenceKind, number: usize) -> Option<Member<'_>>
    ensures { option_map member_lent result ≡ slice_get (members_by kind facts.now) number }
{
    match kind {
        ReferenceKind::Field => facts.own_field(number),
        _ => facts.own_method(number),
    }
}

fn is_open_by(kind: ReferenceKind, member: Member<'_>) -> bool
    ensures { result ≡ member_rows.is_open_by kind (member_lent member.entry) }
{
    match kind {
        ReferenceKind::Field => is_open(member),
        _ => is_open_method(member),
    }
}

/// Returns whether the last row has this name and descriptor.
fn is_last(last: Option<Key<'_>>, key: Key<'_>) -> bool
    ensures { result ≡ member_rows.is_last (option_map key_lent last.entry) (key_lent key.entry) }
{
    match last {
        Some(last) => same(last.name, key.name) && same(last.descriptor, key.descriptor),
        None => false,
    }
}

fn key_row<'a>(class: &'a [u8], kind: ReferenceKind, key: Key<'a>) -> Row<'a>
    ensures { row_lent result ≡ key_row class.now kind (key_lent key.entry) }
{
    Row {
        class,
        kind,
        name: key.name,
        descriptor: key.descriptor,
    }
}
