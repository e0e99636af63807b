//! The rows that a class provides and requires.

ghost use Rattle.std.specs.Prelude.{◌≡◌, ◌&&◌, ◌++◌, OnOk};
ghost use Rattle.jc_file.specs.AccessFlags.{has, public};
ghost use Rattle.jc_classes.specs.Lent.{member_lent, reference_lent};
ghost use Rattle.jc_classes.specs.Resolution.{Answer};
ghost use Rattle.jc_resolve.specs.Answers.{kind_of, loading_of};
ghost use Rattle.jc_report.specs.ClassRows as class_rows;
ghost use Rattle.jc_report.specs.ClassRows.{is_loaded, is_missing, is_open, is_open_method, reference_row, required_rows};
ghost use Rattle.jc_report.specs.RowView.{row_lent};
ghost use Rattle.jc_report.specs.inside.RowSets.{HoldSameRows};

use crate::row::Row;
use crate::row_set::RowSet;
use jc_base::NoMemory;
use jc_classes::{Facts, LinkageError, Member, Reference, ReferenceKind, same};
use jc_file::AccessFlag;
use jc_link::Part;
use jc_resolve::{AnswerKind, Loading};

/// Returns whether a class provides rows: it is PUBLIC and loads.
pub(crate) fn provides(facts: &Facts, part: &Part) -> bool
    ensures { result ≡ (is_loaded part.now.load && has facts.now.flags public) }
{
    is_loaded(part.load()) && AccessFlag::Public.is_in(facts.flags())
}

fn is_loaded(load: &Loading) -> bool
    ensures { result ≡ is_loaded (loading_of load.now) }
{
    match load {
        Loading::Loaded => true,
        Loading::Outside | Loading::Fails(_, _) => false,
    }
}

pub(crate) fn class_row(class: &[u8]) -> Row<'_>
    ensures { row_lent result ≡ class_rows.class_row class.now }
{
    Row {
        class,
        kind: ReferenceKind::Class,
        name: &[],
        descriptor: &[],
    }
}

/// Returns whether a member is PUBLIC or PROTECTED.
pub(crate) fn is_open(member: Member<'_>) -> bool
    ensures { result ≡ is_open (member_lent member.entry) }
{
    member.has(AccessFlag::Public) || member.has(AccessFlag::Protected)
}

/// Returns whether a method is PUBLIC or PROTECTED, and is not `<clinit>`.
pub(crate) fn is_open_method(method: Member<'_>) -> bool
    ensures { result ≡ is_open_method (member_lent method.entry) }
{
    is_open(method) && !same(method.name, b"<clinit>")
}

/// Adds the rows that a class requires, in the order of its references.
pub(crate) fn push_required<'t>(
    rows: &mut RowSet<'t>,
    facts: &'t Facts,
    part: &Part,
) -> Result<(), NoMemory>
    ensures { OnOk result (HoldSameRows rows.new (rows.old ++ required_rows facts.now part.now)) }
{
    let answers = part.answers();
    for number in 0..answers.len() {
        if is_required(answers.kind(number)) {
            match facts.reference(number) {
                Some(reference) => rows.insert(reference_row(reference))?,
                None => return Ok(()),
            }
        }
    }
    Ok(())
}

/// Returns whether a reference with such an answer is required: it resolves outside, or its class or member is missing.
pub(crate) fn is_required(kind: AnswerKind) -> bool
    ensures { (a : Answer) → kind_of a ≡ kind → class_rows.is_required a ≡ result }
{
    match kind {
        AnswerKind::Outside => true,
        AnswerKind::Error(error) => is_missing(error),
        AnswerKind::Found | AnswerKind::NotLoaded => false,
    }
}

fn is_missing(error: LinkageError) -> bool
    ensures { result ≡ is_missing error }
{
    match error {
        LinkageError::NoClass | LinkageError::NoField | LinkageError::NoMethod => true,
        LinkageError::Format
        | LinkageError::Circular
        | LinkageError::Incompatible
        | LinkageError::IllegalAccess
        | LinkageError::Instantiation => false,
    }
}

pub(crate) fn reference_row(reference: Reference<'_>) -> Row<'_>
    ensures { row_lent result ≡ reference_row (reference_lent reference.entry) }
{
    Row {
        class: reference.class,
        kind: reference.kind,
        name: reference.key.name,
        descriptor: reference.key.descriptor,
    }
}
