//! The lines of references that do not resolve.

ghost use Rattle.std.specs.Prelude.{◌≡◌};
ghost use Rattle.jc_text.specs.Sends.{Sends};
ghost use Rattle.jc_classes.specs.Lent.{reference_lent};
ghost use Rattle.jc_resolve.specs.Answers.{answer_of};
ghost use Rattle.jc_report.specs.ErrorsText.{answer_error, answer_errors, answered_text, use_mark, user_text};

use crate::asked::{is_listed, is_used, user_at};
use crate::method_errors::write_method;
use crate::part_text::{write_answer, write_reference};
use jc_base::Output;
use jc_classes::{Facts, Reference, User};
use jc_resolve::{Answer, Answers};
use jc_text::TextWriter;

/// Writes a line for each reference that does not resolve. With `used_only`, only if something uses the reference.
pub(crate) fn write_answer_errors<W: Output>(
    text: &mut TextWriter<'_, W>,
    facts: &Facts,
    answers: &Answers,
    used_only: bool,
)
    ensures { Sends W.written W.failures text.old text.new (answer_errors used_only facts.now 0 facts.now.references answers.now) }
{
    for number in 0..answers.len() {
        match facts.reference(number) {
            Some(reference) => {
                let user = user_at(facts, number);
                write_answer_error(text, facts, reference, user, answers.at(number), used_only);
            }
            None => return,
        }
    }
}

fn write_answer_error<W: Output>(
    text: &mut TextWriter<'_, W>,
    facts: &Facts,
    reference: Reference<'_>,
    user: User,
    answer: Answer<'_>,
    used_only: bool,
)
    ensures { Sends W.written W.failures text.old text.new
        (answer_error used_only facts.now (reference_lent reference.entry) user (answer_of answer.entry)) }
{
    if is_listed(used_only, user, answer) {
        write_answered(text, facts, reference, user, answer);
    }
}

/// Writes what uses a reference, the reference and its answer.
fn write_answered<W: Output>(
    text: &mut TextWriter<'_, W>,
    facts: &Facts,
    reference: Reference<'_>,
    user: User,
    answer: Answer<'_>,
)
    ensures { Sends W.written W.failures text.old text.new
        (answered_text facts.now (reference_lent reference.entry) user (answer_of answer.entry)) }
{
    write_user(text, facts, user);
    text.text(b": ");
    write_reference(text, reference);
    text.text(b" -> ");
    write_answer(text, answer);
    write_use_mark(text, user);
    text.text(b"\n");
}

/// Writes the method that uses a reference first, or the name of the class.
fn write_user<W: Output>(text: &mut TextWriter<'_, W>, facts: &Facts, user: User)
    ensures { Sends W.written W.failures text.old text.new (user_text facts.now user) }
{
    match user {
        User::Method(number) => write_method(text, facts, number as usize),
        User::Other | User::Nothing => text.shown(facts.name()),
    }
}

/// Writes the mark of a reference that nothing uses.
fn write_use_mark<W: Output>(text: &mut TextWriter<'_, W>, user: User)
    ensures { Sends W.written W.failures text.old text.new (use_mark user) }
{
    if !is_used(user) {
        text.text(b" (unused)");
    }
}
