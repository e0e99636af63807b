//! Which errors of a report are asked for.

ghost use Rattle.std.specs.Prelude.{◌≡◌};
ghost use Rattle.jc_resolve.specs.Answers.{answer_of};
ghost use Rattle.jc_report.specs.ErrorsText.{all_errors, asked_lent, is_asked, is_listed, is_used, user_at};
ghost use Rattle.jc_report.specs.Reports.{is_error};

use jc_classes::{Facts, User};
use jc_link::Outside;
use jc_resolve::Answer;

/// Which errors of a report are asked for.
#[derive(Clone, Copy)]
pub struct Asked<'a> {
    /// The prefixes of paths of files and of names of classes, or `None` for all.
    pub only: Option<&'a Outside>,
    /// Whether the errors of references that nothing uses are left out.
    pub used_only: bool,
}

impl<'a> Asked<'a> {
    /// Returns the choice of all errors.
    pub fn all() -> Asked<'a>
        ensures { asked_lent result ≡ all_errors }
    {
        Asked {
            only: None,
            used_only: false,
        }
    }
}

/// Returns whether a text begins with one of the prefixes, if any are given.
pub(crate) fn is_asked(asked: Asked<'_>, text: &[u8]) -> bool
    ensures { result ≡ is_asked (asked_lent asked.entry) text.now }
{
    match asked.only {
        Some(prefixes) => prefixes.covers(text),
        None => true,
    }
}

/// Returns what uses the reference of a number.
pub(crate) fn user_at(facts: &Facts, number: usize) -> User
    ensures { result ≡ user_at facts.now number }
{
    facts.user(number).unwrap_or(User::Nothing)
}

/// Returns whether something uses a reference.
pub(crate) fn is_used(user: User) -> bool
    ensures { result ≡ is_used user }
{
    match user {
        User::Method(_) | User::Other => true,
        User::Nothing => false,
    }
}

/// Returns whether the answer to a reference is an error that is listed.
pub(crate) fn is_listed(used_only: bool, user: User, answer: Answer<'_>) -> bool
    ensures { result ≡ is_listed used_only user (answer_of answer.entry) }
{
    if used_only {
        is_error(answer) && is_used(user)
    } else {
        is_error(answer)
    }
}

/// Returns whether an answer is an error.
fn is_error(answer: Answer<'_>) -> bool
    ensures { result ≡ is_error (answer_of answer.entry) }
{
    match answer {
        Answer::Error(_, _) => true,
        Answer::ToClass(_, _) | Answer::ToMember(_, _) | Answer::Outside(_) | Answer::NotLoaded =>
            false,
    }
}
