//! What uses the references of a class file.

ghost use Rattle.std.specs.Prelude.{◌≡◌, ◌+◌, ◌<◌, IfOk, map};
ghost use Rattle.std.specs.List.{All};
ghost use Rattle.jc_view.specs.ClassFile.{all_slots};
ghost use Rattle.jc_classes.specs.UsedConstants.{named_by_methods, used_constants};
ghost use Rattle.jc_classes.specs.Users.{user_by, user_of};
ghost use Rattle.jc_classes.specs.inside.FirstUsers.{AreFirst, first_at};
ghost use Rattle.jc_classes.specs.inside.Using.{are_marks, mark_at};

use crate::facts::ReferenceEntry;
use crate::first_users::{FirstUsers, first_at};
use crate::used::{User, is_marked, used};
use jc_base::NoMemory;
use jc_view::ClassView;
use std::alloc::Global;

/// Returns what uses each of these references of a class file. `first` has the constants that the code of the methods
/// names, and the first method that uses each constant.
///
/// Returns `NoMemory` only when an allocation fails.
pub(crate) fn users(
    alloc: Global,
    class: &ClassView,
    first: FirstUsers,
    references: &[ReferenceEntry],
) -> Result<Vec<User>, NoMemory>
    requires marks { first.seen.items ≡ are_marks class.now (named_by_methods class.now) }
    requires first { AreFirst class.now first.numbers.items }
    requires within { All (λ entry. entry.index < 1 + all_slots class.now.constants) references.now }
    ensures { IfOk result (λ users. users.items ≡ map (λ entry. user_of class.now entry.index) references.now) }
{
    let FirstUsers { numbers, seen } = first;
    let marks = used(alloc, class, seen)?;
    let mut users = Vec::with_capacity(alloc, references.len())?;
    for entry in references {
        users.push(user(&numbers, &marks, entry.index))?;
    }
    Ok(users)
}

/// Returns what uses the constant at `index`.
fn user(numbers: &[Option<u16>], marks: &[bool], index: u16) -> User
    ensures { result ≡ user_by (first_at numbers.now index) (mark_at marks.now index) }
{
    match first_at(numbers, index) {
        Some(method) => User::Method(method),
        None if is_marked(marks, index) => User::Other,
        None => User::Nothing,
    }
}
