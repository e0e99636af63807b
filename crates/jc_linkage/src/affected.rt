//! The classes that an edit affects.

ghost use Rattle.std.specs.Prelude.{◌≡◌, ◌∷◌, [], ◌++◌, IfOk, OnOk};
ghost use Rattle.std.specs.List.Sorted.{IsStrictlySortedBy};
ghost use Rattle.std.specs.Option.{option_copied};
ghost use Rattle.jc_classes.specs.NameLists.{has};
ghost use Rattle.jc_classes.specs.Names.{name_cmp, names_of};
ghost use Rattle.jc_linkage.specs.Affected.{NoRepeat};
ghost use Rattle.jc_linkage.specs.inside.Users.{AddsWanted, HasUsers, has_list, is_name, users_at, wanted};

use crate::dependants::Dependants;
use jc_base::NoMemory;
use jc_classes::same;
use jc_index::NameList;
use std::alloc::Global;

/// Returns the classes whose reach has one of two names, each once, without the removed class.
pub(crate) fn users_of(
    alloc: Global,
    dependants: &Dependants,
    first: Option<&[u8]>,
    second: Option<&[u8]>,
    gone: Option<&[u8]>,
) -> Result<Vec<Vec<u8>>, NoMemory>
    ensures has { IfOk result (λ users. HasUsers (names_of users.items) dependants.now.reach first.entry second.entry gone.entry) }
    ensures once { IfOk result (λ users. NoRepeat (names_of users.items)) }
{
    let one = list_at(dependants, first);
    let mut users = Vec::new(alloc);
    add_users(alloc, &mut users, one, None, gone)?;
    add_users(alloc, &mut users, list_at(dependants, second), one, gone)?;
    Ok(users)
}

/// Returns the classes whose reach has a name.
fn list_at<'a>(dependants: &'a Dependants, name: Option<&[u8]>) -> Option<&'a NameList>
    ensures { has_list result ≡ users_at dependants.now.reach (option_copied name.entry) }
{
    dependants.reach.list(name?)
}

/// Appends the names of a list that `others` lacks, without the removed class.
fn add_users(
    alloc: Global,
    users: &mut Vec<Vec<u8>>,
    list: Option<&NameList>,
    others: Option<&NameList>,
    gone: Option<&[u8]>,
) -> Result<(), NoMemory>
    ensures added { OnOk result (AddsWanted gone.entry others.entry list.entry (names_of users.old.items) (names_of users.new.items)) }
    ensures rises { OnOk result (IsStrictlySortedBy name_cmp (has_list list.entry)) }
{
    let Some(list) = list else {
        return Ok(());
    };
    for name in list.names() {
        add_user(alloc, users, name, others, gone)?;
    }
    Ok(())
}

/// Appends a name that `others` lacks, unless it is that of the removed class.
fn add_user(
    alloc: Global,
    users: &mut Vec<Vec<u8>>,
    name: &[u8],
    others: Option<&NameList>,
    gone: Option<&[u8]>,
) -> Result<(), NoMemory>
    ensures { OnOk result (names_of users.new.items ≡ names_of users.old.items ++ wanted gone.entry others.entry (name.now ∷ [])) }
{
    if is_name(gone, name) || is_among(others, name) {
        return Ok(());
    }
    users.push(Vec::from_slice(alloc, name)?)?;
    Ok(())
}

fn is_among(list: Option<&NameList>, name: &[u8]) -> bool
    ensures { result ≡ has (has_list list.entry) name.now }
{
    match list {
        Some(list) => list.has(name),
        None => false,
    }
}

/// Returns whether this is the name.
fn is_name(this: Option<&[u8]>, name: &[u8]) -> bool
    ensures { result ≡ is_name (option_copied this.entry) name.now }
{
    match this {
        Some(this) => same(name, this),
        None => false,
    }
}
