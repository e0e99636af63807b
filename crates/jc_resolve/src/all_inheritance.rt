//! The errors of inheritance of many classes (JVMS 4.10).

ghost use Rattle.std.specs.Prelude.{◌≡◌, ◌<◌, length, replicate, None, IfOk, OnOk};
ghost use Rattle.std.specs.List.{All};
ghost use Rattle.jc_numbered.specs.inside.FinalSearches.{IsSearch};
ghost use Rattle.jc_numbered.specs.inside.Loading.{load_at};
ghost use Rattle.jc_numbered.specs.inside.Shown.{indexed_of};
ghost use Rattle.jc_resolve.specs.inside.Inheritance.{AreFound, TellErrors, TellsErrorsOf};
ghost use Rattle.jc_resolve.specs.inside.Resolved.{TellsGood};

use crate::inheritance::InheritanceErrors;
use jc_base::NoMemory;
use jc_numbered::{Classes, FinalSearch, Load, depth_first};
use std::alloc::Global;
use std::mem;

/// Finds the errors of inheritance of some classes, in the order of `nodes`. Visits all classes, in an order in which the
/// search for FINAL methods takes linear time.
pub(crate) fn inheritance_of_all(
    alloc: Global,
    classes: &Classes,
    loads: &[Load],
    nodes: &[usize],
) -> Result<Vec<InheritanceErrors>, NoMemory>
    requires loads { length loads.now ≡ length classes.now.standing.now }
    requires good { TellsGood (indexed_of classes.now) loads.now }
    requires nodes { All (λ v. v < length classes.now.standing.now) nodes.now }
    ensures { IfOk result (λ all. TellErrors (indexed_of classes.now) loads.now nodes.now all.items) }
{
    let mut search = FinalSearch::new(alloc, classes)?;
    let mut found = find_depth_first(alloc, classes, loads, &mut search)?;
    let mut all = Vec::with_capacity(alloc, nodes.len())?;
    for node in nodes {
        let errors = take_or_find(alloc, classes, loads, &mut search, &mut found, *node)?;
        all.push(errors)?;
    }
    Ok(all)
}

/// Finds the errors of the classes that are not circular. Each class has a place for its errors.
fn find_depth_first(
    alloc: Global,
    classes: &Classes,
    loads: &[Load],
    search: &mut FinalSearch,
) -> Result<Vec<Option<InheritanceErrors>>, NoMemory>
    requires loads { length loads.now ≡ length classes.now.standing.now }
    requires good { TellsGood (indexed_of classes.now) loads.now }
    requires search { IsSearch (length classes.now.standing.now) (indexed_of classes.now) search.old }
    ensures size { IfOk result (λ found. length found.items ≡ length classes.now.standing.now) }
    ensures found { IfOk result (λ found. AreFound (indexed_of classes.now) loads.now found.items) }
    ensures search { OnOk result (IsSearch (length classes.now.standing.now) (indexed_of classes.now) search.new) }
{
    let mut found = none_found(alloc, classes.len())?;
    let order = depth_first(alloc, classes)?;
    for node in &order {
        let errors = errors_of(alloc, classes, loads, search, *node)?;
        drop(mem::replace(&mut found[*node], Some(errors)));
    }
    Ok(found)
}

/// Returns this number of empty places.
fn none_found(alloc: Global, count: usize) -> Result<Vec<Option<InheritanceErrors>>, NoMemory>
    ensures { IfOk result (λ found. found.items ≡ replicate count None) }
{
    let mut found = Vec::with_capacity(alloc, count)?;
    for _ in 0..count {
        found.push(None)?;
    }
    Ok(found)
}

/// Takes the errors of a class, or finds them if they are not there.
fn take_or_find(
    alloc: Global,
    classes: &Classes,
    loads: &[Load],
    search: &mut FinalSearch,
    found: &mut Vec<Option<InheritanceErrors>>,
    node: usize,
) -> Result<InheritanceErrors, NoMemory>
    requires node { node < length classes.now.standing.now }
    requires loads { length loads.now ≡ length classes.now.standing.now }
    requires good { TellsGood (indexed_of classes.now) loads.now }
    requires search { IsSearch (length classes.now.standing.now) (indexed_of classes.now) search.old }
    requires size { length found.old.items ≡ length classes.now.standing.now }
    requires found { AreFound (indexed_of classes.now) loads.now found.old.items }
    ensures errors { IfOk result (TellsErrorsOf (indexed_of classes.now) (load_at loads.now node) node) }
    ensures search { OnOk result (IsSearch (length classes.now.standing.now) (indexed_of classes.now) search.new) }
    ensures size { length found.new.items ≡ length classes.now.standing.now }
    ensures found { AreFound (indexed_of classes.now) loads.now found.new.items }
{
    match found[node].take() {
        Some(errors) => Ok(errors),
        None => errors_of(alloc, classes, loads, search, node),
    }
}

/// Finds the errors of a class. A class that does not load has none.
fn errors_of(
    alloc: Global,
    classes: &Classes,
    loads: &[Load],
    search: &mut FinalSearch,
    node: usize,
) -> Result<InheritanceErrors, NoMemory>
    requires node { node < length classes.now.standing.now }
    requires loads { length loads.now ≡ length classes.now.standing.now }
    requires good { TellsGood (indexed_of classes.now) loads.now }
    requires search { IsSearch (length classes.now.standing.now) (indexed_of classes.now) search.old }
    ensures errors { IfOk result (TellsErrorsOf (indexed_of classes.now) (load_at loads.now node) node) }
    ensures search { OnOk result (IsSearch (length classes.now.standing.now) (indexed_of classes.now) search.new) }
{
    match loads[node] {
        Load::Loaded => InheritanceErrors::of(alloc, classes, search, node),
        _ => Ok(InheritanceErrors::none(alloc)),
    }
}
