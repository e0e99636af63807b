//! An order of classes in which the subclasses of a class, with theirs, follow it.

ghost use Rattle.std.specs.Prelude.{◌≡◌, ◌<◌, ◌++◌, length, IfOk, OnOk};
ghost use Rattle.std.specs.List.{All};
ghost use Rattle.std.specs.Option.{option_to_list};
ghost use Rattle.jc_numbered.specs.inside.Subclasses.{IsWithin};

use crate::classes::Classes;
use jc_base::NoMemory;
use std::alloc::Global;

/// The direct subclasses of each class, and the classes without a superclass, as linked lists.
#[derive(Drop)]
struct Subclasses {
    /// The first subclass of each class.
    first: Vec<Option<usize>>,
    /// The next subclass of the same superclass, or the next class without a superclass.
    next: Vec<Option<usize>>,
    /// The first class without a superclass.
    root: Option<usize>,
}

/// Returns the classes in an order in which each class is followed by its direct and indirect subclasses, before any other
/// class. Circular classes are left out. Takes linear time.
///
/// Returns `NoMemory` only when an allocation fails.
pub fn depth_first(alloc: Global, classes: &Classes) -> Result<Vec<usize>, NoMemory>
    ensures { IfOk result (λ order. All (λ v. v < length classes.now.standing.now) order.items) }
{
    let subclasses = find_subclasses(alloc, classes)?;
    let mut order = Vec::new(alloc);
    let mut stack = Vec::new(alloc);
    push_some(&mut stack, subclasses.root)?;
    for _ in 0..usize::MAX {
        let Some(node) = stack.pop() else {
            return Ok(order);
        };
        order.push(node)?;
        push_some(&mut stack, subclasses.next[node])?;
        push_some(&mut stack, subclasses.first[node])?;
    }
    unreachable!()
}

/// Appends a class, if there is one.
fn push_some(stack: &mut Vec<usize>, node: Option<usize>) -> Result<(), NoMemory>
    ensures { OnOk result (stack.new.items ≡ stack.old.items ++ option_to_list node) }
{
    if let Some(node) = node {
        stack.push(node)?;
    }
    Ok(())
}

/// Finds the direct subclasses of each class.
fn find_subclasses(alloc: Global, classes: &Classes) -> Result<Subclasses, NoMemory>
    ensures { IfOk result (IsWithin (length classes.now.standing.now)) }
{
    let mut found = Subclasses {
        first: vec![in alloc; None; classes.len()]?,
        next: vec![in alloc; None; classes.len()]?,
        root: None,
    };
    for node in 0..classes.len() {
        add(&mut found, classes, node);
    }
    Ok(found)
}

/// Adds a class to the subclasses of its superclass. Does not allocate.
fn add(found: &mut Subclasses, classes: &Classes, node: usize)
    requires node { node < length classes.now.standing.now }
    requires within { IsWithin (length classes.now.standing.now) found.old }
    ensures { IsWithin (length classes.now.standing.now) found.new }
{
    match classes.superclass(node) {
        Some(above) => {
            found.next[node] = found.first[above];
            found.first[above] = Some(node);
        }
        None => {
            found.next[node] = found.root;
            found.root = Some(node);
        }
    }
}
