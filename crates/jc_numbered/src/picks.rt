//! The candidates among superinterface methods, and the choice among them (JVMS 5.4.3.3, 5.4.3.4).

ghost use Rattle.std.specs.Prelude.{◌≡◌, ◌<◌, length, IfOk};
ghost use Rattle.std.specs.List.{All, filter};
ghost use Rattle.jc_classes.specs.Lent.{key_lent};
ghost use Rattle.jc_numbered.specs.inside.Shown.{indexed_of};
ghost use Rattle.jc_numbered.specs.inside.Picks.{offers, is_pick, lesser, TellsLowest};

use crate::classes::Classes;
use jc_base::NoMemory;
use jc_classes::{Key, less};
use jc_file::AccessFlag;
use jc_graph::Seen;
use std::alloc::Global;

/// Returns those of `nodes` that are interfaces and declare a method with this name and descriptor, neither PRIVATE nor
/// STATIC. Keeps their order. Returns `NoMemory` only when an allocation fails.
pub fn candidates(
    alloc: Global,
    classes: &Classes,
    nodes: &[usize],
    key: Key,
) -> Result<Vec<usize>, NoMemory>
    requires { All (λ v. v < length classes.now.standing.now) nodes.now }
    ensures { IfOk result (λ r. r.items ≡ filter (offers (indexed_of classes.now) (key_lent key.entry)) nodes.now) }
{
    let mut found = Vec::new(alloc);
    for node in nodes {
        if classes.given(*node, key).is_some() {
            found.push(*node)?;
        }
    }
    Ok(found)
}

/// Returns whether a node is a candidate whose method is not ABSTRACT, and the node is not in `covered`. If `covered`
/// has the transitive supertypes of all candidates, the method is then maximally-specific.
pub fn is_pick(classes: &Classes, covered: &Seen, node: usize, key: Key) -> bool
    requires node { node < length classes.now.standing.now }
    requires covered { length covered.now.flags ≡ length classes.now.standing.now }
    ensures { result ≡ is_pick (indexed_of classes.now) (key_lent key.entry) covered.now.flags node }
{
    if covered.has(node) {
        return false;
    }
    match classes.given(node, key) {
        Some(member) => !member.has(AccessFlag::Abstract),
        None => false,
    }
}

/// Returns the one of two nodes whose name is less.
fn lesser(classes: &Classes, node: usize, other: usize) -> usize
    requires node { node < length classes.now.names.now }
    requires other { other < length classes.now.names.now }
    ensures { result ≡ lesser (indexed_of classes.now) node other }
{
    if less(classes.names.name(other), classes.names.name(node)) {
        other
    } else {
        node
    }
}

/// Returns the one of `nodes` whose name is least in the order of bytes, or `None` if there are no nodes.
pub fn lowest(classes: &Classes, nodes: &[usize]) -> Option<usize>
    requires { All (λ v. v < length classes.now.names.now) nodes.now }
    ensures { TellsLowest (indexed_of classes.now) nodes.now result }
{
    if nodes.is_empty() {
        return None;
    }
    let mut best = nodes[0];
    for node in nodes {
        best = lesser(classes, best, *node);
    }
    Some(best)
}
