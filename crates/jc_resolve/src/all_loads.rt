//! How all nodes load.

ghost use Rattle.std.specs.Prelude.{◌≡◌, ◌<◌, length, map, IfOk};
ghost use Rattle.std.specs.List.{All};
ghost use Rattle.jc_graph.specs.Graph.{TellsCircular};
ghost use Rattle.jc_numbered.specs.inside.Shown.{indexed_of};
ghost use Rattle.jc_graph.specs.Graph.{successors_of};
ghost use Rattle.jc_resolve.specs.inside.Resolved.{AreLoads};
ghost use Rattle.jc_resolve.specs.inside.Loading.{load_of, is_good, IsSorted, TellsRank};

use jc_base::NoMemory;
use jc_classes::{LinkageError, Standing};
use jc_graph::Sorted;
use jc_numbered::{Classes, Load, judge_each};
use std::alloc::Global;

/// Returns how a node loads, by how its supertypes load.
fn load_one(classes: &Classes, circular: &[bool], loads: &[Load], node: usize) -> Load
    requires node { node < length classes.now.standing.now }
    requires circular { length circular.now ≡ length classes.now.standing.now }
    requires loads { length loads.now ≡ length classes.now.standing.now }
    ensures { result ≡ load_of (indexed_of classes.now) circular.now loads.now node }
{
    match classes.at(node) {
        Standing::Absent => Load::Fails(LinkageError::NoClass, node),
        Standing::Outside => Load::Outside,
        Standing::Class(facts) => {
            if facts.is_faulty() {
                Load::Fails(LinkageError::Format, node)
            } else if circular[node] {
                Load::Fails(LinkageError::Circular, node)
            } else {
                judge_each(
                    classes,
                    loads,
                    node,
                    facts.superclass().is_some(),
                    classes.supertypes(node),
                )
            }
        }
    }
}

/// Returns how each node loads.
pub(crate) fn load_all(
    alloc: Global,
    classes: &Classes,
    sorted: &Sorted,
) -> Result<Vec<Load>, NoMemory>
    requires circular { TellsCircular (successors_of classes.now.supertypes.now) (length classes.now.standing.now)
        sorted.now.circular.items }
    requires order { IsSorted (length classes.now.standing.now) (indexed_of classes.now) sorted.now }
    ensures size { IfOk result (λ v. length v.items ≡ length classes.now.standing.now) }
    ensures loads { IfOk result (λ v. AreLoads (length classes.now.standing.now) (indexed_of classes.now) v.items) }
{
    let mut loads = vec![in alloc; Load::Loaded; classes.len()]?;
    for at in 0..sorted.order.len() {
        let node = sorted.order[at];
        let load = load_one(classes, sorted.circular.as_slice(), loads.as_slice(), node);
        loads[node] = load;
    }
    Ok(loads)
}

/// Returns the first place of each node in an order.
pub(crate) fn rank_all(alloc: Global, order: &[usize], count: usize) -> Result<Vec<usize>, NoMemory>
    requires { All (λ v. v < count) order.now }
    ensures { IfOk result (λ r. TellsRank count order.now r.items) }
{
    let mut ranks = vec![in alloc; 0usize; count]?;
    let mut at = order.len();
    while at > 0 {
        at -= 1;
        ranks[order[at]] = at;
    }
    Ok(ranks)
}

/// Returns one more than the sum of these numbers for the supertypes of a node.
fn most_with(most: &[usize], supertypes: &[usize]) -> usize {
    let mut sum = 1usize;
    for node in supertypes {
        let one = match most.get(*node) {
            Some(one) => *one,
            None => 1,
        };
        sum = sum.saturating_add(one);
    }
    sum
}

/// Returns a bound on the number of transitive supertypes of each node, with the node itself. In the order, supertypes
/// are before their subtypes.
pub(crate) fn most_above_all(
    alloc: Global,
    supertypes: &[Vec<usize>],
    order: &[usize],
) -> Result<Vec<usize>, NoMemory>
    requires { All (λ v. v < length supertypes.now) order.now }
    ensures { IfOk result (λ most. length most.items ≡ length supertypes.now) }
{
    let mut most = vec![in alloc; 1usize; supertypes.len()]?;
    for node in order {
        most[*node] = most_with(most.as_slice(), supertypes[*node].as_slice());
    }
    Ok(most)
}

/// Returns whether a node loads or is outside.
fn is_good(load: Load) -> bool
    ensures { result ≡ is_good load }
{
    match load {
        Load::Fails(_, _) => false,
        _ => true,
    }
}

/// Returns for each node whether it loads or is outside.
pub(crate) fn good_all(alloc: Global, loads: &[Load]) -> Result<Vec<bool>, NoMemory>
    ensures { IfOk result (λ r. r.items ≡ map is_good loads.now) }
{
    let mut good = Vec::with_capacity(alloc, loads.len())?;
    for load in loads {
        good.push(is_good(*load))?;
    }
    Ok(good)
}
