//! The nodes that can be reached from some nodes.

ghost use Rattle.std.specs.Prelude.{◌≡◌, ◌<◌, length, OnOk};
ghost use Rattle.std.specs.List.{All};
ghost use Rattle.jc_graph.specs.Graph.{successors_of, AreNodes};
ghost use Rattle.jc_graph.specs.Seen.{TellsAbove};

use crate::seen::Seen;
use crate::successors::successors;
use jc_base::NoMemory;

/// Marks the nodes that can be reached from `starts` in one or more steps. Forgets the nodes that were seen before.
/// Visits each node once. Returns `NoMemory` only when an allocation fails.
pub fn mark_above(graph: &[Vec<usize>], seen: &mut Seen, starts: &[usize]) -> Result<(), NoMemory>
    requires starts { All (λ v. v < length graph.now) starts.now }
    requires nodes { AreNodes (successors_of graph.now) (length graph.now) }
    requires flags { length seen.old.flags ≡ length graph.now }
    ensures { OnOk result (TellsAbove (length graph.now) (successors_of graph.now) starts.now seen.new.flags seen.new.list) }
{
    seen.clear();
    for start in starts {
        seen.add_all(successors(graph, *start))?;
    }
    let mut at = 0;
    while at < seen.len() {
        let node = seen.node(at);
        seen.add_all(successors(graph, node))?;
        at += 1;
    }
    Ok(())
}
