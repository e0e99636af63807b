//! The circular nodes of a graph, and an order of all its nodes.

ghost use Rattle.std.specs.Prelude.{length, IfOk};
ghost use Rattle.jc_graph.specs.Graph.{successors_of, AreNodes, TellsCircular, IsOrder};

use crate::walk::Walk;
use jc_base::NoMemory;
use std::alloc::Global;

/// The circular nodes, which can be reached from themselves, and an order of all nodes. A node that is not circular
/// comes after the nodes that its steps lead to.
#[derive(Drop)]
pub struct Sorted {
    /// Whether each node is circular.
    pub circular: Vec<bool>,
    /// All nodes in that order.
    pub order: Vec<usize>,
}

/// Finds the circular nodes and an order of all nodes. Visits each node once. Returns `NoMemory` only when an
/// allocation fails.
pub fn sort_nodes(alloc: Global, graph: &[Vec<usize>]) -> Result<Sorted, NoMemory>
    requires { AreNodes (successors_of graph.now) (length graph.now) }
    ensures circular { IfOk result (λ s. TellsCircular (successors_of graph.now) (length graph.now) s.circular.items) }
    ensures order { IfOk result (λ s. IsOrder (successors_of graph.now) (length graph.now) s.circular.items s.order.items) }
{
    let mut walk = Walk::new(alloc, graph.len())?;
    for node in 0..graph.len() {
        walk.see(graph, node)?;
    }
    let Walk {
        circular,
        order,
        ..
    } = walk;
    Ok(Sorted { circular, order })
}
