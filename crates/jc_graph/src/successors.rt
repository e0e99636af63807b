//! The nodes that one step leads to.

ghost use Rattle.std.specs.Prelude.{◌≡◌, ◌<◌, length};
ghost use Rattle.jc_graph.specs.Graph.{successors_of};

/// Returns the nodes that one step from a node leads to.
pub(crate) fn successors<'a>(graph: &'a [Vec<usize>], node: usize) -> &'a [usize]
    requires { node < length graph.now }
    ensures { result.now ≡ successors_of graph.now node }
{
    graph[node].as_slice()
}
