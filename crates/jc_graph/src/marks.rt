//! Marks of the nodes of a list.

ghost use Rattle.std.specs.Prelude.{◌≡◌, ◌<◌, length};
ghost use Rattle.std.specs.List.{All};
ghost use Rattle.jc_graph.specs.inside.Marks.{set_all};

/// Sets the mark of each node of a list.
pub(crate) fn mark<T: Copy>(marks: &mut [T], nodes: &[usize], mark: T)
    requires { All (λ v. v < length marks.old) nodes.now }
    ensures { marks.new ≡ set_all marks.old nodes.now mark }
{
    for node in nodes {
        marks[*node] = mark;
    }
}
