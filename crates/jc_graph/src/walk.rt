//! A walk over the nodes that joins the nodes of a ring into one segment.

ghost use Rattle.std.specs.Prelude.{◌≡◌, ◌<◌, ◌≤◌, ◌-◌, ℕ, OnOk, IfOk, length, replicate, [], false};
ghost use Rattle.std.specs.List.{All};
ghost use Rattle.jc_graph.specs.Graph.{successors_of, AreNodes, Above};
ghost use Rattle.jc_graph.specs.inside.Walk.{HasStep, IsWalk, SeesNode, TellsRing, Turned};
ghost use Rattle.jc_graph.specs.inside.Walk.{last_segment, last_step, node_at, place_at, state_of};
ghost use Rattle.jc_graph.specs.declared.walk.Place.TheVariants.{Unseen, On};

use crate::marks::mark;
use crate::successors::successors;
use jc_base::NoMemory;
use std::alloc::Global;

/// The state of a node in a walk.
#[derive(Clone, Copy)]
pub(crate) enum Place {
    Unseen,
    /// On the path, at this place.
    On(usize),
    Done,
}

/// A segment: the place on the path where its nodes begin, and the place in `steps` where its pending steps begin.
#[derive(Clone, Copy)]
pub(crate) struct Segment {
    pub(crate) path_from: usize,
    pub(crate) steps_from: usize,
}

/// A walk: a path of segments, the pending steps, and the nodes that are done. The nodes of a segment can be reached
/// from each other.
#[derive(Drop)]
pub(crate) struct Walk {
    pub(crate) path: Vec<usize>,
    pub(crate) segments: Vec<Segment>,
    pub(crate) steps: Vec<usize>,
    pub(crate) place: Vec<Place>,
    pub(crate) circular: Vec<bool>,
    pub(crate) order: Vec<usize>,
}

/// Returns whether the nodes of a segment without pending steps are on a ring.
fn is_ring(graph: &[Vec<usize>], nodes: &[usize]) -> bool
    requires { All (λ v. v < length graph.now) nodes.now }
    ensures { TellsRing (successors_of graph.now) nodes.now result }
{
    match nodes {
        [node] => successors(graph, *node).contains(node),
        _ => true,
    }
}

impl Walk {
    /// Creates a walk that has seen none of the nodes.
    pub(crate) fn new(alloc: Global, count: usize) -> Result<Walk, NoMemory>
        ensures path { IfOk result (λ w. w.path.items ≡ []) }
        ensures segments { IfOk result (λ w. w.segments.items ≡ []) }
        ensures steps { IfOk result (λ w. w.steps.items ≡ []) }
        ensures place { IfOk result (λ w. w.place.items ≡ replicate count Unseen) }
        ensures circular { IfOk result (λ w. w.circular.items ≡ replicate count false) }
        ensures order { IfOk result (λ w. w.order.items ≡ []) }
    {
        Ok(Walk {
            path: Vec::with_capacity(alloc, count)?,
            segments: Vec::with_capacity(alloc, count)?,
            steps: Vec::new(alloc),
            place: vec![in alloc; Place::Unseen; count]?,
            circular: vec![in alloc; false; count]?,
            order: Vec::with_capacity(alloc, count)?,
        })
    }

    /// Visits a node that was not seen. It becomes a segment at the end of the path.
    fn visit(&mut self, graph: &[Vec<usize>], node: usize) -> Result<(), NoMemory>
        requires walk { IsWalk (successors_of graph.now) (length graph.now) (state_of self.old) }
        requires node { node < length graph.now }
        requires unseen { place_at self.old.place.items node ≡ Unseen }
        requires above { (p : ℕ) → p < length self.old.path.items → Above (successors_of graph.now) (node_at self.old.path.items p) node }
        ensures seen { OnOk result (place_at self.new.place.items node ≡ On (length self.old.path.items)) }
        ensures turned { OnOk result (Turned (successors_of graph.now) (length graph.now) (state_of self.old) (state_of self.new)) }
    {
        let segment = Segment {
            path_from: self.path.len(),
            steps_from: self.steps.len(),
        };
        self.place[node] = Place::On(segment.path_from);
        self.path.push(node)?;
        self.segments.push(segment)?;
        self.steps.extend_from_slice(successors(graph, node))?;
        Ok(())
    }

    /// Ends the last segment, which has no pending steps.
    fn end(&mut self, graph: &[Vec<usize>], last: Segment) -> Result<(), NoMemory>
        requires walk { IsWalk (successors_of graph.now) (length graph.now) (state_of self.old) }
        requires some { 0 < length self.old.segments.items }
        requires last { last ≡ last_segment (state_of self.old) }
        requires no_step { length self.old.steps.items ≤ last.steps_from }
        ensures { OnOk result (Turned (successors_of graph.now) (length graph.now) (state_of self.old) (state_of self.new)) }
    {
        let (_, nodes) = self.path.as_slice().split_at(last.path_from);
        let ring = is_ring(graph, nodes);
        mark(self.place.as_mut_slice(), nodes, Place::Done);
        mark(self.circular.as_mut_slice(), nodes, ring);
        self.order.extend_from_slice(nodes)?;
        self.path.truncate(last.path_from);
        self.segments.pop();
        Ok(())
    }

    /// Returns the node that the last pending step leads to.
    fn target(&self) -> usize
        requires { 0 < length self.now.steps.items }
        ensures { result ≡ last_step (state_of self.now) }
    {
        self.steps[self.steps.len() - 1]
    }

    /// Takes the last pending step, which begins in the last segment.
    ///
    /// If the step leads to a node that was not seen, that node is visited, and the step stays pending until the node
    /// is done. If it leads to a node of an earlier segment, the last two segments are joined.
    fn take(&mut self, graph: &[Vec<usize>], last: Segment) -> Result<(), NoMemory>
        requires nodes { AreNodes (successors_of graph.now) (length graph.now) }
        requires walk { IsWalk (successors_of graph.now) (length graph.now) (state_of self.old) }
        requires has { HasStep (state_of self.old) }
        requires last { last ≡ last_segment (state_of self.old) }
        ensures { OnOk result (Turned (successors_of graph.now) (length graph.now) (state_of self.old) (state_of self.new)) }
    {
        let target = self.target();
        match self.place[target] {
            Place::Unseen => self.visit(graph, target),
            Place::On(at) => {
                if at < last.path_from {
                    self.segments.pop();
                    Ok(())
                } else {
                    self.steps.pop();
                    Ok(())
                }
            }
            Place::Done => {
                self.steps.pop();
                Ok(())
            }
        }
    }

    /// Takes a pending step of the last segment, or ends the segment if it has none.
    fn turn(&mut self, graph: &[Vec<usize>], last: Segment) -> Result<(), NoMemory>
        requires nodes { AreNodes (successors_of graph.now) (length graph.now) }
        requires walk { IsWalk (successors_of graph.now) (length graph.now) (state_of self.old) }
        requires some { 0 < length self.old.segments.items }
        requires last { last ≡ last_segment (state_of self.old) }
        ensures { OnOk result (Turned (successors_of graph.now) (length graph.now) (state_of self.old) (state_of self.new)) }
    {
        if last.steps_from < self.steps.len() {
            self.take(graph, last)
        } else {
            self.end(graph, last)
        }
    }

    /// Visits a node and all nodes that can be reached from it, except those that were seen.
    pub(crate) fn see(&mut self, graph: &[Vec<usize>], node: usize) -> Result<(), NoMemory>
        requires nodes { AreNodes (successors_of graph.now) (length graph.now) }
        requires walk { IsWalk (successors_of graph.now) (length graph.now) (state_of self.old) }
        requires node { node < length graph.now }
        requires empty { length self.old.segments.items ≡ 0 }
        ensures walk { OnOk result (IsWalk (successors_of graph.now) (length graph.now) (state_of self.new)) }
        ensures empty { OnOk result (length self.new.segments.items ≡ 0) }
        ensures seen { OnOk result (SeesNode self.old.place.items self.new.place.items node) }
    {
        if let Place::Unseen = self.place[node] {
            self.visit(graph, node)?;
        }
        while let Some(last) = self.segments.last() {
            let last = *last;
            self.turn(graph, last)?;
        }
        Ok(())
    }
}
