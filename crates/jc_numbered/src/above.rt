//! The transitive supertypes of a class.

ghost use Rattle.std.specs.Prelude.{◌≡◌, ◌<◌, ◌∷◌, [], length, IfOk, OnOk, None};
ghost use Rattle.std.specs.List.{All, filter};
ghost use Rattle.jc_numbered.specs.inside.Above.{IsAbove, Knows, SeesAbove};
ghost use Rattle.jc_numbered.specs.inside.Picks.{is_interface_at};
ghost use Rattle.jc_numbered.specs.inside.Shown.{indexed_of};
ghost use Rattle.jc_numbered.specs.inside.Outside.{lies_outside, TellsOutsideAbove};

use crate::classes::Classes;
use crate::picks::lowest;
use jc_base::NoMemory;
use jc_graph::Seen;
use std::alloc::Global;

/// The transitive supertypes of the class that was asked for last. Consecutive calls for one class walk its supertypes
/// once.
#[derive(Drop)]
pub struct Above {
    seen: Seen,
    /// The interfaces among these supertypes.
    interfaces: Vec<usize>,
    /// The class, if one was asked for.
    start: Option<usize>,
    /// The outside name among these supertypes that is least in the order of bytes.
    outside: Option<usize>,
}

impl Above {
    /// Creates a value that has not been asked for a class. `count` is the number of nodes. Returns `NoMemory` only
    /// when an allocation fails.
    pub fn new(alloc: Global, count: usize) -> Result<Above, NoMemory>
        ensures size { IfOk result (λ above. length above.seen.flags ≡ count) }
        ensures none { IfOk result (λ above. above.start ≡ None) }
    {
        Ok(Above {
            seen: Seen::new(alloc, count)?,
            interfaces: Vec::new(alloc),
            start: None,
            outside: None,
        })
    }

    /// Finds the transitive supertypes of the class at node `start`. Does nothing if this class was asked for last.
    ///
    /// Returns `NoMemory` only when an allocation fails. Then the content is unspecified.
    pub fn see(&mut self, alloc: Global, classes: &Classes, start: usize) -> Result<(), NoMemory>
        requires start { start < length classes.now.standing.now }
        requires above { Knows (length classes.now.standing.now) (indexed_of classes.now) self.old }
        ensures known { OnOk result (Knows (length classes.now.standing.now) (indexed_of classes.now) self.new) }
        ensures seen { OnOk result (IsAbove (length classes.now.standing.now) (indexed_of classes.now) start self.new) }
    {
        if self.start == Some(start) {
            return Ok(());
        }
        self.start = None;
        classes.see_above(&mut self.seen, &[start])?;
        self.interfaces = interfaces_among(alloc, classes, self.seen.nodes())?;
        self.outside = find_outside(alloc, classes, &self.seen, start)?;
        self.start = Some(start);
        Ok(())
    }

    /// Returns the nodes of the interfaces among the transitive supertypes, each once.
    pub fn interfaces(&self) -> &[usize]
        ensures { result.now ≡ self.now.interfaces.items }
    {
        self.interfaces.as_slice()
    }

    /// Returns the node of the outside name among the transitive supertypes that is least in the order of bytes, if
    /// there is one.
    pub fn outside(&self) -> Option<usize>
        ensures { result ≡ self.now.outside }
    {
        self.outside
    }
}

/// Returns the nodes that are interfaces.
fn interfaces_among(
    alloc: Global,
    classes: &Classes,
    nodes: &[usize],
) -> Result<Vec<usize>, NoMemory>
    requires { All (λ v. v < length classes.now.standing.now) nodes.now }
    ensures { IfOk result (λ r. r.items ≡ filter (is_interface_at (indexed_of classes.now)) nodes.now) }
{
    let mut found = Vec::new(alloc);
    for node in nodes {
        if classes.is_interface(*node) {
            found.push(*node)?;
        }
    }
    Ok(found)
}

/// Returns the nodes that are outside.
fn outsiders(alloc: Global, classes: &Classes, nodes: &[usize]) -> Result<Vec<usize>, NoMemory>
    requires { All (λ v. v < length classes.now.standing.now) nodes.now }
    ensures { IfOk result (λ r. r.items ≡ filter (lies_outside (indexed_of classes.now)) nodes.now) }
{
    let mut found = Vec::new(alloc);
    for node in nodes {
        if classes.is_outside(*node) {
            found.push(*node)?;
        }
    }
    Ok(found)
}

/// Returns the least outside name among the transitive supertypes of a class. `seen` has these supertypes.
fn find_outside(
    alloc: Global,
    classes: &Classes,
    seen: &Seen,
    start: usize,
) -> Result<Option<usize>, NoMemory>
    requires start { start < length classes.now.standing.now }
    requires seen { SeesAbove (length classes.now.standing.now) (indexed_of classes.now) (start ∷ []) seen.now }
    ensures { IfOk result (TellsOutsideAbove (indexed_of classes.now) start) }
{
    let nodes = outsiders(alloc, classes, seen.nodes())?;
    Ok(lowest(classes, nodes.as_slice()))
}
