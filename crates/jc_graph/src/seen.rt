//! The nodes that a walk has seen.

ghost use Rattle.std.specs.Prelude.{◌≡◌, ◌<◌, ◌++◌, ◌∷◌, [], ℕ, length, OnOk, OnErr, IfOk, true, false, slice_set};
ghost use Rattle.std.specs.List.{All};
ghost use Rattle.jc_graph.specs.Seen.{SeesMore, flag_at, node_at};

use jc_base::NoMemory;
use std::alloc::Global;
use std::marker::Model;

/// The nodes that were seen, out of a fixed number of nodes. They are kept as a flag for each node, and as a list in
/// the order in which they were added. Its model is a record of both.
#[derive(Drop)]
pub struct Seen {
    flags: Vec<bool>,
    list: Vec<usize>,
}

impl Model for Seen {
    ghost use Rattle.jc_graph.specs.Seen.{IsSeen, SeenNodes};

    ghost Value = { SeenNodes };

    ghost view = { λ s. record { flags = s.flags.items; list = s.list.items } };

    ghost invariant = { λ s. IsSeen s.flags.items s.list.items };
}

impl Seen {
    /// Creates a set without nodes, for the nodes below `count`. Returns `NoMemory` only when an allocation fails.
    pub fn new(alloc: Global, count: usize) -> Result<Seen, NoMemory>
        ensures size { IfOk result (λ s. length s.flags ≡ count) }
        ensures none { IfOk result (λ s. (v : ℕ) → flag_at s.flags v ≡ false) }
        ensures list { IfOk result (λ s. s.list ≡ []) }
    {
        Ok(Seen {
            flags: vec![in alloc; false; count]?,
            list: Vec::new(alloc),
        })
    }

    /// Returns whether a node was seen.
    pub fn has(&self, node: usize) -> bool
        requires { node < length self.now.flags }
        ensures { result ≡ flag_at self.now.flags node }
    {
        self.flags[node]
    }

    /// Adds a node at the end of the list, even if the list has it already. Returns `NoMemory` only when an allocation
    /// fails.
    pub fn add(&mut self, node: usize) -> Result<(), NoMemory>
        requires { node < length self.old.flags }
        ensures flags { OnOk result (self.new.flags ≡ slice_set self.old.flags node true) }
        ensures list { OnOk result (self.new.list ≡ self.old.list ++ node ∷ []) }
        ensures unchanged { OnErr result (self.new ≡ self.old) }
    {
        self.list.push(node)?;
        self.flags[node] = true;
        Ok(())
    }

    /// Removes all nodes. The cost is proportional to the number of nodes in the list, and not to the number of flags.
    pub fn clear(&mut self)
        ensures size { length self.new.flags ≡ length self.old.flags }
        ensures none { (v : ℕ) → flag_at self.new.flags v ≡ false }
        ensures list { self.new.list ≡ [] }
    {
        while let Some(node) = self.list.pop() {
            self.flags[node] = false;
        }
    }

    /// Returns the length of the list of nodes. A node that was added twice counts twice.
    pub fn len(&self) -> usize
        ensures { result ≡ length self.now.list }
    {
        self.list.len()
    }

    /// Returns the list of the nodes that were seen, in the order in which they were added.
    pub fn nodes(&self) -> &[usize]
        ensures { result.now ≡ self.now.list }
    {
        self.list.as_slice()
    }

    /// Returns the node at a place of the list, counted from 0.
    pub fn node(&self, at: usize) -> usize
        requires { at < length self.now.list }
        ensures { result ≡ node_at self.now.list at }
    {
        self.list[at]
    }

    /// Adds a node, unless it was seen. Returns `NoMemory` only when an allocation fails.
    fn add_once(&mut self, node: usize) -> Result<(), NoMemory>
        requires { node < length self.old.flags }
        ensures { OnOk result (SeesMore self.old.flags self.old.list self.new.flags self.new.list (node ∷ [])) }
    {
        if self.has(node) {
            return Ok(());
        }
        self.add(node)?;
        Ok(())
    }

    /// Adds the nodes of a list that were not seen, each once. Returns `NoMemory` only when an allocation fails; some
    /// of the nodes may then be added.
    pub fn add_all(&mut self, nodes: &[usize]) -> Result<(), NoMemory>
        requires { All (λ v. v < length self.old.flags) nodes.now }
        ensures { OnOk result (SeesMore self.old.flags self.old.list self.new.flags self.new.list nodes.now) }
    {
        for node in nodes {
            self.add_once(*node)?;
        }
        Ok(())
    }
}
