//! The numbered classes of a class graph.

ghost use Rattle.std.specs.Prelude.{◌≡◌, ◌<◌, ◌++◌, length, map, OnOk, option_map, reverse, slice_index_or};
ghost use Rattle.std.specs.List.{All};
ghost use Rattle.jc_classes.specs.Lent.{key_lent, member_lent, stands_of};
ghost use Rattle.jc_classes.specs.MethodLookup.{of_object};
ghost use Rattle.jc_classes.specs.Names.{object as java_lang_object, package_of};
ghost use Rattle.jc_classes.specs.Worlds.{member, fields_of, methods_of, flags_of};
ghost use Rattle.jc_graph.specs.Graph.{successors_of};
ghost use Rattle.jc_numbered.specs.inside.Indexed.{filled, indexed_name, standing_of, superclass_at, superclass_count, onward_nodes, rank_at, IsGraph};
ghost use Rattle.jc_numbered.specs.inside.Members.{declared_at};
ghost use Rattle.jc_numbered.specs.inside.Packages.{package_end, same_package};
ghost use Rattle.jc_numbered.specs.inside.Picks.{gives, is_interface_at};
ghost use Rattle.jc_numbered.specs.inside.Outside.{lies_outside};

use crate::polymorphic::declared;
use jc_base::NoMemory;
use jc_classes::{Key, Member, Numbers, Standing, same};
use jc_file::AccessFlag;
use jc_graph::{Seen, mark_above};

/// The names of a class graph, numbered. A node is the number of a name. Each node has the nodes of its supertypes: the
/// superclass, if there is one, and then the direct superinterfaces.
#[derive(Drop)]
pub struct Classes<'c, 't> {
    /// The name of each node.
    pub names: &'c Numbers,
    /// What each node is: a class, outside or nothing.
    pub standing: &'c [Standing<'t>],
    /// The supertypes of each node.
    pub supertypes: &'c [Vec<usize>],
    /// The node of `java/lang/Object`.
    pub object: usize,
    /// The place of each node in an order of loading. The supertypes of a good node are before it.
    pub rank: Vec<usize>,
    /// Whether each node loads or is outside.
    pub good: Vec<bool>,
    /// The length of the package of each name, in bytes.
    pub package_ends: Vec<usize>,
    /// A bound on the number of transitive supertypes of each node, with the node itself. It may be too small if one of
    /// these is circular.
    pub most_above: Vec<usize>,
    pub ghost names_size: { length names.now ≡ length standing.now },
    pub ghost supertypes_size: { length supertypes.now ≡ length standing.now },
    pub ghost object_within: { object < length standing.now },
    pub ghost object_name: { indexed_name (filled names.now standing.now supertypes.now rank.items good.items) object ≡ java_lang_object },
    pub ghost packages: { package_ends.items ≡ map package_end names.now },
    pub ghost graph: { IsGraph (length standing.now) (filled names.now standing.now supertypes.now rank.items good.items) },
}

/// A member that look-up found, and the class that declares it.
#[derive(Clone, Copy)]
pub struct FoundMember<'a> {
    /// The node of the class.
    pub node: usize,
    /// The member.
    pub member: Member<'a>,
}

/// Appends nodes, the last one first.
fn push_back(stack: &mut Vec<usize>, nodes: &[usize]) -> Result<(), NoMemory>
    ensures { OnOk result (stack.new.items ≡ stack.old.items ++ reverse nodes.now) }
{
    for node in nodes.iter().rev() {
        stack.push(*node)?;
    }
    Ok(())
}

impl<'c, 't> Classes<'c, 't> {
    ghost use Rattle.jc_numbered.specs.inside.Above.{SeesAbove};
    ghost use Rattle.jc_numbered.specs.inside.Shown.{indexed_of};

    /// Returns the number of nodes.
    pub fn len(&self) -> usize
        ensures { result ≡ length self.now.standing.now }
    {
        self.standing.len()
    }

    /// Returns the name of a node. Returns an empty name if there is no such node.
    pub fn name(&self, node: usize) -> &[u8]
        ensures { result.now ≡ indexed_name (indexed_of self.now) node }
    {
        if node < self.names.len() {
            self.names.name(node)
        } else {
            &[]
        }
    }

    /// Returns a bound on the number of transitive supertypes of a node, with the node itself. It may be too small if
    /// one of these is circular. Only the cost of look-up depends on it.
    pub fn most_above(&self, node: usize) -> usize
        ensures { result ≡ slice_index_or self.now.most_above.items node 1 }
    {
        match self.most_above.get(node) {
            Some(most) => *most,
            None => 1,
        }
    }

    /// Returns the place of a node in the order of loading. The supertypes of a node that loads are before it.
    pub(crate) fn rank(&self, node: usize) -> usize
        ensures { result ≡ rank_at (indexed_of self.now) node }
    {
        match self.rank.get(node) {
            Some(rank) => *rank,
            None => 0,
        }
    }

    /// Returns whether two nodes are in one package.
    pub fn are_together(&self, node: usize, other: usize) -> bool
        ensures { result ≡ same_package (indexed_of self.now) node other }
    {
        same(self.package(node), self.package(other))
    }

    /// Returns the package of a node.
    pub(crate) fn package(&self, node: usize) -> &[u8]
        ensures { result.now ≡ package_of (indexed_name (indexed_of self.now) node) }
    {
        match self.package_ends.get(node) {
            Some(end) => &self.name(node)[..*end],
            None => &[],
        }
    }

    /// Returns what a node is: a class, outside or nothing.
    pub fn at(&self, node: usize) -> Standing<'t>
        requires { node < length self.now.standing.now }
        ensures { stands_of result ≡ standing_of (indexed_of self.now) node }
    {
        self.standing[node]
    }

    /// Returns whether a node is outside.
    pub(crate) fn is_outside(&self, node: usize) -> bool
        requires { node < length self.now.standing.now }
        ensures { result ≡ lies_outside (indexed_of self.now) node }
    {
        match self.at(node) {
            Standing::Outside => true,
            _ => false,
        }
    }

    /// Returns the access flags of a node. Returns 0 if the node is no class.
    pub fn flags(&self, node: usize) -> u16
        requires { node < length self.now.standing.now }
        ensures { result ≡ flags_of (standing_of (indexed_of self.now) node) }
    {
        match self.at(node) {
            Standing::Class(facts) => facts.flags(),
            _ => 0,
        }
    }

    /// Returns whether a node is an interface.
    pub fn is_interface(&self, node: usize) -> bool
        requires { node < length self.now.standing.now }
        ensures { result ≡ is_interface_at (indexed_of self.now) node }
    {
        AccessFlag::Interface.is_in(self.flags(node))
    }

    /// Returns the field with this name and descriptor that the class of a node declares.
    pub fn field(&self, node: usize, key: Key) -> Option<Member<'_>>
        requires { node < length self.now.standing.now }
        ensures { option_map member_lent result ≡ member (fields_of (standing_of (indexed_of self.now) node)) (key_lent key.entry) }
    {
        match self.at(node) {
            Standing::Class(facts) => facts.field(key),
            _ => None,
        }
    }

    /// Returns the method that look-up finds in the class of a node itself. It may be signature polymorphic (JVMS
    /// 5.4.3.3).
    pub fn declared(&self, node: usize, key: Key) -> Option<Member<'_>>
        requires { node < length self.now.standing.now }
        ensures { option_map member_lent result ≡ declared_at (indexed_of self.now) node (key_lent key.entry) }
    {
        match self.at(node) {
            Standing::Class(facts) => declared(facts, self.names.name(node), key),
            _ => None,
        }
    }

    /// Returns the method with this name and descriptor that the class of a node declares.
    pub fn method(&self, node: usize, key: Key) -> Option<Member<'_>>
        requires { node < length self.now.standing.now }
        ensures { option_map member_lent result ≡ member (methods_of (standing_of (indexed_of self.now) node)) (key_lent key.entry) }
    {
        match self.at(node) {
            Standing::Class(facts) => facts.method(key),
            _ => None,
        }
    }

    /// Returns the method with this name and descriptor that the class of a node declares, if it is PUBLIC and not
    /// STATIC.
    pub fn open_method(&self, node: usize, key: Key) -> Option<Member<'_>>
        requires { node < length self.now.standing.now }
        ensures { option_map member_lent result ≡ of_object (standing_of (indexed_of self.now) node) (key_lent key.entry) }
    {
        match self.method(node, key) {
            Some(member) => {
                if member.has(AccessFlag::Public) && !member.has(AccessFlag::Static) {
                    Some(member)
                } else {
                    None
                }
            }
            None => None,
        }
    }

    /// Returns the node of the superclass of a node, if there is one.
    pub fn superclass(&self, node: usize) -> Option<usize>
        requires { node < length self.now.standing.now }
        ensures { result ≡ superclass_at (indexed_of self.now) node }
    {
        if self.superclass_count(node) == 1 {
            Some(self.supertypes[node][0])
        } else {
            None
        }
    }

    /// Returns the method with this name and descriptor that an interface declares, if it is neither PRIVATE nor
    /// STATIC. Returns `None` if the node is no interface.
    pub fn given(&self, node: usize, key: Key) -> Option<Member<'_>>
        requires { node < length self.now.standing.now }
        ensures { option_map member_lent result ≡ gives (indexed_of self.now) (key_lent key.entry) node }
    {
        match self.at(node) {
            Standing::Class(facts) => facts.given(key),
            _ => None,
        }
    }

    /// Puts the transitive supertypes of some nodes into `seen`, each once. Removes the nodes that it had before.
    /// Returns `NoMemory` only when an allocation fails.
    pub fn see_above(&self, seen: &mut Seen, starts: &[usize]) -> Result<(), NoMemory>
        requires starts { All (λ v. v < length self.now.standing.now) starts.now }
        requires seen { length seen.old.flags ≡ length self.now.standing.now }
        ensures { OnOk result (SeesAbove (length self.now.standing.now) (indexed_of self.now) starts.now seen.new) }
    {
        mark_above(self.supertypes, seen, starts)
    }

    /// Returns the nodes of the direct supertypes of a node: the superclass, if there is one, and then the
    /// superinterfaces.
    pub fn supertypes(&self, node: usize) -> &[usize]
        requires { node < length self.now.supertypes.now }
        ensures { result.now ≡ successors_of self.now.supertypes.now node }
    {
        self.supertypes[node].as_slice()
    }

    /// Returns the number of superclasses of a node: 0 or 1. They are before the interfaces in its supertypes.
    fn superclass_count(&self, node: usize) -> usize
        requires { node < length self.now.standing.now }
        ensures { result ≡ superclass_count (standing_of (indexed_of self.now) node) }
    {
        match self.at(node) {
            Standing::Class(facts) => match facts.superclass() {
                Some(_) => 1,
                None => 0,
            },
            _ => 0,
        }
    }

    /// Pushes the nodes where look-up of a field continues, so that the next one is on top of the stack. These are the
    /// direct superinterfaces, and then the superclass (JVMS 5.4.3.2). Returns `NoMemory` only when an allocation
    /// fails.
    pub fn push_onward(&self, node: usize, stack: &mut Vec<usize>) -> Result<(), NoMemory>
        requires { node < length self.now.standing.now }
        ensures { OnOk result (reverse stack.new.items ≡ onward_nodes (indexed_of self.now) node ++ reverse stack.old.items) }
    {
        let (superclass, interfaces) = self.supertypes[node]
            .as_slice()
            .split_at(self.superclass_count(node));
        push_back(stack, superclass)?;
        push_back(stack, interfaces)?;
        Ok(())
    }
}
