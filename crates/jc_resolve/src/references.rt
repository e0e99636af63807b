//! The answer to a reference of any kind.

ghost use Rattle.std.specs.Prelude.{IfOk, OnOk};
ghost use Rattle.jc_classes.specs.Lent.{reference_lent};
ghost use Rattle.jc_resolve.specs.inside.Looks.{reach_of, size_of, TellsReference};
ghost use Rattle.jc_resolve.specs.inside.Named.{TellsNamed, TellsNamedWithin, IsNodeOf};
ghost use Rattle.jc_resolve.specs.inside.Resolved.{IsWithinSome};
ghost use Rattle.jc_resolve.specs.inside.Rooms.{IsRoom};

use crate::entry::Entry;
use crate::look::Look;
use crate::resolve::NamedNode;
use crate::workspace::Workspace;
use jc_base::NoMemory;
use jc_classes::{Reference, ReferenceKind};
use std::alloc::Global;

/// Returns what a reference names, by the node of its class.
fn named(reference: Reference, node: Option<usize>) -> NamedNode
    ensures named { TellsNamed reference.entry.class.now node result }
    ensures within { TellsNamedWithin reference.entry.class.now node result }
{
    if reference.is_array() {
        return NamedNode::Array(node);
    }
    match node {
        Some(node) => NamedNode::Class(node),
        None => NamedNode::Array(None),
    }
}

impl<'l, 'c, 't> Look<'l, 'c, 't> {
    /// Resolves a reference. `node` is the node of the class that it names; for an array, of its innermost class.
    pub(crate) fn resolve(
        &self,
        alloc: Global,
        room: &mut Workspace,
        reference: Reference<'_>,
        node: Option<usize>,
    ) -> Result<Entry<usize>, NoMemory>
        requires node { IsNodeOf (reach_of self.now) reference.class.now node }
        requires within { IsWithinSome (size_of self.now) node }
        requires room { IsRoom self.now.classes.now room.old }
        ensures room { OnOk result (IsRoom self.now.classes.now room.new) }
        ensures found { IfOk result (TellsReference self.now (reference_lent reference.entry)) }
    {
        let named = named(reference, node);
        let key = reference.key;
        match reference.kind {
            ReferenceKind::Class => Ok(self.class_entry(named)),
            ReferenceKind::Field => self.field(alloc, room, named, key),
            ReferenceKind::Method => self.method(alloc, room, named, key),
            ReferenceKind::InterfaceMethod => self.interface_method(alloc, room, named, key),
        }
    }
}
