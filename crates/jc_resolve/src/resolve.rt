//! The answer to a reference to a member.

ghost use Rattle.std.specs.Prelude.{◌≡◌, ◌<◌, ℕ, true, IfOk, Ok, OnOk};
ghost use Rattle.std.specs.Option.{IfSome};
ghost use Rattle.jc_classes.specs.Lent.{key_lent, member_lent};
ghost use Rattle.jc_classes.specs.Names.{Name};
ghost use Rattle.jc_classes.specs.Resolution.{ResolvesField, ResolvesInterfaceMethod, ResolvesMethod};
ghost use Rattle.jc_numbered.specs.inside.Access.{named_at, IsTarget};
ghost use Rattle.jc_numbered.specs.inside.Indexed.{Indexed, good_at};
ghost use Rattle.jc_resolve.specs.inside.Entries.{IsKeyed};
ghost use Rattle.jc_resolve.specs.inside.Looks.{reach_of, size_of, TellsMember, TellsOutcome, TellsStart};
ghost use Rattle.jc_resolve.specs.inside.Resolved.{element_of, named_of, target_at, IsWithinAll};
ghost use Rattle.jc_resolve.specs.inside.Resolved.{StartsInArray, StartsInClass, StartsInObject};
ghost use Rattle.jc_resolve.specs.inside.Rooms.{IsRoom};

use crate::entry::{Entry, hit_entry};
use crate::fields::find_field;
use crate::look::Look;
use crate::methods::{find_interface_method, find_method};
use crate::workspace::Workspace;
use jc_base::NoMemory;
use jc_classes::{Key, LinkageError};
use jc_file::AccessFlag;
use jc_numbered::{AccessTarget, FoundMember, Load, can_see, can_use};
use std::alloc::Global;

/// What a Class constant names: a class, or an array with its innermost class.
#[derive(Clone, Copy)]
pub(crate) enum NamedNode {
    Class(usize),
    Array(Option<usize>),
}

/// Returns the class in which look-up begins, by how it loads and whether it is accessible. The error is the answer
/// without look-up.
fn start_in_class(sees: bool, load: Load, node: usize) -> Result<usize, Entry<usize>>
    ensures start { StartsInClass sees load node result }
    ensures at { (v : ℕ) → result ≡ Ok v → (v ≡ node) × (load ≡ Load.Loaded) }
{
    match load {
        Load::Loaded => {
            if sees {
                Ok(node)
            } else {
                Err(Entry::Error(LinkageError::IllegalAccess, node))
            }
        }
        Load::Outside => Err(Entry::Outside(node)),
        Load::Fails(error, other) => Err(Entry::Error(error, other)),
    }
}

/// Returns the class in which look-up begins for an array of a primitive type: `java/lang/Object`.
fn start_in_object(object: usize, load: Load) -> Result<usize, Entry<usize>>
    ensures start { StartsInObject object load result }
    ensures at { (v : ℕ) → result ≡ Ok v → (v ≡ object) × (load ≡ Load.Loaded) }
{
    match load {
        Load::Loaded => Ok(object),
        Load::Outside => Err(Entry::Outside(object)),
        Load::Fails(error, other) => Err(Entry::Error(error, other)),
    }
}

/// Returns the class in which look-up begins for an array of a class, by how this class loads and whether it is
/// accessible.
fn start_in_array(
    sees: bool,
    load: Load,
    node: usize,
    object: usize,
    object_load: Load,
) -> Result<usize, Entry<usize>>
    ensures start { StartsInArray sees load node object object_load result }
    ensures at { (v : ℕ) → result ≡ Ok v → (v ≡ object) × (object_load ≡ Load.Loaded) }
{
    match load {
        Load::Loaded => {
            if sees {
                start_in_object(object, object_load)
            } else {
                Err(Entry::Error(LinkageError::IllegalAccess, node))
            }
        }
        Load::Outside => start_in_object(object, object_load),
        Load::Fails(error, other) => Err(Entry::Error(error, other)),
    }
}

/// Returns what a reference names, without the class of an array.
pub(crate) fn target_of(reference: NamedNode) -> AccessTarget
    ensures named { (x : Indexed) (text : Name) → named_at x result text (element_of x reference) ≡ named_of x reference text }
    ensures target { result ≡ target_at reference }
{
    match reference {
        NamedNode::Class(node) => AccessTarget::Class(node),
        NamedNode::Array(_) => AccessTarget::Array,
    }
}

impl<'l, 'c, 't> Look<'l, 'c, 't> {
    /// Returns the class in which look-up of a member begins. The error is the answer without look-up.
    fn begin(&self, named: NamedNode) -> Result<usize, Entry<usize>>
        requires { IsWithinAll (size_of self.now) named }
        ensures at { (v : ℕ) → result ≡ Ok v → (v < size_of self.now) × (good_at (reach_of self.now) v ≡ true) }
        ensures target { (v : ℕ) → result ≡ Ok v → IsTarget (size_of self.now) (reach_of self.now) (target_at named) }
        ensures starts { TellsStart self.now named result }
    {
        let classes = self.classes;
        match named {
            NamedNode::Class(node) => {
                start_in_class(can_see(classes, self.class, node), self.loads[node], node)
            }
            NamedNode::Array(element) => match element {
                None => start_in_object(classes.object, self.loads[classes.object]),
                Some(node) => start_in_array(
                    can_see(classes, self.class, node),
                    self.loads[node],
                    node,
                    classes.object,
                    self.loads[classes.object],
                ),
            },
        }
    }

    /// Returns the answer, by what look-up from the class at `start` found. `missing` is the error if it found nothing.
    fn settle(
        &self,
        alloc: Global,
        room: &mut Workspace,
        named: NamedNode,
        start: usize,
        found: Option<FoundMember<'l>>,
        missing: LinkageError,
        key: Key,
    ) -> Result<Entry<usize>, NoMemory>
        requires start { start < size_of self.now }
        requires target { IsTarget (size_of self.now) (reach_of self.now) (target_at named) }
        requires room { IsRoom self.now.classes.now room.old }
        requires home { IfSome found (λ h. h.node < size_of self.now) }
        requires keyed { IfSome found (λ h. IsKeyed (key_lent key) (member_lent h.member)) }
        ensures room { OnOk result (IsRoom self.now.classes.now room.new) }
        ensures settled { IfOk result (TellsOutcome self.now named (key_lent key.entry) missing start found.entry) }
    {
        let target = target_of(named);
        match found {
            Some(hit) => {
                if can_use(self.classes, target, self.class, hit) {
                    Ok(hit_entry(hit, key))
                } else {
                    Ok(Entry::Error(LinkageError::IllegalAccess, hit.node))
                }
            }
            None => {
                room.above.see(alloc, self.classes, start)?;
                match room.above.outside() {
                    Some(node) => Ok(Entry::Outside(node)),
                    None => Ok(Entry::OwnError(missing)),
                }
            }
        }
    }

    /// Returns the answer to a reference to a field (JVMS 5.4.3.2).
    pub(crate) fn field(
        &self,
        alloc: Global,
        room: &mut Workspace,
        named: NamedNode,
        key: Key,
    ) -> Result<Entry<usize>, NoMemory>
        requires named { IsWithinAll (size_of self.now) named }
        requires room { IsRoom self.now.classes.now room.old }
        ensures room { OnOk result (IsRoom self.now.classes.now room.new) }
        ensures found { IfOk result (TellsMember ResolvesField self.now named (key_lent key.entry)) }
    {
        let classes = self.classes;
        match self.begin(named) {
            Ok(start) => {
                let found = find_field(classes, &mut room.covered, &mut room.stack, start, key)?;
                self.settle(alloc, room, named, start, found, LinkageError::NoField, key)
            }
            Err(entry) => Ok(entry),
        }
    }

    /// Returns the answer to a reference to a method (JVMS 5.4.3.3).
    pub(crate) fn method(
        &self,
        alloc: Global,
        room: &mut Workspace,
        named: NamedNode,
        key: Key,
    ) -> Result<Entry<usize>, NoMemory>
        requires named { IsWithinAll (size_of self.now) named }
        requires room { IsRoom self.now.classes.now room.old }
        ensures room { OnOk result (IsRoom self.now.classes.now room.new) }
        ensures found { IfOk result (TellsMember ResolvesMethod self.now named (key_lent key.entry)) }
    {
        let classes = self.classes;
        match self.begin(named) {
            Ok(start) => {
                if AccessFlag::Interface.is_in(classes.flags(start)) {
                    return Ok(Entry::Error(LinkageError::Incompatible, start));
                }
                let found = find_method(alloc, classes, room, start, key)?;
                self.settle(
                    alloc,
                    room,
                    named,
                    start,
                    found,
                    LinkageError::NoMethod,
                    key,
                )
            }
            Err(entry) => Ok(entry),
        }
    }

    /// Returns the answer to a reference to an interface method (JVMS 5.4.3.4).
    pub(crate) fn interface_method(
        &self,
        alloc: Global,
        room: &mut Workspace,
        named: NamedNode,
        key: Key,
    ) -> Result<Entry<usize>, NoMemory>
        requires named { IsWithinAll (size_of self.now) named }
        requires room { IsRoom self.now.classes.now room.old }
        ensures room { OnOk result (IsRoom self.now.classes.now room.new) }
        ensures found { IfOk result (TellsMember ResolvesInterfaceMethod self.now named (key_lent key.entry)) }
    {
        let classes = self.classes;
        match self.begin(named) {
            Ok(start) => {
                if !AccessFlag::Interface.is_in(classes.flags(start)) {
                    return Ok(Entry::OwnError(LinkageError::Incompatible));
                }
                let found = find_interface_method(alloc, classes, room, start, key)?;
                self.settle(
                    alloc,
                    room,
                    named,
                    start,
                    found,
                    LinkageError::NoMethod,
                    key,
                )
            }
            Err(entry) => Ok(entry),
        }
    }
}
