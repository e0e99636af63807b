//! Look-up of methods in superinterfaces (JVMS 5.4.3.3, 5.4.3.4).

ghost use Rattle.std.specs.Prelude.{◌≡◌, ◌<◌, length, IfOk, OnOk};
ghost use Rattle.std.specs.Bool.{Decides};
ghost use Rattle.std.specs.Option.{IfSome};
ghost use Rattle.std.specs.List.{All};
ghost use Rattle.jc_classes.specs.Lent.{key_lent, member_lent};
ghost use Rattle.jc_numbered.specs.inside.Picks.{is_pick};
ghost use Rattle.jc_numbered.specs.inside.Shown.{indexed_of};
ghost use Rattle.jc_resolve.specs.inside.Entries.{IsKeyed};
ghost use Rattle.jc_resolve.specs.inside.Found.{TellsChosen, TellsInInterfaces};
ghost use Rattle.jc_resolve.specs.inside.Picks.{NoOther, TellsFirst, TellsSole, TellsPick};
ghost use Rattle.jc_resolve.specs.inside.Rooms.{IsRoom};

use crate::workspace::Workspace;
use jc_base::NoMemory;
use jc_classes::Key;
use jc_graph::Seen;
use jc_numbered::{Classes, FoundMember, candidates, is_pick, lowest};
use std::alloc::Global;

/// Returns the first node that is a pick: its method is maximally-specific and not ABSTRACT.
fn first_pick(classes: &Classes, covered: &Seen, nodes: &[usize], key: Key) -> Option<usize>
    requires nodes { All (λ v. v < length classes.now.standing.now) nodes.now }
    requires covered { length covered.now.flags ≡ length classes.now.standing.now }
    ensures { TellsFirst (is_pick (indexed_of classes.now) (key_lent key.entry) covered.now.flags) nodes.now result }
{
    for node in nodes {
        if is_pick(classes, covered, *node, key) {
            return Some(*node);
        }
    }
    None
}

/// Returns whether no other node is a pick.
fn is_only(classes: &Classes, covered: &Seen, nodes: &[usize], key: Key, first: usize) -> bool
    requires nodes { All (λ v. v < length classes.now.standing.now) nodes.now }
    requires covered { length covered.now.flags ≡ length classes.now.standing.now }
    ensures { Decides result (NoOther (is_pick (indexed_of classes.now) (key_lent key.entry) covered.now.flags) nodes.now first) }
{
    for node in nodes {
        if *node != first && is_pick(classes, covered, *node, key) {
            return false;
        }
    }
    true
}

/// Returns the node that is the only pick.
pub(crate) fn sole_pick(
    classes: &Classes,
    covered: &Seen,
    nodes: &[usize],
    key: Key,
) -> Option<usize>
    requires nodes { All (λ v. v < length classes.now.standing.now) nodes.now }
    requires covered { length covered.now.flags ≡ length classes.now.standing.now }
    ensures { TellsSole (is_pick (indexed_of classes.now) (key_lent key.entry) covered.now.flags) nodes.now result }
{
    match first_pick(classes, covered, nodes, key) {
        Some(first) => {
            if is_only(classes, covered, nodes, key, first) {
                Some(first)
            } else {
                None
            }
        }
        None => None,
    }
}

/// Returns the node whose method is chosen.
fn pick(classes: &Classes, covered: &Seen, nodes: &[usize], key: Key) -> Option<usize>
    requires nodes { All (λ v. v < length classes.now.standing.now) nodes.now }
    requires covered { length covered.now.flags ≡ length classes.now.standing.now }
    ensures { TellsPick (indexed_of classes.now) (key_lent key.entry) covered.now.flags nodes.now result }
{
    match sole_pick(classes, covered, nodes, key) {
        Some(node) => Some(node),
        None => lowest(classes, nodes),
    }
}

/// Chooses among the methods that interfaces declare.
fn choose<'a>(
    classes: &'a Classes,
    covered: &mut Seen,
    nodes: &[usize],
    key: Key,
) -> Result<Option<FoundMember<'a>>, NoMemory>
    requires nodes { All (λ v. v < length classes.now.standing.now) nodes.now }
    requires covered { length covered.old.flags ≡ length classes.now.standing.now }
    ensures covered { OnOk result (length covered.new.flags ≡ length classes.now.standing.now) }
    ensures keyed { IfOk result (λ r. IfSome r (λ h. IsKeyed (key_lent key.entry) (member_lent h.member))) }
    ensures within { IfOk result (λ r. IfSome r (λ h. h.node < length classes.now.standing.now)) }
    ensures chosen { IfOk result (TellsChosen (length classes.now.standing.now) (indexed_of classes.now) (key_lent key.entry) nodes.now) }
{
    classes.see_above(covered, nodes)?;
    match pick(classes, covered, nodes, key) {
        Some(node) => match classes.given(node, key) {
            Some(member) => Ok(Some(FoundMember { node, member })),
            None => Ok(None),
        },
        None => Ok(None),
    }
}

/// Finds the method that a class inherits from its superinterfaces. It is the only maximally-specific one that is not
/// ABSTRACT, or else that of the interface with the least name. It walks the supertypes of the class once, and those of
/// the candidates once.
pub(crate) fn find_above<'a>(
    alloc: Global,
    classes: &'a Classes,
    room: &mut Workspace,
    start: usize,
    key: Key,
) -> Result<Option<FoundMember<'a>>, NoMemory>
    requires start { start < length classes.now.standing.now }
    requires room { IsRoom classes.now room.old }
    ensures room { OnOk result (IsRoom classes.now room.new) }
    ensures keyed { IfOk result (λ r. IfSome r (λ h. IsKeyed (key_lent key.entry) (member_lent h.member))) }
    ensures within { IfOk result (λ r. IfSome r (λ h. h.node < length classes.now.standing.now)) }
    ensures found { IfOk result (TellsInInterfaces (indexed_of classes.now) (key_lent key.entry) start) }
{
    room.above.see(alloc, classes, start)?;
    let nodes = candidates(alloc, classes, room.above.interfaces(), key)?;
    choose(classes, &mut room.covered, nodes.as_slice(), key)
}
