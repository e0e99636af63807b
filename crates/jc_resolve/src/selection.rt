//! Selection of methods (JVMS 6.5, invokevirtual and invokeinterface).

ghost use Rattle.std.specs.Prelude.{◌≡◌, ◌<◌, ◌&&◌, length, is_some, not, true, IfOk, OnOk};
ghost use Rattle.std.specs.Bool.{Decides};
ghost use Rattle.std.specs.List.{All, filter};
ghost use Rattle.jc_classes.specs.Lent.{key_lent};
ghost use Rattle.jc_classes.specs.Worlds.{World, interfaces_of};
ghost use Rattle.jc_numbered.specs.inside.Indexed.{IsIndexed, good_at, indexed_name, standing_of};
ghost use Rattle.jc_numbered.specs.inside.Overriding.{overridable_at};
ghost use Rattle.jc_numbered.specs.inside.Shown.{indexed_of};
ghost use Rattle.jc_classes.specs.Selection.{DeclaresInstance, SelectsNone};
ghost use Rattle.jc_resolve.specs.inside.AbstractMethods.{key_in};
ghost use Rattle.jc_resolve.specs.inside.Rooms.{IsRoom};
ghost use Rattle.jc_resolve.specs.inside.Selection.{declares_at, is_abstract_at, is_bare, is_open_at};

use crate::abstract_methods::AbstractMethod;
use crate::superinterfaces::sole_pick;
use crate::workspace::Workspace;
use jc_base::NoMemory;
use jc_classes::{Key, Standing};
use jc_file::AccessFlag;
use jc_numbered::{Classes, candidates, lowest, overridable};
use std::alloc::Global;

/// Returns whether a class declares a method that overrides this method of a superclass (JVMS 5.4.5).
pub(crate) fn overrides(classes: &Classes, node: usize, method: &AbstractMethod) -> bool
    requires { node < length classes.now.standing.now }
    ensures { result ≡ (is_some (overridable_at (indexed_of classes.now) (key_in method.now) node)
        && is_open_at (indexed_of classes.now) node method.now) }
{
    match overridable(classes, node, method.key()) {
        Some(_) => is_open(classes, node, method),
        None => false,
    }
}

/// Returns whether a subclass may override this method (JVMS 5.4.5).
fn is_open(classes: &Classes, node: usize, method: &AbstractMethod) -> bool
    ensures { result ≡ is_open_at (indexed_of classes.now) node method.now }
{
    let member = method.member();
    if member.has(AccessFlag::Public) || member.has(AccessFlag::Protected) {
        return true;
    }
    member.is_package_private() && classes.are_together(node, method.node())
}

/// Returns whether a class declares a method with this name and descriptor that is not STATIC.
pub(crate) fn declares_instance(classes: &Classes, node: usize, key: Key) -> bool
    requires { node < length classes.now.standing.now }
    ensures { result ≡ declares_at (indexed_of classes.now) (key_lent key.entry) node }
{
    match classes.method(node, key) {
        Some(method) => !method.has(AccessFlag::Static),
        None => false,
    }
}

/// Returns whether a class has direct superinterfaces.
pub(crate) fn has_interfaces(classes: &Classes, node: usize) -> bool
    requires { node < length classes.now.standing.now }
    ensures { result ≡ not (is_bare (interfaces_of (standing_of (indexed_of classes.now) node))) }
{
    match classes.at(node) {
        Standing::Class(facts) => facts.interface_count() > 0,
        _ => false,
    }
}

/// Returns whether a class or one of its superclasses declares such a method.
fn inherits_instance(classes: &Classes, class: usize, key: Key) -> bool
    requires class { class < length classes.now.standing.now }
    requires good { good_at (indexed_of classes.now) class ≡ true }
    ensures { (m : World) → IsIndexed m (indexed_of classes.now)
        → Decides result (DeclaresInstance m (key_lent key.entry) (indexed_name (indexed_of classes.now) class)) }
{
    let mut node = class;
    loop {
        if declares_instance(classes, node, key) {
            return true;
        }
        match classes.superclass(node) {
            Some(above) => node = above,
            None => return false,
        }
    }
}

/// Returns those of `nodes` whose method with this name and descriptor is ABSTRACT.
fn abstract_among(
    alloc: Global,
    classes: &Classes,
    nodes: &[usize],
    key: Key,
) -> Result<Vec<usize>, NoMemory>
    requires { All (λ v. v < length classes.now.standing.now) nodes.now }
    ensures { IfOk result (λ found. found.items ≡ filter (is_abstract_at (indexed_of classes.now) (key_lent key.entry)) nodes.now) }
{
    let mut found = Vec::new(alloc);
    for node in nodes {
        if is_abstract(classes, *node, key) {
            found.push(*node)?;
        }
    }
    Ok(found)
}

/// Returns whether the method of an interface with this name and descriptor is ABSTRACT.
fn is_abstract(classes: &Classes, node: usize, key: Key) -> bool
    requires { node < length classes.now.standing.now }
    ensures { result ≡ is_abstract_at (indexed_of classes.now) (key_lent key.entry) node }
{
    match classes.given(node, key) {
        Some(method) => method.has(AccessFlag::Abstract),
        None => false,
    }
}

/// Returns whether no method is selected for an ABSTRACT method of the superinterface `home`, and `home` has the least
/// name of such superinterfaces.
///
/// Looks for the method in the superclasses, and then in the superinterfaces.
pub(crate) fn selects_none(
    alloc: Global,
    classes: &Classes,
    room: &mut Workspace,
    class: usize,
    home: usize,
    key: Key,
) -> Result<bool, NoMemory>
    requires class { class < length classes.now.standing.now }
    requires good { good_at (indexed_of classes.now) class ≡ true }
    requires home { home < length classes.now.standing.now }
    requires room { IsRoom classes.now room.old }
    ensures none { IfOk result (λ b. (m : World) → IsIndexed m (indexed_of classes.now)
        → Decides b (SelectsNone m (key_lent key.entry) (indexed_name (indexed_of classes.now) class) (indexed_name (indexed_of classes.now) home))) }
    ensures room { OnOk result (IsRoom classes.now room.new) }
{
    if inherits_instance(classes, class, key) {
        return Ok(false);
    }
    room.above.see(alloc, classes, class)?;
    let nodes = candidates(alloc, classes, room.above.interfaces(), key)?;
    let abstracts = abstract_among(alloc, classes, nodes.as_slice(), key)?;
    if lowest(classes, abstracts.as_slice()) != Some(home) {
        return Ok(false);
    }
    classes.see_above(&mut room.covered, nodes.as_slice())?;
    Ok(sole_pick(classes, &room.covered, nodes.as_slice(), key).is_none())
}
