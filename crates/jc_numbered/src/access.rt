//! Access to members (JVMS 5.4.4).

ghost use Rattle.std.specs.Prelude.{◌≡◌, ◌<◌, length, true};
ghost use Rattle.std.specs.Bool.{Decides};
ghost use Rattle.jc_numbered.specs.inside.Indexed.{indexed_name, good_at};
ghost use Rattle.jc_numbered.specs.inside.Shown.{indexed_of, found_at};
ghost use Rattle.jc_numbered.specs.inside.Access.{IsTarget, IsInPackage};
ghost use Rattle.jc_numbered.specs.inside.Access.{TellsWithin, TellsRelated, TellsOpen, TellsInherited, TellsOwn, TellsCanUse};

use crate::chain::extends;
use crate::classes::{Classes, FoundMember};
use jc_classes::same;
use jc_file::AccessFlag;

/// What a reference names: a class, or an array.
#[derive(Clone, Copy)]
pub enum AccessTarget {
    /// The class of this node.
    Class(usize),
    /// An array of any type.
    Array,
}

/// Returns whether a class is another or a subclass of it. Every class is within `java/lang/Object`.
fn is_within(classes: &Classes, node: usize, other: usize) -> bool
    requires node { node < length classes.now.standing.now }
    requires other { other < length classes.now.standing.now }
    requires good { good_at (indexed_of classes.now) node ≡ true }
    ensures { TellsWithin (indexed_of classes.now) node other result }
{
    if other == classes.object {
        true
    } else {
        extends(classes, node, other)
    }
}

/// Returns whether the reference names the class, a subclass of it or a superclass of it.
fn is_related(classes: &Classes, target: AccessTarget, class: usize) -> bool
    requires target { IsTarget (length classes.now.standing.now) (indexed_of classes.now) target }
    requires class { class < length classes.now.standing.now }
    requires good { good_at (indexed_of classes.now) class ≡ true }
    ensures { TellsRelated (indexed_of classes.now) target class result }
{
    match target {
        AccessTarget::Class(node) => {
            if is_within(classes, node, class) {
                true
            } else {
                is_within(classes, class, node)
            }
        }
        AccessTarget::Array => class == classes.object,
    }
}

/// Returns whether a member is PROTECTED and the class that uses it inherits it.
fn is_inherited(classes: &Classes, target: AccessTarget, class: usize, hit: FoundMember) -> bool
    requires target { IsTarget (length classes.now.standing.now) (indexed_of classes.now) target }
    requires class { class < length classes.now.standing.now }
    requires home { hit.node < length classes.now.standing.now }
    requires good { good_at (indexed_of classes.now) class ≡ true }
    ensures { TellsInherited (indexed_of classes.now) class target hit.entry result }
{
    if !hit.member.has(AccessFlag::Protected) {
        return false;
    }
    if !is_within(classes, class, hit.node) {
        return false;
    }
    if hit.member.has(AccessFlag::Static) {
        return true;
    }
    is_related(classes, target, class)
}

/// Returns whether a member is PROTECTED or package-private, and the class is in the package of the member's class.
fn is_in_package(classes: &Classes, class: usize, hit: FoundMember) -> bool
    requires class { class < length classes.now.standing.now }
    requires home { hit.node < length classes.now.standing.now }
    ensures { Decides result (IsInPackage (indexed_name (indexed_of classes.now) class) (found_at (indexed_of classes.now) hit.entry)) }
{
    if !(hit.member.has(AccessFlag::Protected) || hit.member.is_package_private()) {
        return false;
    }
    classes.are_together(class, hit.node)
}

/// Returns whether a member is PRIVATE, and the class declares it.
fn is_own(classes: &Classes, class: usize, hit: FoundMember) -> bool
    requires class { class < length classes.now.standing.now }
    requires home { hit.node < length classes.now.standing.now }
    ensures { TellsOwn (indexed_of classes.now) class hit.entry result }
{
    if !hit.member.has(AccessFlag::Private) {
        return false;
    }
    hit.node == class
}

/// Returns whether a member is PUBLIC, or is `clone` of `java/lang/Object` and the reference names an array.
fn is_open(classes: &Classes, target: AccessTarget, hit: FoundMember) -> bool
    requires { hit.node < length classes.now.standing.now }
    ensures { TellsOpen (indexed_of classes.now) target hit.entry result }
{
    if hit.member.has(AccessFlag::Public) {
        return true;
    }
    match target {
        AccessTarget::Class(_) => false,
        AccessTarget::Array => {
            same(classes.names.name(hit.node), b"java/lang/Object") && hit.member.is_clone()
        }
    }
}

/// Returns whether a class may use a member that it found through this target (JVMS 5.4.4).
pub fn can_use(classes: &Classes, target: AccessTarget, class: usize, hit: FoundMember) -> bool
    requires target { IsTarget (length classes.now.standing.now) (indexed_of classes.now) target }
    requires class { class < length classes.now.standing.now }
    requires home { hit.node < length classes.now.standing.now }
    requires good { good_at (indexed_of classes.now) class ≡ true }
    ensures { TellsCanUse (indexed_of classes.now) class target hit.entry result }
{
    if is_open(classes, target, hit) {
        return true;
    }
    if is_inherited(classes, target, class, hit) {
        return true;
    }
    if is_in_package(classes, class, hit) {
        return true;
    }
    is_own(classes, class, hit)
}
