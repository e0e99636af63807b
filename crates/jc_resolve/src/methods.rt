//! Look-up of methods.

ghost use Rattle.std.specs.Prelude.{◌≡◌, ◌<◌, length, true, IfOk, OnOk};
ghost use Rattle.std.specs.Option.{IfSome};
ghost use Rattle.jc_classes.specs.Lent.{key_lent, member_lent};
ghost use Rattle.jc_numbered.specs.inside.Indexed.{good_at};
ghost use Rattle.jc_numbered.specs.inside.Shown.{indexed_of};
ghost use Rattle.jc_resolve.specs.inside.Entries.{IsKeyed};
ghost use Rattle.jc_resolve.specs.inside.Found.{TellsInClasses, TellsInterfaceMethod, TellsMethod};
ghost use Rattle.jc_resolve.specs.inside.Rooms.{IsRoom};

use crate::superinterfaces::find_above;
use crate::workspace::Workspace;
use jc_base::NoMemory;
use jc_classes::Key;
use jc_numbered::{Classes, FoundMember};
use std::alloc::Global;

/// Finds the method that a class or one of its superclasses declares (JVMS 5.4.3.3).
pub(crate) fn find_in_classes<'a>(
    classes: &'a Classes,
    start: usize,
    key: Key,
) -> Option<FoundMember<'a>>
    requires start { start < length classes.now.standing.now }
    requires good { good_at (indexed_of classes.now) start ≡ true }
    ensures keyed { IfSome result (λ h. IsKeyed (key_lent key.entry) (member_lent h.member)) }
    ensures within { IfSome result (λ h. h.node < length classes.now.standing.now) }
    ensures found { TellsInClasses (indexed_of classes.now) (key_lent key.entry) start result }
{
    let mut node = start;
    loop {
        if let Some(member) = classes.declared(node, key) {
            return Some(FoundMember { node, member });
        }
        match classes.superclass(node) {
            Some(above) => node = above,
            None => return None,
        }
    }
}

/// Finds the method for a reference to a method (JVMS 5.4.3.3).
pub(crate) fn find_method<'a>(
    alloc: Global,
    classes: &'a Classes,
    room: &mut Workspace,
    start: usize,
    key: Key,
) -> Result<Option<FoundMember<'a>>, NoMemory>
    requires start { start < length classes.now.standing.now }
    requires good { good_at (indexed_of classes.now) start ≡ true }
    requires room { IsRoom classes.now room.old }
    ensures room { OnOk result (IsRoom classes.now room.new) }
    ensures keyed { IfOk result (λ r. IfSome r (λ h. IsKeyed (key_lent key.entry) (member_lent h.member))) }
    ensures within { IfOk result (λ r. IfSome r (λ h. h.node < length classes.now.standing.now)) }
    ensures found { IfOk result (TellsMethod (indexed_of classes.now) (key_lent key.entry) start) }
{
    match find_in_classes(classes, start, key) {
        Some(hit) => Ok(Some(hit)),
        None => find_above(alloc, classes, room, start, key),
    }
}

/// Finds the method for a reference to an interface method (JVMS 5.4.3.4).
pub(crate) fn find_interface_method<'a>(
    alloc: Global,
    classes: &'a Classes,
    room: &mut Workspace,
    start: usize,
    key: Key,
) -> Result<Option<FoundMember<'a>>, NoMemory>
    requires start { start < length classes.now.standing.now }
    requires room { IsRoom classes.now room.old }
    ensures room { OnOk result (IsRoom classes.now room.new) }
    ensures keyed { IfOk result (λ r. IfSome r (λ h. IsKeyed (key_lent key.entry) (member_lent h.member))) }
    ensures within { IfOk result (λ r. IfSome r (λ h. h.node < length classes.now.standing.now)) }
    ensures found { IfOk result (TellsInterfaceMethod (indexed_of classes.now) (key_lent key.entry) start) }
{
    if let Some(member) = classes.method(start, key) {
        return Ok(Some(FoundMember {
            node: start,
            member,
        }));
    }
    if let Some(member) = classes.open_method(classes.object, key) {
        return Ok(Some(FoundMember {
            node: classes.object,
            member,
        }));
    }
    find_above(alloc, classes, room, start, key)
}
