//! The chain of superclasses.

ghost use Rattle.std.specs.Prelude.{◌≡◌, ◌<◌, length, true};
ghost use Rattle.std.specs.Bool.{Decides};
ghost use Rattle.jc_numbered.specs.inside.Indexed.{good_at};
ghost use Rattle.jc_numbered.specs.inside.Shown.{indexed_of};
ghost use Rattle.jc_numbered.specs.inside.Chain.{ExtendsNode};

use crate::classes::Classes;

/// Returns whether a class is another, or has it in its chain of superclasses.
pub(crate) fn extends(classes: &Classes, start: usize, other: usize) -> bool
    requires start { start < length classes.now.standing.now }
    requires good { good_at (indexed_of classes.now) start ≡ true }
    ensures { Decides result (ExtendsNode (indexed_of classes.now) start other) }
{
    let mut node = start;
    while node != other {
        match classes.superclass(node) {
            Some(above) => node = above,
            None => return false,
        }
    }
    true
}
