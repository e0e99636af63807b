//! How a node loads, given how its supertypes load (JVMS 5.3.5).

ghost use Rattle.std.specs.Prelude.{◌≡◌, ◌<◌, length};
ghost use Rattle.std.specs.List.{All};
ghost use Rattle.jc_numbered.specs.inside.Shown.{indexed_of};
ghost use Rattle.jc_numbered.specs.inside.Loading.{sees, is_wrong_kind, judged_at, judged_each};

use crate::classes::Classes;
use jc_classes::LinkageError;
use jc_file::AccessFlag;

/// How a node loads.
#[derive(Clone, Copy)]
pub enum Load {
    /// The class loads.
    Loaded,
    /// The name is outside.
    Outside,
    /// The class does not load. The node is that of the class at fault.
    Fails(LinkageError, usize),
}

/// Returns whether the class of `other` is accessible to the class of `node` (JVMS 5.4.4). A name without a class
/// counts as a class that is not PUBLIC.
pub fn can_see(classes: &Classes, node: usize, other: usize) -> bool
    requires node { node < length classes.now.standing.now }
    requires other { other < length classes.now.standing.now }
    ensures { result ≡ sees (indexed_of classes.now) node other }
{
    AccessFlag::Public.is_in(classes.flags(other)) || classes.are_together(node, other)
}

/// Returns whether a supertype is an interface where a class is required, or a class where an interface is required.
fn is_wrong(classes: &Classes, other: usize, is_class: bool) -> bool
    requires { other < length classes.now.standing.now }
    ensures { result ≡ is_wrong_kind (indexed_of classes.now) is_class other }
{
    AccessFlag::Interface.is_in(classes.flags(other)) == is_class
}

/// Returns the error that a supertype causes, if it causes one.
fn judge(
    classes: &Classes,
    loads: &[Load],
    node: usize,
    is_class: bool,
    other: usize,
) -> Option<Load>
    requires node { node < length classes.now.standing.now }
    requires other { other < length classes.now.standing.now }
    requires loads { length loads.now ≡ length classes.now.standing.now }
    ensures { result ≡ judged_at (indexed_of classes.now) loads.now node is_class other }
{
    match loads[other] {
        Load::Outside => None,
        Load::Loaded => {
            if !can_see(classes, node, other) {
                Some(Load::Fails(LinkageError::IllegalAccess, other))
            } else if is_wrong(classes, other, is_class) {
                Some(Load::Fails(LinkageError::Incompatible, other))
            } else {
                None
            }
        }
        Load::Fails(fault, about) => Some(Load::Fails(fault, about)),
    }
}

/// Returns the first error that a supertype causes, in the order of supertypes. Returns `Loaded` if there is none.
/// `loads` has how each supertype loads, and `has_superclass` says whether the first supertype is the superclass.
pub fn judge_each(
    classes: &Classes,
    loads: &[Load],
    node: usize,
    has_superclass: bool,
    supertypes: &[usize],
) -> Load
    requires node { node < length classes.now.standing.now }
    requires supertypes { All (λ s. s < length classes.now.standing.now) supertypes.now }
    requires loads { length loads.now ≡ length classes.now.standing.now }
    ensures { result ≡ judged_each (indexed_of classes.now) loads.now node has_superclass supertypes.now }
{
    let mut is_class = has_superclass;
    for other in supertypes {
        if let Some(error) = judge(classes, loads, node, is_class, *other) {
            return error;
        }
        is_class = false;
    }
    Load::Loaded
}
