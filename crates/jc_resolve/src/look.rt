//! The data for the look-ups of a class.

ghost use Rattle.std.specs.Prelude.{◌≡◌, ◌<◌, length, true};
ghost use Rattle.jc_numbered.specs.inside.Loading.{load_at};
ghost use Rattle.jc_numbered.specs.inside.Shown.{indexed_of};
ghost use Rattle.jc_resolve.specs.inside.Resolved.{has_loaded, TellsGood};

use jc_numbered::{Classes, Load};

/// A class whose references are resolved, among classes of which it is known how they load.
#[derive(Clone, Copy)]
pub(crate) struct Look<'l, 'c, 't> {
    /// The classes of its reach, or of a larger graph.
    pub(crate) classes: &'l Classes<'c, 't>,
    /// How each of them loads.
    pub(crate) loads: &'l [Load],
    /// The node of the class.
    pub(crate) class: usize,
    pub ghost size: { length loads.now ≡ length classes.now.standing.now },
    pub ghost good: { TellsGood (indexed_of classes.now) loads.now },
    pub ghost within: { class < length classes.now.standing.now },
    pub ghost loaded: { has_loaded (load_at loads.now class) ≡ true },
}
