//! The starts of the instructions of a code.

ghost use Rattle.std.specs.Prelude.{◌≡◌, ◌==◌, []};
ghost use Rattle.std.specs.List.{list_any};

use std::alloc::Global;
use std::marker::Model;

/// Starts of instructions, as a mark for each offset.
///
/// The model is the list of the marked offsets.
#[derive(Drop)]
pub(crate) struct Starts {
    pub(crate) marks: Vec<bool>,
}

impl Model for Starts {
    ghost use Rattle.std.specs.Prelude.{List, ℕ};

    ghost Value = { List ℕ };

    ghost use Rattle.jc_code.specs.inside.Marks.{marked};

    ghost view = { λ s. marked s.marks.items };
}

impl Starts {
    /// Returns no starts. Does not allocate.
    pub(crate) fn none(alloc: Global) -> Starts
        ensures { result ≡ [] }
    {
        Starts {
            marks: Vec::new(alloc),
        }
    }

    /// Returns whether an instruction starts at a place.
    pub(crate) fn has(&self, place: usize) -> bool
        ensures { result ≡ list_any (λ start. start == place) self.now }
    {
        match self.marks.get(place) {
            Some(mark) => *mark,
            None => false,
        }
    }
}
