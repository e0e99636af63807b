//! The scope of the rules: what they need to know about a code.

ghost use Rattle.std.specs.Prelude.{◌≡◌};
ghost use Rattle.jc_code.specs.CodeRules.{is_start, is_target};

use crate::starts::Starts;
use crate::text_sizes::TextSizes;
use jc_view::ClassView;
use std::marker::Model;

/// The class with the sizes of its texts, and the code's `max_locals`, number of bytes and starts of
/// instructions.
#[derive(Drop)]
pub(crate) struct Scope<'c, 'a> {
    pub(crate) sizes: &'c TextSizes<'c, 'a>,
    pub(crate) max_locals: u16,
    pub(crate) size: usize,
    pub(crate) starts: Starts,
}

impl<'c, 'a> Model for Scope<'c, 'a> {
    ghost use Rattle.jc_code.specs.CodeRules.{Scope};

    ghost Value = { Scope };

    ghost view = { λ s. record { class = s.sizes.now; max_locals = s.max_locals; size = s.size; starts = s.starts } };
}

impl<'c, 'a> Scope<'c, 'a> {
    pub(crate) fn class(&self) -> &'c ClassView<'a>
        ensures { result.now ≡ self.now.class }
    {
        self.sizes.class()
    }

    /// Returns whether an instruction starts at a place.
    pub(crate) fn is_start(&self, place: usize) -> bool
        ensures { result ≡ is_start self.now place }
    {
        self.starts.has(place)
    }

    /// Returns whether a target is the start of an instruction.
    pub(crate) fn is_target(&self, target: i64) -> bool
        ensures { result ≡ is_target self.now target }
    {
        target >= 0 && self.starts.has(target as usize)
    }
}
