//! The names of circular classes.

ghost use Rattle.std.specs.Prelude.{◌≡◌};
ghost use Rattle.std.specs.Iterator.{YieldsFirstRef, item_count};
ghost use Rattle.jc_report.specs.Reports.{circular_names};

use crate::class_iterator::{ClassIterator, ClassesLeft};
use std::marker::{Model, PhantomData};

/// An iterator over the names of the circular classes of a report, sorted. Its model is the list of the names that are
/// left.
#[derive(Drop)]
pub struct Circular<'a, C: ClassesLeft> {
    classes: C,
    names: PhantomData<&'a [u8]>,
}

impl<'a, C: ClassesLeft> Model for Circular<'a, C> {
    ghost use Rattle.std.specs.Prelude.{List};
    ghost use Rattle.jc_classes.specs.Names.{Name};
    ghost use Rattle.jc_report.specs.Reports.{circular_names};

    ghost Value = { List Name };

    ghost view = { λ a. circular_names (C.left a.classes) };
}

impl<'a, C: ClassIterator<'a>> Circular<'a, C> {
    /// Returns an iterator over the names of the circular classes among these. Does not allocate.
    pub fn of(classes: C) -> Circular<'a, C>
        ensures { result ≡ circular_names (C.left classes) }
    {
        Circular {
            classes,
            names: PhantomData,
        }
    }
}

impl<'a, C: ClassIterator<'a> + Drop> Iterator for Circular<'a, C> {
    type Item = &'a [u8];

    ghost next_gives = { YieldsFirstRef (λ left. left) };

    ghost remaining = { item_count (λ left. left) };

    fn next(&mut self) -> Option<&'a [u8]> {
        while let Some(class) = self.classes.next_class() {
            if class.part.is_circular() {
                return Some(class.facts.name());
            }
        }
        None
    }

    // The default, written out: a check does not cover the inherited method of a struct with a `PhantomData`.
    fn size_hint(&self) -> (usize, Option<usize>) {
        (0, None)
    }
}
