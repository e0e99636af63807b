//! The classes of a linkage, with their parts.

ghost use Rattle.std.specs.Iterator.{YieldsFirstBy, item_count};
ghost use Rattle.jc_report.specs.ClassLent.{class_lent};

use crate::class_entry::ClassEntry;
use jc_base::byte_map;
use jc_link::TableClasses;
use jc_report::{ClassIterator, ClassesLeft, LentClass};
use std::marker::Model;

/// An iterator over the classes of a [`crate::Linkage`], sorted by name. The model is the list of the classes that are
/// left.
#[derive(Drop)]
pub struct HeldClasses<'a> {
    pub(crate) classes: TableClasses<'a>,
    pub(crate) kept: byte_map::Iter<'a, ClassEntry>,
}

impl<'a> Model for HeldClasses<'a> {
    ghost use Rattle.std.specs.Prelude.{List};
    ghost use Rattle.jc_report.specs.Reports as reports;
    ghost use Rattle.jc_linkage.specs.inside.Lending.{with_parts};

    ghost Value = { List reports.Class };

    ghost view = { λ a. with_parts a.classes a.kept };
}

impl<'a> Iterator for HeldClasses<'a> {
    type Item = LentClass<'a>;

    ghost next_gives = { YieldsFirstBy class_lent (λ left. left) };

    ghost remaining = { item_count (λ left. left) };

    fn next(&mut self) -> Option<LentClass<'a>> {
        let facts = self.classes.next()?;
        let (_, kept) = self.kept.next()?;
        Some(LentClass {
            facts,
            part: &kept.part,
        })
    }
}

impl<'a> ClassesLeft for HeldClasses<'a> {
    ghost left = { λ left. left };
}

impl<'a> ClassIterator<'a> for HeldClasses<'a> {
    fn next_class(&mut self) -> Option<LentClass<'a>> {
        self.next()
    }
}
