//! The classes that files give, each with its part, and the classes that depend on a name.

ghost use Rattle.std.specs.Prelude.{◌≡◌, ◌≤◌, IfOk, IfSome, List, OnErr, OnOk, is_some, option_map, true};
ghost use Rattle.std.specs.FinMap as map;
ghost use Rattle.jc_classes.specs.NameLists.{Lists};
ghost use Rattle.jc_classes.specs.Names.{Name, names_of};
ghost use Rattle.jc_classes.specs.Parts.{IsPart, Reach};
ghost use Rattle.jc_link.specs.Tables.{class_at};
ghost use Rattle.jc_linkage.specs.Holders.{CountsHoldersAt};
ghost use Rattle.jc_linkage.specs.Linkages.{AreHeldClasses, AreRowsHeld, IsCountedChange, given, world_held};
ghost use Rattle.jc_report.specs.ClassRows.{provided_rows, required_rows};
ghost use Rattle.jc_report.specs.Reports.{Class, circular_names};
ghost use Rattle.jc_linkage.specs.Steps.{changed};

use crate::class_entry::ClassEntry;
use crate::classes::HeldClasses;
use crate::dependants::Dependants;
use crate::edit::{change_classes, counting, putting};
use crate::prefixes::remake_switched;
use crate::row_index::Required;
use crate::step::Step;
use jc_base::{ByteMap, NoMemory};
use jc_classes::Facts;
use jc_link::{Meter, Outside, Part, Table};
use jc_report::{Circular, LentClass, Provided};
use std::alloc::Global;
use std::marker::Model;

/// The classes that files give, each with its part in the world of all of them. The model is a record of the classes
/// and of the outside prefixes.
#[derive(Drop)]
pub struct Linkage {
    alloc: Global,
    outside: Outside,
    table: Table,
    kept: ByteMap<ClassEntry>,
    dependants: Dependants,
}

impl Model for Linkage {
    ghost use Rattle.jc_linkage.specs.Linkages as specs;
    ghost use Rattle.std.specs.Coded.{coded_list, coded_ℕ};
    ghost use Rattle.jc_link.specs.contracts.table.Table as tables;
    ghost use Rattle.jc_linkage.specs.inside.Holding.{AreNamed, IsHeld, linkage_code};
    ghost use Rattle.jc_linkage.specs.inside.Stepping.{NoneVacant};

    ghost Value = { specs.Linkage };

    ghost coded = { linkage_code tables.the_row.coded (coded_list (coded_list coded_ℕ)) };

    ghost view = { λ a. record { classes = a.table; prefixes = a.outside } };

    ghost invariant = { λ a. IsHeld a.table a.outside a.kept a.dependants × AreNamed a.table × NoneVacant a.table };
}

impl Linkage {
    /// Returns a linkage without classes, and the meter that counts its look-ups and the parts that it computes.
    ///
    /// Returns `NoMemory` only when an allocation fails.
    pub fn new(alloc: Global, outside: Outside) -> Result<(Linkage, Meter), NoMemory>
        ensures held { IfOk result (λ made. made.0 ≡ record { classes = map.empty; prefixes = outside }) }
        ensures asks { IfOk result (λ made. made.1.asks ≡ 0) }
        ensures made { IfOk result (λ made. made.1.made ≡ 0) }
    {
        let (table, meter) = Table::new(alloc)?;
        let linkage = Linkage {
            alloc,
            outside,
            table,
            kept: ByteMap::new(alloc),
            dependants: Dependants::new(alloc),
        };
        Ok((linkage, meter))
    }

    /// Applies the step `first` and then puts the class `put`, if they are given. The step has no effect if its name
    /// has no class or is the name of `put`. Recomputes only the parts of the classes whose reach contains a name whose
    /// class changed.
    ///
    /// Returns `NoMemory` when an allocation fails. Then nothing changes, except that the meter may have counted.
    pub fn change(
        &mut self,
        first: Option<Step>,
        put: Option<Facts>,
        meter: &mut Meter,
    ) -> Result<(), NoMemory>
        ensures ok { OnOk result ((n : Name) → class_at self.new.classes n ≡ changed (class_at self.old.classes) first put n) }
        ensures err { OnErr result ((n : Name) → class_at self.new.classes n ≡ class_at self.old.classes n) }
        ensures prefixes { self.new.prefixes ≡ self.old.prefixes }
        ensures counted { OnOk result (IsCountedChange self.old self.new meter.old meter.new) }
        ensures asks_rise { meter.old.asks ≤ meter.new.asks }
        ensures made_rise { meter.old.made ≤ meter.new.made }
    {
        let first = counting(&self.table, first, &put);
        let second = putting(&self.table, put);
        change_classes(
            self.alloc,
            &self.outside,
            &mut self.table,
            &mut self.kept,
            &mut self.dependants,
            first,
            second,
            meter,
        )
    }

    /// Replaces the outside prefixes. Recomputes only the parts of the classes whose reach has a name without a class
    /// that becomes outside or inside.
    ///
    /// Returns `NoMemory` when an allocation fails. Then nothing changes, except that the meter may have counted.
    pub fn change_outside(&mut self, outside: Outside, meter: &mut Meter) -> Result<(), NoMemory>
        ensures ok { OnOk result (self.new.prefixes ≡ outside) }
        ensures err { OnErr result (self.new.prefixes ≡ self.old.prefixes) }
        ensures classes { self.new.classes ≡ self.old.classes }
        ensures counted { OnOk result (IsCountedChange self.old self.new meter.old meter.new) }
        ensures asks_rise { meter.old.asks ≤ meter.new.asks }
        ensures made_rise { meter.old.made ≤ meter.new.made }
    {
        remake_switched(
            self.alloc,
            &self.table,
            &self.outside,
            &outside,
            &mut self.kept,
            &mut self.dependants,
            meter,
        )?;
        self.outside = outside;
        Ok(())
    }

    /// Returns the outside prefixes. Does not allocate.
    pub fn outside(&self) -> &Outside
        ensures { result.now ≡ self.now.prefixes }
    {
        &self.outside
    }

    /// Returns the classes whose reach has a name, in ascending order. No file needs to give the name. Does not
    /// allocate.
    pub fn dependants(&self, name: &[u8]) -> &[Vec<u8>]
        ensures { Lists (names_of result.now) (λ d. (given self.now d ≡ true) × Reach (world_held self.now) d name.now) }
    {
        self.dependants.reach.users(name)
    }

    /// Returns the part of a class, if files give the class. Does not allocate.
    pub fn part(&self, name: &[u8]) -> Option<&Part>
        ensures given { is_some result ≡ given self.now name.now }
        ensures part { IfSome result (λ part. IsPart (world_held self.now) name.now part.now) }
    {
        let kept = self.kept.get(name)?;
        Some(&kept.part)
    }

    /// Returns the class of a name with its part, if files give the class. The meter does not count this look-up. Does
    /// not allocate.
    pub fn class(&self, name: &[u8]) -> Option<LentClass<'_>>
        ensures facts { option_map (λ class. class.facts.now) result ≡ class_at self.now.classes name.now }
        ensures part { IfSome result (λ class. IsPart (world_held self.now) name.now class.part.now) }
    {
        let facts = self.table.class(name)?;
        let part = self.part(name)?;
        Some(LentClass { facts, part })
    }

    /// Returns the classes that files give, with their parts, sorted by name. Does not allocate.
    pub fn classes(&self) -> HeldClasses<'_>
        ensures { AreHeldClasses self.now result }
    {
        HeldClasses {
            classes: self.table.classes(),
            kept: self.kept.iter(),
        }
    }

    /// Returns the names of the circular classes, sorted. Does not allocate.
    pub fn circular(&self) -> Circular<'_, HeldClasses<'_>>
        ensures { (classes : List Class) × AreHeldClasses self.now classes × (result ≡ circular_names classes) }
    {
        Circular::of(self.classes())
    }

    /// Returns the rows that the classes provide, sorted. Does not allocate.
    pub fn provided(&self) -> Provided<'_, HeldClasses<'_>>
        ensures { AreRowsHeld provided_rows self.now result }
    {
        Provided::of(self.classes())
    }

    /// Returns the rows that the classes require, sorted. Does not allocate.
    pub fn required(&self) -> Required<'_>
        ensures { AreRowsHeld required_rows self.now result }
    {
        self.dependants.required.rows_have_users();
        self.dependants.required.rows()
    }

    /// Returns the number of classes that require the row at `place` in [`Linkage::required`], counted from 0. Returns
    /// 0 if there is no such row. Takes time linear in `place`. Does not allocate.
    pub fn holders(&self, place: usize) -> usize
        ensures { CountsHoldersAt self.now place result }
    {
        self.dependants.required.rows_have_users();
        match self.dependants.required.nth(place) {
            Some(holders) => holders.names().len(),
            None => 0,
        }
    }
}
