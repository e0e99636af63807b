//! The table of classes.

ghost use Rattle.std.specs.Prelude.{◌≡◌, IfErr, IfOk, None, OnErr, OnOk, OnSome, Some};
ghost use Rattle.std.specs.Option.{option_copied};
ghost use Rattle.std.specs.FinMap as map;
ghost use Rattle.std.specs.Iterator.{YieldsFirstRef, item_count};
ghost use Rattle.jc_link.specs.Meters.{counted};
ghost use Rattle.jc_link.specs.Tables.{built_in, class_at, classes_of, class_found};

use crate::meter::Meter;
use jc_base::{ByteMap, NoMemory, byte_map};
use jc_classes::{Facts, same};
use std::alloc::{AllocFailed, Global};
use std::marker::Model;
use std::mem;

/// The classes that files give, by name, and the built-in `java/lang/Object`.
///
/// A name can have a place, which has the facts of a class or is vacant. The model is the map from names to places.
///
/// For example (`crates/jc_report/src/tree.rt`):
///
/// ```
/// let (table, meter) = Table::new(alloc)?;
/// ..
/// let facts = Facts::of(self.alloc, view, path)?;
/// ..
/// self.table.put(facts).or(Err(NoMemory))
/// ```
#[derive(Drop)]
pub struct Table {
    alloc: Global,
    /// The place of each name. A vacant place has no facts.
    places: ByteMap<Option<Facts>>,
    object: Facts,
}

impl Model for Table {
    ghost use Rattle.std.specs.Prelude.{◌≡◌};
    ghost use Rattle.std.specs.Coded.{coded_list, coded_option, coded_ℕ};
    ghost use Rattle.std.specs.FinMap as map;
    ghost use Rattle.jc_classes.specs.contracts.facts.Facts as facts;
    ghost use Rattle.jc_classes.specs.BuiltIn.{object_facts};
    ghost use Rattle.jc_link.specs.Tables.{Places};

    ghost Value = { Places };

    ghost coded = { map.code (coded_list coded_ℕ) (coded_option facts.the_row.coded) };

    ghost view = { λ a. a.places };

    ghost invariant = { λ a. a.object ≡ object_facts };
}

impl Table {
    /// Returns an empty table, and the meter that counts its look-ups.
    ///
    /// Returns `NoMemory` only when an allocation fails.
    pub fn new(alloc: Global) -> Result<(Table, Meter), NoMemory>
        ensures empty { IfOk result (λ made. made.0 ≡ map.empty) }
        ensures asks { IfOk result (λ made. made.1.asks ≡ 0) }
        ensures made { IfOk result (λ made. made.1.made ≡ 0) }
    {
        let object = Facts::built_in_object(alloc)?;
        let table = Table {
            alloc,
            places: ByteMap::new(alloc),
            object,
        };
        Ok((table, Meter::new()))
    }

    /// Returns the facts that a file gives for a name. Returns the built-in facts for `java/lang/Object` if no file
    /// gives it. The meter counts one look-up. Does not allocate.
    pub fn get(&self, name: &[u8], meter: &mut Meter) -> Option<&Facts>
        ensures found { option_copied result ≡ class_found self.now name.now }
        ensures asks { meter.new.asks ≡ counted meter.old.asks 1 }
        ensures made { meter.new.made ≡ meter.old.made }
    {
        meter.count_ask();
        match self.class(name) {
            Some(facts) => Some(facts),
            None => self.built_in(name),
        }
    }

    /// Returns the facts that a file gives for a name. No meter counts this look-up. Does not allocate.
    pub fn class(&self, name: &[u8]) -> Option<&Facts>
        ensures { option_copied result ≡ class_at self.now name.now }
    {
        match self.places.get(name) {
            Some(Some(facts)) => Some(facts),
            _ => None,
        }
    }

    fn built_in(&self, name: &[u8]) -> Option<&Facts>
        ensures { option_copied result ≡ built_in name.now }
    {
        if same(name, b"java/lang/Object") {
            return Some(&self.object);
        }
        None
    }

    /// Returns an iterator over the classes that files give, sorted by name. No meter counts a look-up. Does not
    /// allocate.
    pub fn classes(&self) -> TableClasses<'_>
        ensures { result ≡ classes_of self.now }
    {
        TableClasses {
            places: self.places.iter(),
        }
    }

    /// Puts facts at the place of their class, and returns the facts that were there before, if any. Allocates only if
    /// the name has no place. If the allocation fails, the table does not change, and the error has the facts.
    pub fn put(&mut self, facts: Facts) -> Result<Option<Facts>, Facts>
        ensures before { IfOk result (λ before. before ≡ class_at self.old facts.name) }
        ensures ok { OnOk result (self.new ≡ map.insert self.old facts.name (Some facts)) }
        ensures absent { OnErr result (map.get self.old facts.name ≡ None) }
        ensures returned { IfErr result (λ refused. refused ≡ facts) }
        ensures err { OnErr result (self.new ≡ self.old) }
    {
        if let Some(place) = self.places.get_mut(facts.name()) {
            return Ok(mem::replace(place, Some(facts)));
        }
        let Ok(name) = Vec::from_slice(self.alloc, facts.name()) else {
            return Err(facts);
        };
        match self.places.insert(name, Some(facts)) {
            Ok(_) => Ok(None),
            Err(AllocFailed { value: (_, place) }) => match place {
                Some(facts) => Err(facts),
                None => unreachable!(),
            },
        }
    }

    /// Removes the place of a name, and returns the facts that were there, if any. Does not allocate.
    pub fn remove(&mut self, name: &[u8]) -> Option<Facts>
        ensures before { result ≡ class_at self.old name.now }
        ensures removed { self.new ≡ map.remove self.old name.now }
    {
        match self.places.remove(name) {
            Some(place) => place,
            None => None,
        }
    }

    /// Removes and returns the facts of a name, but keeps their place, so that the next `put` of this name does not
    /// allocate. Changes nothing if there are no facts. Does not allocate.
    pub fn vacate(&mut self, name: &[u8]) -> Option<Facts>
        ensures before { result ≡ class_at self.old name.now }
        ensures vacated { OnSome result (self.new ≡ map.insert self.old name.now None) }
        ensures absent { result ≡ None → self.new ≡ self.old }
    {
        match self.places.get_mut(name) {
            Some(place) => place.take(),
            None => None,
        }
    }
}

/// An iterator over the classes of a [`Table`], sorted by name. The model is the list of the classes that are left.
#[derive(Drop)]
pub struct TableClasses<'t> {
    places: byte_map::Iter<'t, Option<Facts>>,
}

impl<'t> Model for TableClasses<'t> {
    ghost use Rattle.std.specs.Prelude.{List};
    ghost use Rattle.jc_classes.specs.Facts as specs;
    ghost use Rattle.jc_link.specs.Tables.{classes_in};

    ghost Value = { List specs.Facts };

    ghost view = { λ a. classes_in a.places };
}

impl<'t> Iterator for TableClasses<'t> {
    type Item = &'t Facts;

    ghost next_gives = { YieldsFirstRef (λ left. left) };

    ghost remaining = { item_count (λ left. left) };

    fn next(&mut self) -> Option<&'t Facts> {
        while let Some((_, place)) = self.places.next() {
            if let Some(facts) = place {
                return Some(facts);
            }
        }
        None
    }
}
