//! Errors of inheritance: a class loads, and a virtual machine still rejects it (JVMS 4.10).

ghost use Rattle.std.specs.Prelude.{◌≡◌, ◌<◌, length, true, IfOk, OnOk};
ghost use Rattle.std.specs.Bool.{Decides};
ghost use Rattle.jc_classes.specs.Inheritance.{no_errors};
ghost use Rattle.jc_classes.specs.Lent.{key_lent};
ghost use Rattle.jc_classes.specs.MemberOrder.{key_at};
ghost use Rattle.jc_classes.specs.Overriding.{ExtendsFinal};
ghost use Rattle.jc_classes.specs.Worlds.{World, methods_of};
ghost use Rattle.jc_numbered.specs.inside.FinalSearches.{IsSearch, last_of};
ghost use Rattle.jc_numbered.specs.inside.Indexed.{IsIndexed, good_at, indexed_name, standing_of, superclass_at};
ghost use Rattle.jc_numbered.specs.inside.Shown.{indexed_of};
ghost use Rattle.jc_resolve.specs.inside.Inheritance.{AddsOverridden, TellsErrors, TellsOverridden};

use jc_base::NoMemory;
use jc_classes::{Facts, Key, Standing};
use jc_file::AccessFlag;
use jc_numbered::{Classes, FinalSearch};
use std::alloc::Global;
use std::marker::Model;

/// A method, and the class that declares it.
#[derive(Drop)]
pub struct Inherited {
    class: Vec<u8>,
    name: Vec<u8>,
    descriptor: Vec<u8>,
}

/// The errors of inheritance of a class. A class that does not load has none.
#[derive(Drop)]
pub struct InheritanceErrors {
    extends_final: bool,
    overridden: Vec<Inherited>,
}

impl Model for Inherited {
    ghost use Rattle.jc_classes.specs.Inheritance as specs;

    ghost Value = { specs.Inherited };

    ghost view = { λ a. record { home = a.class.items; key = record { name = a.name.items; descriptor = a.descriptor.items } } };
}

impl Model for InheritanceErrors {
    ghost use Rattle.jc_classes.specs.Inheritance as specs;

    ghost Value = { specs.InheritanceErrors };

    ghost view = { λ a. record { extends_final = a.extends_final; overridden = a.overridden.items } };
}

impl Inherited {
    /// Copies the names of a method and of its class.
    fn of(alloc: Global, class: &[u8], key: Key) -> Result<Inherited, NoMemory>
        ensures { IfOk result (λ i. i ≡ record { home = class.now; key = key_lent key.entry }) }
    {
        Ok(Inherited {
            class: Vec::from_slice(alloc, class)?,
            name: Vec::from_slice(alloc, key.name)?,
            descriptor: Vec::from_slice(alloc, key.descriptor)?,
        })
    }

    /// Returns the name of the class that declares the method.
    pub fn class(&self) -> &[u8]
        ensures { result.now ≡ self.now.home }
    {
        self.class.as_slice()
    }

    /// Returns the name and the descriptor of the method.
    pub fn key(&self) -> Key<'_>
        ensures { key_lent result ≡ self.now.key }
    {
        Key {
            name: self.name.as_slice(),
            descriptor: self.descriptor.as_slice(),
        }
    }
}

impl InheritanceErrors {
    /// Returns no errors.
    pub(crate) fn none(alloc: Global) -> InheritanceErrors
        ensures { result ≡ no_errors }
    {
        InheritanceErrors {
            extends_final: false,
            overridden: Vec::new(alloc),
        }
    }

    /// Finds the errors of a class that loads.
    pub(crate) fn of(
        alloc: Global,
        classes: &Classes,
        search: &mut FinalSearch,
        class: usize,
    ) -> Result<InheritanceErrors, NoMemory>
        requires class { class < length classes.now.standing.now }
        requires good { good_at (indexed_of classes.now) class ≡ true }
        requires search { IsSearch (length classes.now.standing.now) (indexed_of classes.now) search.old }
        ensures errors { IfOk result (TellsErrors (indexed_of classes.now) class) }
        ensures search { OnOk result (IsSearch (length classes.now.standing.now) (indexed_of classes.now) search.new) }
    {
        search.visit(alloc, classes, class)?;
        Ok(InheritanceErrors {
            extends_final: extends_final(classes, class),
            overridden: overridden(alloc, classes, search, class)?,
        })
    }

    /// Returns whether the superclass is FINAL (JVMS 4.10).
    pub fn extends_final(&self) -> bool
        ensures { result ≡ self.now.extends_final }
    {
        self.extends_final
    }

    /// Returns, for each method of the class that overrides FINAL methods, the nearest of them (JVMS 4.10, 5.4.5). They
    /// are in the order of their names and descriptors.
    pub fn overridden(&self) -> &[Inherited]
        ensures { result.now ≡ self.now.overridden }
    {
        self.overridden.as_slice()
    }
}

/// Returns whether the superclass of a class is FINAL.
fn extends_final(classes: &Classes, class: usize) -> bool
    requires { class < length classes.now.standing.now }
    ensures { (m : World) → IsIndexed m (indexed_of classes.now)
        → Decides result (ExtendsFinal m (indexed_name (indexed_of classes.now) class)) }
{
    match classes.superclass(class) {
        Some(above) => AccessFlag::Final.is_in(classes.flags(above)),
        None => false,
    }
}

/// Returns the FINAL methods that the methods of the visited class override.
fn overridden(
    alloc: Global,
    classes: &Classes,
    search: &mut FinalSearch,
    class: usize,
) -> Result<Vec<Inherited>, NoMemory>
    requires class { class < length classes.now.standing.now }
    requires good { good_at (indexed_of classes.now) class ≡ true }
    requires search { IsSearch (length classes.now.standing.now) (indexed_of classes.now) search.old }
    requires ends { last_of search.old.chain.items ≡ superclass_at (indexed_of classes.now) class }
    ensures told { IfOk result (λ found. TellsOverridden (indexed_of classes.now) class found.items) }
    ensures search { OnOk result (IsSearch (length classes.now.standing.now) (indexed_of classes.now) search.new) }
{
    match classes.at(class) {
        Standing::Class(facts) => overridden_by(alloc, classes, search, class, facts),
        _ => Ok(Vec::new(alloc)),
    }
}

/// Returns the FINAL methods that the methods of the visited class override, given the facts of the class.
fn overridden_by(
    alloc: Global,
    classes: &Classes,
    search: &mut FinalSearch,
    class: usize,
    facts: &Facts,
) -> Result<Vec<Inherited>, NoMemory>
    requires class { class < length classes.now.standing.now }
    requires good { good_at (indexed_of classes.now) class ≡ true }
    requires facts { methods_of (standing_of (indexed_of classes.now) class) ≡ facts.now.methods }
    requires search { IsSearch (length classes.now.standing.now) (indexed_of classes.now) search.old }
    requires ends { last_of search.old.chain.items ≡ superclass_at (indexed_of classes.now) class }
    ensures told { IfOk result (λ found. TellsOverridden (indexed_of classes.now) class found.items) }
    ensures search { OnOk result (IsSearch (length classes.now.standing.now) (indexed_of classes.now) search.new) }
{
    let mut found = Vec::new(alloc);
    for number in facts.method_order() {
        let key = method_key(facts, *number as usize);
        push_overridden(alloc, &mut found, classes, search, class, key)?;
    }
    Ok(found)
}

/// Adds the nearest FINAL method that a method of the visited class overrides, if there is one.
fn push_overridden(
    alloc: Global,
    found: &mut Vec<Inherited>,
    classes: &Classes,
    search: &mut FinalSearch,
    class: usize,
    key: Key,
) -> Result<(), NoMemory>
    requires class { class < length classes.now.standing.now }
    requires good { good_at (indexed_of classes.now) class ≡ true }
    requires search { IsSearch (length classes.now.standing.now) (indexed_of classes.now) search.old }
    requires ends { last_of search.old.chain.items ≡ superclass_at (indexed_of classes.now) class }
    ensures added { OnOk result (AddsOverridden (indexed_of classes.now) class (key_lent key.entry) found.old.items found.new.items) }
    ensures search { OnOk result (IsSearch (length classes.now.standing.now) (indexed_of classes.now) search.new) }
    ensures chain { search.new.chain.items ≡ search.old.chain.items }
{
    if let Some(above) = search.find(alloc, classes, class, key)? {
        found.push(Inherited::of(alloc, classes.name(above), key)?)?;
    }
    Ok(())
}

/// Returns the name and the descriptor of the method at `number`. Both are empty if there is no such method.
fn method_key(facts: &Facts, number: usize) -> Key<'_>
    ensures { key_lent result ≡ key_at facts.now.methods number }
{
    match facts.own_method(number) {
        Some(method) => Key {
            name: method.name,
            descriptor: method.descriptor,
        },
        None => Key {
            name: &[],
            descriptor: &[],
        },
    }
}
