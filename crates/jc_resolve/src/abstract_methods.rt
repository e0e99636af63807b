//! The ABSTRACT methods of the classes of a graph.

ghost use Rattle.std.specs.Prelude.{◌≡◌, ◌<◌, List, length, IfOk, OnOk};
ghost use Rattle.jc_classes.specs.Lent.{key_lent, member_lent};
ghost use Rattle.jc_classes.specs.Selection.{is_callable};
ghost use Rattle.jc_classes.specs.Worlds.{Stands as stands};
ghost use Rattle.jc_numbered.specs.inside.Indexed.{standing_of};
ghost use Rattle.jc_numbered.specs.inside.Shown.{indexed_of};
ghost use Rattle.jc_resolve.specs.Methods.{inherited_of};
ghost use Rattle.jc_resolve.specs.declared.abstract_methods.AbstractMethod.{AbstractMethod as EntryValue};
ghost use Rattle.jc_resolve.specs.inside.AbstractMethods.{AddsAbstract, AddsAbstracts, AreAbstract, AreMethods, AreNumbers, member_in};

use jc_base::NoMemory;
use jc_classes::{Facts, Key, Member, Standing, same};
use jc_file::AccessFlag;
use jc_numbered::{Classes, key_of, overridable};
use std::alloc::Global;

/// An ABSTRACT method that is neither STATIC nor PRIVATE. Methods are ordered by name, then by descriptor, then by class.
#[derive(Clone, Copy, PartialEq, Eq, PartialOrd, Ord)]
pub struct AbstractMethod<'t> {
    pub name: &'t [u8],
    pub descriptor: &'t [u8],
    /// The name of the class that declares the method.
    pub class: &'t [u8],
    /// The node of this class.
    node: usize,
    flags: u16,
}

/// The ABSTRACT methods of the classes of a graph that instructions can call, numbered.
#[derive(Drop)]
pub(crate) struct AbstractMethods<'t> {
    /// The methods in order, each once.
    pub(crate) all: Vec<AbstractMethod<'t>>,
    /// The numbers of the methods that the class of each node declares.
    pub(crate) of_class: Vec<Vec<usize>>,
}

impl<'t> AbstractMethod<'t> {
    /// Returns the name and the descriptor of the method.
    pub fn key(&self) -> Key<'t>
        ensures { key_lent result ≡ (inherited_of self.now).key }
    {
        Key {
            name: self.name,
            descriptor: self.descriptor,
        }
    }

    /// Returns the method with its access flags.
    pub(crate) fn member(&self) -> Member<'t>
        ensures { member_lent result ≡ member_in self.now }
    {
        Member {
            name: self.name,
            descriptor: self.descriptor,
            flags: self.flags,
        }
    }

    /// Returns the node of the class that declares the method.
    pub(crate) fn node(&self) -> usize
        ensures { result ≡ self.now.node }
    {
        self.node
    }
}

impl<'t> AbstractMethods<'t> {
    /// Finds the ABSTRACT methods of all classes.
    ///
    /// Returns `NoMemory` only when an allocation fails.
    pub(crate) fn find(
        alloc: Global,
        classes: &Classes<'_, 't>,
    ) -> Result<AbstractMethods<'t>, NoMemory>
        ensures { IfOk result (AreMethods (length classes.now.standing.now) (indexed_of classes.now)) }
    {
        let mut all = find_all(alloc, classes)?;
        all.sort_unstable();
        all.dedup();
        let of_class = number_by_class(alloc, all.as_slice(), classes.len())?;
        Ok(AbstractMethods { all, of_class })
    }
}

/// Returns the ABSTRACT methods of all classes, in the order of the nodes.
fn find_all<'t>(
    alloc: Global,
    classes: &Classes<'_, 't>,
) -> Result<Vec<AbstractMethod<'t>>, NoMemory>
    ensures { IfOk result (λ all. AreAbstract (length classes.now.standing.now) (indexed_of classes.now) all.items) }
{
    let mut all = Vec::new(alloc);
    for node in 0..classes.len() {
        if let Standing::Class(facts) = classes.at(node) {
            push_all(&mut all, classes, node, facts)?;
        }
    }
    Ok(all)
}

/// Appends the ABSTRACT methods of a class.
fn push_all<'t>(
    all: &mut Vec<AbstractMethod<'t>>,
    classes: &Classes<'_, 't>,
    node: usize,
    facts: &'t Facts,
) -> Result<(), NoMemory>
    requires node { node < length classes.now.standing.now }
    requires facts { standing_of (indexed_of classes.now) node ≡ stands.Class facts.now }
    ensures { OnOk result (AddsAbstracts (indexed_of classes.now) node (length facts.now.methods) all.old.items all.new.items) }
{
    for number in 0..facts.method_count() {
        if let Some(method) = facts.own_method(number) {
            push_one(all, classes, node, facts, key_of(method))?;
        }
    }
    Ok(())
}

/// Appends a method of a class, if it is ABSTRACT, neither STATIC nor PRIVATE, and not named `<clinit>`.
fn push_one<'t>(
    all: &mut Vec<AbstractMethod<'t>>,
    classes: &Classes<'_, 't>,
    node: usize,
    facts: &'t Facts,
    key: Key<'t>,
) -> Result<(), NoMemory>
    requires node { node < length classes.now.standing.now }
    requires facts { standing_of (indexed_of classes.now) node ≡ stands.Class facts.now }
    ensures { OnOk result (AddsAbstract (indexed_of classes.now) node (key_lent key.entry) all.old.items all.new.items) }
{
    let Some(method) = overridable(classes, node, key) else {
        return Ok(());
    };
    if method.has(AccessFlag::Abstract) && is_callable(key) {
        all.push(AbstractMethod {
            name: key.name,
            descriptor: key.descriptor,
            class: facts.name(),
            node,
            flags: method.flags,
        })?;
    }
    Ok(())
}

/// Returns whether instructions can call methods with this name: it is not `<clinit>` (JVMS 2.9).
fn is_callable(key: Key) -> bool
    ensures { result ≡ is_callable (key_lent key.entry) }
{
    !same(key.name, b"<clinit>")
}

/// Returns the numbers of the methods of each class.
fn number_by_class(
    alloc: Global,
    all: &[AbstractMethod],
    count: usize,
) -> Result<Vec<Vec<usize>>, NoMemory>
    ensures { IfOk result (λ of_class. AreNumbers count (length all.now) all.now of_class.items) }
{
    let mut of_class = no_numbers(alloc, count)?;
    for number in 0..all.len() {
        let node = all[number].node;
        if node < of_class.len() {
            of_class[node].push(number)?;
        }
    }
    Ok(of_class)
}

/// Returns this number of empty lists.
fn no_numbers(alloc: Global, count: usize) -> Result<Vec<Vec<usize>>, NoMemory>
    ensures { (all : List EntryValue) → IfOk result (λ of_class. AreNumbers count 0 all of_class.items) }
{
    let mut of_class = Vec::with_capacity(alloc, count)?;
    for _ in 0..count {
        of_class.push(Vec::new(alloc))?;
    }
    Ok(of_class)
}
