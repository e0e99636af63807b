//! FINAL methods that the methods of a class override (JVMS 5.4.5).

ghost use Rattle.std.specs.Prelude.{◌≡◌, ◌⊎◌, ℕ, ◌<◌, ◌++◌, ◌∷◌, [], List, false, is_some, length, option_and_then, option_map, take, true, None, Some, IfOk, OnOk};
ghost use Rattle.std.specs.Bool.{Decides};
ghost use Rattle.std.specs.Option.{option_copied};
ghost use Rattle.jc_classes.specs.Facts.{Key as KeyValue};
ghost use Rattle.jc_classes.specs.Lent.{key_lent, member_lent};
ghost use Rattle.jc_classes.specs.Worlds.{key_of, methods_of};
ghost use Rattle.jc_numbered.specs.declared.overriding.Entry.{Entry as EntryValue};
ghost use Rattle.jc_numbered.specs.inside.Chain.{ExtendsNode};
ghost use Rattle.jc_numbered.specs.inside.FinalSearches.{AddsFinal, AddsFinals, AreFinals, Drops, HasMethod, IsFinalName, IsPath, IsPut, IsSearch, IsValid, OtherKeysStay, OthersStay, entries_in, last_of};
ghost use Rattle.jc_numbered.specs.inside.Indexed.{good_at, standing_of, superclass_at};
ghost use Rattle.jc_numbered.specs.inside.Overriding.{TellsFinal, nearer, overridable_at, slot_of};
ghost use Rattle.jc_numbered.specs.inside.Shown.{indexed_of};
ghost use Rattle.jc_numbered.specs.inside.Slots.{ended, escaped, name_in, slot_name};

use crate::classes::Classes;
use jc_base::{ByteMap, NoMemory};
use jc_classes::{Facts, Key, Member, Standing};
use jc_file::AccessFlag;
use std::alloc::Global;

/// Most slots have fewer bytes.
const ROOM: usize = 128;

/// A method that subclasses may override.
#[derive(Clone, Copy)]
struct Entry {
    /// The class that declares the method.
    node: usize,
    /// The place of this class in the chain of superclasses.
    place: usize,
    /// The nearest class with a FINAL method among this method and those that it overrides, if there is one.
    nearest: Option<usize>,
}

/// A search for FINAL methods that the methods of classes override.
///
/// It knows the methods of the superclasses of the class that was visited last. In the order of [`crate::depth_first`],
/// all visits together take time linear in the number of classes and of their methods, apart from look-up in maps.
#[derive(Drop)]
pub struct FinalSearch {
    /// The names of all FINAL methods. Methods of other names are left out.
    finals: ByteMap<()>,
    /// A chain of superclasses, the topmost first.
    chain: Vec<usize>,
    /// For each slot, the methods of these classes. After them there may be methods of classes that have left the chain.
    slots: ByteMap<Vec<Entry>>,
}

impl FinalSearch {
    /// Returns a search among these classes that has visited no class.
    ///
    /// Returns `NoMemory` only when an allocation fails.
    pub fn new(alloc: Global, classes: &Classes) -> Result<FinalSearch, NoMemory>
        ensures { IfOk result (IsSearch (length classes.now.standing.now) (indexed_of classes.now)) }
    {
        Ok(FinalSearch {
            finals: find_finals(alloc, classes)?,
            chain: Vec::new(alloc),
            slots: ByteMap::new(alloc),
        })
    }

    /// Visits a class that loads: prepares for [`FinalSearch::find`].
    ///
    /// Returns `NoMemory` only when an allocation fails. Then the content is unspecified.
    pub fn visit(&mut self, alloc: Global, classes: &Classes, class: usize) -> Result<(), NoMemory>
        requires class { class < length classes.now.standing.now }
        requires good { good_at (indexed_of classes.now) class ≡ true }
        requires search { IsSearch (length classes.now.standing.now) (indexed_of classes.now) self.old }
        ensures search { OnOk result (IsSearch (length classes.now.standing.now) (indexed_of classes.now) self.new) }
        ensures ends { OnOk result (last_of self.new.chain.items ≡ superclass_at (indexed_of classes.now) class) }
    {
        let Some(above) = classes.superclass(class) else {
            self.chain.clear();
            return Ok(());
        };
        if self.leave(above, classes.superclass(above)) {
            return Ok(());
        }
        if self.chain.is_empty() {
            self.enter_all(alloc, classes, above)
        } else {
            self.enter(alloc, classes, above)
        }
    }

    /// Returns the nearest superclass with a FINAL method that the method of this name and descriptor of the class
    /// overrides. The class must be visited before.
    ///
    /// Returns `NoMemory` only when an allocation fails. Then the content is unspecified.
    pub fn find(
        &mut self,
        alloc: Global,
        classes: &Classes,
        class: usize,
        key: Key,
    ) -> Result<Option<usize>, NoMemory>
        requires class { class < length classes.now.standing.now }
        requires good { good_at (indexed_of classes.now) class ≡ true }
        requires search { IsSearch (length classes.now.standing.now) (indexed_of classes.now) self.old }
        requires ends { last_of self.old.chain.items ≡ superclass_at (indexed_of classes.now) class }
        ensures told { IfOk result (TellsFinal (indexed_of classes.now) (key_lent key.entry) class) }
        ensures search { OnOk result (IsSearch (length classes.now.standing.now) (indexed_of classes.now) self.new) }
        ensures chain { self.new.chain.items ≡ self.old.chain.items }
        ensures finals { self.new.finals ≡ self.old.finals }
    {
        if !self.finals.contains_key(key.name) {
            return Ok(None);
        }
        match overridable(classes, class, key) {
            Some(_) => self.find_above(alloc, classes, class, key),
            None => Ok(None),
        }
    }

    /// Does this for a method that is neither STATIC nor PRIVATE.
    fn find_above(
        &mut self,
        alloc: Global,
        classes: &Classes,
        class: usize,
        key: Key,
    ) -> Result<Option<usize>, NoMemory>
        requires class { class < length classes.now.standing.now }
        requires good { good_at (indexed_of classes.now) class ≡ true }
        requires search { IsSearch (length classes.now.standing.now) (indexed_of classes.now) self.old }
        requires ends { last_of self.old.chain.items ≡ superclass_at (indexed_of classes.now) class }
        requires overrides { is_some (overridable_at (indexed_of classes.now) (key_lent key) class) ≡ true }
        requires among { IsFinalName self.old.finals (key_lent key) }
        ensures told { IfOk result (TellsFinal (indexed_of classes.now) (key_lent key.entry) class) }
        ensures on { IfOk result (λ r. (w : ℕ) → r ≡ Some w → ExtendsNode (indexed_of classes.now) class w) }
        ensures search { OnOk result (IsSearch (length classes.now.standing.now) (indexed_of classes.now) self.new) }
        ensures chain { self.new.chain.items ≡ self.old.chain.items }
        ensures finals { self.new.finals ≡ self.old.finals }
        ensures others { OnOk result (OtherKeysStay (key_lent key.entry) self.old.slots self.new.slots) }
    {
        let open = slot_name(alloc, None, key)?;
        let own = slot_name(alloc, Some(classes.package(class)), key)?;
        let among_open = self.nearest_in(&open);
        let among_own = self.nearest_in(&own);
        Ok(nearer(classes, among_open, among_own))
    }

    /// Returns the nearest FINAL method among the last method of a slot and those that it overrides.
    fn nearest_in(&mut self, slot: &[u8]) -> Option<usize>
        ensures chain { self.new.chain.items ≡ self.old.chain.items }
        ensures finals { self.new.finals ≡ self.old.finals }
        ensures others { OthersStay slot.now self.old.slots self.new.slots }
        ensures drops { Drops self.old.chain.items (entries_in self.old.slots slot.now) (entries_in self.new.slots slot.now) }
        ensures nearest { result ≡ option_and_then (λ (e : EntryValue). e.nearest) (last_of (entries_in self.new.slots slot.now)) }
    {
        let entries = self.slots.get_mut(slot)?;
        drop_left(entries, &self.chain);
        entries.last()?.nearest
    }

    /// Removes classes from the end of the chain until this class is the last one, or its superclass is. Returns whether
    /// it is this class. If neither is in the chain, the chain is empty then.
    fn leave(&mut self, class: usize, above: Option<usize>) -> bool
        ensures slots { self.new.slots ≡ self.old.slots }
        ensures finals { self.new.finals ≡ self.old.finals }
        ensures chain { (n : ℕ) × (self.new.chain.items ≡ take n self.old.chain.items) }
        ensures ends { result ≡ true → last_of self.new.chain.items ≡ Some class }
        ensures below { result ≡ false → (self.new.chain.items ≡ []) ⊎ (last_of self.new.chain.items ≡ above) }
    {
        while let Some(last) = self.chain.last() {
            let last = *last;
            if last == class {
                return true;
            }
            if above == Some(last) {
                return false;
            }
            self.chain.pop();
        }
        false
    }

    /// Appends the superclasses of a class and the class itself to the empty chain.
    fn enter_all(&mut self, alloc: Global, classes: &Classes, class: usize) -> Result<(), NoMemory>
        requires class { class < length classes.now.standing.now }
        requires good { good_at (indexed_of classes.now) class ≡ true }
        requires search { IsSearch (length classes.now.standing.now) (indexed_of classes.now) self.old }
        requires empty { self.old.chain.items ≡ [] }
        ensures search { OnOk result (IsSearch (length classes.now.standing.now) (indexed_of classes.now) self.new) }
        ensures ends { OnOk result (last_of self.new.chain.items ≡ Some class) }
    {
        let mut path = path_of(alloc, classes, class)?;
        while let Some(node) = path.pop() {
            self.enter(alloc, classes, node)?;
        }
        Ok(())
    }

    /// Appends a class to the chain, which ends with its superclass.
    fn enter(&mut self, alloc: Global, classes: &Classes, node: usize) -> Result<(), NoMemory>
        requires node { node < length classes.now.standing.now }
        requires good { good_at (indexed_of classes.now) node ≡ true }
        requires search { IsSearch (length classes.now.standing.now) (indexed_of classes.now) self.old }
        requires ends { last_of self.old.chain.items ≡ superclass_at (indexed_of classes.now) node }
        ensures search { OnOk result (IsSearch (length classes.now.standing.now) (indexed_of classes.now) self.new) }
        ensures ends { OnOk result (last_of self.new.chain.items ≡ Some node) }
    {
        if let Standing::Class(facts) = classes.at(node) {
            self.add_all(alloc, classes, node, facts)?;
        }
        self.chain.push(node)?;
        Ok(())
    }

    /// Puts the methods of a class into their slots, before the class is appended to the chain.
    fn add_all(
        &mut self,
        alloc: Global,
        classes: &Classes,
        node: usize,
        facts: &Facts,
    ) -> Result<(), NoMemory>
        requires node { node < length classes.now.standing.now }
        requires good { good_at (indexed_of classes.now) node ≡ true }
        requires facts { methods_of (standing_of (indexed_of classes.now) node) ≡ facts.now.methods }
        requires search { IsSearch (length classes.now.standing.now) (indexed_of classes.now) self.old }
        requires ends { last_of self.old.chain.items ≡ superclass_at (indexed_of classes.now) node }
        ensures search { OnOk result (IsSearch (length classes.now.standing.now) (indexed_of classes.now) self.new) }
        ensures chain { self.new.chain.items ≡ self.old.chain.items }
        ensures finals { self.new.finals ≡ self.old.finals }
        ensures methods { OnOk result ((k : KeyValue) → HasMethod (indexed_of classes.now) self.old.finals self.new.slots node (length self.old.chain.items) k) }
    {
        for number in 0..facts.method_count() {
            if let Some(method) = facts.own_method(number) {
                self.add(alloc, classes, node, key_of(method))?;
            }
        }
        Ok(())
    }

    /// Puts a method of a class into its slot, unless it is STATIC or PRIVATE.
    fn add(
        &mut self,
        alloc: Global,
        classes: &Classes,
        node: usize,
        key: Key,
    ) -> Result<(), NoMemory>
        requires node { node < length classes.now.standing.now }
        requires good { good_at (indexed_of classes.now) node ≡ true }
        requires search { IsSearch (length classes.now.standing.now) (indexed_of classes.now) self.old }
        requires ends { last_of self.old.chain.items ≡ superclass_at (indexed_of classes.now) node }
        ensures search { OnOk result (IsSearch (length classes.now.standing.now) (indexed_of classes.now) self.new) }
        ensures chain { self.new.chain.items ≡ self.old.chain.items }
        ensures finals { self.new.finals ≡ self.old.finals }
        ensures others { OnOk result (OtherKeysStay (key_lent key.entry) self.old.slots self.new.slots) }
        ensures method { OnOk result (HasMethod (indexed_of classes.now) self.old.finals self.new.slots node (length self.old.chain.items) (key_lent key.entry)) }
    {
        if !self.finals.contains_key(key.name) {
            return Ok(());
        }
        let Some(method) = overridable(classes, node, key) else {
            return Ok(());
        };
        let above = self.find_above(alloc, classes, node, key)?;
        let nearest = if method.has(AccessFlag::Final) {
            Some(node)
        } else {
            above
        };
        let slot = slot_of(alloc, classes, node, key, method)?;
        let place = self.chain.len();
        let entry = Entry {
            node,
            place,
            nearest,
        };
        self.put(alloc, slot, entry)
    }

    /// Puts a method into a slot, after those of the chain.
    fn put(&mut self, alloc: Global, slot: Vec<u8>, entry: Entry) -> Result<(), NoMemory>
        ensures chain { self.new.chain.items ≡ self.old.chain.items }
        ensures finals { self.new.finals ≡ self.old.finals }
        ensures put { OnOk result (IsPut self.old.chain.items slot.items entry self.old.slots self.new.slots) }
    {
        if let Some(entries) = self.slots.get_mut(&slot) {
            drop_left(entries, &self.chain);
            entries.push(entry)?;
            return Ok(());
        }
        let entries = vec![in alloc; entry]?;
        self.slots.insert(slot, entries)?;
        Ok(())
    }
}

/// Returns the names of the FINAL methods of all classes.
fn find_finals(alloc: Global, classes: &Classes) -> Result<ByteMap<()>, NoMemory>
    ensures { IfOk result (AreFinals (length classes.now.standing.now) (indexed_of classes.now)) }
{
    let mut finals = ByteMap::new(alloc);
    for node in 0..classes.len() {
        if let Standing::Class(facts) = classes.at(node) {
            add_finals(alloc, &mut finals, facts)?;
        }
    }
    Ok(finals)
}

/// Adds the names of the FINAL methods of a class.
fn add_finals(alloc: Global, finals: &mut ByteMap<()>, facts: &Facts) -> Result<(), NoMemory>
    ensures { OnOk result (AddsFinals facts.now.methods (length facts.now.methods) finals.old finals.new) }
{
    for number in 0..facts.method_count() {
        if let Some(method) = facts.own_method(number) {
            add_final(alloc, finals, method)?;
        }
    }
    Ok(())
}

/// Adds the name of a method, if it is FINAL.
fn add_final(alloc: Global, finals: &mut ByteMap<()>, method: Member) -> Result<(), NoMemory>
    ensures { OnOk result (AddsFinal (member_lent method.entry) finals.old finals.new) }
{
    if method.has(AccessFlag::Final) {
        finals.insert(Vec::from_slice(alloc, method.name)?, ())?;
    }
    Ok(())
}

/// Removes methods from the end until the last one is of a class in the chain. Does not allocate.
fn drop_left(entries: &mut Vec<Entry>, chain: &[usize])
    ensures { Drops chain.now entries.old.items entries.new.items }
{
    while let Some(last) = entries.last() {
        if is_in(last, chain) {
            return;
        }
        entries.pop();
    }
}

/// Returns whether the class of a method is in the chain.
fn is_in(entry: &Entry, chain: &[usize]) -> bool
    ensures { Decides result (IsValid chain.now entry.now) }
{
    match chain.get(entry.place) {
        Some(node) => *node == entry.node,
        None => false,
    }
}

/// Returns a class and its superclasses, the nearest first.
fn path_of(alloc: Global, classes: &Classes, class: usize) -> Result<Vec<usize>, NoMemory>
    requires class { class < length classes.now.standing.now }
    requires good { good_at (indexed_of classes.now) class ≡ true }
    ensures path { IfOk result (λ path. IsPath (length classes.now.standing.now) (indexed_of classes.now) class path.items None) }
    ensures some { IfOk result (λ path. 0 < length path.items) }
{
    let mut path = Vec::new(alloc);
    path.push(class)?;
    let mut node = class;
    while let Some(above) = classes.superclass(node) {
        path.push(above)?;
        node = above;
    }
    Ok(path)
}

/// Returns the nearer one of two superclasses of one class.
fn nearer(classes: &Classes, one: Option<usize>, other: Option<usize>) -> Option<usize>
    ensures { result ≡ nearer (indexed_of classes.now) one other }
{
    match (one, other) {
        (Some(a), Some(b)) => {
            if classes.rank(a) < classes.rank(b) {
                Some(b)
            } else {
                Some(a)
            }
        }
        (Some(a), None) => Some(a),
        (None, b) => b,
    }
}

/// Returns the method of this name and descriptor that a class declares, if it is neither STATIC nor PRIVATE.
pub fn overridable<'a>(classes: &'a Classes, node: usize, key: Key) -> Option<Member<'a>>
    requires { node < length classes.now.standing.now }
    ensures { option_map member_lent result ≡ overridable_at (indexed_of classes.now) (key_lent key.entry) node }
{
    let method = classes.method(node, key)?;
    if method.has(AccessFlag::Private) || method.has(AccessFlag::Static) {
        None
    } else {
        Some(method)
    }
}

/// Returns the name and the descriptor of a method.
pub fn key_of(method: Member<'_>) -> Key<'_>
    ensures { key_lent result ≡ key_of (member_lent method.entry) }
{
    Key {
        name: method.name,
        descriptor: method.descriptor,
    }
}

/// Returns the bytes of the slot of a method.
fn slot_of(
    alloc: Global,
    classes: &Classes,
    node: usize,
    key: Key,
    method: Member,
) -> Result<Vec<u8>, NoMemory>
    ensures { IfOk result (λ slot. slot.items ≡ slot_name (slot_of (indexed_of classes.now) (key_lent key.entry) node (member_lent method.entry))) }
{
    if method.has(AccessFlag::Public) || method.has(AccessFlag::Protected) {
        slot_name(alloc, None, key)
    } else {
        slot_name(alloc, Some(classes.package(node)), key)
    }
}

/// Returns the bytes of the slot of open methods, or of package-private methods in a package.
fn slot_name(alloc: Global, in_package: Option<&[u8]>, key: Key) -> Result<Vec<u8>, NoMemory>
    ensures { IfOk result (λ slot. slot.items ≡ name_in (option_copied in_package.entry) (key_lent key.entry)) }
{
    let mut slot = Vec::with_capacity(alloc, ROOM)?;
    match in_package {
        None => slot.push(0)?,
        Some(package) => {
            slot.push(1)?;
            push_ended(&mut slot, package)?;
        }
    }
    push_ended(&mut slot, key.name)?;
    slot.extend_from_slice(key.descriptor)?;
    Ok(slot)
}

/// Appends a text with 0 as 0 and 1, and 0 and 0 at its end. Then no text is the beginning of another.
fn push_ended(bytes: &mut Vec<u8>, text: &[u8]) -> Result<(), NoMemory>
    ensures { OnOk result (bytes.new.items ≡ bytes.old.items ++ ended text.now) }
{
    for byte in text {
        push_escaped(bytes, *byte)?;
    }
    bytes.extend_from_slice(&[0, 0])?;
    Ok(())
}

/// Appends a byte, with 0 as 0 and 1.
fn push_escaped(bytes: &mut Vec<u8>, byte: u8) -> Result<(), NoMemory>
    ensures { OnOk result (bytes.new.items ≡ bytes.old.items ++ escaped byte) }
{
    bytes.push(byte)?;
    if byte == 0 {
        bytes.push(1)?;
    }
    Ok(())
}
