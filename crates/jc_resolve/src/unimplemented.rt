//! ABSTRACT methods for which classes have no body (JVMS 6.5).

ghost use Rattle.std.specs.Prelude.{◌≡◌, ◌<◌, ◌≤◌, ◌++◌, ◌∷◌, [], List, length, map, option_map, slice_get, slice_index_or, true, ℕ, IfOk, OnOk};
ghost use Rattle.std.specs.declared.alloc.Global.{Global as GlobalValue};
ghost use Rattle.std.specs.declared.vec.Vec.{Vec};
ghost use Rattle.std.specs.Bool.{Decides};
ghost use Rattle.std.specs.List.{All, Contains, filter};
ghost use Rattle.jc_resolve.specs.Methods.{AreWithin, inherited_of, methods_in, numbers_at};
ghost use Rattle.jc_classes.specs.Worlds.{World};
ghost use Rattle.jc_graph.specs.Graph.{successors_of};
ghost use Rattle.jc_numbered.specs.inside.Indexed.{IsIndexed, good_at, indexed_name};
ghost use Rattle.jc_numbered.specs.inside.Shown.{indexed_of};
ghost use Rattle.jc_classes.specs.Selection.{EachUnimplemented, IsConcrete, IsNamed};
ghost use Rattle.jc_numbered.specs.inside.Loading.{load_at};
ghost use Rattle.jc_resolve.specs.inside.Resolved.{AreLoads, TellsGood, has_loaded};
ghost use Rattle.jc_resolve.specs.inside.Rooms.{IsRoom};
ghost use Rattle.jc_resolve.specs.inside.Unimplemented.{Adds, AreAdded, AreInOrder, ExtendsLists, HasList, HaveHomes, IsAboveList, IsInOrder, IsPathTo, IsPlain, IsSearch, ListFor, is_loaded_class, stays_at, stays_number};

use crate::abstract_methods::{AbstractMethod, AbstractMethods};
use crate::selection::{declares_instance, has_interfaces, overrides, selects_none};
use crate::workspace::Workspace;
use jc_base::NoMemory;
use jc_classes::Standing;
use jc_file::AccessFlag;
use jc_numbered::{Classes, Load};
use std::alloc::Global;
use std::marker::Model;

/// The lists of a search have at most this number of entries. More are refused as out of memory.
const MOST: usize = 2_097_152;

/// The number of the empty list.
const NONE: usize = 0;

/// The ABSTRACT methods for which classes have no body.
#[derive(Drop)]
pub struct Unimplemented<'t> {
    methods: Vec<AbstractMethod<'t>>,
    /// Lists of numbers of methods, in ascending order.
    lists: Vec<Vec<usize>>,
    /// The number of the list of each class.
    list_of: Vec<usize>,
}

/// A search for these methods. Classes with the same methods share a list.
#[derive(Drop)]
struct Search<'t> {
    methods: AbstractMethods<'t>,
    lists: Vec<Vec<usize>>,
    /// The number of the list of each node, if it is known.
    list_of: Vec<Option<usize>>,
    /// The number of entries in all lists.
    size: usize,
}

impl<'t> Model for Unimplemented<'t> {
    ghost use Rattle.std.specs.Prelude.{List, map};
    ghost use Rattle.jc_classes.specs.Inheritance.{Inherited};
    ghost use Rattle.jc_resolve.specs.Methods.{AreWithin, methods_in};

    ghost Value = { List (List Inherited) };

    ghost view = { λ a. map (methods_in a.methods.items a.lists.items) a.list_of.items };

    ghost invariant = { λ a. AreWithin a.methods.items a.lists.items a.list_of.items };
}

impl<'t> Unimplemented<'t> {
    /// Returns the number of methods for which the class at a place has no body.
    pub fn count(&self, place: usize) -> usize
        ensures { result ≡ length (slice_index_or self.now place []) }
    {
        numbers_at(self.lists.as_slice(), self.list_of.as_slice(), place).len()
    }

    /// Returns one of the methods for which the class at a place has no body. They are in the order of their names,
    /// descriptors and classes.
    pub fn method(&self, place: usize, at: usize) -> Option<AbstractMethod<'t>>
        ensures { option_map inherited_of result ≡ slice_get (slice_index_or self.now place []) at }
    {
        let numbers = numbers_at(self.lists.as_slice(), self.list_of.as_slice(), place);
        match numbers.get(at) {
            Some(number) => match self.methods.get(*number) {
                Some(method) => Some(*method),
                None => None,
            },
            None => None,
        }
    }
}

/// Returns the list of the class at a place. It is empty if there is no such class.
fn numbers_at<'a>(lists: &'a [Vec<usize>], list_of: &[usize], place: usize) -> &'a [usize]
    ensures { result.now ≡ numbers_at lists.now list_of.now place }
{
    match list_of.get(place) {
        Some(number) => match lists.get(*number) {
            Some(list) => list.as_slice(),
            None => &[],
        },
        None => &[],
    }
}

impl<'t> Search<'t> {
    /// Starts a search among these classes.
    fn new(alloc: Global, classes: &Classes<'_, 't>) -> Result<Search<'t>, NoMemory>
        ensures { IfOk result (IsSearch (length classes.now.standing.now) (indexed_of classes.now)) }
    {
        let methods = AbstractMethods::find(alloc, classes)?;
        let list_of = vec![in alloc; None; classes.len()]?;
        let lists = vec![in alloc; Vec::new(alloc)]?;
        Ok(Search {
            methods,
            lists,
            list_of,
            size: 0,
        })
    }

    /// Returns the number of the list of a class. Finds it, and those of its superclasses, if they are not known.
    fn list(
        &mut self,
        alloc: Global,
        classes: &Classes<'_, 't>,
        room: &mut Workspace,
        class: usize,
    ) -> Result<usize, NoMemory>
        requires class { class < length classes.now.standing.now }
        requires good { good_at (indexed_of classes.now) class ≡ true }
        requires search { IsSearch (length classes.now.standing.now) (indexed_of classes.now) self.old }
        requires room { IsRoom classes.now room.old }
        ensures list { IfOk result (HasList (indexed_of classes.now) class self.new) }
        ensures search { OnOk result (IsSearch (length classes.now.standing.now) (indexed_of classes.now) self.new) }
        ensures kept { OnOk result (ExtendsLists self.old self.new) }
        ensures room { OnOk result (IsRoom classes.now room.new) }
    {
        let (path, known) = self.path_to_known(alloc, classes, class)?;
        let mut path = path;
        let mut number = known;
        while let Some(node) = path.pop() {
            number = self.add(alloc, classes, room, node, number)?;
        }
        Ok(number)
    }

    /// Returns the class and its superclasses, the nearest first, up to one whose list is known, and the number of that
    /// list.
    fn path_to_known(
        &self,
        alloc: Global,
        classes: &Classes<'_, 't>,
        class: usize,
    ) -> Result<(Vec<usize>, usize), NoMemory>
        requires class { class < length classes.now.standing.now }
        requires good { good_at (indexed_of classes.now) class ≡ true }
        requires search { IsSearch (length classes.now.standing.now) (indexed_of classes.now) self.now }
        ensures { IfOk result (λ p. IsPathTo (length classes.now.standing.now) (indexed_of classes.now) self.now class p.0.items p.1) }
    {
        let mut path = Vec::new(alloc);
        let mut next = Some(class);
        while let Some(node) = next {
            if let Some(number) = self.list_of[node] {
                return Ok((path, number));
            }
            path.push(node)?;
            next = classes.superclass(node);
        }
        Ok((path, NONE))
    }

    /// Finds the list of a class from that of its superclass, and returns its number.
    fn add(
        &mut self,
        alloc: Global,
        classes: &Classes<'_, 't>,
        room: &mut Workspace,
        node: usize,
        above: usize,
    ) -> Result<usize, NoMemory>
        requires node { node < length classes.now.standing.now }
        requires good { good_at (indexed_of classes.now) node ≡ true }
        requires search { IsSearch (length classes.now.standing.now) (indexed_of classes.now) self.old }
        requires above { IsAboveList (indexed_of classes.now) node self.old above }
        requires room { IsRoom classes.now room.old }
        ensures list { IfOk result (HasList (indexed_of classes.now) node self.new) }
        ensures search { OnOk result (IsSearch (length classes.now.standing.now) (indexed_of classes.now) self.new) }
        ensures kept { OnOk result (ExtendsLists self.old self.new) }
        ensures room { OnOk result (IsRoom classes.now room.new) }
    {
        let added = self.added(alloc, classes, room, node)?;
        let number = self.extend(alloc, classes, node, above, added)?;
        self.list_of[node] = Some(number);
        Ok(number)
    }

    /// Returns the number of a list with what stays of the list of the superclass, and with `added`.
    fn extend(
        &mut self,
        alloc: Global,
        classes: &Classes<'_, 't>,
        node: usize,
        above: usize,
        added: Vec<usize>,
    ) -> Result<usize, NoMemory>
        requires node { node < length classes.now.standing.now }
        requires search { IsSearch (length classes.now.standing.now) (indexed_of classes.now) self.old }
        requires above { above < length self.old.lists.items }
        requires within { (i : ℕ) → Contains (successors_of self.old.lists.items above) i → i < length self.old.methods.all.items }
        ensures list { IfOk result (λ number. (number < length self.new.lists.items) × (successors_of self.new.lists.items number
            ≡ added.items ++ filter (stays_number (indexed_of classes.now) node self.old.methods.all.items) (successors_of self.old.lists.items above))) }
        ensures search { OnOk result (IsSearch (length classes.now.standing.now) (indexed_of classes.now) self.new) }
        ensures kept { OnOk result (ExtendsLists self.old self.new) }
    {
        let methods = self.methods.all.as_slice();
        let inherited = self.lists[above].as_slice();
        if added.is_empty() && all_stay(classes, node, methods, inherited) {
            return Ok(above);
        }
        let list = staying(classes, node, methods, inherited, added)?;
        self.push(list)
    }

    /// Appends a list, and returns its number.
    fn push(&mut self, list: Vec<usize>) -> Result<usize, NoMemory>
        requires size { self.old.size ≤ 2097152 }
        ensures number { IfOk result (λ number. number ≡ length self.old.lists.items) }
        ensures lists { OnOk result (self.new.lists.items ≡ self.old.lists.items ++ list ∷ []) }
        ensures methods { self.new.methods ≡ self.old.methods }
        ensures list_of { self.new.list_of ≡ self.old.list_of }
        ensures size { self.new.size ≤ 2097152 }
    {
        if list.len() > MOST - self.size {
            return Err(NoMemory);
        }
        self.size += list.len();
        let number = self.lists.len();
        self.lists.push(list)?;
        Ok(number)
    }

    /// Returns the numbers of the methods without a body that come from the class itself and from its superinterfaces.
    fn added(
        &self,
        alloc: Global,
        classes: &Classes<'_, 't>,
        room: &mut Workspace,
        node: usize,
    ) -> Result<Vec<usize>, NoMemory>
        requires node { node < length classes.now.standing.now }
        requires good { good_at (indexed_of classes.now) node ≡ true }
        requires search { IsSearch (length classes.now.standing.now) (indexed_of classes.now) self.now }
        requires room { IsRoom classes.now room.old }
        ensures added { IfOk result (λ added. AreAdded (indexed_of classes.now) node self.now added.items) }
        ensures room { OnOk result (IsRoom classes.now room.new) }
    {
        let mut added = Vec::from_slice(alloc, self.methods.of_class[node].as_slice())?;
        if has_interfaces(classes, node) {
            self.push_of_interfaces(alloc, classes, room, node, &mut added)?;
        }
        Ok(added)
    }

    /// Appends the methods of the superinterfaces for which no method is selected.
    fn push_of_interfaces(
        &self,
        alloc: Global,
        classes: &Classes<'_, 't>,
        room: &mut Workspace,
        node: usize,
        added: &mut Vec<usize>,
    ) -> Result<(), NoMemory>
        requires node { node < length classes.now.standing.now }
        requires good { good_at (indexed_of classes.now) node ≡ true }
        requires search { IsSearch (length classes.now.standing.now) (indexed_of classes.now) self.now }
        requires room { IsRoom classes.now room.old }
        ensures added { OnOk result (Adds (indexed_of classes.now) node self.now.methods.all.items (λ i. i < length self.now.methods.all.items)
            added.old.items added.new.items) }
        ensures room { OnOk result (IsRoom classes.now room.new) }
    {
        room.above.see(alloc, classes, node)?;
        let interfaces = Vec::from_slice(alloc, room.above.interfaces())?;
        for interface in &interfaces {
            let numbers = self.methods.of_class[*interface].as_slice();
            self.push_of(alloc, classes, room, node, numbers, added)?;
        }
        Ok(())
    }

    /// Appends those methods of a list for which no method is selected.
    fn push_of(
        &self,
        alloc: Global,
        classes: &Classes<'_, 't>,
        room: &mut Workspace,
        node: usize,
        numbers: &[usize],
        added: &mut Vec<usize>,
    ) -> Result<(), NoMemory>
        requires node { node < length classes.now.standing.now }
        requires good { good_at (indexed_of classes.now) node ≡ true }
        requires methods { HaveHomes (length classes.now.standing.now) self.now.methods.all.items }
        requires room { IsRoom classes.now room.old }
        ensures added { OnOk result (Adds (indexed_of classes.now) node self.now.methods.all.items (Contains numbers.now) added.old.items added.new.items) }
        ensures room { OnOk result (IsRoom classes.now room.new) }
    {
        for number in numbers {
            self.push_one(alloc, classes, room, node, *number, added)?;
        }
        Ok(())
    }

    /// Appends the method with this number, if no method is selected for it.
    fn push_one(
        &self,
        alloc: Global,
        classes: &Classes<'_, 't>,
        room: &mut Workspace,
        node: usize,
        number: usize,
        added: &mut Vec<usize>,
    ) -> Result<(), NoMemory>
        requires node { node < length classes.now.standing.now }
        requires good { good_at (indexed_of classes.now) node ≡ true }
        requires methods { HaveHomes (length classes.now.standing.now) self.now.methods.all.items }
        requires room { IsRoom classes.now room.old }
        ensures added { OnOk result (Adds (indexed_of classes.now) node self.now.methods.all.items (λ i. i ≡ number) added.old.items added.new.items) }
        ensures room { OnOk result (IsRoom classes.now room.new) }
    {
        let Some(method) = self.methods.all.get(number) else {
            return Ok(());
        };
        if selects_none(alloc, classes, room, node, method.node(), method.key())? {
            added.push(number)?;
        }
        Ok(())
    }

    /// Sorts the lists. `list_of` has the number of the list of each class.
    fn finish(self, list_of: Vec<usize>) -> Unimplemented<'t>
        requires { AreWithin self.methods.all.items self.lists.items list_of.items }
        ensures { (lists : List (Vec ℕ GlobalValue)) × AreInOrder self.entry.lists.items lists
            × (result ≡ map (methods_in self.entry.methods.all.items lists) list_of.items) }
    {
        let mut lists = self.lists;
        sort_all(&mut lists);
        Unimplemented {
            methods: self.methods.all,
            lists,
            list_of,
        }
    }
}

/// Sorts each list, and removes repeated numbers.
fn sort_all(lists: &mut Vec<Vec<usize>>)
    ensures { AreInOrder lists.old.items lists.new.items }
{
    for place in 0..lists.len() {
        sort_one(&mut lists[place]);
    }
}

/// Sorts a list, and removes repeated numbers.
fn sort_one(list: &mut Vec<usize>)
    ensures { IsInOrder list.old.items list.new.items }
{
    list.sort_unstable();
    list.dedup();
}

/// Returns the number of the list of a class, or of an empty list if the class is not concrete.
///
/// Looks for outside supertypes only if the list of the class is not empty.
fn list_for<'t>(
    alloc: Global,
    classes: &Classes<'_, 't>,
    loads: &[Load],
    search: &mut Search<'t>,
    room: &mut Workspace,
    node: usize,
) -> Result<usize, NoMemory>
    requires node { node < length classes.now.standing.now }
    requires loads { length loads.now ≡ length classes.now.standing.now }
    requires told { AreLoads (length classes.now.standing.now) (indexed_of classes.now) loads.now }
    requires good { TellsGood (indexed_of classes.now) loads.now }
    requires search { IsSearch (length classes.now.standing.now) (indexed_of classes.now) search.old }
    requires room { IsRoom classes.now room.old }
    ensures list { IfOk result (ListFor (indexed_of classes.now) search.new node) }
    ensures search { OnOk result (IsSearch (length classes.now.standing.now) (indexed_of classes.now) search.new) }
    ensures kept { OnOk result (ExtendsLists search.old search.new) }
    ensures room { OnOk result (IsRoom classes.now room.new) }
{
    if !is_loaded_class(classes, loads, node) {
        return Ok(NONE);
    }
    let number = search.list(alloc, classes, room, node)?;
    if search.lists[number].is_empty() {
        return Ok(number);
    }
    if is_concrete(alloc, classes, loads, room, node)? {
        Ok(number)
    } else {
        Ok(NONE)
    }
}

/// Returns whether a class has no body for a method for which its superclass has none.
fn stays(classes: &Classes, node: usize, method: &AbstractMethod) -> bool
    requires node { node < length classes.now.standing.now }
    requires home { method.now.node < length classes.now.standing.now }
    ensures { result ≡ stays_at (indexed_of classes.now) node method.now }
{
    if classes.is_interface(method.node()) {
        !has_interfaces(classes, node) && !declares_instance(classes, node, method.key())
    } else {
        !overrides(classes, node, method)
    }
}

/// Returns whether all methods of a list stay.
fn all_stay(classes: &Classes, node: usize, methods: &[AbstractMethod], numbers: &[usize]) -> bool
    requires node { node < length classes.now.standing.now }
    requires methods { HaveHomes (length classes.now.standing.now) methods.now }
    requires numbers { (i : ℕ) → Contains numbers.now i → i < length methods.now }
    ensures { Decides result (All (λ i. stays_number (indexed_of classes.now) node methods.now i ≡ true) numbers.now) }
{
    if is_plain(classes, node) {
        return true;
    }
    for number in numbers {
        if !number_stays(classes, node, methods, *number) {
            return false;
        }
    }
    true
}

/// Returns whether a node is a class without methods and without direct superinterfaces.
fn is_plain(classes: &Classes, node: usize) -> bool
    requires { node < length classes.now.standing.now }
    ensures { result ≡ true → IsPlain (indexed_of classes.now) node }
{
    match classes.at(node) {
        Standing::Class(facts) => facts.method_count() == 0 && facts.interface_count() == 0,
        _ => false,
    }
}

/// Returns `added`, and after it the numbers of the methods that stay.
fn staying(
    classes: &Classes,
    node: usize,
    methods: &[AbstractMethod],
    numbers: &[usize],
    added: Vec<usize>,
) -> Result<Vec<usize>, NoMemory>
    requires node { node < length classes.now.standing.now }
    requires methods { HaveHomes (length classes.now.standing.now) methods.now }
    ensures { IfOk result (λ list. list.items ≡ added.items ++ filter (stays_number (indexed_of classes.now) node methods.now) numbers.now) }
{
    let mut list = added;
    for number in numbers {
        if number_stays(classes, node, methods, *number) {
            list.push(*number)?;
        }
    }
    Ok(list)
}

/// Returns whether the method with this number stays.
fn number_stays(classes: &Classes, node: usize, methods: &[AbstractMethod], number: usize) -> bool
    requires node { node < length classes.now.standing.now }
    requires methods { HaveHomes (length classes.now.standing.now) methods.now }
    ensures { result ≡ stays_number (indexed_of classes.now) node methods.now number }
{
    match methods.get(number) {
        Some(method) => stays(classes, node, method),
        None => false,
    }
}

/// Returns whether a class can have instances and all its supertypes are known.
fn is_concrete(
    alloc: Global,
    classes: &Classes,
    loads: &[Load],
    room: &mut Workspace,
    node: usize,
) -> Result<bool, NoMemory>
    requires node { node < length classes.now.standing.now }
    requires loads { length loads.now ≡ length classes.now.standing.now }
    requires told { AreLoads (length classes.now.standing.now) (indexed_of classes.now) loads.now }
    requires room { IsRoom classes.now room.old }
    ensures concrete { IfOk result (λ b. (m : World) → IsIndexed m (indexed_of classes.now)
        → Decides b (IsConcrete m (indexed_name (indexed_of classes.now) node))) }
    ensures loaded { IfOk result (λ b. b ≡ true → has_loaded (load_at loads.now node) ≡ true) }
    ensures room { OnOk result (IsRoom classes.now room.new) }
{
    if !is_loaded_class(classes, loads, node) {
        return Ok(false);
    }
    room.above.see(alloc, classes, node)?;
    Ok(room.above.outside().is_none())
}

/// Returns whether a node is a class that loads, and that is neither an interface nor ABSTRACT.
fn is_loaded_class(classes: &Classes, loads: &[Load], node: usize) -> bool
    requires node { node < length classes.now.standing.now }
    requires loads { length loads.now ≡ length classes.now.standing.now }
    ensures { result ≡ is_loaded_class (indexed_of classes.now) loads.now node }
{
    let flags = classes.flags(node);
    match loads[node] {
        Load::Loaded => !AccessFlag::Interface.is_in(flags) && !AccessFlag::Abstract.is_in(flags),
        _ => false,
    }
}

/// Finds the ABSTRACT methods for which each of some classes has no body.
pub(crate) fn find_unimplemented<'t>(
    alloc: Global,
    classes: &Classes<'_, 't>,
    loads: &[Load],
    nodes: &[usize],
) -> Result<Unimplemented<'t>, NoMemory>
    requires loads { length loads.now ≡ length classes.now.standing.now }
    requires told { AreLoads (length classes.now.standing.now) (indexed_of classes.now) loads.now }
    requires good { TellsGood (indexed_of classes.now) loads.now }
    requires nodes { All (λ v. v < length classes.now.standing.now) nodes.now }
    ensures { IfOk result (λ u. (m : World) → IsIndexed m (indexed_of classes.now) → IsNamed m
        → EachUnimplemented m (map (indexed_name (indexed_of classes.now)) nodes.now) u) }
{
    let mut room = Workspace::new(alloc, classes)?;
    let mut search = Search::new(alloc, classes)?;
    let mut list_of = Vec::with_capacity(alloc, nodes.len())?;
    for node in nodes {
        let number = list_for(alloc, classes, loads, &mut search, &mut room, *node)?;
        list_of.push(number)?;
    }
    Ok(search.finish(list_of))
}
