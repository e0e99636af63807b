//! The parts and the reaches of the classes of a graph.

ghost use Rattle.std.specs.Prelude.{◌≡◌, ◌<◌, ◌≤◌, ◌++◌, IfOk, OnErr, OnOk, length, map};
ghost use Rattle.std.specs.List.{All, flat_map};
ghost use Rattle.std.specs.Option.{option_copied, option_to_list};
ghost use Rattle.jc_classes.specs.Inheritance.{AreInherited};
ghost use Rattle.jc_classes.specs.NameLists.{Lists};
ghost use Rattle.jc_classes.specs.Numbers.{name_at};
ghost use Rattle.jc_classes.specs.Parts.{IsPart, Reach};
ghost use Rattle.jc_classes.specs.Selection.{EachUnimplemented, IsNamed};
ghost use Rattle.jc_classes.specs.Worlds.{World};
ghost use Rattle.jc_link.specs.Closures.{facts_standing};
ghost use Rattle.jc_link.specs.Graphs.{IsIn};
ghost use Rattle.jc_link.specs.Meters.{counted};
ghost use Rattle.jc_link.specs.inside.GraphShown.{AreNumbersOf, AreStarts, HasRoom, IsHierarchyOf};

use crate::graph::ClassGraph;
use crate::meter::Meter;
use crate::part::{Part, part_of};
use jc_base::NoMemory;
use jc_classes::{Facts, Numbers};
use jc_graph::{Seen, mark_above};
use jc_index::PackedNames;
use jc_resolve::{Hierarchy, InheritanceErrors, Unimplemented};
use std::alloc::Global;
use std::marker::Model;

/// Computes the parts and the reaches of the classes of a graph. It knows how each name of the graph loads. Its
/// functions identify a class by its place among the classes of the graph, counted from 0. The model is the graph.
#[derive(Drop)]
pub struct PartMaker<'g, 't> {
    graph: &'g ClassGraph<'t>,
    hierarchy: Hierarchy<'g, 't>,
    /// Working memory for walks, if a reach was asked for before.
    seen: Option<Seen>,
}

impl<'g, 't> Model for PartMaker<'g, 't> {
    ghost use Rattle.jc_link.specs.Graphs as specs;

    ghost Value = { specs.ClassGraph };

    ghost use Rattle.jc_link.specs.inside.GraphShown.{HasRoom, IsHierarchyOf};

    ghost view = { λ a. a.graph.now };

    ghost invariant = { λ a. IsHierarchyOf a.graph.now a.hierarchy × HasRoom a.graph.now a.seen };
}

impl<'g, 't> PartMaker<'g, 't> {
    /// Finds how each name of a graph loads, and returns a part maker for the graph.
    ///
    /// Returns `NoMemory` only when an allocation fails.
    pub fn new(alloc: Global, graph: &'g ClassGraph<'t>) -> Result<PartMaker<'g, 't>, NoMemory>
        ensures { IfOk result (λ maker. maker ≡ graph.now) }
    {
        let hierarchy = Hierarchy::new(
            alloc,
            &graph.names,
            graph.standing.as_slice(),
            graph.supertypes.as_slice(),
            graph.object,
        )?;
        Ok(PartMaker {
            graph,
            hierarchy,
            seen: None,
        })
    }

    /// Computes the part of the class at a place.
    ///
    /// Returns `NoMemory` when an allocation fails. Then the meter counts no part.
    pub fn part(&mut self, alloc: Global, place: usize, meter: &mut Meter) -> Result<Part, NoMemory>
        requires { place < length self.old.classes }
        ensures part { (m : World) → IsIn m self.old → IfOk result (IsPart m (name_at self.old.classes place)) }
        ensures graph { self.new ≡ self.old }
        ensures made { OnOk result (meter.new.made ≡ counted meter.old.made 1) }
        ensures unmade { OnErr result (meter.new.made ≡ meter.old.made) }
        ensures made_rise { meter.old.made ≤ meter.new.made }
        ensures asks { meter.new.asks ≡ meter.old.asks }
    {
        part_at(alloc, self.graph, &mut self.hierarchy, place, meter)
    }

    /// Returns the facts of the class at a place, if it has any. Does not allocate.
    pub fn record(&self, place: usize) -> Option<&'t Facts>
        requires { place < length self.now.classes }
        ensures { (m : World) → IsIn m self.now → option_copied result ≡ facts_standing (m (name_at self.now.classes place)) }
    {
        self.graph.record(place)
    }

    /// Finds the errors of inheritance of the classes of the graph, in their order (JVMS 4.10).
    ///
    /// Returns `NoMemory` only when an allocation fails.
    pub fn inheritance_errors(&self, alloc: Global) -> Result<Vec<InheritanceErrors>, NoMemory>
        ensures { (m : World) → IsIn m self.now → IfOk result (λ es. AreInherited m self.now.classes es.items) }
    {
        inheritance_in(alloc, self.graph, &self.hierarchy)
    }

    /// Finds the ABSTRACT methods for which each class of the graph has no body, in the order of the classes (JVMS 6.5).
    ///
    /// Returns `NoMemory` when an allocation fails, and when the lists of all classes have more than 2,097,152 entries.
    /// Classes with the same methods share a list.
    pub fn unimplemented(&self, alloc: Global) -> Result<Unimplemented<'t>, NoMemory>
        ensures { (m : World) → IsIn m self.now → IsNamed m → IfOk result (EachUnimplemented m self.now.classes) }
    {
        unimplemented_in(alloc, self.graph, &self.hierarchy)
    }

    /// Returns the names that the class at a place reaches, in ascending order.
    ///
    /// Returns `NoMemory` when an allocation fails, and when the names have more than 4,294,967,295 bytes together.
    pub fn reach(&mut self, alloc: Global, place: usize) -> Result<PackedNames, NoMemory>
        requires { place < length self.old.classes }
        ensures reach { (m : World) → IsIn m self.old
            → IfOk result (λ names. Lists names (Reach m (name_at self.old.classes place))) }
        ensures graph { self.new ≡ self.old }
    {
        let graph = self.graph;
        let mut seen = room(alloc, self.seen.take(), graph)?;
        see_reach(alloc, graph, &mut seen, place)?;
        let names = names_at(alloc, &graph.names, seen.nodes())?;
        let reach = PackedNames::of(alloc, names)?;
        self.seen = Some(seen);
        Ok(reach)
    }
}

/// Computes the part of the class at a place, over the hierarchy of its graph.
fn part_at(
    alloc: Global,
    graph: &ClassGraph,
    hierarchy: &mut Hierarchy,
    place: usize,
    meter: &mut Meter,
) -> Result<Part, NoMemory>
    requires hierarchy { IsHierarchyOf graph.now hierarchy.old }
    requires place { place < length graph.now.classes }
    ensures part { (m : World) → IsIn m graph.now → IfOk result (IsPart m (name_at graph.now.classes place)) }
    ensures same { hierarchy.new ≡ hierarchy.old }
    ensures made { OnOk result (meter.new.made ≡ counted meter.old.made 1) }
    ensures unmade { OnErr result (meter.new.made ≡ meter.old.made) }
    ensures made_rise { meter.old.made ≤ meter.new.made }
    ensures asks { meter.new.asks ≡ meter.old.asks }
{
    let class = graph.classes[place];
    let own = graph.standing[class];
    let references = graph.references[place].as_slice();
    let part = part_of(alloc, hierarchy, class, own, references)?;
    meter.count_part();
    Ok(part)
}

/// Finds the errors of inheritance of the classes of a graph, over its hierarchy.
fn inheritance_in(
    alloc: Global,
    graph: &ClassGraph,
    hierarchy: &Hierarchy,
) -> Result<Vec<InheritanceErrors>, NoMemory>
    requires { IsHierarchyOf graph.now hierarchy.now }
    ensures { (m : World) → IsIn m graph.now → IfOk result (λ es. AreInherited m graph.now.classes es.items) }
{
    hierarchy.inheritance_errors(alloc, graph.classes.as_slice())
}

/// Finds the ABSTRACT methods for which the classes of a graph have no body, over its hierarchy.
fn unimplemented_in<'t>(
    alloc: Global,
    graph: &ClassGraph<'t>,
    hierarchy: &Hierarchy<'_, 't>,
) -> Result<Unimplemented<'t>, NoMemory>
    requires { IsHierarchyOf graph.now hierarchy.now }
    ensures { (m : World) → IsIn m graph.now → IsNamed m → IfOk result (EachUnimplemented m graph.now.classes) }
{
    hierarchy.unimplemented(alloc, graph.classes.as_slice())
}

/// Returns the working memory that was kept, or allocates it.
fn room(alloc: Global, kept: Option<Seen>, graph: &ClassGraph) -> Result<Seen, NoMemory>
    requires { HasRoom graph.now kept }
    ensures { IfOk result (λ seen. length seen.flags ≡ length graph.now.names) }
{
    match kept {
        Some(seen) => Ok(seen),
        None => Seen::new(alloc, graph.names.len()),
    }
}

/// Finds the numbers of the names that the class at a place reaches.
fn see_reach(
    alloc: Global,
    graph: &ClassGraph,
    seen: &mut Seen,
    place: usize,
) -> Result<(), NoMemory>
    requires seen { length seen.old.flags ≡ length graph.now.names }
    requires place { place < length graph.now.classes }
    ensures size { OnOk result (length seen.new.flags ≡ length graph.now.names) }
    ensures within { OnOk result (All (λ v. v < length graph.now.names) seen.new.list) }
    ensures reach { (m : World) → IsIn m graph.now
        → OnOk result (AreNumbersOf graph.now.names (Reach m (name_at graph.now.classes place)) seen.new.list) }
{
    let starts = starts_of(alloc, graph, place)?;
    mark_above(graph.supertypes.as_slice(), seen, &starts)?;
    seen.add_all(&starts)
}

/// Returns the numbers of the class at a place, of `java/lang/Object` and of the classes that its references name.
fn starts_of(alloc: Global, graph: &ClassGraph, place: usize) -> Result<Vec<usize>, NoMemory>
    requires { place < length graph.now.classes }
    ensures within { IfOk result (λ starts. All (λ v. v < length graph.now.names) starts.items) }
    ensures starts { (m : World) → IsIn m graph.now
        → IfOk result (λ starts. AreStarts m (name_at graph.now.classes place) graph.now.names starts.items) }
{
    let references = graph.references[place].as_slice();
    let mut starts = Vec::with_capacity(alloc, 2 + references.len())?;
    starts.push(graph.classes[place])?;
    starts.push(graph.object)?;
    push_some(&mut starts, references)?;
    Ok(starts)
}

/// Appends the numbers that are present.
fn push_some(numbers: &mut Vec<usize>, others: &[Option<u32>]) -> Result<(), NoMemory>
    ensures { OnOk result (numbers.new.items ≡ numbers.old.items ++ flat_map option_to_list others.now) }
{
    for other in others {
        if let Some(other) = other {
            numbers.push(*other as usize)?;
        }
    }
    Ok(())
}

/// Returns the names of these numbers, borrowed.
fn names_at<'n>(
    alloc: Global,
    numbers: &'n Numbers,
    nodes: &[usize],
) -> Result<Vec<&'n [u8]>, NoMemory>
    requires { All (λ v. v < length numbers.now) nodes.now }
    ensures { IfOk result (λ names. map (λ name. name.now) names.items ≡ map (name_at numbers.now) nodes.now) }
{
    let mut names = Vec::with_capacity(alloc, nodes.len())?;
    for node in nodes {
        names.push(numbers.name(*node))?;
    }
    Ok(names)
}
