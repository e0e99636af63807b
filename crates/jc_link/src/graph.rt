//! Class graphs: numbered classes with all that they reach.

ghost use Rattle.std.specs.Prelude.{◌≡◌, ◌<◌, ◌≤◌, ◌++◌, ℕ, List, [], IfOk, OnOk, length, map};
ghost use Rattle.std.specs.List.{All, Contains};
ghost use Rattle.std.specs.Option.{option_copied, option_to_list};
ghost use Rattle.jc_classes.specs.Lent.{stands_of};
ghost use Rattle.jc_classes.specs.Names.{Name, names_of};
ghost use Rattle.jc_classes.specs.Numbers.{AddsNumbers, IsOnce, name_at};
ghost use Rattle.jc_classes.specs.Worlds.{World};
ghost use Rattle.jc_link.specs.Closures.{facts_standing};
ghost use Rattle.jc_link.specs.Graphs.{IsAround, IsIn, names_of_classes};
ghost use Rattle.jc_link.specs.Meters.{counted};
ghost use Rattle.jc_link.specs.Tables.{classes_of, world};
ghost use Rattle.jc_link.specs.inside.GraphAsked.{AreClasses, AreReferredIn, IsAskedBy, asked_count};
ghost use Rattle.jc_link.specs.inside.GraphShown.{AllReached, AreKept, nodes_in};

use crate::meter::Meter;
use crate::numbering::{number_references, number_some};
use crate::outside::Outside;
use crate::reached::{Reached, ask_all};
use crate::table::Table;
use jc_base::NoMemory;
use jc_classes::{Facts, Numbers, Standing};
use std::alloc::Global;
use std::marker::Model;

/// The classes of some names, and all names that they reach, each once: `java/lang/Object`, the classes that their
/// references name, and all supertypes. Each name has a number.
#[derive(Drop)]
pub struct ClassGraph<'t> {
    /// The names by their numbers.
    pub(crate) names: Numbers,
    /// What each name is.
    pub(crate) standing: Vec<Standing<'t>>,
    /// The numbers of the supertypes of each name.
    pub(crate) supertypes: Vec<Vec<usize>>,
    /// The numbers of the classes, in the order in which they were given.
    pub(crate) classes: Vec<usize>,
    /// For each class, the numbers of the classes that its references name.
    pub(crate) references: Vec<Vec<Option<u32>>>,
    /// The number of `java/lang/Object`.
    pub(crate) object: usize,
}

impl<'t> Model for ClassGraph<'t> {
    ghost use Rattle.jc_link.specs.Graphs as specs;

    ghost Value = { specs.ClassGraph };

    ghost use Rattle.jc_link.specs.inside.GraphShown.{graph_shown, IsWhole};

    ghost view = { graph_shown };

    ghost invariant = { IsWhole };
}

impl<'t> ClassGraph<'t> {
    /// Builds the graph of all classes of a table, in the order of their names. It looks up each name once.
    ///
    /// Returns `NoMemory` when an allocation fails, and when the names have more than 4,294,967,295 bytes in total.
    pub fn of(
        alloc: Global,
        table: &'t Table,
        outside: &Outside,
        meter: &mut Meter,
    ) -> Result<ClassGraph<'t>, NoMemory>
        ensures around { IfOk result (IsAround (world table.now outside.now)) }
        ensures classes { IfOk result (λ g. g.classes ≡ names_of_classes (classes_of table.now)) }
        ensures asks { IfOk result (λ g. meter.new.asks ≡ counted meter.old.asks (length g.names)) }
        ensures asks_rise { meter.old.asks ≤ meter.new.asks }
        ensures made { meter.new.made ≡ meter.old.made }
    {
        let mut names = Numbers::new(alloc);
        let classes = number_classes(alloc, table, &mut names)?;
        let graph = gather_graph(alloc, table, outside, names, classes, meter)?;
        Ok(graph)
    }

    /// Builds the graph of the classes of some names, and of one more if it is given. It looks up each name once.
    ///
    /// Returns `NoMemory` when an allocation fails, and when the names have more than 4,294,967,295 bytes in total.
    pub fn around(
        alloc: Global,
        table: &'t Table,
        outside: &Outside,
        names: &[Vec<u8>],
        more: Option<&[u8]>,
        meter: &mut Meter,
    ) -> Result<ClassGraph<'t>, NoMemory>
        ensures around { IfOk result (IsAround (world table.now outside.now)) }
        ensures classes { IfOk result (λ g. g.classes ≡ names_of names.now ++ option_to_list (option_copied more.entry)) }
        ensures asks { IfOk result (λ g. meter.new.asks ≡ counted meter.old.asks (length g.names)) }
        ensures asks_rise { meter.old.asks ≤ meter.new.asks }
        ensures made { meter.new.made ≡ meter.old.made }
    {
        let mut numbers = Numbers::new(alloc);
        let mut classes = number_names(alloc, names, &mut numbers)?;
        number_some(alloc, &mut numbers, &mut classes, more)?;
        let graph = gather_graph(alloc, table, outside, numbers, classes, meter)?;
        Ok(graph)
    }

    /// Returns the facts of the class at a place in the order of the classes, from 0, if it has any. Does not allocate.
    pub fn record(&self, place: usize) -> Option<&'t Facts>
        requires { place < length self.now.classes }
        ensures { (m : World) → IsIn m self.now → option_copied result ≡ facts_standing (m (name_at self.now.classes place)) }
    {
        match self.standing[self.classes[place]] {
            Standing::Class(facts) => Some(facts),
            _ => None,
        }
    }
}

/// Numbers the classes of a table.
fn number_classes(
    alloc: Global,
    table: &Table,
    numbers: &mut Numbers,
) -> Result<Vec<usize>, NoMemory>
    requires { IsOnce numbers.old }
    ensures { IfOk result (λ classes. AddsNumbers numbers.old [] numbers.new classes.items (names_of_classes (classes_of table.now))) }
{
    let mut classes = Vec::new(alloc);
    for facts in table.classes() {
        numbers.number_into(alloc, &mut classes, facts.name())?;
    }
    Ok(classes)
}

/// Numbers some names.
fn number_names(
    alloc: Global,
    names: &[Vec<u8>],
    numbers: &mut Numbers,
) -> Result<Vec<usize>, NoMemory>
    requires { IsOnce numbers.old }
    ensures { IfOk result (λ classes. AddsNumbers numbers.old [] numbers.new classes.items (names_of names.now)) }
{
    let mut classes = Vec::with_capacity(alloc, names.len())?;
    for name in names {
        numbers.number_into(alloc, &mut classes, name)?;
    }
    Ok(classes)
}

/// Builds the graph of the classes of these numbers. No other names may have numbers yet.
fn gather_graph<'t>(
    alloc: Global,
    table: &'t Table,
    outside: &Outside,
    names: Numbers,
    classes: Vec<usize>,
    meter: &mut Meter,
) -> Result<ClassGraph<'t>, NoMemory>
    requires { AreClasses names classes.items }
    ensures around { IfOk result (IsAround (world table.now outside.now)) }
    ensures classes { IfOk result (λ g. g.classes ≡ map (name_at names) classes.items) }
    ensures asks { IfOk result (λ g. meter.new.asks ≡ counted meter.old.asks (length g.names)) }
    ensures asks_rise { meter.old.asks ≤ meter.new.asks }
    ensures made { meter.new.made ≡ meter.old.made }
{
    let mut names = names;
    let object = names.number(alloc, b"java/lang/Object")?;
    let mut reached = Reached::with_room(alloc, names.len())?;
    ask_all(alloc, table, outside, &mut names, &mut reached, meter)?;
    let references = refer(alloc, &reached, &classes, &mut names)?;
    ask_all(alloc, table, outside, &mut names, &mut reached, meter)?;
    Ok(ClassGraph {
        names,
        standing: reached.standing,
        supertypes: reached.supertypes,
        classes,
        references,
        object,
    })
}

/// Numbers the classes that the references of some classes name.
fn refer(
    alloc: Global,
    reached: &Reached<'_>,
    classes: &[usize],
    numbers: &mut Numbers,
) -> Result<Vec<Vec<Option<u32>>>, NoMemory>
    requires once { IsOnce numbers.old }
    requires classes { All (λ v. v < asked_count reached.now) classes.now }
    ensures size { IfOk result (λ references. length (nodes_in references.items) ≡ length classes.now) }
    ensures kept { OnOk result (AreKept numbers.old numbers.new) }
    ensures asked { (m : World) → IsAskedBy m numbers.old reached.now → OnOk result (IsAskedBy m numbers.new reached.now) }
    ensures referred { (m : World) → IsAskedBy m numbers.old reached.now
        → IfOk result (λ references. AreReferredIn m numbers.new classes.now (nodes_in references.items)) }
    ensures reached { (m : World) → IsAskedBy m numbers.old reached.now
        → AllReached m (map (name_at numbers.old) classes.now) numbers.old
        → OnOk result (AllReached m (map (name_at numbers.old) classes.now) numbers.new) }
{
    let mut references = Vec::with_capacity(alloc, classes.len())?;
    for class in classes {
        let nodes = number_references(alloc, numbers, reached.standing[*class])?;
        references.push(nodes)?;
    }
    Ok(references)
}
