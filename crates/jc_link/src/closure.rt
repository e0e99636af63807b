//! The reach of a class, and the graph around the class.

ghost use Rattle.std.specs.Prelude.{◌≡◌, ◌≤◌, ◌↔◌, IfOk, IsTrue, length};
ghost use Rattle.std.specs.Option.{option_copied};
ghost use Rattle.jc_classes.specs.NameLists.{has, Lists};
ghost use Rattle.jc_classes.specs.Names.{Name, names_of};
ghost use Rattle.jc_classes.specs.Parts.{Reach};
ghost use Rattle.jc_classes.specs.Worlds.{World};
ghost use Rattle.jc_link.specs.Closures.{IsClosure, facts_standing};
ghost use Rattle.jc_link.specs.Meters.{counted};
ghost use Rattle.jc_link.specs.Tables.{world};

use crate::graph::ClassGraph;
use crate::meter::Meter;
use crate::outside::Outside;
use crate::table::Table;
use jc_base::NoMemory;
use jc_classes::Facts;
use jc_index::NameList;
use std::alloc::Global;
use std::marker::Model;

/// The reach of a class, as it was read from a table: the graph around this class, and its names in order.
#[derive(Drop)]
pub struct Closure<'t> {
    pub(crate) graph: ClassGraph<'t>,
    /// The names of the graph, in ascending order.
    pub(crate) names: NameList,
}

impl<'t> Model for Closure<'t> {
    ghost use Rattle.jc_link.specs.Closures as specs;

    ghost Value = { specs.Closure };

    ghost use Rattle.jc_link.specs.inside.ClosureShown.{closure_shown, IsWhole};

    ghost view = { closure_shown };

    ghost invariant = { IsWhole };
}

/// Finds the reach of a name: the name itself, `java/lang/Object`, the classes that its references name, and all their
/// supertypes. It looks up each of these names once in the table, also names without a class.
///
/// Returns `NoMemory` when an allocation fails, and when the names have more than 4,294,967,295 bytes in total.
pub fn gather<'t>(
    alloc: Global,
    table: &'t Table,
    outside: &Outside,
    name: &[u8],
    meter: &mut Meter,
) -> Result<Closure<'t>, NoMemory>
    ensures closure { IfOk result (λ c. IsClosure (world table.now outside.now) name.now c) }
    ensures asks { IfOk result (λ c. meter.new.asks ≡ counted meter.old.asks (length c.names)) }
    ensures asks_rise { meter.old.asks ≤ meter.new.asks }
    ensures made { meter.new.made ≡ meter.old.made }
{
    let graph = ClassGraph::around(alloc, table, outside, &[], Some(name), meter)?;
    let names = graph.names.rising(alloc)?;
    Ok(Closure {
        graph,
        names: NameList::of(names),
    })
}

impl<'t> Closure<'t> {
    /// Returns the names of the reach, in ascending order. Does not allocate.
    pub fn names(&self) -> &[Vec<u8>]
        ensures names { names_of result.now ≡ self.now.names }
        ensures reach { (m : World) (d : Name) → IsClosure m d self.now → Lists (names_of result.now) (Reach m d) }
    {
        self.names.names()
    }

    /// Returns whether a name is in the reach. Does not allocate.
    pub fn holds(&self, name: &[u8]) -> bool
        ensures held { result ≡ has self.now.names name.now }
        ensures reach { (m : World) (d : Name) → IsClosure m d self.now → (IsTrue result ↔ Reach m d name.now) }
    {
        self.names.has(name)
    }

    /// Returns the facts of the class itself, if the name has facts. Does not allocate.
    pub fn record(&self) -> Option<&'t Facts>
        ensures { (m : World) (d : Name) → IsClosure m d self.now → option_copied result ≡ facts_standing (m d) }
    {
        self.graph.record(0)
    }
}
