//! How the classes of a graph load.

ghost use Rattle.std.specs.Prelude.{◌≡◌, ◌<◌, ℕ, length, map, false, IfOk};
ghost use Rattle.std.specs.List.{All};
ghost use Rattle.jc_graph.specs.Graph.{successors_of, IsOrder, TellsCircular};
ghost use Rattle.jc_graph.specs.Seen.{flag_at};
ghost use Rattle.jc_numbered.specs.inside.Shown.{indexed_of};
ghost use Rattle.jc_classes.specs.Names.{object as java_lang_object};
ghost use Rattle.jc_numbered.specs.inside.Indexed.{indexed_name};
ghost use Rattle.jc_resolve.specs.inside.Gathered.{IsGathered, bare};
ghost use Rattle.jc_resolve.specs.inside.Loaded.{IsLoaded};
ghost use Rattle.jc_resolve.specs.inside.Loading.{is_good, TellsRank};

use crate::all_loads::{good_all, load_all, most_above_all, rank_all};
use jc_base::NoMemory;
use jc_classes::{Numbers, Standing};
use jc_graph::{Sorted, sort_nodes};
use jc_numbered::{Classes, Load, package_ends};
use std::alloc::Global;

/// Numbered classes, with how each loads and whether it is circular.
#[derive(Drop)]
pub(crate) struct Loaded<'c, 't> {
    pub(crate) classes: Classes<'c, 't>,
    pub(crate) loads: Vec<Load>,
    pub(crate) circular: Vec<bool>,
}

/// Returns flags of which none is set.
fn unset(alloc: Global, count: usize) -> Result<Vec<bool>, NoMemory>
    ensures size { IfOk result (λ r. length r.items ≡ count) }
    ensures none { IfOk result (λ r. (v : ℕ) → flag_at r.items v ≡ false) }
{
    Ok(vec![in alloc; false; count]?)
}

/// The place of each class in the order of loading, whether it is good, and a bound on the number of its transitive
/// supertypes. A good class loads or is outside.
#[derive(Drop)]
struct Rated {
    rank: Vec<usize>,
    good: Vec<bool>,
    most_above: Vec<usize>,
}

/// Computes these values for the classes in an order.
fn rate(
    alloc: Global,
    supertypes: &[Vec<usize>],
    order: &[usize],
    loads: &[Load],
) -> Result<Rated, NoMemory>
    requires { All (λ v. v < length supertypes.now) order.now }
    ensures rank { IfOk result (λ r. TellsRank (length supertypes.now) order.now r.rank.items) }
    ensures good { IfOk result (λ r. r.good.items ≡ map is_good loads.now) }
{
    Ok(Rated {
        rank: rank_all(alloc, order, supertypes.len())?,
        good: good_all(alloc, loads)?,
        most_above: most_above_all(alloc, supertypes, order)?,
    })
}

/// Finds how each class loads, given the circular classes and an order of the others.
fn load_sorted<'c, 't>(
    alloc: Global,
    names: &'c Numbers,
    standing: &'c [Standing<'t>],
    supertypes: &'c [Vec<usize>],
    object: usize,
    sorted: &Sorted,
) -> Result<(Classes<'c, 't>, Vec<Load>), NoMemory>
    requires net { IsGathered (length standing.now) (bare names.now standing.now supertypes.now) }
    requires size { length supertypes.now ≡ length standing.now }
    requires object { object < length standing.now }
    requires object_name { indexed_name (bare names.now standing.now supertypes.now) object ≡ java_lang_object }
    requires circular { TellsCircular (successors_of supertypes.now) (length standing.now) sorted.now.circular.items }
    requires order { IsOrder (successors_of supertypes.now) (length standing.now) sorted.now.circular.items sorted.now.order.items }
    ensures names { IfOk result (λ c. c.0.names.now ≡ names.now) }
    ensures standing { IfOk result (λ c. c.0.standing.now ≡ standing.now) }
    ensures supertypes { IfOk result (λ c. c.0.supertypes.now ≡ supertypes.now) }
    ensures loaded { IfOk result (λ c. IsLoaded (length standing.now) (indexed_of c.0) c.1.items sorted.now.circular.items) }
{
    let good = unset(alloc, standing.len())?;
    let package_ends = package_ends(alloc, names)?;
    let unloaded = Classes {
        names,
        standing,
        supertypes,
        object,
        rank: Vec::new(alloc),
        good,
        package_ends,
        most_above: Vec::new(alloc),
    };
    let loads = load_all(alloc, &unloaded, sorted)?;
    let rated = rate(alloc, supertypes, sorted.order.as_slice(), loads.as_slice())?;
    let classes = Classes {
        names,
        standing,
        supertypes,
        object,
        rank: rated.rank,
        good: rated.good,
        package_ends: unloaded.package_ends,
        most_above: rated.most_above,
    };
    Ok((classes, loads))
}

/// Finds how each class loads.
pub(crate) fn load_classes<'c, 't>(
    alloc: Global,
    names: &'c Numbers,
    standing: &'c [Standing<'t>],
    supertypes: &'c [Vec<usize>],
    object: usize,
) -> Result<Loaded<'c, 't>, NoMemory>
    requires net { IsGathered (length standing.now) (bare names.now standing.now supertypes.now) }
    requires size { length supertypes.now ≡ length standing.now }
    requires object { object < length standing.now }
    requires object_name { indexed_name (bare names.now standing.now supertypes.now) object ≡ java_lang_object }
    ensures names { IfOk result (λ c. c.classes.names.now ≡ names.now) }
    ensures standing { IfOk result (λ c. c.classes.standing.now ≡ standing.now) }
    ensures supertypes { IfOk result (λ c. c.classes.supertypes.now ≡ supertypes.now) }
    ensures loaded { IfOk result (λ c. IsLoaded (length standing.now) (indexed_of c.classes) c.loads.items c.circular.items) }
{
    let sorted = sort_nodes(alloc, supertypes)?;
    let (classes, loads) = load_sorted(alloc, names, standing, supertypes, object, &sorted)?;
    Ok(Loaded {
        classes,
        loads,
        circular: sorted.circular,
    })
}
