//! The answers to all references of a class.

ghost use Rattle.std.specs.Prelude.{◌≡◌, ◌<◌, length, map, IfOk, IfSome, OnOk};
ghost use Rattle.jc_classes.specs.Facts.{AreNumbers, Reference};
ghost use Rattle.jc_numbered.specs.inside.Shown.{indexed_of};
ghost use Rattle.jc_resolve.specs.inside.Answered.{node_links, node_references, AreAnswered, AreNodesOf, TellsNodeAnswers};
ghost use Rattle.jc_resolve.specs.inside.Answered.{AreAllAnswered, IsAnsweredBefore, IsOneMore};
ghost use Rattle.jc_resolve.specs.inside.Looks.{reach_of, size_of};
ghost use Rattle.jc_resolve.specs.inside.Resolved.{TellsGood};
ghost use Rattle.jc_resolve.specs.inside.Rooms.{IsRoom};

use crate::answer_list::Answers;
use crate::entry::Entry;
use crate::linked::Linked;
use crate::look::Look;
use crate::workspace::Workspace;
use jc_base::NoMemory;
use jc_classes::{Facts, Standing};
use jc_numbered::{Classes, Load};
use std::alloc::Global;

/// If the walks over supertypes visit fewer classes than this, for all references together, references to one class are
/// not grouped.
const FEW: usize = 65_536;

/// Returns a bound on the number of classes that the walks over the supertypes of all these nodes visit together.
fn most_walked(classes: &Classes, nodes: &[Option<u32>]) -> usize {
    let mut walked = 0usize;
    for node in nodes {
        if let Some(node) = node {
            walked = walked.saturating_add(classes.most_above(*node as usize));
        }
    }
    walked
}

/// Returns the numbers of the references in the order in which they are resolved, with equal references next to each
/// other. References to one class are also next to each other if the walks over supertypes may cost more than sorting.
fn by_class(
    alloc: Global,
    classes: &Classes,
    facts: &Facts,
    nodes: &[Option<u32>],
) -> Result<Vec<usize>, NoMemory>
    ensures { IfOk result (λ order. AreNumbers (length facts.now.references) order.items) }
{
    let mut order = facts.alike_references(alloc)?;
    if most_walked(classes, nodes) >= FEW {
        order.sort_by_key(|number| nodes.get(*number).copied())?;
    }
    Ok(order)
}

/// Returns the same node as a `usize`.
fn wide(node: Option<u32>) -> Option<usize>
    ensures { result ≡ node }
{
    match node {
        Some(node) => Some(node as usize),
        None => None,
    }
}

/// Resolves the reference of a number, and stores its answer.
fn answer_one(
    alloc: Global,
    look: &Look,
    room: &mut Workspace,
    facts: &Facts,
    nodes: &[Option<u32>],
    entries: &mut Vec<Entry<usize>>,
    number: usize,
) -> Result<(), NoMemory>
    requires nodes { AreNodesOf (size_of look.now) (reach_of look.now) facts.now.references nodes.now }
    requires room { IsRoom look.now.classes.now room.old }
    requires size { length entries.old.items ≡ length facts.now.references }
    ensures room { OnOk result (IsRoom look.now.classes.now room.new) }
    ensures size { OnOk result (length entries.new.items ≡ length facts.now.references) }
    ensures answered { OnOk result (IsOneMore look.now facts.now.references number entries.old.items entries.new.items) }
{
    let Some(reference) = facts.reference(number) else {
        return Ok(());
    };
    let node = wide(nodes[number]);
    let entry = look.resolve(alloc, room, reference, node)?;
    entries[number] = entry;
    Ok(())
}

/// Resolves the reference of a number. If it is equal to the reference before it, which has its answer, the answer is
/// copied.
fn answer_next(
    alloc: Global,
    look: &Look,
    room: &mut Workspace,
    facts: &Facts,
    nodes: &[Option<u32>],
    entries: &mut Vec<Entry<usize>>,
    before: Option<usize>,
    number: usize,
) -> Result<(), NoMemory>
    requires nodes { AreNodesOf (size_of look.now) (reach_of look.now) facts.now.references nodes.now }
    requires room { IsRoom look.now.classes.now room.old }
    requires size { length entries.old.items ≡ length facts.now.references }
    requires number { number < length facts.now.references }
    requires before { IfSome before (IsAnsweredBefore look.now facts.now.references entries.old.items) }
    ensures room { OnOk result (IsRoom look.now.classes.now room.new) }
    ensures size { OnOk result (length entries.new.items ≡ length facts.now.references) }
    ensures answered { OnOk result (IsOneMore look.now facts.now.references number entries.old.items entries.new.items) }
{
    if let Some(before) = before
        && facts.are_alike(before, number)
    {
        entries[number] = entries[before];
        return Ok(());
    }
    answer_one(alloc, look, room, facts, nodes, entries, number)
}

/// Resolves each reference of a class that loads. Equal references are resolved once. If references to one class are
/// next to each other, its supertypes are walked once.
fn answer_each(
    alloc: Global,
    look: &Look,
    room: &mut Workspace,
    facts: &Facts,
    nodes: &[Option<u32>],
    entries: &mut Vec<Entry<usize>>,
) -> Result<(), NoMemory>
    requires nodes { AreNodesOf (size_of look.now) (reach_of look.now) facts.now.references nodes.now }
    requires room { IsRoom look.now.classes.now room.old }
    requires size { length entries.old.items ≡ length facts.now.references }
    ensures room { OnOk result (IsRoom look.now.classes.now room.new) }
    ensures size { OnOk result (length entries.new.items ≡ length facts.now.references) }
    ensures answered { OnOk result (AreAllAnswered look.now facts.now.references entries.new.items) }
{
    let order = by_class(alloc, look.classes, facts, nodes)?;
    let mut before = None;
    for number in &order {
        answer_next(alloc, look, room, facts, nodes, entries, before, *number)?;
        before = Some(*number);
    }
    Ok(())
}

/// Returns the answers to the references of a class that loads, by nodes.
fn answer_all(
    alloc: Global,
    look: &Look,
    room: &mut Workspace,
    facts: &Facts,
    nodes: &[Option<u32>],
) -> Result<Vec<Entry<usize>>, NoMemory>
    requires nodes { AreNodesOf (size_of look.now) (reach_of look.now) facts.now.references nodes.now }
    requires room { IsRoom look.now.classes.now room.old }
    ensures room { OnOk result (IsRoom look.now.classes.now room.new) }
    ensures answered { IfOk result (λ es. AreAnswered (reach_of look.now) look.now.loads.now look.now.class facts.now.references es.items) }
{
    let mut entries = none_loaded(alloc, facts)?;
    answer_each(alloc, look, room, facts, nodes, &mut entries)?;
    Ok(entries)
}

/// Returns the answers, with working memory that is kept for the next class. If there is none, it is allocated. If an
/// allocation fails, none is kept.
fn answer_kept(
    alloc: Global,
    look: &Look,
    kept: &mut Option<Workspace>,
    facts: &Facts,
    nodes: &[Option<u32>],
) -> Result<Vec<Entry<usize>>, NoMemory>
    requires nodes { AreNodesOf (size_of look.now) (reach_of look.now) facts.now.references nodes.now }
    requires kept { IfSome kept.old (IsRoom look.now.classes.now) }
    ensures kept { IfSome kept.new (IsRoom look.now.classes.now) }
    ensures answered { IfOk result (λ es. AreAnswered (reach_of look.now) look.now.loads.now look.now.class facts.now.references es.items) }
{
    let mut room = Workspace::of(alloc, kept.take(), look.classes)?;
    let entries = answer_all(alloc, look, &mut room, facts, nodes)?;
    *kept = Some(room);
    Ok(entries)
}

/// Returns the answers to the references of a class that does not load.
fn none_loaded(alloc: Global, facts: &Facts) -> Result<Vec<Entry<usize>>, NoMemory>
    ensures { IfOk result (λ entries. entries.items ≡ map (λ (r : Reference). Entry.NotLoaded) facts.now.references) }
{
    let entries = vec![in alloc; Entry::NotLoaded; facts.reference_count()]?;
    Ok(entries)
}

/// Returns the answers to the references of a class, by nodes.
fn entries_of(
    alloc: Global,
    classes: &Classes,
    loads: &[Load],
    kept: &mut Option<Workspace>,
    class: usize,
    facts: &Facts,
    nodes: &[Option<u32>],
) -> Result<Vec<Entry<usize>>, NoMemory>
    requires loads { length loads.now ≡ length classes.now.standing.now }
    requires good { TellsGood (indexed_of classes.now) loads.now }
    requires kept { IfSome kept.old (IsRoom classes.now) }
    requires class { class < length classes.now.standing.now }
    requires nodes { AreNodesOf (length classes.now.standing.now) (indexed_of classes.now) facts.now.references nodes.now }
    ensures kept { IfSome kept.new (IsRoom classes.now) }
    ensures answered { IfOk result (λ entries. AreAnswered (indexed_of classes.now) loads.now class facts.now.references entries.items) }
{
    if let Load::Loaded = loads[class] {
        let look = Look {
            classes,
            loads,
            class,
        };
        answer_kept(alloc, &look, kept, facts, nodes)
    } else {
        none_loaded(alloc, facts)
    }
}

/// Returns the answers to the references of a class, and the errors of its instructions. A class that does not load
/// needs no working memory. `places` has an item with any value for each class.
pub(crate) fn linked(
    alloc: Global,
    classes: &Classes,
    loads: &[Load],
    kept: &mut Option<Workspace>,
    places: &mut [usize],
    class: usize,
    nodes: &[Option<u32>],
) -> Result<Linked, NoMemory>
    requires loads { length loads.now ≡ length classes.now.standing.now }
    requires good { TellsGood (indexed_of classes.now) loads.now }
    requires kept { IfSome kept.old (IsRoom classes.now) }
    requires class { class < length classes.now.standing.now }
    requires nodes { AreNodesOf (length classes.now.standing.now) (indexed_of classes.now) (node_references classes.now class) nodes.now }
    ensures kept { IfSome kept.new (IsRoom classes.now) }
    ensures answers { IfOk result (λ linked. TellsNodeAnswers classes.now loads.now class linked.answers) }
    ensures links { IfOk result (λ linked. linked.links ≡ node_links classes.now class linked.answers) }
{
    let facts = match classes.at(class) {
        Standing::Class(facts) => facts,
        _ => return Ok(Linked::none(alloc)),
    };
    let entries = entries_of(alloc, classes, loads, kept, class, facts, nodes)?;
    let references = facts.shared_references()?;
    let answers = Answers::of(alloc, classes, places, references, nodes, &entries)?;
    Linked::of(alloc, classes.name(class), facts, answers)
}
