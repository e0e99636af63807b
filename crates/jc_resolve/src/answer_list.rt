//! The list of the answers to the references of a class.

ghost use Rattle.std.specs.Prelude.{◌≡◌, ◌<◌, ℕ, [], Some, length, option_map, slice_get, slice_set, IfOk, IfSome, IsTrue, OnOk};
ghost use Rattle.jc_classes.specs.Facts.{Reference as Refers};
ghost use Rattle.jc_classes.specs.Lent.{reference_lent};
ghost use Rattle.jc_classes.specs.Names.{Name};
ghost use Rattle.jc_classes.specs.Resolution.{Answer as Told};
ghost use Rattle.jc_numbered.specs.inside.Indexed.{indexed_name};
ghost use Rattle.jc_numbered.specs.inside.Shown.{indexed_of};
ghost use Rattle.jc_resolve.specs.Answers.{answer_of, kind_of};
ghost use Rattle.jc_code.specs.inside.Fronts.{BeginsWith};
ghost use Rattle.jc_resolve.specs.inside.Entries.{entry_shown, node_answers, node_of, with_number};
ghost use Rattle.jc_resolve.specs.inside.Sites.{found_of};
ghost use Rattle.jc_resolve.specs.inside.Naming.{AreNamed, AreNames, AreNodes, IsNamed, IsNumberOf, IsToldBy, name_told, references_in};

use crate::answers::{Answer, AnswerKind, Found};
use crate::entry::Entry;
use jc_base::NoMemory;
use jc_classes::{Member, Reference, References, TextList};
use jc_numbered::Classes;
use std::alloc::Global;
use std::marker::Model;

/// The answers to the references of a class, in the order of the references. They share the texts of the references
/// with the facts of the class. Most answers name the class that the reference names; the names of other classes are
/// listed, each once. The model is the list of the answers.
#[derive(Drop)]
pub struct Answers {
    references: Option<References>,
    names: TextList,
    /// The answer to each reference. The number 0 is that of the class that the reference names, or of its innermost
    /// class for an array. The listed names are counted from 1.
    entries: Vec<Entry<u32>>,
}

impl Model for Answers {
    ghost use Rattle.std.specs.Prelude.{◌≡◌, List, length};
    ghost use Rattle.jc_classes.specs.Resolution as specs;
    ghost use Rattle.jc_resolve.specs.inside.Entries.{entries_shown};
    ghost use Rattle.jc_resolve.specs.inside.Naming.{name_told, references_in};

    ghost Value = { List specs.Answer };

    ghost view = { λ a. entries_shown (name_told a.names) (references_in a.references) a.entries.items };

    ghost invariant = { λ a. length a.entries.items ≡ length (references_in a.references) };
}

/// There is room for this number of names from the start. Most classes need no more.
const FEW_NAMES: usize = 8;

/// There is room for this number of bytes of names from the start.
const FEW_BYTES: usize = 256;

/// Distinct names of classes, numbered.
#[derive(Drop)]
struct Naming {
    texts: TextList,
    /// The node of each name.
    nodes: Vec<usize>,
}

/// Returns the place of the name of a class, if it is listed. `places` has the place for such a class, and any value
/// for others.
fn known(places: &[usize], nodes: &[usize], node: usize) -> Option<usize>
    ensures { IfSome result (λ place. slice_get nodes.now place ≡ Some node) }
{
    let place = *places.get(node)?;
    if *nodes.get(place)? == node {
        Some(place)
    } else {
        None
    }
}

/// Notes the place of the name of a class.
fn note(places: &mut [usize], node: usize, place: usize)
    ensures { places.new ≡ slice_set places.old node place }
{
    if node < places.len() {
        places[node] = place;
    }
}

/// Returns whether the class that a reference names, `own`, is known to be that of a node.
fn is_own(own: Option<u32>, node: usize) -> bool
    ensures { IsTrue result → own ≡ Some node }
{
    match own {
        Some(own) => own as usize == node,
        None => false,
    }
}

/// Returns a number as a `u32`, or `NoMemory` if it is above 4,294,967,295.
pub(crate) fn small(number: usize) -> Result<u32, NoMemory>
    ensures { IfOk result (λ kept. kept ≡ number) }
{
    match u32::try_from(number) {
        Ok(kept) => Ok(kept),
        Err(_) => Err(NoMemory),
    }
}

impl Naming {
    /// Returns an empty list of names.
    fn new(alloc: Global) -> Result<Naming, NoMemory>
        ensures { (name : ℕ → Name) → IfOk result (AreNames name) }
    {
        Ok(Naming {
            texts: TextList::with_room(alloc, FEW_NAMES, FEW_BYTES)?,
            nodes: Vec::with_capacity(alloc, FEW_NAMES)?,
        })
    }

    /// Returns the number of the class of a node in an answer. `own` is the class that the reference names.
    fn number(
        &mut self,
        classes: &Classes,
        places: &mut [usize],
        own: Option<u32>,
        node: usize,
    ) -> Result<u32, NoMemory>
        requires { AreNames (indexed_name (indexed_of classes.now)) self.old }
        ensures names { OnOk result (AreNames (indexed_name (indexed_of classes.now)) self.new) }
        ensures front { OnOk result (BeginsWith self.new.texts self.old.texts) }
        ensures number { IfOk result (IsToldBy (indexed_name (indexed_of classes.now)) self.new.texts own node) }
    {
        if is_own(own, node) {
            return Ok(0);
        }
        self.listed(classes, places, node)
    }

    /// Returns the number of the name of a class. A name that is not listed is added.
    fn listed(
        &mut self,
        classes: &Classes,
        places: &mut [usize],
        node: usize,
    ) -> Result<u32, NoMemory>
        requires { AreNames (indexed_name (indexed_of classes.now)) self.old }
        ensures names { OnOk result (AreNames (indexed_name (indexed_of classes.now)) self.new) }
        ensures front { OnOk result (BeginsWith self.new.texts self.old.texts) }
        ensures number { IfOk result (IsNumberOf self.new.texts (indexed_name (indexed_of classes.now) node)) }
    {
        match known(places, self.nodes.as_slice(), node) {
            Some(place) => {
                let number = small(place + 1)?;
                Ok(number)
            }
            None => self.add(classes, places, node),
        }
    }

    /// Adds the name of a class to the list.
    fn add(&mut self, classes: &Classes, places: &mut [usize], node: usize) -> Result<u32, NoMemory>
        requires { AreNames (indexed_name (indexed_of classes.now)) self.old }
        ensures names { OnOk result (AreNames (indexed_name (indexed_of classes.now)) self.new) }
        ensures front { OnOk result (BeginsWith self.new.texts self.old.texts) }
        ensures number { IfOk result (IsNumberOf self.new.texts (indexed_name (indexed_of classes.now) node)) }
    {
        let place = self.nodes.len();
        let number = small(place + 1)?;
        self.texts.push(classes.name(node))?;
        self.nodes.push(node)?;
        note(places, node, place);
        Ok(number)
    }

    /// Returns an answer with the number of a name in place of a node. `own` is the class that the reference names.
    fn entry(
        &mut self,
        classes: &Classes,
        places: &mut [usize],
        own: Option<u32>,
        entry: Entry<usize>,
    ) -> Result<Entry<u32>, NoMemory>
        requires { AreNames (indexed_name (indexed_of classes.now)) self.old }
        ensures names { OnOk result (AreNames (indexed_name (indexed_of classes.now)) self.new) }
        ensures front { OnOk result (BeginsWith self.new.texts self.old.texts) }
        ensures named { IfOk result (IsNamed (indexed_name (indexed_of classes.now)) self.new.texts own entry) }
    {
        match node_of(entry) {
            Some(node) => {
                let number = self.number(classes, places, own, node)?;
                Ok(with_number(entry, number))
            }
            None => Ok(with_number(entry, 0)),
        }
    }
}

/// Returns the class that an answer names, if it names one.
fn node_of(entry: Entry<usize>) -> Option<usize>
    ensures { result ≡ node_of entry }
{
    match entry {
        Entry::ToMember(_, node) | Entry::ToPolymorphic(_, node) => Some(node),
        Entry::Outside(node) | Entry::Error(_, node) => Some(node),
        Entry::ToClass(_) | Entry::NotLoaded | Entry::OwnError(_) => None,
    }
}

/// Returns the answer with this number in place of the class, if it names one.
fn with_number(entry: Entry<usize>, number: u32) -> Entry<u32>
    ensures { result ≡ with_number entry number }
{
    match entry {
        Entry::ToMember(flags, _) => Entry::ToMember(flags, number),
        Entry::ToPolymorphic(flags, _) => Entry::ToPolymorphic(flags, number),
        Entry::Outside(_) => Entry::Outside(number),
        Entry::Error(error, _) => Entry::Error(error, number),
        Entry::ToClass(flags) => Entry::ToClass(flags),
        Entry::NotLoaded => Entry::NotLoaded,
        Entry::OwnError(error) => Entry::OwnError(error),
    }
}

impl Answers {
    /// Returns no answers, for a name without a class.
    pub(crate) fn none(alloc: Global) -> Answers
        ensures { result ≡ [] }
    {
        Answers {
            references: None,
            names: TextList::new(alloc),
            entries: Vec::new(alloc),
        }
    }

    /// Returns the answers to these references. `entries` has the answers by nodes, and `nodes` the classes that the
    /// references name. `places` is working memory: it has an item with any value for each class.
    pub(crate) fn of(
        alloc: Global,
        classes: &Classes,
        places: &mut [usize],
        references: References,
        nodes: &[Option<u32>],
        entries: &[Entry<usize>],
    ) -> Result<Answers, NoMemory>
        requires nodes { AreNodes (indexed_name (indexed_of classes.now)) nodes.now references }
        requires size { length entries.now ≡ length references }
        ensures { IfOk result (λ answers. answers ≡ node_answers (indexed_name (indexed_of classes.now)) references entries.now) }
    {
        let named = name_entries(alloc, classes, places, nodes, entries)?;
        Ok(Answers {
            references: Some(references),
            names: named.texts.fitted(),
            entries: named.entries,
        })
    }

    /// Returns the number of answers. Does not allocate.
    pub fn len(&self) -> usize
        ensures { result ≡ length self.now }
    {
        self.entries.len()
    }

    /// Returns the kind of the answer to the reference at `number`, counted from 0. Does not allocate.
    pub fn kind(&self, number: usize) -> AnswerKind
        requires { number < length self.now }
        ensures { option_map kind_of (slice_get self.now number) ≡ Some result }
    {
        kind_of(self.entries[number])
    }

    /// Returns what the answer to the reference at `number` finds, if it finds anything. Does not allocate.
    pub(crate) fn found(&self, number: usize) -> Option<Found>
        ensures { (answer : Told) → slice_get self.now number ≡ Some answer → found_of answer ≡ result }
    {
        if number >= self.entries.len() {
            return None;
        }
        found_of(self.entries[number])
    }

    /// Returns the answer to the reference at `number`, counted from 0. Does not allocate.
    pub fn at(&self, number: usize) -> Answer<'_>
        requires { number < length self.now }
        ensures { slice_get self.now number ≡ Some (answer_of result) }
    {
        match reference_at(&self.references, number) {
            Some(reference) => lend(&self.names, reference, self.entries[number]),
            None => Answer::NotLoaded,
        }
    }
}

/// Returns the kind of an answer, without its texts.
fn kind_of(entry: Entry<u32>) -> AnswerKind
    ensures { (name : ℕ → Name) (r : Refers) → kind_of (entry_shown name r entry) ≡ result }
{
    match entry {
        Entry::ToClass(_) | Entry::ToMember(_, _) | Entry::ToPolymorphic(_, _) => AnswerKind::Found,
        Entry::Outside(_) => AnswerKind::Outside,
        Entry::NotLoaded => AnswerKind::NotLoaded,
        Entry::Error(error, _) | Entry::OwnError(error) => AnswerKind::Error(error),
    }
}

/// Returns what an answer finds.
fn found_of(entry: Entry<u32>) -> Option<Found>
    ensures { (name : ℕ → Name) (r : Refers) → found_of (entry_shown name r entry) ≡ result }
{
    match entry {
        Entry::ToClass(flags) => Some(Found::Class(flags)),
        Entry::ToMember(flags, _) | Entry::ToPolymorphic(flags, _) => Some(Found::Member(flags)),
        Entry::Outside(_) | Entry::NotLoaded | Entry::Error(_, _) | Entry::OwnError(_) => None,
    }
}

/// Answers with the numbers of names, and these names.
#[derive(Drop)]
struct Named {
    texts: TextList,
    entries: Vec<Entry<u32>>,
}

/// Appends answers with the numbers of the names in them, and lists these names.
fn name_each(
    classes: &Classes,
    places: &mut [usize],
    nodes: &[Option<u32>],
    entries: &[Entry<usize>],
    names: &mut Naming,
    named: &mut Vec<Entry<u32>>,
) -> Result<(), NoMemory>
    requires names { AreNames (indexed_name (indexed_of classes.now)) names.old }
    requires size { length nodes.now ≡ length entries.now }
    requires named { named.old.items ≡ [] }
    ensures size { OnOk result (length named.new.items ≡ length entries.now) }
    ensures named { OnOk result (AreNamed (indexed_name (indexed_of classes.now)) names.new.texts nodes.now entries.now named.new.items) }
{
    for number in 0..entries.len() {
        let answer = names.entry(classes, places, nodes[number], entries[number])?;
        named.push(answer)?;
    }
    Ok(())
}

/// Numbers the names in answers.
fn name_entries(
    alloc: Global,
    classes: &Classes,
    places: &mut [usize],
    nodes: &[Option<u32>],
    entries: &[Entry<usize>],
) -> Result<Named, NoMemory>
    requires { length nodes.now ≡ length entries.now }
    ensures size { IfOk result (λ named. length named.entries.items ≡ length entries.now) }
    ensures named { IfOk result (λ named. AreNamed (indexed_name (indexed_of classes.now)) named.texts nodes.now entries.now named.entries.items) }
{
    let mut names = Naming::new(alloc)?;
    let mut named = Vec::with_capacity(alloc, entries.len())?;
    name_each(classes, places, nodes, entries, &mut names, &mut named)?;
    Ok(Named {
        texts: names.texts,
        entries: named,
    })
}

/// Returns the reference at `number`.
fn reference_at(references: &Option<References>, number: usize) -> Option<Reference<'_>>
    ensures { option_map reference_lent result ≡ slice_get (references_in references.now) number }
{
    match references {
        Some(references) => references.at(number),
        None => None,
    }
}

/// Returns the class that an answer to a reference names by a number.
fn told<'a>(names: &'a TextList, reference: Reference<'a>, number: u32) -> &'a [u8]
    ensures { result.now ≡ name_told names.now (reference_lent reference.entry) number }
{
    if number == 0 {
        return reference.class_name().unwrap_or(&[]);
    }
    names.text(number as usize - 1)
}

/// Returns an answer with its texts.
fn lend<'a>(names: &'a TextList, reference: Reference<'a>, entry: Entry<u32>) -> Answer<'a>
    ensures { answer_of result ≡ entry_shown (name_told names.now (reference_lent reference.entry)) (reference_lent reference.entry) entry }
{
    match entry {
        Entry::ToClass(flags) => Answer::ToClass(reference.class, flags),
        Entry::ToMember(flags, class) => {
            let member = Member {
                name: reference.key.name,
                descriptor: reference.key.descriptor,
                flags,
            };
            Answer::ToMember(told(names, reference, class), member)
        }
        Entry::ToPolymorphic(flags, class) => {
            let member = Member {
                name: reference.key.name,
                descriptor: b"([Ljava/lang/Object;)Ljava/lang/Object;",
                flags,
            };
            Answer::ToMember(told(names, reference, class), member)
        }
        Entry::Outside(class) => Answer::Outside(told(names, reference, class)),
        Entry::NotLoaded => Answer::NotLoaded,
        Entry::Error(error, class) => Answer::Error(error, told(names, reference, class)),
        Entry::OwnError(error) => Answer::Error(error, reference.class),
    }
}
