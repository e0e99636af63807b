//! The answers to the references of a class, and its instructions that do not link (JVMS 6.5).

ghost use Rattle.std.specs.Prelude.{◌≡◌, List, [], ◌++◌, length, map, option_map, slice_get, IfOk, OnOk};
ghost use Rattle.std.specs.Iterator.{YieldsFirstBy, item_count};
ghost use Rattle.std.specs.Option.{option_map_or, option_to_list};
ghost use Rattle.jc_classes.specs.LinkErrors.{link_of, links_in};
ghost use Rattle.jc_classes.specs.Resolution.{Answer as Told};
ghost use Rattle.jc_classes.specs.Worlds.{text_of};
ghost use Rattle.jc_resolve.specs.Linked.{link_lent};
ghost use Rattle.jc_resolve.specs.inside.LinkErrors.{link_shown, links_shown};
ghost use Rattle.jc_resolve.specs.inside.Naming.{references_in};
ghost use Rattle.jc_resolve.specs.inside.Numbers.{AreNumbersBy};

use crate::answer_list::Answers;
use crate::numbers_by_index::{number_at, numbers_by_index};
use crate::site::{Site, class_told};
use jc_base::NoMemory;
use jc_classes::{Facts, LinkageError, References};
use jc_code::MethodUse;
use std::alloc::Global;
use std::marker::Model;
use std::slice;

/// The answers to the references of a class, and the errors of its instructions. The model is a record of both.
#[derive(Drop)]
pub struct Linked {
    answers: Answers,
    /// The references of the class, if one of its instructions does not link.
    references: Option<References>,
    links: Vec<ErrorEntry>,
}

/// An instruction that does not link, by the number of its reference.
#[derive(Clone, Copy)]
struct ErrorEntry {
    method: u16,
    place: u16,
    reference: usize,
    error: LinkageError,
}

/// An instruction that does not link, although its reference resolves (JVMS 6.5).
#[derive(Clone, Copy)]
pub struct LinkError<'a> {
    /// The number of its method in the class file, from 0.
    pub method: u16,
    /// Its offset from the start of the code, in bytes.
    pub place: u16,
    pub error: LinkageError,
    /// The class at fault. For `NoMethod` it is the class or array that the reference names. Otherwise it is the class
    /// that the reference resolves to, or the one that declares the member.
    pub class: &'a [u8],
}

impl Model for Linked {
    ghost use Rattle.jc_resolve.specs.Linked as specs;
    ghost use Rattle.jc_resolve.specs.inside.LinkErrors.{linked_shown};

    ghost Value = { specs.Linked };

    ghost view = { linked_shown };
}

impl Linked {
    /// Returns no answers and no errors, for a name without a class.
    pub(crate) fn none(alloc: Global) -> Linked
        ensures { result ≡ record { answers = []; links = [] } }
    {
        Linked {
            answers: Answers::none(alloc),
            references: None,
            links: Vec::new(alloc),
        }
    }

    /// Judges the instructions of the class of this name by the answers to its references.
    pub(crate) fn of(
        alloc: Global,
        own: &[u8],
        facts: &Facts,
        answers: Answers,
    ) -> Result<Linked, NoMemory>
        requires { length answers ≡ length facts.now.references }
        ensures { IfOk result (λ linked. linked ≡ record { answers = answers; links = links_in own.now facts.now answers }) }
    {
        let links = links_of(alloc, own, facts, &answers)?;
        let references = kept_references(facts, links.as_slice())?;
        Ok(Linked {
            answers,
            references,
            links,
        })
    }

    /// Returns the answers to the references, in their order (JVMS 5.4.3). Does not allocate.
    pub fn answers(&self) -> &Answers
        ensures { result.now ≡ self.now.answers }
    {
        &self.answers
    }

    /// Returns the instructions that do not link, sorted by method, then by offset. Does not allocate.
    pub fn links(&self) -> LinkErrors<'_>
        ensures { result ≡ self.now.links }
    {
        LinkErrors {
            answers: &self.answers,
            references: &self.references,
            entries: self.links.iter(),
        }
    }
}

/// An iterator over the instructions of a class that do not link. The model is the list of those that are left.
#[derive(Drop)]
pub struct LinkErrors<'a> {
    answers: &'a Answers,
    references: &'a Option<References>,
    entries: slice::Iter<'a, ErrorEntry>,
}

impl<'a> Model for LinkErrors<'a> {
    ghost use Rattle.std.specs.Prelude.{List, map};
    ghost use Rattle.std.specs.Slice.Iter.{iter_rest};
    ghost use Rattle.jc_classes.specs.LinkErrors.{LinkError};
    ghost use Rattle.jc_resolve.specs.inside.LinkErrors.{link_shown};
    ghost use Rattle.jc_resolve.specs.inside.Naming.{references_in};

    ghost Value = { List LinkError };

    ghost view = { λ a. map (link_shown (references_in a.references.now) a.answers.now) (iter_rest a.entries) };
}

impl<'a> Iterator for LinkErrors<'a> {
    type Item = LinkError<'a>;

    ghost next_gives = { YieldsFirstBy link_lent (λ left. left) };

    ghost remaining = { item_count (λ left. left) };

    fn next(&mut self) -> Option<LinkError<'a>> {
        let entry = self.entries.next()?;
        Some(lend(self.references, self.answers, *entry))
    }
}

/// Returns an instruction that does not link, with the name of the class at fault.
fn lend<'a>(
    references: &'a Option<References>,
    answers: &'a Answers,
    entry: ErrorEntry,
) -> LinkError<'a>
    ensures { link_lent result ≡ link_shown (references_in references.now) answers.now entry }
{
    let class = match entry.error {
        LinkageError::NoMethod => class_named(references, entry.reference),
        _ => class_told(answers, entry.reference),
    };
    LinkError {
        method: entry.method,
        place: entry.place,
        error: entry.error,
        class,
    }
}

/// Returns the class or array that the reference at number `reference` names.
fn class_named(references: &Option<References>, reference: usize) -> &[u8]
    ensures { result.now ≡ option_map_or (λ r. text_of r.named) (slice_get (references_in references.now) reference) [] }
{
    let Some(references) = references else {
        return &[];
    };
    match references.at(reference) {
        Some(reference) => reference.class,
        None => &[],
    }
}

/// Returns the references of a class if one of its instructions does not link.
fn kept_references(facts: &Facts, links: &[ErrorEntry]) -> Result<Option<References>, NoMemory>
    ensures { (answers : List Told) → IfOk result (λ kept. links_shown (references_in kept) answers links.now ≡ links_shown facts.now.references answers links.now) }
{
    if links.is_empty() {
        return Ok(None);
    }
    let references = facts.shared_references()?;
    Ok(Some(references))
}

/// Returns the errors of the instructions of the class of this name.
fn links_of(
    alloc: Global,
    own: &[u8],
    facts: &Facts,
    answers: &Answers,
) -> Result<Vec<ErrorEntry>, NoMemory>
    requires { length answers.now ≡ length facts.now.references }
    ensures { IfOk result (λ links. links_shown facts.now.references answers.now links.items ≡ links_in own.now facts.now answers.now) }
{
    let numbers = numbers_by_index(alloc, facts)?;
    let mut links = Vec::new(alloc);
    for one in facts.uses() {
        push_some(&mut links, entry_of(own, facts, answers, &numbers, *one))?;
    }
    Ok(links)
}

/// Returns the error of an instruction of the class of this name, if it has one. `numbers` maps the index of a constant
/// to the number of its reference.
fn entry_of(
    own: &[u8],
    facts: &Facts,
    answers: &Answers,
    numbers: &[Option<u32>],
    one: MethodUse,
) -> Option<ErrorEntry>
    requires size { length answers.now ≡ length facts.now.references }
    requires numbers { AreNumbersBy facts.now.references 0 numbers.now }
    ensures { option_map (link_shown facts.now.references answers.now) result ≡ link_of own.now facts.now answers.now one }
{
    let reference = number_at(numbers, one.index)?;
    let site = Site {
        class: own,
        facts,
        answers,
        one,
        reference,
    };
    let error = site.judge()?;
    Some(ErrorEntry {
        method: one.method,
        place: one.place,
        reference,
        error,
    })
}

/// Appends an entry, if there is one.
fn push_some(links: &mut Vec<ErrorEntry>, entry: Option<ErrorEntry>) -> Result<(), NoMemory>
    ensures { OnOk result (links.new.items ≡ links.old.items ++ option_to_list entry) }
{
    if let Some(entry) = entry {
        links.push(entry)?;
    }
    Ok(())
}
