//! Comparison of the facts of two class files.

ghost use Rattle.std.specs.Prelude.{◌≡◌, Decides, map};
ghost use Rattle.std.specs.Option.{option_copied};
ghost use Rattle.jc_classes.specs.Lent.{member_lent, reference_lent};
ghost use Rattle.jc_classes.specs.inside.FactsShown.{member_shown, reference_shown, text_at};
ghost use Rattle.jc_classes.specs.inside.SameFacts.{AreSameFaults, IsSameUse, same_head, same_member, same_option, same_texts};

use crate::facts::{Facts, FactsInside, MemberEntry, ReferenceEntry};
use crate::member::Member;
use crate::names::same;
use crate::reference::Reference;
use crate::text_list::TextList;

impl Facts {
    /// Returns whether the facts of another class file are the same. It compares texts, in whatever constants they are.
    /// Takes time linear in the facts. Does not allocate.
    pub fn is_same(&self, other: &Facts) -> bool
        ensures { Decides result (self.now ≡ other.now) }
    {
        let own: &FactsInside = &self.inside;
        let theirs: &FactsInside = &other.inside;
        let texts = own.texts.as_ref();
        let others = theirs.texts.as_ref();
        if !is_same_head(self, other) {
            return false;
        }
        if !are_same_names(texts, &own.interfaces, others, &theirs.interfaces) {
            return false;
        }
        if !are_same_members(texts, &own.fields, others, &theirs.fields) {
            return false;
        }
        if !are_same_members(texts, &own.methods, others, &theirs.methods) {
            return false;
        }
        if !are_same_references(
            texts,
            own.references.as_ref(),
            others,
            theirs.references.as_ref(),
        ) {
            return false;
        }
        if !is_same_use(self, other) {
            return false;
        }
        are_same_faults(self, other)
    }
}

/// Returns whether two class files have the same path, name, flags and superclass.
fn is_same_head(facts: &Facts, other: &Facts) -> bool
    ensures { result ≡ same_head facts.now other.now }
{
    facts.path() == other.path()
        && same(facts.name(), other.name())
        && facts.flags() == other.flags()
        && is_same_name(facts.superclass(), other.superclass())
}

/// Returns whether two names are the same, or both are absent.
fn is_same_name(name: Option<&[u8]>, other: Option<&[u8]>) -> bool
    ensures { result ≡ same_option (option_copied name.entry) (option_copied other.entry) }
{
    match (name, other) {
        (Some(name), Some(other)) => same(name, other),
        (None, None) => true,
        _ => false,
    }
}

/// Returns whether two lists of names are the same. Each list has the numbers of its own texts.
fn are_same_names(texts: &TextList, names: &[u16], other_texts: &TextList, others: &[u16]) -> bool
    ensures { Decides result (map (text_at texts.now) names.now ≡ map (text_at other_texts.now) others.now) }
{
    if names.len() != others.len() {
        return false;
    }
    for at in 0..names.len() {
        let name = texts.text(names[at] as usize);
        if !same(name, other_texts.text(others[at] as usize)) {
            return false;
        }
    }
    true
}

/// Returns whether two lists of fields or of methods are the same. Each list has the numbers of its own texts.
fn are_same_members(
    texts: &TextList,
    members: &[MemberEntry],
    other_texts: &TextList,
    others: &[MemberEntry],
) -> bool
    ensures { Decides result (map (member_shown texts.now) members.now ≡ map (member_shown other_texts.now) others.now) }
{
    if members.len() != others.len() {
        return false;
    }
    for at in 0..members.len() {
        if !is_same_member(members[at].lend(texts), others[at].lend(other_texts)) {
            return false;
        }
    }
    true
}

fn is_same_member(member: Member, other: Member) -> bool
    ensures { result ≡ same_member (member_lent member.entry) (member_lent other.entry) }
{
    same(member.name, other.name)
        && same(member.descriptor, other.descriptor)
        && member.flags == other.flags
}

/// Returns whether two lists of references are the same. Each list has the numbers of its own texts.
fn are_same_references(
    texts: &TextList,
    references: &[ReferenceEntry],
    other_texts: &TextList,
    others: &[ReferenceEntry],
) -> bool
    ensures { Decides result (map (reference_shown texts.now) references.now ≡ map (reference_shown other_texts.now) others.now) }
{
    if references.len() != others.len() {
        return false;
    }
    for at in 0..references.len() {
        if !is_same_reference(references[at].lend(texts), others[at].lend(other_texts)) {
            return false;
        }
    }
    true
}

fn is_same_reference(reference: Reference, other: Reference) -> bool
    ensures { Decides result (reference_lent reference.entry ≡ reference_lent other.entry) }
{
    reference.kind == other.kind && has_same_texts(reference, other)
}

fn has_same_texts(reference: Reference, other: Reference) -> bool
    ensures { result ≡ same_texts reference.entry other.entry }
{
    reference.index == other.index
        && same(reference.class, other.class)
        && same(reference.key.name, other.key.name)
        && same(reference.key.descriptor, other.key.descriptor)
}

/// Returns whether two class files have the same uses of references, and the same user of each reference.
fn is_same_use(facts: &Facts, other: &Facts) -> bool
    ensures { Decides result (IsSameUse facts.now other.now) }
{
    facts.uses() == other.uses() && facts.inside.users.as_slice() == other.inside.users.as_slice()
}

fn are_same_faults(facts: &Facts, other: &Facts) -> bool
    ensures { Decides result (AreSameFaults facts.now other.now) }
{
    facts.format_faults() == other.format_faults() && facts.code_faults() == other.code_faults()
}
