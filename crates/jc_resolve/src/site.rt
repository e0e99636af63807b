//! The judgement of an instruction, by the answer to the reference that it names (JVMS 6.5).

ghost use Rattle.std.specs.Prelude.{◌≡◌, ◌&&◌, false, [], slice_get};
ghost use Rattle.std.specs.Option.{option_map_or};
ghost use Rattle.jc_classes.specs.LinkErrors.{class_error, line, method_name, static_error};
ghost use Rattle.jc_classes.specs.Names.{same_name, Name};
ghost use Rattle.jc_classes.specs.Worlds.{text_of};
ghost use Rattle.jc_resolve.specs.inside.Sites.{class_told, error_of, is_other_init};
ghost use Rattle.jc_resolve.specs.inside.Sites.{TellsError, TellsFinal, TellsMemberError};

use crate::answer_list::Answers;
use crate::answers::{Answer, Found};
use jc_classes::{Facts, LinkageError, same};
use jc_code::{LinkKind, MethodUse};
use jc_file::AccessFlag;

/// An instruction, and the data by which it is judged.
#[derive(Clone, Copy)]
pub(crate) struct Site<'a> {
    /// The name of its class.
    pub(crate) class: &'a [u8],
    /// The facts of its class.
    pub(crate) facts: &'a Facts,
    /// The answers to the references of its class.
    pub(crate) answers: &'a Answers,
    pub(crate) one: MethodUse,
    /// The number of the reference that it names.
    pub(crate) reference: usize,
}

impl<'a> Site<'a> {
    /// Returns the error of the instruction; the first condition that applies decides (JVMS 6.5).
    pub(crate) fn judge(&self) -> Option<LinkageError>
        ensures { TellsError self.now result }
    {
        match self.answers.found(self.reference) {
            Some(Found::Class(flags)) => judge_class(self.one.kind, flags),
            Some(Found::Member(flags)) => self.judge_member(flags),
            None => None,
        }
    }

    /// Returns the error of the instruction if the reference finds a member with these access flags.
    fn judge_member(&self, flags: u16) -> Option<LinkageError>
        ensures { TellsMemberError self.now flags result }
    {
        let is_static = AccessFlag::Static.is_in(flags);
        match self.one.kind {
            LinkKind::GetStatic | LinkKind::InvokeStatic => incompatible(!is_static),
            LinkKind::GetField | LinkKind::InvokeVirtual => incompatible(is_static),
            LinkKind::PutStatic if is_static => self.judge_final(flags, b"<clinit>"),
            LinkKind::PutStatic => incompatible(true),
            LinkKind::PutField if is_static => incompatible(true),
            LinkKind::PutField => self.judge_final(flags, b"<init>"),
            LinkKind::InvokeSpecial if self.is_other_init() => Some(LinkageError::NoMethod),
            LinkKind::InvokeSpecial => incompatible(is_static),
            LinkKind::InvokeInterface => {
                incompatible(is_static || AccessFlag::Private.is_in(flags))
            }
            LinkKind::New => None,
        }
    }

    /// Returns the error of a store into a field with these access flags. `initializer` is the name of the method that
    /// may initialize the field.
    fn judge_final(&self, flags: u16, initializer: &[u8]) -> Option<LinkageError>
        ensures { TellsFinal self.now flags initializer.now result }
    {
        if !AccessFlag::Final.is_in(flags) {
            return None;
        }
        line(!self.may_store(initializer), LinkageError::IllegalAccess)
    }

    /// Returns whether the instruction's class declares the member, and its method has this name.
    fn may_store(&self, initializer: &[u8]) -> bool
        ensures { result ≡ (same_name (option_map_or class_told (slice_get self.now.answers.now self.now.reference) []) self.now.class.now
            && same_name (method_name self.now.facts.now self.now.one.method) initializer.now) }
    {
        same(class_told(self.answers, self.reference), self.class)
            && same(self.method(), initializer)
    }

    /// Returns whether the member is a method `<init>` that another class than the named one declares.
    fn is_other_init(&self) -> bool
        ensures { result ≡ option_map_or (is_other_init (option_map_or (λ r. text_of r.named) (slice_get self.now.facts.now.references self.now.reference) []))
            (slice_get self.now.answers.now self.now.reference) false }
    {
        if self.reference >= self.answers.len() {
            return false;
        }
        match self.answers.at(self.reference) {
            Answer::ToMember(home, member) => {
                same(member.name, b"<init>") && !same(home, self.named())
            }
            _ => false,
        }
    }

    /// Returns the name of the instruction's method. A class without a format fault keeps each of its methods, so the
    /// numbers are those of the file.
    fn method(&self) -> &[u8]
        ensures { result.now ≡ method_name self.now.facts.now self.now.one.method }
    {
        match self.facts.own_method(self.one.method as usize) {
            Some(member) => member.name,
            None => &[],
        }
    }

    /// Returns the text of the class or array that the reference names.
    fn named(&self) -> &[u8]
        ensures { result.now ≡ option_map_or (λ r. text_of r.named) (slice_get self.now.facts.now.references self.now.reference) [] }
    {
        match self.facts.reference(self.reference) {
            Some(reference) => reference.class,
            None => &[],
        }
    }
}

/// Returns the error of an instruction that names a class with these access flags. Only `new` requires a class that has
/// instances.
fn judge_class(kind: LinkKind, flags: u16) -> Option<LinkageError>
    ensures { (class : Name) → result ≡ error_of (class_error kind class flags) }
{
    match kind {
        LinkKind::New => line(
            AccessFlag::Interface.is_in(flags) || AccessFlag::Abstract.is_in(flags),
            LinkageError::Instantiation,
        ),
        _ => None,
    }
}

/// Returns the class of the answer to the reference of a number.
pub(crate) fn class_told(answers: &Answers, reference: usize) -> &[u8]
    ensures { result.now ≡ option_map_or class_told (slice_get answers.now reference) [] }
{
    if reference >= answers.len() {
        return &[];
    }
    match answers.at(reference) {
        Answer::ToClass(class, _) | Answer::ToMember(class, _) => class,
        Answer::Outside(_) | Answer::NotLoaded | Answer::Error(_, _) => &[],
    }
}

/// Returns an error if the member is STATIC where an instance member is required, or the reverse.
fn incompatible(applies: bool) -> Option<LinkageError>
    ensures { (class : Name) → result ≡ error_of (static_error applies class None) }
{
    line(applies, LinkageError::Incompatible)
}

/// Returns an error, if its condition applies.
fn line(applies: bool, error: LinkageError) -> Option<LinkageError>
    ensures { (class : Name) → result ≡ error_of (line applies error class None) }
{
    if applies { Some(error) } else { None }
}
