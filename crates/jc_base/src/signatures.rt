//! Signatures of classes, methods and fields, which use type variables and parameterized types (JVMS 4.7.9.1).

ghost use Rattle.std.specs.Prelude.{◌≡◌, ◌≢◌, ◌<◌, ◌++◌, ◌↔◌, ◌∷◌, [], ◌==◌, ℕ};
ghost use Rattle.std.specs.Prelude.{codes, List, position, Option, length, IsOk, IsTrue, IfOk, OnOk, IfSome, MatchOption};
ghost use Rattle.jc_base.specs.declared.signatures.SigKind.{SigKind};
ghost use Rattle.std.specs.List.{list_any};
ghost use Rattle.std.specs.Option.{option_map};
ghost use Rattle.jc_base.specs.ModifiedUtf8.{IsWellSpelled};
ghost use Rattle.jc_base.specs.Names.{Lacks};
ghost use Rattle.jc_base.specs.Signatures.{identifier_stops, Symbol, Derives, Mark, Maybe, Many, JavaType, ReferenceType};
ghost use Rattle.jc_base.specs.Signatures.{ClassType, Thrown, Throws, Argument, Result, Arguments, Suffix, IsSignature};
ghost use Rattle.jc_base.specs.SignatureTests.{is_signature};
ghost use Rattle.jc_base.specs.inside.Owed.{symbols_of, tail_of, before, both_before, stack_before, GivesTop};
ghost use Rattle.jc_base.specs.inside.Owed.{GivesStackStep, GivesEntry, GivesAfter, GivesNamed, GivesRepeated, GivesRest};
ghost use Rattle.jc_base.specs.inside.Owed.{GivesStep, IsCut, BeginsWithName, BeginsWithNoName, EndsAtColon};

use crate::descriptors::is_base_letter;
use crate::modified_utf8::check_units;
use crate::no_memory::NoMemory;
use std::alloc::Global;

/// The kind of element that a signature describes.
#[derive(Clone, Copy)]
pub enum SigKind {
    /// A class or an interface.
    Class,
    /// A method.
    Method,
    /// A field, a formal parameter or a local variable.
    Field,
}

/// States that signatures are modified UTF-8.
pub fn signatures_are_well_spelled()
    ensures { (kind : SigKind) (b : List ℕ) → IsSignature kind b → IsWellSpelled b }
{}

/// States that `is_signature` is true of exactly the texts that the grammar derives.
pub fn signatures_are_decided()
    ensures { (kind : SigKind) (b : List ℕ) → IsTrue (is_signature kind b) ↔ IsSignature kind b }
{}

/// States that some texts are signatures, and that some are not.
pub fn signature_examples()
    ensures variable { IsSignature SigKind.Field (codes "TT;") }
    ensures empty_bound { IsSignature SigKind.Class (codes "<A:Tx:Lo;>Lb;") }
    ensures base_type { ¬ IsSignature SigKind.Field (codes "I") }
    ensures nothing { (kind : SigKind) → ¬ IsSignature kind [] }
    ensures bytes_left { ¬ IsSignature SigKind.Field (codes "TT;x") }
{}

// What must still follow in a signature: an entry of the parser's stack. `specs/inside/Owed` maps each entry to symbols
// of the grammar.
#[derive(Clone, Copy)]
enum Owed {
    Class,
    Method,
    MethodTypes,
    Parameters,
    Result,
    Java,
    Reference,
    ClassType,
    Throws,
    Thrown,
    VariableName,
    ClassName,
    SimpleName,
    Suffixes,
    FirstArgument,
    Arguments,
    FirstParam,
    ClassBound,
    Bounds,
}

// The entries that replace an entry after its beginning was read. The first must follow before the second.
#[derive(Clone, Copy)]
struct After(Option<Owed>, Option<Owed>);

// The result of a step: the entries that must follow, and the text that is left.
#[derive(Clone, Copy)]
struct Step<'a> {
    after: After,
    rest: &'a [u8],
}

fn reference(first: u8) -> Option<Option<Owed>>
    ensures { GivesEntry (ReferenceType ∷ []) first result }
{
    match first {
        b'L' => Some(Some(Owed::ClassName)),
        b'T' => Some(Some(Owed::VariableName)),
        b'[' => Some(Some(Owed::Java)),
        _ => None,
    }
}

fn java(first: u8) -> Option<Option<Owed>>
    ensures { GivesEntry (JavaType ∷ []) first result }
{
    if is_base_letter(first) {
        Some(None)
    } else {
        reference(first)
    }
}

fn result_type(first: u8) -> Option<Option<Owed>>
    ensures { GivesEntry (Result ∷ []) first result }
{
    if first == b'V' {
        Some(None)
    } else {
        java(first)
    }
}

fn class_type(first: u8) -> Option<Option<Owed>>
    ensures { GivesEntry (ClassType ∷ []) first result }
{
    if first == b'L' {
        Some(Some(Owed::ClassName))
    } else {
        None
    }
}

fn thrown(first: u8) -> Option<Option<Owed>>
    ensures { GivesEntry (Thrown ∷ []) first result }
{
    match first {
        b'L' => Some(Some(Owed::ClassName)),
        b'T' => Some(Some(Owed::VariableName)),
        _ => None,
    }
}

fn throws(first: u8) -> Option<Option<Owed>>
    ensures { GivesEntry (Throws ∷ []) first result }
{
    if first == b'^' {
        Some(Some(Owed::Thrown))
    } else {
        None
    }
}

fn method_types(first: u8) -> Option<Option<Owed>>
    ensures { GivesEntry (symbols_of Owed.MethodTypes) first result }
{
    if first == b'(' {
        Some(Some(Owed::Parameters))
    } else {
        None
    }
}

fn suffixes(first: u8) -> Option<Option<Owed>>
    ensures { GivesEntry (symbols_of Owed.Suffixes) first result }
{
    match first {
        b'.' => Some(Some(Owed::SimpleName)),
        b';' => Some(None),
        _ => None,
    }
}

// Reads what follows the name of a class.
fn name_end(first: u8) -> Option<Option<Owed>>
    ensures { GivesEntry (Maybe Arguments ∷ Many Suffix ∷ Mark 59 ∷ []) first result }
{
    if first == b'<' {
        Some(Some(Owed::FirstArgument))
    } else {
        suffixes(first)
    }
}

fn argument(first: u8) -> Option<Option<Owed>>
    ensures { GivesEntry (Argument ∷ []) first result }
{
    match first {
        b'*' => Some(None),
        b'+' | b'-' => Some(Some(Owed::Reference)),
        _ => reference(first),
    }
}

fn alone(entry: Option<Option<Owed>>) -> Option<After>
    ensures value { result ≡ option_map (λ e. record { 0 = e; 1 = None }) entry }
    ensures gives { (symbols : List Symbol) (c : ℕ) →
        GivesEntry symbols c entry → GivesAfter symbols c result }
{
    match entry {
        Some(entry) => Some(After(entry, None)),
        None => None,
    }
}

fn followed(entry: Option<Option<Owed>>, second: Owed) -> Option<After>
    ensures { (symbols : List Symbol) (c : ℕ) →
        GivesEntry symbols c entry → GivesAfter (symbols ++ symbols_of second) c result }
{
    match entry {
        Some(entry) => Some(After(entry, Some(second))),
        None => None,
    }
}

fn class_signature(first: u8) -> Option<After>
    ensures { GivesAfter (symbols_of Owed.Class) first result }
{
    if first == b'<' {
        Some(After(Some(Owed::FirstParam), Some(Owed::ClassType)))
    } else {
        alone(class_type(first))
    }
}

fn method_signature(first: u8) -> Option<After>
    ensures { GivesAfter (symbols_of Owed.Method) first result }
{
    if first == b'<' {
        Some(After(Some(Owed::FirstParam), Some(Owed::MethodTypes)))
    } else {
        alone(method_types(first))
    }
}

fn parameters(first: u8) -> Option<After>
    ensures { GivesAfter (symbols_of Owed.Parameters) first result }
{
    if first == b')' {
        Some(After(Some(Owed::Result), None))
    } else {
        followed(java(first), Owed::Parameters)
    }
}

fn first_argument(first: u8) -> Option<After>
    ensures { GivesAfter (symbols_of Owed.FirstArgument) first result }
{
    followed(argument(first), Owed::Arguments)
}

fn arguments(first: u8) -> Option<After>
    ensures { GivesAfter (symbols_of Owed.Arguments) first result }
{
    if first == b'>' {
        Some(After(Some(Owed::Suffixes), None))
    } else {
        first_argument(first)
    }
}

fn is_stop(byte: u8) -> bool
    ensures { result ≡ list_any (λ stop. stop == byte) identifier_stops }
{
    b".;[/<>:".contains(&byte)
}

// Returns the place of the first byte that no identifier contains.
fn stop_place(text: &[u8]) -> Option<usize>
    ensures value { result ≡ position (λ c. list_any (λ stop. stop == c) identifier_stops) text.now }
    ensures within { IfSome result (λ place. place < length text.now) }
{
    text.iter().position(|byte| is_stop(*byte))
}

// Splits the text at its first byte that no identifier contains. Returns the text before the byte, the byte, and the
// text after it.
fn cut_name(text: &[u8]) -> Option<(&[u8], u8, &[u8])>
    ensures { MatchOption result (Lacks text.now identifier_stops) (λ r. IsCut text.now r.0.now r.1 r.2.now) }
{
    let place = stop_place(text)?;
    Some((&text[..place], text[place], &text[place + 1..]))
}

fn is_text(name: &[u8]) -> bool
    ensures { IsTrue result ↔ (IsWellSpelled name.now × (name.now ≢ [])) }
{
    !name.is_empty() && check_units(name).is_ok()
}

// Reads an identifier. Returns the byte that ends it, and the text after that byte.
fn read_name(text: &[u8]) -> Option<(u8, &[u8])>
    ensures { MatchOption result (BeginsWithNoName text.now) (λ r. BeginsWithName text.now r.0 r.1.now) }
{
    let (name, stop, rest) = cut_name(text)?;
    if is_text(name) {
        Some((stop, rest))
    } else {
        None
    }
}

fn ends_at_colon(text: &[u8]) -> bool
    ensures { IsTrue result ↔ EndsAtColon text.now }
{
    match cut_name(text) {
        Some((_, stop, _)) => stop == b':',
        None => false,
    }
}

fn after_variable_name(stop: u8) -> Option<Option<Owed>>
    ensures { GivesNamed (symbols_of Owed.VariableName) stop result }
{
    if stop == b';' { Some(None) } else { None }
}

fn after_simple_name(stop: u8) -> Option<Option<Owed>>
    ensures { GivesNamed (symbols_of Owed.SimpleName) stop result }
{
    name_end(stop)
}

fn after_class_name(stop: u8) -> Option<Option<Owed>>
    ensures { GivesNamed (symbols_of Owed.ClassName) stop result }
{
    if stop == b'/' {
        Some(Some(Owed::ClassName))
    } else {
        after_simple_name(stop)
    }
}

fn after_param_name(stop: u8) -> Option<Option<Owed>>
    ensures { GivesNamed (symbols_of Owed.FirstParam) stop result }
{
    if stop == b':' {
        Some(Some(Owed::ClassBound))
    } else {
        None
    }
}

fn with_rest(after: Option<After>, rest: &[u8]) -> Option<Step<'_>>
    ensures { (symbols : List Symbol) (text : List ℕ) →
        GivesRest symbols text rest.now after → GivesStep symbols text result }
{
    match after {
        Some(after) => Some(Step { after, rest }),
        None => None,
    }
}

fn variable_name(text: &[u8]) -> Option<Step<'_>>
    ensures { GivesStep (symbols_of Owed.VariableName) text.now result }
{
    let (stop, rest) = read_name(text)?;
    with_rest(alone(after_variable_name(stop)), rest)
}

fn simple_name(text: &[u8]) -> Option<Step<'_>>
    ensures { GivesStep (symbols_of Owed.SimpleName) text.now result }
{
    let (stop, rest) = read_name(text)?;
    with_rest(alone(after_simple_name(stop)), rest)
}

fn class_name(text: &[u8]) -> Option<Step<'_>>
    ensures { GivesStep (symbols_of Owed.ClassName) text.now result }
{
    let (stop, rest) = read_name(text)?;
    with_rest(alone(after_class_name(stop)), rest)
}

fn first_param(text: &[u8]) -> Option<Step<'_>>
    ensures { GivesStep (symbols_of Owed.FirstParam) text.now result }
{
    let (stop, rest) = read_name(text)?;
    with_rest(alone(after_param_name(stop)), rest)
}

fn bounds(text: &[u8]) -> Option<Step<'_>>
    ensures { GivesStep (symbols_of Owed.Bounds) text.now result }
{
    let (first, rest) = text.split_first()?;
    match *first {
        b':' => Some(Step {
            after: After(Some(Owed::Reference), Some(Owed::Bounds)),
            rest,
        }),
        b'>' => Some(Step {
            after: After(None, None),
            rest,
        }),
        _ => first_param(text),
    }
}

// A name that ends at `:` is the name of the next type parameter, even if it begins as a type does.
fn class_bound(text: &[u8]) -> Option<Step<'_>>
    ensures { GivesStep (symbols_of Owed.ClassBound) text.now result }
{
    let (first, rest) = text.split_first()?;
    if *first == b'>' {
        Some(Step {
            after: After(None, None),
            rest,
        })
    } else if ends_at_colon(text) {
        bounds(text)
    } else {
        with_rest(followed(reference(*first), Owed::Bounds), rest)
    }
}

// Reads the beginning of an entry from the front of `text`, and returns the entries that must follow. Each step reads
// at least one byte.
fn advance(entry: Owed, text: &[u8]) -> Option<Step<'_>>
    ensures { GivesStep (symbols_of entry) text.now result }
{
    let (first, rest) = text.split_first()?;
    match entry {
        Owed::Class => with_rest(class_signature(*first), rest),
        Owed::Method => with_rest(method_signature(*first), rest),
        Owed::MethodTypes => with_rest(alone(method_types(*first)), rest),
        Owed::Parameters => with_rest(parameters(*first), rest),
        Owed::Result => with_rest(alone(result_type(*first)), rest),
        Owed::Java => with_rest(alone(java(*first)), rest),
        Owed::Reference => with_rest(alone(reference(*first)), rest),
        Owed::ClassType => with_rest(alone(class_type(*first)), rest),
        Owed::Throws => with_rest(alone(throws(*first)), rest),
        Owed::Thrown => with_rest(alone(thrown(*first)), rest),
        Owed::VariableName => variable_name(text),
        Owed::ClassName => class_name(text),
        Owed::SimpleName => simple_name(text),
        Owed::Suffixes => with_rest(alone(suffixes(*first)), rest),
        Owed::FirstArgument => with_rest(first_argument(*first), rest),
        Owed::Arguments => with_rest(arguments(*first), rest),
        Owed::FirstParam => first_param(text),
        Owed::ClassBound => class_bound(text),
        Owed::Bounds => bounds(text),
    }
}

fn start(kind: SigKind) -> Owed
    ensures { (text : List ℕ) →
        IsSignature kind text ↔ Derives (symbols_of result ++ tail_of kind) text }
{
    match kind {
        SigKind::Class => Owed::Class,
        SigKind::Method => Owed::Method,
        SigKind::Field => Owed::Reference,
    }
}

// Returns the entry that may follow any number of times when the stack is empty.
fn repeated(kind: SigKind) -> Option<Owed>
    ensures { GivesRepeated kind result }
{
    match kind {
        SigKind::Class => Some(Owed::ClassType),
        SigKind::Method => Some(Owed::Throws),
        SigKind::Field => None,
    }
}

fn next_entry(stack: &mut Vec<Owed>, kind: SigKind) -> Option<Owed>
    ensures { GivesTop kind stack.old.items stack.new.items result }
{
    match stack.pop() {
        Some(entry) => Some(entry),
        None => repeated(kind),
    }
}

// Pops the top of the stack, and takes one step with it.
fn next_step<'a>(stack: &mut Vec<Owed>, kind: SigKind, text: &'a [u8]) -> Option<Step<'a>>
    requires { 0 < length text.now }
    ensures { GivesStackStep kind stack.old.items stack.new.items text.now result }
{
    let entry = next_entry(stack, kind)?;
    advance(entry, text)
}

fn push(stack: &mut Vec<Owed>, entry: Option<Owed>) -> Result<(), NoMemory>
    ensures { OnOk result ((owed : List Symbol) →
        stack_before stack.new.items owed ≡ before entry (stack_before stack.old.items owed)) }
{
    if let Some(entry) = entry {
        stack.push(entry)?;
    }
    Ok(())
}

fn push_after(stack: &mut Vec<Owed>, after: After) -> Result<(), NoMemory>
    ensures { OnOk result ((owed : List Symbol) →
        stack_before stack.new.items owed ≡ both_before after (stack_before stack.old.items owed)) }
{
    push(stack, after.1)?;
    push(stack, after.0)
}

/// Returns whether `text` is a signature of this kind (JVMS 4.7.9.1). A signature is always modified UTF-8. Returns
/// `NoMemory` only when an allocation fails.
pub fn check_signature(alloc: Global, kind: SigKind, text: &[u8]) -> Result<bool, NoMemory>
    ensures ok { IfOk result (λ holds. IsTrue holds ↔ IsSignature kind text.now) }
    ensures test { IfOk result (λ holds. holds ≡ is_signature kind text.now) }
    ensures empty { text.now ≡ [] → IsOk result }
{
    if text.is_empty() {
        return Ok(false);
    }
    let mut rest = text;
    let mut stack = Vec::new(alloc);
    stack.push(start(kind))?;
    while !rest.is_empty() {
        let Some(step) = next_step(&mut stack, kind, rest) else {
            return Ok(false);
        };
        push_after(&mut stack, step.after)?;
        rest = step.rest;
        // Each entry needs at least one byte.
        if stack.len() > rest.len() {
            return Ok(false);
        }
    }
    Ok(stack.is_empty())
}
