//! Outside names: classes of which only the existence is known.

ghost use Rattle.std.specs.Prelude.{◌≡◌, ◌↔◌, ◌++◌, ◌<◌, ◌∷◌, [], IfOk, IsErrOf, OnOk, length, map};
ghost use Rattle.std.specs.List.{Contains, list_any};
ghost use Rattle.jc_classes.specs.Names.{Name};
ghost use Rattle.jc_classes.specs.Numbers.{IsOnce, name_at};
ghost use Rattle.jc_link.specs.inside.HeldPrefixes.{prefixes_held};
ghost use Rattle.jc_link.specs.Prefixes.{HasFault, holds, is_bad_prefix, is_covered, prefixes_fault};
ghost use Rattle.jc_link.specs.Prefixes.{standard_prefixes, with_one, without};
ghost use Rattle.jc_link.specs.declared.outside.OutsideError.TheVariants as errors;

use jc_base::NoMemory;
use jc_classes::{TextList, same};
use std::alloc::Global;
use std::marker::Model;

/// The greatest length of a prefix, in bytes.
const LONGEST_PREFIX: usize = 256;

/// The greatest number of prefixes that [`Outside::new`] accepts.
pub const MOST_PREFIXES: usize = 64;

/// The outside prefixes, each once. The model is the list of prefixes.
///
/// For example (`crates/jc_rows/src/prefix_answers.rt`):
///
/// ```
/// match made(alloc, lines) {
///     Ok(Ok(outside)) if outside.covers(name.as_bytes()) => out.text(b"outside"),
///     Ok(Ok(_)) => out.text(b"not outside"),
///     ..
/// Ok(Outside::new(alloc, &prefixes))
/// ```
#[derive(Drop)]
pub struct Outside {
    prefixes: Prefixes,
}

/// Prefixes by place. Creating the standard ones does not allocate.
#[derive(Drop)]
enum Prefixes {
    Standard,
    Given(TextList),
}

/// The prefixes if the user gives none.
const STANDARD: [&[u8]; 2] = [b"java/", b"javax/"];

/// Why prefixes are refused. If several errors apply, it is the first in the order of the variants.
#[derive(Clone, Copy, Debug, PartialEq, Eq)]
pub enum OutsideError {
    /// A prefix is empty or longer than 256 bytes.
    BadPrefix,
    /// There are more than 64 prefixes.
    TooManyPrefixes,
    /// An allocation fails.
    NoMemory,
}

impl OutsideError {
    ghost use Rattle.jc_link.specs.Prefixes.{outside_error_code};

    /// Returns the number of the error, from 1, in the order of the variants.
    pub fn code(&self) -> u8
        ensures { result ≡ outside_error_code self.now }
    {
        match self {
            OutsideError::BadPrefix => 1,
            OutsideError::TooManyPrefixes => 2,
            OutsideError::NoMemory => 3,
        }
    }
}

impl From<NoMemory> for OutsideError {
    ghost from_gives = { λ _ e. e ≡ errors.NoMemory };

    fn from(_: NoMemory) -> OutsideError {
        OutsideError::NoMemory
    }
}

impl Model for Outside {
    ghost use Rattle.std.specs.Prelude.{ℕ, List};
    ghost use Rattle.jc_classes.specs.Numbers.{IsOnce};

    ghost Value = { List (List ℕ) };

    ghost use Rattle.jc_link.specs.inside.HeldPrefixes.{prefixes_held};

    ghost view = { λ a. prefixes_held a.prefixes };

    ghost invariant = { λ a. IsOnce (prefixes_held a.prefixes) };
}

impl Outside {
    /// Creates outside prefixes from a list. A prefix that is given twice is kept once, but counts twice for the limit
    /// of 64. [`OutsideError`] lists the errors.
    pub fn new(alloc: Global, prefixes: &[&[u8]]) -> Result<Outside, OutsideError>
        ensures bad { IsErrOf result errors.BadPrefix ↔ HasFault prefixes.now errors.BadPrefix }
        ensures many { IsErrOf result errors.TooManyPrefixes ↔ HasFault prefixes.now errors.TooManyPrefixes }
        ensures held { IfOk result (λ o. (p : Name) → Contains o p ↔ Contains (map (λ p. p.now) prefixes.now) p) }
        ensures once { IfOk result (λ o. IsOnce o) }
    {
        if let Some(fault) = find_fault(prefixes) {
            return Err(fault);
        }
        let mut outside = Outside {
            prefixes: Prefixes::Given(TextList::new(alloc)),
        };
        for prefix in prefixes {
            outside = outside.plus(alloc, prefix)?;
        }
        Ok(outside)
    }

    /// Returns the prefixes `java/` and `javax/`. Does not allocate.
    pub fn standard() -> Outside
        ensures { result ≡ standard_prefixes }
    {
        Outside {
            prefixes: Prefixes::Standard,
        }
    }

    /// Returns whether a name begins with one of the prefixes. The contract also says that each prefix is kept once.
    /// Does not allocate.
    pub fn covers(&self, name: &[u8]) -> bool
        ensures covered { result ≡ is_covered self.now name.now }
        ensures once { IsOnce self.now }
    {
        for place in 0..self.prefixes.len() {
            if name.starts_with(self.prefixes.at(place)) {
                return true;
            }
        }
        false
    }

    /// Returns whether a prefix is one of these. Does not allocate.
    pub fn has(&self, prefix: &[u8]) -> bool
        ensures { result ≡ holds self.now prefix.now }
    {
        for place in 0..self.prefixes.len() {
            if same(prefix, self.prefixes.at(place)) {
                return true;
            }
        }
        false
    }

    /// Returns the number of prefixes. Does not allocate.
    pub fn len(&self) -> usize
        ensures { result ≡ length self.now }
    {
        self.prefixes.len()
    }

    /// Returns these prefixes with `prefix` at the end. If it is one of them already, it moves to the end. Its length
    /// and the number of prefixes are not checked.
    ///
    /// Returns `NoMemory` only when an allocation fails.
    pub fn plus(&self, alloc: Global, prefix: &[u8]) -> Result<Outside, NoMemory>
        ensures { IfOk result (λ o. o ≡ with_one self.now prefix.now) }
    {
        let mut held = self.copy_without(alloc, prefix)?;
        held.push(prefix)?;
        Ok(Outside {
            prefixes: Prefixes::Given(held),
        })
    }

    /// Returns these prefixes without `prefix`.
    ///
    /// Returns `NoMemory` only when an allocation fails.
    pub fn minus(&self, alloc: Global, prefix: &[u8]) -> Result<Outside, NoMemory>
        ensures { IfOk result (λ o. o ≡ without self.now prefix.now) }
    {
        let held = self.copy_without(alloc, prefix)?;
        Ok(Outside {
            prefixes: Prefixes::Given(held),
        })
    }

    /// Returns copies of the prefixes, without one of them.
    fn copy_without(&self, alloc: Global, prefix: &[u8]) -> Result<TextList, NoMemory>
        ensures held { IfOk result (λ held. held ≡ without self.now prefix.now) }
        ensures once { IsOnce self.now }
    {
        let mut held = TextList::new(alloc);
        for place in 0..self.prefixes.len() {
            push_other(&mut held, self.prefixes.at(place), prefix)?;
        }
        Ok(held)
    }
}

impl Prefixes {
    /// Returns the number of prefixes.
    fn len(&self) -> usize
        ensures { result ≡ length (prefixes_held self.now) }
    {
        match self {
            Prefixes::Standard => STANDARD.len(),
            Prefixes::Given(prefixes) => prefixes.len(),
        }
    }

    /// Returns the prefix at a place, counted from 0.
    fn at(&self, place: usize) -> &[u8]
        requires { place < length (prefixes_held self.now) }
        ensures { result.now ≡ name_at (prefixes_held self.now) place }
    {
        match self {
            Prefixes::Standard => STANDARD[place],
            Prefixes::Given(prefixes) => prefixes.text(place),
        }
    }
}

/// Appends a copy of a prefix, unless it is the one to leave out.
fn push_other(held: &mut TextList, other: &[u8], prefix: &[u8]) -> Result<(), NoMemory>
    ensures { OnOk result (held.new ≡ held.old ++ without (other.now ∷ []) prefix.now) }
{
    if !same(other, prefix) {
        held.push(other)?;
    }
    Ok(())
}

fn find_fault(prefixes: &[&[u8]]) -> Option<OutsideError>
    ensures { result ≡ prefixes_fault (map (λ p. p.now) prefixes.now) }
{
    if has_bad_prefix(prefixes) {
        return Some(OutsideError::BadPrefix);
    }
    if prefixes.len() > MOST_PREFIXES {
        return Some(OutsideError::TooManyPrefixes);
    }
    None
}

fn has_bad_prefix(prefixes: &[&[u8]]) -> bool
    ensures { result ≡ list_any is_bad_prefix (map (λ p. p.now) prefixes.now) }
{
    for prefix in prefixes {
        if is_bad_prefix(prefix) {
            return true;
        }
    }
    false
}

/// Returns whether a prefix is empty or longer than 256 bytes.
pub fn is_bad_prefix(prefix: &[u8]) -> bool
    ensures { result ≡ is_bad_prefix prefix.now }
{
    prefix.is_empty() || prefix.len() > LONGEST_PREFIX
}
