//! The classes that an edit of a file changes.

ghost use Rattle.std.specs.Prelude.{◌≡◌, true, IfOk, None, Ok, Some, option_map};
ghost use Rattle.std.specs.FinMap as map;
ghost use Rattle.std.specs.Option.{option_copied};
ghost use Rattle.jc_linkage.specs.Steps.{step_class, step_name};
ghost use Rattle.jc_report.specs.Files.{Files};
ghost use Rattle.jc_report.specs.Reports.{facts_at, facts_there};
ghost use Rattle.jc_edits.specs.inside.Changing as changing;
ghost use Rattle.jc_view.specs.Outcome.{class_named};
ghost use Rattle.jc_edits.specs.inside.Changing.{AreChanges, IsWon, Uncovers, won_as};
ghost use Rattle.jc_edits.specs.inside.Claims.{AreClaims};
ghost use Rattle.jc_edits.specs.inside.HeldFile.{bytes_held, class_held};

use crate::claimed_files::ClaimedFiles;
use crate::claims::Claims;
use crate::file::File;
use jc_base::NoMemory;
use jc_classes::Facts;
use jc_linkage::Step;
use jc_report::wins;
use jc_view::{ClassView, ParseError, outcomes_are_exact, parse};
use std::alloc::Global;

/// What an edit of a file changes.
#[derive(Drop)]
pub(crate) struct Changes {
    /// The new file at the path, or `None` if the file is removed.
    pub(crate) file: Option<File>,
    /// The change at the name of the class that was taken from the file at the path.
    pub(crate) first: Option<Step>,
    /// The class that is taken from the new file.
    pub(crate) put: Option<Facts>,
}

/// The class in the bytes of a file.
#[derive(Drop)]
struct Outcome {
    /// The name of the class, or why the bytes cannot be read.
    class: Result<Vec<u8>, ParseError>,
    /// The facts of the class, if it is taken from the file.
    put: Option<Facts>,
}

/// Returns what changes if the file at a path gets these bytes, or is removed. `is_new` may be set if no file is there.
/// The bytes are parsed once.
pub(crate) fn changes_of(
    alloc: Global,
    held: &ClaimedFiles,
    path: &[u8],
    bytes: Option<Vec<u8>>,
    is_new: bool,
) -> Result<Changes, NoMemory>
    requires claims { AreClaims held.now.claims held.now.files }
    requires new { is_new ≡ true → map.get held.now.files path.now ≡ None }
    ensures file { IfOk result (λ changes. changes.file ≡ bytes_held bytes) }
    ensures changes { IfOk result (λ changes. AreChanges held.now.files path.now (bytes_held bytes) changes.first changes.put) }
{
    let first = if is_new {
        None
    } else {
        lost_step(alloc, held, path)?
    };
    let Some(bytes) = bytes else {
        return Ok(Changes {
            file: None,
            first,
            put: None,
        });
    };
    let Outcome { class, put } = read(alloc, &held.claims, path, &bytes)?;
    Ok(Changes {
        file: Some(File::of(bytes, class)),
        first,
        put,
    })
}

/// Parses the new bytes of the file at the path.
fn read(alloc: Global, claims: &Claims, path: &[u8], bytes: &[u8]) -> Result<Outcome, NoMemory>
    ensures class { IfOk result (λ read. class_held read.class ≡ class_named bytes.now) }
    ensures put { (f : Files) → AreClaims claims.now f → IfOk result (λ read. IsWon f path.now (Some bytes.now) read.put) }
{
    outcomes_are_exact();
    match parse(alloc, bytes) {
        Ok(view) => read_class(alloc, claims, path, view.name(), &view),
        Err(ParseError::NoMemory) => Err(NoMemory),
        Err(refusal) => Ok(Outcome {
            class: Err(refusal),
            put: None,
        }),
    }
}

/// Reads the class of this name from the file at the path.
fn read_class(
    alloc: Global,
    claims: &Claims,
    path: &[u8],
    name: &[u8],
    view: &ClassView,
) -> Result<Outcome, NoMemory>
    ensures class { IfOk result (λ read. class_held read.class ≡ Ok name.now) }
    ensures put { (f : Files) → AreClaims claims.now f → IfOk result (λ read. read.put ≡ won_as (map.remove f path.now) path.now name.now view.now) }
{
    let class = Vec::from_slice(alloc, name)?;
    let put = won(alloc, claims, path, name, view)?;
    Ok(Outcome {
        class: Ok(class),
        put,
    })
}

/// Returns the facts of the class of this name, which the file at the path has, if the class is taken from this file.
fn won(
    alloc: Global,
    claims: &Claims,
    path: &[u8],
    name: &[u8],
    view: &ClassView,
) -> Result<Option<Facts>, NoMemory>
    ensures { (f : Files) → AreClaims claims.now f → IfOk result (λ facts. facts ≡ won_as (map.remove f path.now) path.now name.now view.now) }
{
    if wins(path, claims.other(name, path)) {
        Ok(Some(Facts::of(alloc, view, path)?))
    } else {
        Ok(None)
    }
}

/// Returns the change at the name of the class that is taken from the file at the path, if this file is gone.
fn lost_step(alloc: Global, held: &ClaimedFiles, path: &[u8]) -> Result<Option<Step>, NoMemory>
    requires { AreClaims held.now.claims held.now.files }
    ensures name { IfOk result (λ first. option_map step_name first ≡ changing.lost held.now.files path.now) }
    ensures class { IfOk result (λ first. Uncovers held.now.files path.now first) }
{
    let Some(name) = lost(held, path) else {
        return Ok(None);
    };
    Ok(Some(uncovered(alloc, held, path, name)?))
}

/// Returns the name of the class that is taken from the file at the path.
fn lost<'h>(held: &'h ClaimedFiles, path: &[u8]) -> Option<&'h [u8]>
    requires { AreClaims held.now.claims held.now.files }
    ensures { option_copied result ≡ changing.lost held.now.files path.now }
{
    let Ok(name) = held.files.get(path)?.class() else {
        return None;
    };
    let winner = held.claims.first(name)?;
    if winner == path { Some(name) } else { None }
}

/// Returns the change at the name of a class if the file at the path is gone. The class is taken from the file with the next
/// path that has it, or there is none.
fn uncovered(alloc: Global, held: &ClaimedFiles, path: &[u8], name: &[u8]) -> Result<Step, NoMemory>
    requires { AreClaims held.now.claims held.now.files }
    ensures name { IfOk result (λ step. step_name step ≡ name.now) }
    ensures class { IfOk result (λ step. step_class step ≡ facts_at (map.remove held.now.files path.now) name.now) }
{
    let Some(next) = held.claims.other(name, path) else {
        return Ok(Step::Remove(Vec::from_slice(alloc, name)?));
    };
    let Some(file) = held.files.get(next) else {
        unreachable!();
    };
    match read_facts(alloc, next, file.bytes())? {
        Some(facts) => Ok(Step::Put(facts)),
        None => unreachable!(),
    }
}

/// Returns the facts of the class file at a path.
fn read_facts(alloc: Global, path: &[u8], bytes: &[u8]) -> Result<Option<Facts>, NoMemory>
    ensures { IfOk result (λ facts. facts ≡ facts_there path.now (Some bytes.now)) }
{
    outcomes_are_exact();
    match parse(alloc, bytes) {
        Ok(view) => Ok(Some(Facts::of(alloc, &view, path)?)),
        Err(ParseError::NoMemory) => Err(NoMemory),
        Err(_) => Ok(None),
    }
}
