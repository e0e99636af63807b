//! The check of a tree of files: each file is read once, and the report or its errors are written.

ghost use Rattle.std.specs.Prelude.{◌≡◌, Ok};
ghost use Rattle.jc_classes.specs.Names.{names_of};
ghost use Rattle.jc_session.specs.Checks.{CountsCheck};
ghost use Rattle.jc_report.specs.ErrorsText.{asked_lent};
ghost use Rattle.jc_report.specs.Files.{Files};
ghost use Rattle.jc_report.specs.Trees.{IsTree};
ghost use Rattle.jc_session.specs.declared.tree_check.CheckError.TheVariants as errors;
ghost use Rattle.jc_session.specs.declared.tree_check.CheckForm.TheVariants as forms;
ghost use Rattle.jc_input.specs.FileEdits as edits;
ghost use Rattle.jc_input.specs.Changes.{Adds};
ghost use Rattle.jc_input.specs.FileEdits.{judge};
ghost use Rattle.jc_input.specs.Sources.{answer_of};
ghost use Rattle.jc_session.specs.inside.Adding.{AddsOne, ReadsTree, TellsOfTree, tree_of};
ghost use Rattle.jc_session.specs.LentChecks.{ChecksPaths, check_lent};

use jc_base::{NoMemory, Output};
use jc_input::{EditError, Source, SourceError, path_refusal, room_refusal, size_refusal};
use jc_link::{Meter, Outside};
use jc_report::{AddError, Asked, Tree, TreeErrors, TreeReport, write_errors, write_report};
use std::alloc::Global;
use thiserror::Error;

/// What a check writes: the report or its errors.
#[derive(Drop)]
pub enum CheckForm {
    /// The report of all files.
    Report,
    /// A line for each error that the fields select.
    Errors {
        /// The prefixes of the paths and class names whose errors are written, or `None` for all errors.
        only: Option<Outside>,
        /// Whether the errors of unused references are left out.
        used_only: bool,
    },
}

/// Why a check fails. After `Write`, a proper prefix of the text has been written; after any other error, nothing.
#[derive(Clone, Copy, Debug, Error)]
pub enum CheckError<'p> {
    /// The source returned `Unread` for the file at this path.
    #[error("a file can't be read")]
    Unread(&'p [u8]),
    /// The file at this path was refused, for this reason.
    #[error("a file can't be added: {0}")]
    Refused(EditError, &'p [u8]),
    /// The output failed.
    #[error("the output failed")]
    Write,
    /// An allocation failed, or the source returned `NoMemory`.
    #[error("memory was refused")]
    NoMemory,
}

/// Reads the files at the paths and writes the report of all, or its errors.
///
/// Reads the files in the order of `paths`. A file is refused if an edit that adds it would be refused. For the report,
/// returns what [`TreeReport::wrong`] returns. For errors, returns whether there is an error that `form` selects.
/// Writes nothing before all parts are computed. Of each file, keeps only the data that linking uses.
///
/// # Errors
///
/// `Unread`, `Refused`: the first file that is not added; no path after it is read. `Write`: the output failed.
/// `NoMemory`: an allocation failed, or the source returned `NoMemory`.
pub fn check<'p, S: Source, W: Output>(
    alloc: Global,
    outside: &Outside,
    form: &CheckForm,
    paths: &'p [Vec<u8>],
    source: &mut S,
    out: &mut W,
) -> Result<bool, CheckError<'p>>
    ensures checks { ChecksPaths outside.now form.now paths.now result S.answers source.old source.new W.written out.old out.new }
    ensures failures { CountsCheck (check_lent result) (W.failures out.old) (W.failures out.new) }
{
    let (tree, mut meter) = read_tree(alloc, paths, source)?;
    check_tree(alloc, outside, form, &tree, &mut meter, out)
}

/// Writes the report of a tree or its errors, and returns whether the report is wrong or such an error exists.
fn check_tree<'p, W: Output>(
    alloc: Global,
    outside: &Outside,
    form: &CheckForm,
    tree: &Tree,
    meter: &mut Meter,
    out: &mut W,
) -> Result<bool, CheckError<'p>>
    ensures tells { TellsOfTree tree.now outside.now form.now (check_lent result) (W.written out.old) (W.written out.new) }
    ensures failures { CountsCheck (check_lent result) (W.failures out.old) (W.failures out.new) }
{
    match form {
        CheckForm::Report => check_report(alloc, outside, tree, meter, out),
        CheckForm::Errors { only, used_only } => {
            let asked = Asked {
                only: only.as_ref(),
                used_only: *used_only,
            };
            check_errors(alloc, outside, asked, tree, meter, out)
        }
    }
}

/// Writes the report of a tree, and returns whether it is wrong.
fn check_report<'p, W: Output>(
    alloc: Global,
    outside: &Outside,
    tree: &Tree,
    meter: &mut Meter,
    out: &mut W,
) -> Result<bool, CheckError<'p>>
    ensures tells { TellsOfTree tree.now outside.now forms.Report (check_lent result) (W.written out.old) (W.written out.new) }
    ensures failures { CountsCheck (check_lent result) (W.failures out.old) (W.failures out.new) }
{
    let report = TreeReport::make(alloc, tree, outside, meter)?;
    match write_report(&report, out) {
        Ok(()) => Ok(report.wrong()),
        Err(_) => Err(CheckError::Write),
    }
}

/// Writes the errors of a tree that `asked` selects, and returns whether there are any.
fn check_errors<'p, W: Output>(
    alloc: Global,
    outside: &Outside,
    asked: Asked<'_>,
    tree: &Tree,
    meter: &mut Meter,
    out: &mut W,
) -> Result<bool, CheckError<'p>>
    ensures tells { TellsOfTree tree.now outside.now (forms.Errors (asked_lent asked.entry).only asked.entry.used_only) (check_lent result)
        (W.written out.old) (W.written out.new) }
    ensures failures { CountsCheck (check_lent result) (W.failures out.old) (W.failures out.new) }
{
    let errors = TreeErrors::make(alloc, tree, outside, meter)?;
    match write_errors(&errors, asked, out) {
        Ok(()) => Ok(errors.has_error_among(asked)),
        Err(_) => Err(CheckError::Write),
    }
}

/// Returns the tree of the files at the paths, and its meter. Reads and adds the files in the order of the paths.
fn read_tree<'p, S: Source>(
    alloc: Global,
    paths: &'p [Vec<u8>],
    source: &mut S,
) -> Result<(Tree, Meter), CheckError<'p>>
    ensures { ReadsTree (names_of paths.now) (S.answers source.old) (S.answers source.new) (tree_of result) }
{
    let (mut tree, meter) = Tree::new(alloc)?;
    for path in paths {
        tree = add(tree, path, source.read(path))?;
    }
    Ok((tree, meter))
}

/// Adds the file at a path, by the answer of the source.
fn add<'p>(
    tree: Tree,
    path: &'p [u8],
    answer: Result<Vec<u8>, SourceError>,
) -> Result<Tree, CheckError<'p>>
    ensures { (f : Files) → IsTree f tree → AddsOne f path.now (answer_of answer) result }
{
    match answer {
        Ok(bytes) => add_bytes(tree, path, &bytes),
        Err(SourceError::Unread) => Err(CheckError::Unread(path)),
        Err(SourceError::NoMemory) => Err(CheckError::NoMemory),
    }
}

fn add_bytes<'p>(tree: Tree, path: &'p [u8], bytes: &[u8]) -> Result<Tree, CheckError<'p>>
    ensures { (f : Files) → IsTree f tree → AddsOne f path.now (Ok bytes.now) result }
{
    if let Some(fault) = add_refusal(&tree, path, bytes) {
        return Err(CheckError::Refused(fault, path));
    }
    match tree.add(path, bytes) {
        Ok(tree) => Ok(tree),
        Err(AddError::AlreadyThere) => Err(CheckError::Refused(EditError::AlreadyThere, path)),
        Err(AddError::NoMemory) => Err(CheckError::NoMemory),
    }
}

/// Returns why an edit that adds these bytes at a path is refused, or `None`. Leaves out `NoMemory`.
fn add_refusal(tree: &Tree, path: &[u8], bytes: &[u8]) -> Option<EditError>
    ensures { (f : Files) → IsTree f tree.now → result ≡ judge f (Adds path.now bytes.now) }
{
    path_refusal(path)
        .or(there_refusal(tree, path))
        .or(size_refusal(bytes))
        .or(room_refusal(tree.len()))
}

fn there_refusal(tree: &Tree, path: &[u8]) -> Option<EditError>
    ensures { (f : Files) → IsTree f tree.now → result ≡ edits.there_refusal f path.now }
{
    if tree.contains(path) {
        Some(EditError::AlreadyThere)
    } else {
        None
    }
}

impl From<NoMemory> for CheckError<'_> {
    ghost from_gives = { λ _ e. e ≡ errors.NoMemory };

    fn from(_: NoMemory) -> Self {
        CheckError::NoMemory
    }
}
