//! The program over any streams: from its arguments and devices to its exit status.

ghost use Rattle.std.specs.Prelude.{Bool, List, Result, map as map_each, ℕ};
ghost use Rattle.std.specs.FinMap as map;
ghost use Rattle.jc_classes.specs.Names.{names_of};
ghost use Rattle.jc_input.specs.declared.source.SourceError.{SourceError};
ghost use Rattle.jc_edits.specs.SessionState.{contents_of};
ghost use Rattle.jc_session.specs.Checks.{Answer, CheckFault, ChecksAs, GivesAnswers, added};
ghost use Rattle.jc_input.specs.Sources.{TakesAnswer, answer_of};
ghost use Rattle.jc_session.specs.Statuses.{Checks, Concludes, CountsInput, CountsOutput, ListsAs, Outcome, Performs};
ghost use Rattle.jc_session.specs.Statuses.{begun, outcome_of_check};
ghost use Rattle.jc_session.specs.Words.{AsksCheck, Word};
ghost use Rattle.jc_session.specs.inside.LentFaults.{outcome_lent};
ghost use Rattle.jc_session.specs.inside.Serving.{Serves};

use crate::file_listing::list_file;
use crate::folder::FolderSource;
use crate::line_session::run;
use crate::program_error::{ProgramError, tell};
use crate::tree_check::{CheckForm, check};
use crate::walk::{WalkError, class_files};
use crate::words::{Request, asked};
use jc_base::{Input, Output};
use jc_edits::{EditError, Session};
use jc_input::{FileSource, LARGEST_FILE, Source, SourceError};
use jc_link::Outside;
use std::alloc::Global;
use std::rt::Files;

/// Runs jclink and returns the exit status.
///
/// `words` are the arguments after the program's name. Relative paths begin at the working folder of `rt`.
///
/// - 0: nothing is wrong.
/// - 1: the report of a check, or at the end of a session, is wrong. With `--errors`: an error is printed. For `list`:
///   the file is unreadable or has a fault.
/// - 2: a usage error. `clap` finds an error among the arguments, or the command refuses its options or their values.
///   A request for help is an error too.
/// - 3: reading or writing failed, or a file to list or to check is refused.
/// - 4: out of memory.
///
/// At 2, 3 and 4 one line is written to `err`. Write errors of `err` are ignored.
pub fn program<F: Files + AllocGlobal, R: Input, W: Output, E: Output>(
    rt: &F,
    words: &[&str],
    input: &mut R,
    out: &mut W,
    err: &mut E,
) -> u8
    ensures { (outcome : Outcome)
        × Performs R.remaining (map_each (λ word. word.now) words.now) outcome input.old input.new (W.written out.old) (W.written out.new)
        × CountsInput outcome (R.failures input.old) (R.failures input.new)
        × CountsOutput outcome (W.failures out.old) (W.failures out.new)
        × Concludes E.written E.failures outcome result err.old err.new }
{
    match asked(rt.alloc(), words) {
        Ok(Request::Session(outside)) => {
            let outcome = serve(rt.alloc(), outside, &mut FileSource::new(rt), input, out);
            conclude(err, outcome)
        }
        Ok(Request::List(path)) => list(rt.alloc(), &mut FileSource::new(rt), path, out, err),
        Ok(Request::Check(outside, form, folder)) => {
            check_folder(rt, &outside, &form, folder, out, err)
        }
        Err(fault) => conclude(err, Err(fault)),
    }
}

/// Checks the class files below a folder and returns the status. If the check fails, writes to `err` why.
fn check_folder<'a, F: Files + AllocGlobal, W: Output, E: Output>(
    rt: &'a F,
    outside: &Outside,
    form: &CheckForm,
    folder: &'a str,
    out: &mut W,
    err: &mut E,
) -> u8
    ensures { (outcome : Outcome)
        × ((words : List Word) → AsksCheck words outside.now form.now folder.now
        → Checks words outcome (W.written out.old) (W.written out.new))
        × CountsOutput outcome (W.failures out.old) (W.failures out.new)
        × Concludes E.written E.failures outcome result err.old err.new }
{
    match class_files(rt, folder) {
        Ok(paths) => {
            let mut source = FolderSource::new(rt, folder);
            check_files(rt.alloc(), outside, form, &paths, &mut source, out, err)
        }
        Err(WalkError::Unread(path)) => conclude(err, Err(ProgramError::Unread(&path))),
        Err(WalkError::NoMemory) => conclude(err, Err(ProgramError::NoMemory)),
    }
}

/// Checks the files at the paths and returns the status. If the check fails, writes to `err` why.
fn check_files<S: Source, W: Output, E: Output>(
    alloc: Global,
    outside: &Outside,
    form: &CheckForm,
    paths: &[Vec<u8>],
    source: &mut S,
    out: &mut W,
    err: &mut E,
) -> u8
    ensures { (answers : List Answer) × (checked : Result Bool CheckFault)
        × GivesAnswers (S.answers source.old) (names_of paths.now) answers (S.answers source.new)
        × ChecksAs outside.now form.now (added map.empty (names_of paths.now) answers) checked (W.written out.old) (W.written out.new)
        × CountsOutput (outcome_of_check checked) (W.failures out.old) (W.failures out.new)
        × Concludes E.written E.failures (outcome_of_check checked) result err.old err.new }
{
    match check(alloc, outside, form, paths, source, out) {
        Ok(wrong) => conclude(err, Ok(wrong)),
        Err(error) => conclude(err, Err(ProgramError::from(error))),
    }
}

/// Lists the file at a path and returns the status. If the listing fails, writes to `err` why.
fn list<S: Source, W: Output, E: Output>(
    alloc: Global,
    source: &mut S,
    path: &str,
    out: &mut W,
    err: &mut E,
) -> u8
    ensures { (answer : Result (List ℕ) SourceError) × (outcome : Outcome)
        × ListsAs path.now answer outcome (W.written out.old) (W.written out.new)
        × TakesAnswer (S.answers source.old) path.now answer (S.answers source.new)
        × CountsOutput outcome (W.failures out.old) (W.failures out.new)
        × Concludes E.written E.failures outcome result err.old err.new }
{
    let outcome = list_answer(alloc, path.as_bytes(), source.read(path.as_bytes()), out);
    conclude(err, outcome)
}

/// Lists the bytes that a source returned for a path, and refuses more than `LARGEST_FILE` bytes.
///
/// Returns whether the bytes are not a readable class file or have a fault.
fn list_answer<'w, W: Output>(
    alloc: Global,
    path: &'w [u8],
    answer: Result<Vec<u8>, SourceError>,
    out: &mut W,
) -> Result<bool, ProgramError<'w>>
    ensures lists { ListsAs path.now (answer_of answer) (outcome_lent result) (W.written out.old) (W.written out.new) }
    ensures failures { CountsOutput (outcome_lent result) (W.failures out.old) (W.failures out.new) }
{
    match answer {
        Ok(bytes) if bytes.len() > LARGEST_FILE => Err(ProgramError::Refused(
            EditError::TooLarge,
            path,
        )),
        Ok(bytes) => Ok(list_file(alloc, &bytes, out)?),
        Err(SourceError::Unread) => Err(ProgramError::Unread(path)),
        Err(SourceError::NoMemory) => Err(ProgramError::NoMemory),
    }
}

/// Runs a new session without files to its end, and returns whether the report at its end is wrong.
fn serve<S: Source, R: Input, W: Output>(
    alloc: Global,
    outside: Outside,
    source: &mut S,
    input: &mut R,
    out: &mut W,
) -> Result<bool, ProgramError<'static>>
    ensures runs { Serves S.answers R.remaining W.written (begun outside) (outcome_lent result)
        source.old source.new input.old input.new out.old out.new }
    ensures reads { CountsInput (outcome_lent result) (R.failures input.old) (R.failures input.new) }
    ensures writes { CountsOutput (outcome_lent result) (W.failures out.old) (W.failures out.new) }
{
    let mut session = Session::new(alloc, outside)?;
    run_through(alloc, &mut session, source, input, out)
}

/// Runs a session to its end, and returns whether the report at its end is wrong.
fn run_through<S: Source, R: Input, W: Output>(
    alloc: Global,
    session: &mut Session,
    source: &mut S,
    input: &mut R,
    out: &mut W,
) -> Result<bool, ProgramError<'static>>
    ensures runs { Serves S.answers R.remaining W.written (contents_of session.old) (outcome_lent result)
        source.old source.new input.old input.new out.old out.new }
    ensures reads { CountsInput (outcome_lent result) (R.failures input.old) (R.failures input.new) }
    ensures writes { CountsOutput (outcome_lent result) (W.failures out.old) (W.failures out.new) }
{
    match run(alloc, session, source, input, out) {
        Ok(_) => Ok(session.report().wrong()),
        Err(error) => Err(ProgramError::from(error)),
    }
}

/// Writes the line of a fault to `err`, and returns the status of the outcome.
fn conclude<E: Output>(err: &mut E, outcome: Result<bool, ProgramError<'_>>) -> u8
    ensures { Concludes E.written E.failures (outcome_lent outcome.entry) result err.old err.new }
{
    match outcome {
        Ok(true) => 1,
        Ok(false) => 0,
        Err(fault) => {
            tell(err, fault);
            fault.status()
        }
    }
}
