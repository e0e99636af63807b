//! The execution of one line of a session, and its answer.
ghost use Rattle.std.specs.Prelude.{◌≡◌, ◌≤◌, ◌≢◌, IfErr, IsSome, None};
ghost use Rattle.jc_input.specs.declared.run_error.RunError.TheVariants.{NoMemory, Read};
ghost use Rattle.jc_input.specs.Changes.{EditChange, change_lent};
ghost use Rattle.jc_edits.specs.Edits.{judge_edit};
ghost use Rattle.jc_edits.specs.SessionState.{Contents, contents_of};
ghost use Rattle.jc_report.specs.FileRows.{winner};
ghost use Rattle.jc_input.specs.RunErrors.{CountsWrites};
ghost use Rattle.jc_session.specs.Runs.{LineMayLack};
ghost use Rattle.jc_input.specs.LentCommands.{command_lent};
ghost use Rattle.jc_session.specs.inside.Replies.{AnswersLine, AnswersLineByAnswers, AnswersPlacing, AnswersPlacingByAnswers};
ghost use Rattle.jc_session.specs.inside.Replies.{IsEdited, LacksOnlyIf, PlacingMayLack, SaysEdit, SaysListing, placed, said_by};

use crate::answer_text::{write_bad_line, write_edit_answer, write_names, write_unread};
use crate::file_listing::list_winner;
use jc_base::Output;
use jc_edits::{Done, EditError, LentEdit, PrefixEdit, Session, write_part_of, write_report};
use jc_input::{Command, RunError, Source, SourceError};
use jc_list::ListError;
use std::alloc::Global;

/// What follows an answer.
#[derive(Clone, Copy)]
pub(crate) enum Next {
    /// The next line is read.
    Line,
    /// No further line is read.
    Nothing,
}

/// Whether the bytes of the source become a new file or replace those of a file.
#[derive(Clone, Copy)]
pub(crate) enum Placing {
    /// The bytes become a new file.
    Add,
    /// The bytes replace those of a file.
    Replace,
}

impl Placing {
    /// Returns the edit that adds or replaces the file at a path.
    fn edit(self, path: &[u8], bytes: Vec<u8>) -> LentEdit<'_>
        ensures { change_lent result ≡ placed self path.now bytes.items }
    {
        match self {
            Placing::Add => LentEdit::Add(path, bytes),
            Placing::Replace => LentEdit::Replace(path, bytes),
        }
    }
}

/// Executes the command of a line, then writes the answer.
///
/// Never returns `Read`. `Write`: the output failed. `NoMemory`: an allocation failed, or the source returned
/// `NoMemory`; neither files nor prefixes have changed.
pub(crate) fn answer<S: Source, W: Output>(
    alloc: Global,
    session: &mut Session,
    source: &mut S,
    command: Command<'_>,
    out: &mut W,
) -> Result<Next, RunError>
    ensures gives { AnswersLine S.answers W.written (command_lent command.entry) result
        session.old session.new source.old source.new out.old out.new }
    ensures lacks { LacksOnlyIf (S.answers source.old) (λ s. LineMayLack (contents_of session.old) s (command_lent command.entry)) result }
    ensures any { AnswersLineByAnswers W.written (command_lent command.entry) result session.old session.new out.old out.new }
    ensures failures { CountsWrites result (W.failures out.old) (W.failures out.new) }
    ensures err { IfErr result (λ e. e ≢ Read) }
    ensures asks_rise { session.old.asks ≤ session.new.asks }
    ensures made_rise { session.old.made ≤ session.new.made }
{
    match command {
        Command::Add(path) => answer_sourced(session, source, path, Placing::Add, out),
        Command::Replace(path) => answer_sourced(session, source, path, Placing::Replace, out),
        Command::Remove(path) => answer_edit(session.make(LentEdit::Remove(path)), out),
        Command::AddPrefix(prefix) => answer_edit(
            session.make_prefix(PrefixEdit::Add(prefix)),
            out,
        ),
        Command::DropPrefix(prefix) => answer_edit(
            session.make_prefix(PrefixEdit::Drop(prefix)),
            out,
        ),
        Command::Report => said(write_report(session.report(), out)),
        Command::Part(name) => said(write_part_of(session.report(), name, out)),
        Command::List(name) => answer_listing(alloc, session, name, out),
        Command::Dependants(name) => said(write_names(out, session.dependants(name))),
        Command::Bad => said(write_bad_line(out)),
        Command::End => Ok(Next::Nothing),
    }
}

/// Reads the bytes at a path from the source, and makes the edit that adds or replaces the file.
fn answer_sourced<S: Source, W: Output>(
    session: &mut Session,
    source: &mut S,
    path: &[u8],
    placing: Placing,
    out: &mut W,
) -> Result<Next, RunError>
    ensures gives { AnswersPlacing S.answers W.written placing path.now result
        session.old session.new source.old source.new out.old out.new }
    ensures lacks { LacksOnlyIf (S.answers source.old) (PlacingMayLack (contents_of session.old) placing path.now) result }
    ensures any { AnswersPlacingByAnswers W.written placing path.now result session.old session.new out.old out.new }
    ensures failures { CountsWrites result (W.failures out.old) (W.failures out.new) }
    ensures err { IfErr result (λ e. e ≢ Read) }
    ensures asks_rise { session.old.asks ≤ session.new.asks }
    ensures made_rise { session.old.made ≤ session.new.made }
{
    match source.read(path) {
        Ok(bytes) => answer_edit(session.make(placing.edit(path, bytes)), out),
        Err(SourceError::Unread) => said(write_unread(out, path)),
        Err(SourceError::NoMemory) => Err(RunError::NoMemory),
    }
}

/// Writes `ok` for an edit that was made, or why it was refused.
fn answer_edit<W: Output>(edited: Result<Done, EditError>, out: &mut W) -> Result<Next, RunError>
    ensures gives { SaysEdit edited result (W.written out.old) (W.written out.new) }
    ensures lacks { (h g : Contents) (change : EditChange) → IsEdited h g change edited
        → result ≡ Err NoMemory → judge_edit h change ≡ None }
    ensures failures { CountsWrites result (W.failures out.old) (W.failures out.new) }
    ensures err { IfErr result (λ e. e ≢ Read) }
{
    match edited {
        Err(EditError::NoMemory) => Err(RunError::NoMemory),
        answer => said(write_edit_answer(out, answer)),
    }
}

/// Writes the listing of the winner of a class.
fn answer_listing<W: Output>(
    alloc: Global,
    session: &Session,
    name: &[u8],
    out: &mut W,
) -> Result<Next, RunError>
    ensures gives { SaysListing session.now name.now result (W.written out.old) (W.written out.new) }
    ensures lacks { result ≡ Err NoMemory → IsSome (winner session.now.files name.now) }
    ensures failures { CountsWrites result (W.failures out.old) (W.failures out.new) }
    ensures err { IfErr result (λ e. e ≢ Read) }
{
    match list_winner(alloc, session, name, out) {
        Ok(()) => Ok(Next::Line),
        Err(ListError::Write) => Err(RunError::Write),
        Err(ListError::NoMemory) => Err(RunError::NoMemory),
    }
}

/// Returns the outcome of a line by whether its answer was written: every failure is `Write`.
fn said<E: Drop>(written: Result<(), E>) -> Result<Next, RunError>
    ensures { result ≡ said_by written }
{
    match written {
        Ok(()) => Ok(Next::Line),
        Err(_) => Err(RunError::Write),
    }
}
