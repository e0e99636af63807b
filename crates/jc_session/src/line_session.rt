//! A run: the lines of an input are answered one by one.
ghost use Rattle.std.specs.Prelude.{◌≡◌, ◌≤◌, ◌≢◌, true, IfErr};
ghost use Rattle.jc_input.specs.declared.run_error.RunError.TheVariants.{Read};
ghost use Rattle.jc_input.specs.Lines.{command_of};
ghost use Rattle.jc_input.specs.RunErrors.{CountsReads, CountsWrites};
ghost use Rattle.jc_edits.specs.SessionState.{contents_of};
ghost use Rattle.jc_session.specs.Runs.{LineMayLack, RunsOver, RunsOverByAnswers};
ghost use Rattle.jc_session.specs.inside.Replies.{AnswersLast, AnswersLastByAnswers, LacksOnlyIf};

use crate::answer::{Next, answer};
use jc_base::{Input, Output};
use jc_edits::Session;
use jc_input::{Ahead, Ended, Line, RunError, Source, parse_line, read_line};
use std::alloc::Global;

/// Answers the lines of an input one by one, up to the line `end` or the end of the input.
///
/// The other commands are `add PATH`, `replace PATH`, `remove PATH`, `outside add PREFIX`, `outside drop PREFIX`,
/// `report`, `part NAME`, `list NAME` and `dependants NAME`. The answer to any other line is `bad line`.
///
/// A line's answer is written before more of the input is read, and nothing is read after the end of the input. An edit
/// is made before its answer is written.
///
/// # Errors
///
/// `Read`: the input failed. `Write`: the output failed; the line was executed. `NoMemory`: an allocation failed, or
/// the source returned `NoMemory`. A line that runs out of memory changes neither files nor prefixes.
pub fn run<S: Source, R: Input, W: Output>(
    alloc: Global,
    session: &mut Session,
    source: &mut S,
    input: &mut R,
    out: &mut W,
) -> Result<Ended, RunError>
    ensures runs { RunsOver S.answers R.remaining W.written result
        session.old session.new source.old source.new input.old input.new out.old out.new }
    // For any source: by the answers that it returned.
    ensures by_answers { RunsOverByAnswers R.remaining W.written result session.old session.new input.old input.new out.old out.new }

    // An input that has ended is not read.
    ensures ended { R.ended input.old ≡ true → input.new ≡ input.old }
    ensures reads { CountsReads result (R.failures input.old) (R.failures input.new) }
    ensures writes { CountsWrites result (W.failures out.old) (W.failures out.new) }
    ensures asks_rise { session.old.asks ≤ session.new.asks }
    ensures made_rise { session.old.made ≤ session.new.made }
{
    let mut line = Line::new(alloc)?;
    let mut ahead = Ahead::new();
    while read_line(&mut line, &mut ahead, input)? {
        match answer(alloc, session, source, parse_line(line.bytes()), out)? {
            Next::Line => {}
            Next::Nothing => return Ok(Ended::End),
        }
    }
    answer_last(alloc, session, source, line.bytes(), out)
}

/// Answers the bytes after the last LF, which are a line if there are any.
fn answer_last<S: Source, W: Output>(
    alloc: Global,
    session: &mut Session,
    source: &mut S,
    line: &[u8],
    out: &mut W,
) -> Result<Ended, RunError>
    ensures gives { AnswersLast S.answers W.written line.now result
        session.old session.new source.old source.new out.old out.new }
    ensures lacks { LacksOnlyIf (S.answers source.old) (λ s. LineMayLack (contents_of session.old) s (command_of line.now)) result }
    ensures any { AnswersLastByAnswers W.written line.now result session.old session.new out.old out.new }
    ensures failures { CountsWrites result (W.failures out.old) (W.failures out.new) }
    ensures err { IfErr result (λ e. e ≢ Read) }
    ensures asks_rise { session.old.asks ≤ session.new.asks }
    ensures made_rise { session.old.made ≤ session.new.made }
{
    if line.is_empty() {
        return Ok(Ended::Eof);
    }
    match answer(alloc, session, source, parse_line(line), out)? {
        Next::Line => Ok(Ended::Eof),
        Next::Nothing => Ok(Ended::End),
    }
}
