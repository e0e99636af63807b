//! The result of a run or of the program, and the result that is wanted.

use crate::compare::difference;
use crate::dialogue::Dialogue;
use crate::doubles::{RefusedFiles, TakesNothing};
use jc_base::{MemInput, MemOutput, StdOutput};
use jc_session::{Ended, MemSource, RunError, Session, program, run};
use std::alloc::{AllocError, Global};
use std::mem;
use std::rt::Files;

/// The wanted output, standard error and ending.
#[derive(Drop)]
pub(crate) struct Expected {
    pub(crate) output: Vec<u8>,
    pub(crate) told: Vec<u8>,
    pub(crate) ending: String,
}

impl Expected {
    pub(crate) fn new(alloc: Global) -> Expected {
        Expected {
            output: Vec::new(alloc),
            told: Vec::new(alloc),
            ending: String::new(alloc),
        }
    }

    /// Returns a message if one of the texts differs from the wanted one.
    fn difference(
        &self,
        alloc: Global,
        output: &[u8],
        told: &[u8],
        ending: &str,
    ) -> Result<Option<String>, AllocError> {
        for (what, wanted, found) in [
            ("output", self.output.as_slice(), output),
            ("standard error", &self.told, told),
            ("ending", self.ending.as_bytes(), ending.as_bytes()),
        ] {
            if wanted != found {
                return Ok(Some(difference(alloc, what, wanted, found)?));
            }
        }
        Ok(None)
    }
}

/// Returns an output with this room, or with more than enough room for the wanted bytes.
pub(crate) fn output_for(
    alloc: Global,
    room: Option<usize>,
    wanted: &[u8],
) -> Result<MemOutput, AllocError> {
    let room = room.unwrap_or(wanted.len().saturating_add(100));
    match MemOutput::new(alloc, room) {
        Ok(output) => Ok(output),
        Err(_) => Err(AllocError),
    }
}

/// Returns how a run ends, with the number of its error if it has one, and whether the report is wrong.
fn ending_of(
    alloc: Global,
    ended: Result<Ended, RunError>,
    is_wrong: bool,
) -> Result<String, AllocError> {
    let wrong = if is_wrong { ", wrong" } else { "" };
    match ended {
        Ok(ended) => format!(in alloc; "{ended:?}{wrong}"),
        Err(error) => format!(in alloc; "{} {error:?}{wrong}", error.code()),
    }
}

/// Runs a session, and returns a message if the result differs from the dialogue.
pub(crate) fn told_of_outcome(
    alloc: Global,
    session: &mut Session,
    dialogue: &mut Dialogue,
) -> Result<Option<String>, AllocError> {
    let mut out = output_for(alloc, dialogue.room, &dialogue.wanted.output)?;
    let ended = run_dialogue(alloc, session, dialogue, &mut out);
    let ending = ending_of(alloc, ended, session.report().wrong())?;
    dialogue.wanted.difference(alloc, out.bytes(), &[], &ending)
}

fn run_dialogue(
    alloc: Global,
    session: &mut Session,
    dialogue: &mut Dialogue,
    out: &mut MemOutput,
) -> Result<Ended, RunError> {
    let answers = mem::replace(&mut dialogue.answers, Vec::new(alloc));
    let mut source = MemSource::new(answers);
    let mut input = MemInput::new(&dialogue.input, dialogue.fails);
    if dialogue.takes_bytes {
        run(alloc, session, &mut source, &mut input, out)
    } else {
        let mut out = StdOutput::new(TakesNothing);
        run(alloc, session, &mut source, &mut input, &mut out)
    }
}

/// Runs the program, and returns a message if the result differs from the dialogue.
pub(crate) fn told_of_status(
    rt: &(impl Files + AllocGlobal),
    dialogue: &Dialogue,
) -> Result<Option<String>, AllocError> {
    let mut out = output_for(rt.alloc(), dialogue.room, &dialogue.wanted.output)?;
    let mut err = output_for(rt.alloc(), dialogue.error_room, &dialogue.wanted.told)?;
    let status = status_of(rt, dialogue, &mut out, &mut err);
    told_of_outputs(rt.alloc(), &dialogue.wanted, &out, &err, status)
}

fn told_of_outputs(
    alloc: Global,
    wanted: &Expected,
    out: &MemOutput,
    err: &MemOutput,
    status: u8,
) -> Result<Option<String>, AllocError> {
    let ending = format!(in alloc; "{status}")?;
    wanted.difference(alloc, out.bytes(), err.bytes(), &ending)
}

fn status_of(
    rt: &(impl Files + AllocGlobal),
    dialogue: &Dialogue,
    out: &mut MemOutput,
    err: &mut MemOutput,
) -> u8 {
    let mut input = MemInput::new(&dialogue.input, dialogue.fails);
    let words = dialogue.words.as_slice();
    match dialogue.refusal {
        None => program(rt, words, &mut input, out, err),
        Some(refusal) => program(&RefusedFiles { rt, refusal }, words, &mut input, out, err),
    }
}
