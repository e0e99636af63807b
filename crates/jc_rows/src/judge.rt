//! Judges the rows of a file, one by one.

use crate::assembler::assemble;
use crate::class_answers::{write_faults, write_parsed};
use crate::code_answers::{write_code_faults, write_instructions};
use crate::compare::difference;
use crate::dialogue::{Dialogue, NamedFile};
use crate::edits::told_of_edits;
use crate::error_answers::write_errors;
use crate::file_answers::write_read;
use crate::outcome::{output_for, told_of_outcome, told_of_status};
use crate::parts::{Names, bytes_of};
use crate::prefix_answers::write_covered;
use crate::row::{Row, Statement, head_of, rows_of};
use crate::text_answers::{write_field, write_method, write_names, write_signature, write_units};
use crate::tokens::Token;
use anyhow::{Context, Result, bail};
use jc_base::{ByteMap, MemOutput, Output, SigKind};
use jc_link::Outside;
use jc_session::Session;
use jc_text::TextWriter;
use std::alloc::{AllocError, Global};
use std::io::ErrorKind;
use std::rt::Files;
use std::{fs, io, mem};

/// The number of rows of a file, and the number of wrong rows.
#[derive(Clone, Copy)]
pub(crate) struct Tally {
    pub(crate) rows: u64,
    pub(crate) wrong: u64,
}

/// The state that rows share with later rows: names, and the session of the last run.
#[derive(Drop)]
pub(crate) struct Judge {
    names: Names,
    session: Session,
}

/// The result of judging a row: a definition, a correct row, or the message about a wrong row.
#[derive(Drop)]
enum Found {
    Definition,
    Right,
    Wrong(String),
}

/// Judges the rows of a text, and prints those that are wrong.
pub(crate) fn judge_file(
    rt: &(impl Files + AllocGlobal + Print),
    judge: &mut Judge,
    path: &str,
    text: &str,
) -> Result<Tally> {
    let rows = rows_of(rt.alloc(), text)?;
    judge.forget(rt.alloc())?;
    judge.judge_rows(rt, path, &rows)
}

impl Tally {
    fn count(&mut self, found: &Found) {
        if !matches!(found, Found::Definition) {
            self.rows = self.rows.wrapping_add(1);
        }
        if matches!(found, Found::Wrong(_)) {
            self.wrong = self.wrong.wrapping_add(1);
        }
    }
}

/// Prints the message about a row, if it is wrong.
fn tell(rt: &impl Print, path: &str, number: usize, found: &Found) -> Result<()> {
    if let Found::Wrong(told) = found {
        println!(rt; "{path}:{number}: {told}")?;
    }
    Ok(())
}

fn new_session(alloc: Global) -> Result<Session, AllocError> {
    match Session::new(alloc, Outside::standard()) {
        Ok(session) => Ok(session),
        Err(_) => Err(AllocError),
    }
}

impl Judge {
    pub(crate) fn new(alloc: Global) -> Result<Judge, AllocError> {
        Ok(Judge {
            names: ByteMap::new(alloc),
            session: new_session(alloc)?,
        })
    }

    fn judge_rows(
        &mut self,
        rt: &(impl Files + AllocGlobal + Print),
        path: &str,
        rows: &[Row],
    ) -> Result<Tally> {
        let mut tally = Tally { rows: 0, wrong: 0 };
        for row in rows {
            tally.count(&self.judge_and_tell(rt, path, row)?);
        }
        Ok(tally)
    }

    /// Judges a row, and prints the message about it if it is wrong.
    fn judge_and_tell(
        &mut self,
        rt: &(impl Files + AllocGlobal + Print),
        path: &str,
        row: &Row,
    ) -> Result<Found> {
        let found = self
            .judge(rt, row)
            .context(format_args!("{path}:{}", row.number))?;
        tell(rt, path, row.number, &found)?;
        Ok(found)
    }

    fn judge(&mut self, rt: &(impl Files + AllocGlobal), row: &Row) -> Result<Found> {
        match front_of(rt.alloc(), row)? {
            (name, Token::Equals) => define(rt.alloc(), &mut self.names, name, row),
            (kind, Token::Quoted(what)) => self.judge_kind(rt, kind, what, row),
            _ => bail!("neither a definition nor a row"),
        }
    }

    fn judge_kind(
        &mut self,
        rt: &(impl Files + AllocGlobal),
        kind: &str,
        what: &str,
        row: &Row,
    ) -> Result<Found> {
        match kind {
            "run" | "edits" => self.renew(rt.alloc())?,
            "then" | "then-edits" => {}
            _ => return judge_named(rt, &mut self.names, kind, what, row),
        }
        self.judge_session(rt.alloc(), kind, what, row)
    }

    /// Removes all names, and starts a new session.
    fn forget(&mut self, alloc: Global) -> Result<(), AllocError> {
        self.names = ByteMap::new(alloc);
        self.renew(alloc)
    }

    /// Starts a new session.
    fn renew(&mut self, alloc: Global) -> Result<(), AllocError> {
        drop(mem::replace(&mut self.session, new_session(alloc)?));
        Ok(())
    }

    /// Judges a row over the current session.
    fn judge_session(&mut self, alloc: Global, kind: &str, what: &str, row: &Row) -> Result<Found> {
        let told = match kind {
            "run" | "then" => told_of_run(alloc, &self.names, &mut self.session, &row.more)?,
            _ => told_of_edits(alloc, &self.names, &mut self.session, &row.more)?,
        };
        judged(alloc, what, told)
    }
}

/// Judges a row that needs no session.
fn judge_named(
    rt: &(impl Files + AllocGlobal),
    names: &mut Names,
    kind: &str,
    what: &str,
    row: &Row,
) -> Result<Found> {
    match kind {
        "class" => define_class(rt.alloc(), names, what, row),
        "program" => judge_program(rt, names, what, row),
        _ => judge_bytes(rt, names, kind, what, row),
    }
}

fn define(alloc: Global, names: &mut Names, name: &str, row: &Row) -> Result<Found> {
    let bytes = row_bytes(alloc, names, &row.statement(alloc)?)?;
    name_bytes(alloc, names, name, bytes)
}

/// Names the class file that the lines of a row describe, by the word after `as`, or else by its class.
fn define_class(alloc: Global, names: &mut Names, class: &str, row: &Row) -> Result<Found> {
    let bytes = assemble(alloc, class, &row.more)?;
    match head_of(alloc, row.head)?.parts() {
        [Token::Word("as"), Token::Word(name)] => name_bytes(alloc, names, name, bytes),
        _ => name_bytes(alloc, names, class, bytes),
    }
}

fn name_bytes(alloc: Global, names: &mut Names, name: &str, bytes: Vec<u8>) -> Result<Found> {
    let name = Vec::from_slice(alloc, name.as_bytes())?;
    match names.insert(name, bytes) {
        Ok(None) => Ok(Found::Definition),
        Ok(Some(_)) => bail!("a name is given twice"),
        Err(_) => bail!("no memory"),
    }
}

fn judge_program(
    rt: &(impl Files + AllocGlobal),
    names: &Names,
    what: &str,
    row: &Row,
) -> Result<Found> {
    let dialogue = Dialogue::read(rt.alloc(), names, &row.more)?;
    let told = told_of_program(rt, &dialogue)?;
    judged(rt.alloc(), what, told)
}

fn judge_bytes(
    rt: &(impl Files + AllocGlobal),
    names: &Names,
    kind: &str,
    what: &str,
    row: &Row,
) -> Result<Found> {
    let statement = row.statement(rt.alloc())?;
    let bytes = row_bytes(rt.alloc(), names, &statement)?;
    let wanted = statement.answer.context("a row without its answer")?;
    judge_answer(rt, kind, what, &bytes, wanted.as_bytes())
}

/// Judges the result of the call of a kind for these bytes.
fn judge_answer(
    rt: &(impl Files + AllocGlobal),
    kind: &str,
    what: &str,
    bytes: &[u8],
    wanted: &[u8],
) -> Result<Found> {
    let found = answered(rt, kind, bytes, wanted)?;
    judged_bytes(rt.alloc(), kind, what, wanted, found.bytes())
}

fn row_bytes(alloc: Global, names: &Names, statement: &Statement) -> Result<Vec<u8>> {
    bytes_of(alloc, names, statement.parts())
}

/// Returns the first word of a row, and the token after it.
fn front_of<'a>(alloc: Global, row: &Row<'a>) -> Result<(&'a str, Token<'a>)> {
    match head_of(alloc, row.head)?.tokens.as_slice() {
        [Token::Word(word), behind, ..] => Ok((*word, *behind)),
        _ => bail!("a row begins with a word"),
    }
}

/// Runs a session, and returns a message if the result differs from the dialogue.
fn told_of_run(
    alloc: Global,
    names: &Names,
    session: &mut Session,
    lines: &[&str],
) -> Result<Option<String>> {
    let mut dialogue = Dialogue::read(alloc, names, lines)?;
    Ok(told_of_dialogue(alloc, session, &mut dialogue)?)
}

fn told_of_dialogue(
    alloc: Global,
    session: &mut Session,
    dialogue: &mut Dialogue,
) -> Result<Option<String>, AllocError> {
    let told = told_of_outcome(alloc, session, dialogue)?;
    Ok(unlike(alloc, session, &dialogue.held)?.or(told))
}

/// Returns a message if the session has other bytes for a file than these.
fn unlike(
    alloc: Global,
    session: &Session,
    held: &[NamedFile],
) -> Result<Option<String>, AllocError> {
    for file in held {
        let bytes = session.file(file.name.as_bytes()).unwrap_or(&[]);
        if bytes != file.bytes.as_slice() {
            return Ok(Some(difference(alloc, file.name, &file.bytes, bytes)?));
        }
    }
    Ok(None)
}

/// Runs the program, and returns a message if the result differs from the dialogue.
fn told_of_program(rt: &(impl Files + AllocGlobal), dialogue: &Dialogue) -> Result<Option<String>> {
    write_files(rt, &dialogue.files)?;
    let told = told_of_status(rt, dialogue)?;
    remove_files(rt, &dialogue.files)?;
    Ok(told)
}

/// Writes the files, and creates the folders of their paths.
fn write_files(rt: &impl Files, files: &[NamedFile]) -> io::Result<()> {
    for file in files {
        if let Some((folder, _)) = file.name.rsplit_once('/') {
            fs::create_dir_all(rt, folder)?;
        }
        fs::write(rt, file.name, file.bytes.as_slice())?;
    }
    Ok(())
}

fn remove_files(rt: &(impl Files + AllocGlobal), files: &[NamedFile]) -> io::Result<()> {
    for file in files {
        match file.name.split_once('/') {
            None => fs::remove_file(rt, file.name)?,
            Some((folder, _)) => remove_folder(rt, folder)?,
        }
    }
    Ok(())
}

/// Removes a folder and its contents, if it exists.
fn remove_folder(rt: &(impl Files + AllocGlobal), folder: &str) -> io::Result<()> {
    match fs::remove_dir_all(rt, folder) {
        Err(error) if error.kind() != ErrorKind::NotFound => Err(error),
        _ => Ok(()),
    }
}

fn judged(alloc: Global, what: &str, difference: Option<String>) -> Result<Found> {
    Ok(match difference {
        None => Found::Right,
        Some(told) => Found::Wrong(format!(in alloc; "{what}: {told}")?),
    })
}

/// Judges bytes that were found by those that are wanted.
fn judged_bytes(
    alloc: Global,
    kind: &str,
    what: &str,
    wanted: &[u8],
    found: &[u8],
) -> Result<Found> {
    if found == wanted {
        return Ok(Found::Right);
    }
    judged(alloc, what, Some(difference(alloc, kind, wanted, found)?))
}

/// Returns the result of the call of a kind for these bytes. The output has room for the wanted bytes and some more.
fn answered(
    rt: &(impl Files + AllocGlobal),
    kind: &str,
    bytes: &[u8],
    wanted: &[u8],
) -> Result<MemOutput, AllocError> {
    let mut output = output_for(rt.alloc(), None, wanted)?;
    let mut out = TextWriter::new(&mut output);
    match kind {
        "read" => write_read(rt, &mut out, bytes),
        _ => write_answer(rt.alloc(), &mut out, kind, bytes),
    }
    let _ = out.finish();
    Ok(output)
}

fn write_answer<W: Output>(alloc: Global, out: &mut TextWriter<'_, W>, kind: &str, bytes: &[u8]) {
    match kind {
        "parse" => write_parsed(alloc, out, bytes),
        "faults" => write_faults(alloc, out, bytes),
        "instructions" => write_instructions(out, bytes),
        "code-faults" => write_code_faults(alloc, out, bytes),
        "outside" => write_covered(alloc, out, bytes),
        "errors" => write_errors(alloc, out, bytes),
        "units" => write_units(alloc, out, bytes),
        "name" => write_names(out, bytes),
        "field" => write_field(out, bytes),
        "method" => write_method(out, bytes),
        "class-signature" => write_signature(alloc, out, SigKind::Class, bytes),
        "method-signature" => write_signature(alloc, out, SigKind::Method, bytes),
        "field-signature" => write_signature(alloc, out, SigKind::Field, bytes),
        _ => out.text(b"no such kind of row"),
    }
}
