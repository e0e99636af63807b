//! The calls of a row of edits: edits of a session, with their numbers of parts and of look-ups, and queries of its
//! report.

use crate::assembler::assemble;
use crate::compare::difference;
use crate::outcome::output_for;
use crate::parts::{Names, bytes_of};
use crate::row::without_comment;
use crate::tokens::{Token, tokens_of};
use anyhow::{Context, Result, bail};
use jc_base::{MemOutput, Output};
use jc_link::Answer;
use jc_report::Row;
use jc_session::{Done, Edit, EditError, Session};
use jc_text::TextWriter;
use std::alloc::{AllocError, Global};

/// Makes the calls of these lines, and returns a message about the first that returns another result than is wanted.
pub(crate) fn told_of_edits(
    alloc: Global,
    names: &Names,
    session: &mut Session,
    lines: &[&str],
) -> Result<Option<String>> {
    for line in lines {
        let told = told_of_line(alloc, names, session, line).context(*line)?;
        if told.is_some() {
            return Ok(told);
        }
    }
    Ok(None)
}

fn told_of_line(
    alloc: Global,
    names: &Names,
    session: &mut Session,
    line: &str,
) -> Result<Option<String>> {
    let (tokens, wanted) = tokens_of(alloc, line)?;
    let (wanted, wanted_asks) = split_asks(without_comment(wanted.unwrap_or("")))?;
    let mut output = output_for(alloc, None, wanted.as_bytes())?;
    let asks = answer(alloc, names, session, &tokens, &mut output)?;
    let found = output.bytes();
    let is_counted = wanted_asks.is_none() || wanted_asks == Some(asks);
    told_of_answer(alloc, line, wanted.as_bytes(), found, is_counted)
}

/// Makes the call of these tokens, writes its result to an output, and returns the number of its look-ups.
fn answer(
    alloc: Global,
    names: &Names,
    session: &mut Session,
    words: &[Token<'_>],
    output: &mut MemOutput,
) -> Result<u64> {
    let mut out = TextWriter::new(output);
    let asks = call(alloc, names, session, words, &mut out)?;
    let _ = out.finish();
    Ok(asks)
}

/// Splits a wanted answer into its text and the number of names that the edit looks up, if the row has one.
fn split_asks(wanted: &str) -> Result<(&str, Option<u64>)> {
    match wanted.split_once(", asks ") {
        Some((wanted, asks)) => Ok((wanted, Some(asks.parse::<u64>()?))),
        None => Ok((wanted, None)),
    }
}

fn told_of_answer(
    alloc: Global,
    line: &str,
    wanted: &[u8],
    found: &[u8],
    is_counted: bool,
) -> Result<Option<String>> {
    if wanted != found {
        return Ok(Some(difference(alloc, line, wanted, found)?));
    }
    if !is_counted {
        return Ok(Some(format!(in alloc; "{line}: it asks for another number of names")?));
    }
    Ok(None)
}

/// Makes the call of these tokens, writes its result, and returns the number of its look-ups.
fn call<W: Output>(
    alloc: Global,
    names: &Names,
    session: &mut Session,
    words: &[Token<'_>],
    out: &mut TextWriter<'_, W>,
) -> Result<u64> {
    let [Token::Word(word), Token::Word(argument), rest @ ..] = words else {
        bail!("no such call");
    };
    match *word {
        "classes" => add_classes(alloc, session, argument, rest)?,
        "copies" => add_copies(alloc, names, session, argument, rest)?,
        "dependants" => write_dependants(out, session, argument),
        "holders" => write_holders(out, session, argument)?,
        "part" => write_part(out, session, argument),
        "answer" => write_answer_at(out, session, argument, rest)?,
        "provided" => write_provided(out, session, argument),
        "required" => write_required(out, session, argument),
        "report" => write_circular(out, session),
        "meter" => out.decimal(session.meter().made()),
        "outside" => return call_outside(alloc, session, argument, rest, out),
        _ => {
            let bytes = bytes_of(alloc, names, rest)?;
            return make_edit(alloc, session, word, argument, bytes, out);
        }
    }
    Ok(0)
}

fn make_edit<W: Output>(
    alloc: Global,
    session: &mut Session,
    word: &str,
    path: &str,
    bytes: Vec<u8>,
    out: &mut TextWriter<'_, W>,
) -> Result<u64> {
    let edit = edit_of(alloc, word, path, bytes)?;
    Ok(write_done(out, session.edit(edit)))
}

/// Adds or drops an outside prefix, or writes whether the session has it.
fn call_outside<W: Output>(
    alloc: Global,
    session: &mut Session,
    word: &str,
    words: &[Token<'_>],
    out: &mut TextWriter<'_, W>,
) -> Result<u64> {
    let prefix = prefix_of(words)?;
    let edit = match word {
        "add" => Edit::AddPrefix(Vec::from_slice(alloc, prefix)?),
        "drop" => Edit::DropPrefix(Vec::from_slice(alloc, prefix)?),
        "has" => {
            write_held(out, session, prefix);
            return Ok(0);
        }
        _ => bail!("no such call"),
    };
    Ok(write_done(out, session.edit(edit)))
}

fn prefix_of<'a>(words: &[Token<'a>]) -> Result<&'a [u8]> {
    match words {
        [] => Ok(b""),
        [Token::Word(prefix)] => Ok(prefix.as_bytes()),
        _ => bail!("more than a prefix"),
    }
}

fn write_held<W: Output>(out: &mut TextWriter<'_, W>, session: &Session, prefix: &[u8]) {
    match session.outside().has(prefix) {
        true => out.text(b"yes"),
        false => out.text(b"no"),
    }
}

/// Writes the number of classes that require the row at a place.
fn write_holders<W: Output>(
    out: &mut TextWriter<'_, W>,
    session: &Session,
    place: &str,
) -> Result<()> {
    out.decimal(session.holders(place.parse::<usize>()?));
    Ok(())
}

/// Writes the number of answers in the part of a class.
fn write_part<W: Output>(out: &mut TextWriter<'_, W>, session: &Session, name: &str) {
    match session.part(name.as_bytes()) {
        Some(part) => out.decimal(part.answers().len()),
        None => out.text(b"none"),
    }
}

/// Writes the answer of a class to the reference of the constant at an index.
fn write_answer_at<W: Output>(
    out: &mut TextWriter<'_, W>,
    session: &Session,
    name: &str,
    words: &[Token<'_>],
) -> Result<()> {
    let [Token::Word(index)] = words else {
        bail!("an answer without an index");
    };
    let index = index.parse::<u16>()?;
    match session.report().class(name.as_bytes()) {
        Some(class) => write_answer(out, class.answer(index)),
        None => out.text(b"no class"),
    }
    Ok(())
}

fn write_answer<W: Output>(out: &mut TextWriter<'_, W>, answer: Option<Answer<'_>>) {
    match answer {
        Some(Answer::ToClass(class, _)) => write_after(out, b"To ", class),
        Some(Answer::ToMember(class, member)) => {
            write_after(out, b"To ", class);
            write_after(out, b".", member.name);
            write_after(out, b":", member.descriptor);
        }
        Some(Answer::Outside(name)) => write_after(out, b"Outside ", name),
        Some(Answer::NotLoaded) => out.text(b"NotLoaded"),
        Some(Answer::Error(error, name)) => {
            out.text(b"error ");
            out.decimal(error.code());
            write_after(out, b" ", name);
        }
        None => out.text(b"none"),
    }
}

/// Writes a text and a name after it.
fn write_after<W: Output>(out: &mut TextWriter<'_, W>, text: &[u8], name: &[u8]) {
    out.text(text);
    out.path(name);
}

/// Writes the rows that a class provides, with a space before each.
fn write_provided<W: Output>(out: &mut TextWriter<'_, W>, session: &Session, name: &str) {
    out.text(b"rows");
    if let Some(class) = session.report().class(name.as_bytes()) {
        for row in class.provided() {
            write_row(out, row);
        }
    }
}

/// Writes the rows that a class requires, with a space before each.
fn write_required<W: Output>(out: &mut TextWriter<'_, W>, session: &Session, name: &str) {
    out.text(b"rows");
    if let Some(class) = session.report().class(name.as_bytes()) {
        for row in class.required() {
            write_row(out, row);
        }
    }
}

fn write_row<W: Output>(out: &mut TextWriter<'_, W>, row: Row<'_>) {
    write_after(out, b" ", row.class);
    if !row.name.is_empty() {
        write_after(out, b".", row.name);
        write_after(out, b":", row.descriptor);
    }
}

/// Writes the names of the circular classes, with a space before each.
fn write_circular<W: Output>(out: &mut TextWriter<'_, W>, session: &Session) {
    out.text(b"names");
    for name in session.report().circular() {
        write_after(out, b" ", name);
    }
}

/// Adds files, each with a class whose superclass is `java/lang/Object`. The names are a prefix and a number from 1.
fn add_classes(
    alloc: Global,
    session: &mut Session,
    count: &str,
    words: &[Token<'_>],
) -> Result<()> {
    let [Token::Word(front)] = words else {
        bail!("classes without the front of their names");
    };
    for index in 0..count.parse::<u32>()? {
        let name = numbered(alloc, front, index)?;
        add_file(session, &name, assemble(alloc, &name, &[])?)?;
    }
    Ok(())
}

/// Adds files with the same bytes. The paths are a prefix and a number from 1.
fn add_copies(
    alloc: Global,
    names: &Names,
    session: &mut Session,
    count: &str,
    words: &[Token<'_>],
) -> Result<()> {
    let [Token::Word(front), parts @ ..] = words else {
        bail!("copies without the front of their paths");
    };
    let bytes = bytes_of(alloc, names, parts)?;
    for index in 0..count.parse::<u32>()? {
        let path = numbered(alloc, front, index)?;
        add_file(session, &path, Vec::from_slice(alloc, &bytes)?)?;
    }
    Ok(())
}

fn numbered(alloc: Global, front: &str, index: u32) -> Result<String, AllocError> {
    format!(in alloc; "{front}{}", index.saturating_add(1))
}

fn add_file(session: &mut Session, path: &str, bytes: Vec<u8>) -> Result<()> {
    let path = Vec::from_slice(*bytes.allocator(), path.as_bytes())?;
    match session.edit(Edit::Add(path, bytes)) {
        Ok(_) => Ok(()),
        Err(_) => bail!("a refused edit"),
    }
}

/// Writes the classes that depend on a name, with a space between them.
fn write_dependants<W: Output>(out: &mut TextWriter<'_, W>, session: &Session, name: &str) {
    for (number, class) in session.dependants(name.as_bytes()).iter().enumerate() {
        if number > 0 {
            out.text(b" ");
        }
        out.path(class);
    }
}

fn edit_of(alloc: Global, word: &str, path: &str, bytes: Vec<u8>) -> Result<Edit> {
    let path = Vec::from_slice(alloc, path.as_bytes())?;
    match word {
        "add" => Ok(Edit::Add(path, bytes)),
        "replace" => Ok(Edit::Replace(path, bytes)),
        "remove" => Ok(Edit::Remove(path)),
        _ => bail!("no such edit"),
    }
}

/// Writes how many parts an edit made, or why it is refused, and returns the number of its look-ups.
fn write_done<W: Output>(out: &mut TextWriter<'_, W>, done: Result<Done, EditError>) -> u64 {
    match done {
        Ok(done) => {
            out.text(b"made ");
            out.decimal(done.made);
            done.asks
        }
        Err(error) => {
            out.text(b"refused ");
            out.decimal(error.code());
            out.text(b" ");
            out.text(error.name());
            0
        }
    }
}
