//! The messages of errors.

use jc_base::Output;
use jc_session::{EditError, RunError, SourceError, WriteError};
use jc_text::TextWriter;
use std::alloc::Global;
use std::fmt::Display;

/// Writes the message of each error of a type, in the order of the variants.
pub(crate) fn write_errors<W: Output>(alloc: Global, out: &mut TextWriter<'_, W>, of: &[u8]) {
    match of {
        b"EditError" => write_edit_errors(alloc, out),
        b"RunError" => {
            let errors = [RunError::Read, RunError::Write, RunError::NoMemory];
            write_each(alloc, out, &errors);
        }
        b"SourceError" => write_each(alloc, out, &[SourceError::Unread, SourceError::NoMemory]),
        b"WriteError" => write_each(alloc, out, &[WriteError]),
        _ => out.text(b"no such type"),
    }
}

fn write_edit_errors<W: Output>(alloc: Global, out: &mut TextWriter<'_, W>) {
    let errors = [
        EditError::AlreadyThere,
        EditError::NoSuchFile,
        EditError::TooLarge,
        EditError::TooMany,
        EditError::BadPath,
        EditError::NoMemory,
        EditError::BadPrefix,
        EditError::PrefixThere,
        EditError::NoSuchPrefix,
        EditError::TooManyPrefixes,
    ];
    write_each(alloc, out, &errors);
}

fn write_each<W: Output, E: Display>(alloc: Global, out: &mut TextWriter<'_, W>, errors: &[E]) {
    for (number, error) in errors.iter().enumerate() {
        if number > 0 {
            out.text(b"; ");
        }
        match format!(in alloc; "{error}") {
            Ok(words) => out.text(words.as_bytes()),
            Err(_) => out.text(b"no memory"),
        }
    }
}
