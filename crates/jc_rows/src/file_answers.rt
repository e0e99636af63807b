//! The result of a source of files.

use jc_base::Output;
use jc_session::{FileSource, Source, SourceError};
use jc_text::TextWriter;
use std::rt::Files;
use std::{fs, io};

/// The path of the file.
const PATH: &str = "row";

/// Writes the number of bytes that a source reads from a file with these bytes.
pub(crate) fn write_read<F: Files + AllocGlobal, W: Output>(
    rt: &F,
    out: &mut TextWriter<'_, W>,
    bytes: &[u8],
) {
    match read_back(rt, bytes) {
        Ok(Ok(length)) => {
            out.decimal(length);
            out.text(b" bytes");
        }
        Ok(Err(SourceError::Unread)) => out.text(b"Unread"),
        Ok(Err(SourceError::NoMemory)) => out.text(b"NoMemory"),
        Err(_) => out.text(b"no file"),
    }
}

fn read_back<F: Files + AllocGlobal>(
    rt: &F,
    bytes: &[u8],
) -> io::Result<Result<usize, SourceError>> {
    fs::write(rt, PATH, bytes)?;
    let read = length_of_read(rt);
    fs::remove_file(rt, PATH)?;
    Ok(read)
}

fn length_of_read<F: Files + AllocGlobal>(rt: &F) -> Result<usize, SourceError> {
    Ok(FileSource::new(rt).read(PATH.as_bytes())?.len())
}
