//! The results of outside prefixes.

use jc_base::{NoMemory, Output};
use jc_link::{Outside, OutsideError};
use jc_text::TextWriter;
use std::alloc::Global;
use std::str::Lines;

/// Writes whether the name in the first line begins with a prefix in the other lines, or why the prefixes are refused.
pub(crate) fn write_covered<W: Output>(alloc: Global, out: &mut TextWriter<'_, W>, bytes: &[u8]) {
    let mut lines = str::from_utf8(bytes).unwrap_or("").lines();
    let name = lines.next().unwrap_or("");
    match made(alloc, lines) {
        Ok(Ok(outside)) if outside.covers(name.as_bytes()) => out.text(b"outside"),
        Ok(Ok(_)) => out.text(b"not outside"),
        Ok(Err(OutsideError::BadPrefix)) => out.text(b"1 BadPrefix"),
        Ok(Err(OutsideError::TooManyPrefixes)) => out.text(b"2 TooManyPrefixes"),
        _ => out.text(b"no memory"),
    }
}

fn made(alloc: Global, lines: Lines<'_>) -> Result<Result<Outside, OutsideError>, NoMemory> {
    let mut prefixes: Vec<&[u8]> = Vec::new(alloc);
    for line in lines {
        prefixes.push(line.as_bytes())?;
    }
    Ok(Outside::new(alloc, &prefixes))
}
