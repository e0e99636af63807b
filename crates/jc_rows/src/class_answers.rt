//! The results of `parse` and `format_faults`.

use jc_base::Output;
use jc_file::{Fault, ParseError, format_faults, parse};
use jc_report::write_refusal;
use jc_text::TextWriter;
use std::alloc::Global;

/// Writes the name of the class, or the refusal.
pub(crate) fn write_parsed<W: Output>(alloc: Global, out: &mut TextWriter<'_, W>, bytes: &[u8]) {
    match parse(alloc, bytes) {
        Ok(view) => {
            out.text(b"class ");
            out.path(view.name());
        }
        Err(refusal) => write_refusal(out, refusal),
    }
}

/// The maximum length of a class file whose truncations are parsed.
const MOST_BYTES: usize = 4096;

/// Returns whether each truncation of a class file is refused as `Short`. Bytes that are not a class file, or more than
/// 4,096 bytes, are not tested, and the result is true.
pub(crate) fn has_short_fronts(alloc: Global, bytes: &[u8]) -> bool {
    if bytes.len() > MOST_BYTES || parse(alloc, bytes).is_err() {
        return true;
    }
    for length in 0..bytes.len() {
        if !is_short(alloc, &bytes[..length]) {
            return false;
        }
    }
    true
}

fn is_short(alloc: Global, bytes: &[u8]) -> bool {
    matches!(parse(alloc, bytes), Err(ParseError::Short))
}

/// Writes the faults in their order.
pub(crate) fn write_faults<W: Output>(alloc: Global, out: &mut TextWriter<'_, W>, bytes: &[u8]) {
    let view = match parse(alloc, bytes) {
        Ok(view) => view,
        Err(refusal) => return write_refusal(out, refusal),
    };
    match format_faults(alloc, &view) {
        Ok(faults) => write_each(out, &faults),
        Err(_) => out.text(b"no memory"),
    }
}

fn write_each<W: Output>(out: &mut TextWriter<'_, W>, faults: &[Fault]) {
    if faults.is_empty() {
        out.text(b"none");
    }
    for (number, fault) in faults.iter().enumerate() {
        write_fault(out, number > 0, b"F", fault.rule.number(), fault.place);
    }
}

/// Writes a fault, after a comma if it is not the first.
pub(crate) fn write_fault<W: Output>(
    out: &mut TextWriter<'_, W>,
    is_next: bool,
    letter: &[u8],
    rule: u8,
    place: usize,
) {
    if is_next {
        out.text(b", ");
    }
    out.text(letter);
    out.decimal(rule);
    out.text(b" ");
    out.decimal(place);
}
