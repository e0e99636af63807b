//! The results of the functions about texts.

use jc_base::{
    FieldDesc, MethodDesc, Output, SigKind, UnitsError, check_signature, check_units,
    is_class_name, is_method_name, is_unqualified, units,
};
use jc_text::TextWriter;
use std::alloc::Global;

/// Writes the code units, or the place of the first wrong bytes, if both functions agree.
pub(crate) fn write_units<W: Output>(alloc: Global, out: &mut TextWriter<'_, W>, text: &[u8]) {
    let checked = check_units(text);
    match units(alloc, text) {
        Ok(units) if checked == Ok(()) => write_code_units(out, &units),
        Err(UnitsError::Bad(place)) if checked == Err(place) => {
            out.text(b"bad at ");
            out.decimal(place);
        }
        Err(UnitsError::NoMemory) => out.text(b"no memory"),
        _ => out.text(b"two answers"),
    }
}

fn write_code_units<W: Output>(out: &mut TextWriter<'_, W>, units: &[u16]) {
    if units.is_empty() {
        out.text(b"none");
    }
    for (place, unit) in units.iter().enumerate() {
        if place > 0 {
            out.text(b" ");
        }
        out.hexadecimal(&unit.to_be_bytes());
    }
}

/// Writes the kinds of names that the text is.
pub(crate) fn write_names<W: Output>(out: &mut TextWriter<'_, W>, text: &[u8]) {
    let names = [
        is_unqualified(text),
        is_method_name(text),
        is_class_name(text),
    ];
    match names {
        [false, false, false] => out.text(b"none"),
        [true, false, false] => out.text(b"unqualified"),
        [false, true, false] => out.text(b"method"),
        [false, false, true] => out.text(b"class"),
        [true, true, false] => out.text(b"unqualified, method"),
        [true, false, true] => out.text(b"unqualified, class"),
        [false, true, true] => out.text(b"method, class"),
        [true, true, true] => out.text(b"unqualified, method, class"),
    }
}

pub(crate) fn write_field<W: Output>(out: &mut TextWriter<'_, W>, text: &[u8]) {
    let Some(field) = FieldDesc::read(text) else {
        return out.text(b"none");
    };
    out.text(b"dims ");
    out.decimal(field.dims());
    out.text(b", element ");
    out.path(field.element());
    out.text(b", slots ");
    out.decimal(field.slots());
}

pub(crate) fn write_method<W: Output>(out: &mut TextWriter<'_, W>, text: &[u8]) {
    let Some(method) = MethodDesc::read(text) else {
        return out.text(b"none");
    };
    out.text(b"slots ");
    out.decimal(method.slots());
    out.text(b", result ");
    out.path(method.result().unwrap_or(b"none"));
    out.text(b", params");
    for param in method.params() {
        out.text(b" ");
        out.path(param);
    }
}

pub(crate) fn write_signature<W: Output>(
    alloc: Global,
    out: &mut TextWriter<'_, W>,
    kind: SigKind,
    text: &[u8],
) {
    match check_signature(alloc, kind, text) {
        Ok(true) => out.text(b"true"),
        Ok(false) => out.text(b"false"),
        Err(_) => out.text(b"no memory"),
    }
}
