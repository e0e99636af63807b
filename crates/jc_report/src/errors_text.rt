//! The text of the errors of a tree: one line for each.

ghost use Rattle.std.specs.Prelude.{◌≡◌, ◌++◌, [], codes, map, slice_index_or, OnErr, OnOk};
ghost use Rattle.std.specs.Io.KnownBytes.{Appends};
ghost use Rattle.std.specs.List.{flat_map};
ghost use Rattle.jc_base.specs.Device.{CountsFault, WritesFront};
ghost use Rattle.jc_text.specs.Escapes.{shown};
ghost use Rattle.jc_text.specs.Sends.{Sends};
ghost use Rattle.jc_list.specs.FaultLines.{format_line};
ghost use Rattle.jc_resolve.specs.Answers.{loading_of};
ghost use Rattle.jc_report.specs.ErrorsText.{asked_lent, class_errors, classes_errors, errors_text, file_error, load_error, of_class, part_errors};
ghost use Rattle.jc_report.specs.FileRows.{is_unreadable};
ghost use Rattle.jc_report.specs.FileRowView as lent;

use crate::asked::{Asked, is_asked};
use crate::file_row::{FileRow, FileState, write_file_row};
use crate::inheritance_errors::write_inheritance_errors;
use crate::method_errors::{write_code_errors, write_link_errors};
use crate::part_text::write_error;
use crate::reference_errors::write_answer_errors;
use crate::report::{Class, is_wrong_file};
use crate::tree_errors::TreeErrors;
use jc_base::{DeviceFault, Output};
use jc_classes::Facts;
use jc_file::Fault;
use jc_link::Part;
use jc_list::write_format_line;
use jc_resolve::{InheritanceErrors, Loading, Unimplemented};
use jc_text::TextWriter;

/// Writes one line for each error that is asked for.
///
/// Unreadable files are first, in the order of their paths. The classes follow, in the order of their names. The lines of
/// a class are:
///
/// - its load error or its format faults,
/// - its code faults, by method,
/// - its instructions that do not link, by method and offset,
/// - its FINAL superclass, the FINAL methods that it overrides, and the ABSTRACT methods for which it has no body,
/// - its references that do not resolve, by index.
///
/// If the output fails, it has a beginning of this text.
pub fn write_errors<W: Output>(
    errors: &TreeErrors<'_>,
    asked: Asked<'_>,
    out: &mut W,
) -> Result<(), DeviceFault>
    ensures ok { OnOk result (Appends (W.written out.old) (W.written out.new) (errors_text (asked_lent asked.entry) errors.now)) }
    ensures front { OnErr result (WritesFront (W.written out.old) (W.written out.new) (errors_text (asked_lent asked.entry) errors.now)) }
    ensures failures { CountsFault result (W.failures out.old) (W.failures out.new) }
{
    let mut text = TextWriter::new(out);
    write_each(&mut text, errors, asked);
    text.finish()
}

fn write_each<W: Output>(text: &mut TextWriter<'_, W>, errors: &TreeErrors<'_>, asked: Asked<'_>)
    ensures { Sends W.written W.failures text.old text.new (errors_text (asked_lent asked.entry) errors.now) }
{
    let report = errors.report();
    write_files(text, report.files(), asked);
    write_classes(
        text,
        report.classes(),
        errors.inheritance(),
        errors.unimplemented(),
        asked,
    );
}

fn write_files<W: Output>(text: &mut TextWriter<'_, W>, files: &[FileRow<'_>], asked: Asked<'_>)
    ensures { Sends W.written W.failures text.old text.new
        (flat_map (file_error (asked_lent asked.entry)) (map lent.row_lent files.now)) }
{
    for row in files {
        write_file(text, row, asked);
    }
}

/// Writes the row of a file if it is asked for and unreadable.
fn write_file<W: Output>(text: &mut TextWriter<'_, W>, row: &FileRow<'_>, asked: Asked<'_>)
    ensures { Sends W.written W.failures text.old text.new (file_error (asked_lent asked.entry) (lent.row_lent row.now)) }
{
    if is_wrong_file(row, asked) {
        write_file_row(text, row);
    }
}

/// Writes the errors of classes, each with its errors of inheritance and the methods for which it has no body.
fn write_classes<W: Output>(
    text: &mut TextWriter<'_, W>,
    classes: &[Class<'_>],
    inheritance: &[InheritanceErrors],
    unimplemented: &Unimplemented<'_>,
    asked: Asked<'_>,
)
    ensures { Sends W.written W.failures text.old text.new (classes_errors (asked_lent asked.entry) classes.now inheritance.now unimplemented.now) }
{
    for place in 0..inheritance.len() {
        match classes.get(place) {
            Some(class) => write_class(
                text,
                class,
                &inheritance[place],
                unimplemented,
                place,
                asked,
            ),
            None => return,
        }
    }
}

/// Writes the errors of the class at a place if it is asked for.
fn write_class<W: Output>(
    text: &mut TextWriter<'_, W>,
    class: &Class<'_>,
    inheritance: &InheritanceErrors,
    unimplemented: &Unimplemented<'_>,
    place: usize,
    asked: Asked<'_>,
)
    ensures { Sends W.written W.failures text.old text.new (class_errors (asked_lent asked.entry) class.now inheritance.now (slice_index_or unimplemented.now place [])) }
{
    if is_asked(asked, class.facts().name()) {
        write_part_errors(
            text,
            class,
            inheritance,
            unimplemented,
            place,
            asked.used_only,
        );
    }
}

fn write_part_errors<W: Output>(
    text: &mut TextWriter<'_, W>,
    class: &Class<'_>,
    inheritance: &InheritanceErrors,
    unimplemented: &Unimplemented<'_>,
    place: usize,
    used_only: bool,
)
    ensures { Sends W.written W.failures text.old text.new
        (part_errors used_only class.now.facts class.now.part inheritance.now (slice_index_or unimplemented.now place [])) }
{
    let facts = class.facts();
    let part = class.part();
    write_load_error(text, facts.name(), part.load());
    write_format_errors(text, facts.name(), part.format_faults());
    write_code_errors(text, facts, part.code_faults());
    write_link_errors(text, facts, part.links());
    write_inheritance_errors(text, facts, inheritance, unimplemented, place);
    write_answer_errors(text, facts, part.answers(), used_only);
}

/// Writes the name of the class that the rest of the line is about.
pub(crate) fn write_front<W: Output>(text: &mut TextWriter<'_, W>, name: &[u8])
    ensures { Sends W.written W.failures text.old text.new (shown name.now ++ codes ": ") }
{
    text.shown(name);
    text.text(b": ");
}

fn write_load_error<W: Output>(text: &mut TextWriter<'_, W>, name: &[u8], load: &Loading)
    ensures { Sends W.written W.failures text.old text.new (load_error name.now (loading_of load.now)) }
{
    if let Loading::Fails(error, fault) = load {
        write_front(text, name);
        write_error(text, *error, fault.as_slice());
        text.text(b"\n");
    }
}

fn write_format_errors<W: Output>(text: &mut TextWriter<'_, W>, name: &[u8], faults: &[Fault])
    ensures { Sends W.written W.failures text.old text.new (flat_map (λ fault. of_class name.now (format_line fault)) faults.now) }
{
    for fault in faults {
        write_front(text, name);
        write_format_line(text, *fault);
    }
}

pub(crate) fn is_unreadable(row: &FileRow<'_>) -> bool
    ensures { result ≡ is_unreadable (lent.row_lent row.now) }
{
    match row.state {
        FileState::Class(_) | FileState::Shadowed(_, _) => false,
        FileState::Unreadable(_) => true,
    }
}
