//! The text of a session's report, and of one part.

ghost use Rattle.jc_base.specs.Device.{CountsFault};
ghost use Rattle.jc_report.specs.ReportText.{report_text};
ghost use Rattle.jc_report.specs.Reports as reports;
ghost use Rattle.jc_text.specs.Sends.{Sends};
ghost use Rattle.jc_edits.specs.Reported.{IsReportOf};
ghost use Rattle.jc_edits.specs.Written.{WritesPart, WritesReport};
ghost use Rattle.jc_edits.specs.inside.Reporting.{found_text};

use crate::report::Report;
use jc_base::Output;
use jc_report::{LentClass, ReportLists, write_lists, write_part};
use jc_text::TextWriter;
use thiserror::Error;

/// The error of writing a text to an output that failed.
#[derive(Clone, Copy, Debug, PartialEq, Eq, Error)]
#[error("the output failed")]
pub struct WriteError;

/// Writes a report: `[files]` and the files by path, `[parts]` and the classes by name, `[circular]`, `[provided]` and
/// `[required]`. Returns [`WriteError`] if the output fails; the output then has a beginning of this text. Does not
/// allocate.
pub fn write_report<W: Output>(report: &Report, out: &mut W) -> Result<(), WriteError>
    ensures text { WritesReport result (W.written out.old) (W.written out.new) report.now }
    ensures failures { CountsFault result (W.failures out.old) (W.failures out.new) }
{
    let mut text = TextWriter::new(out);
    write_held(&mut text, report);
    match text.finish() {
        Ok(()) => Ok(()),
        Err(_) => Err(WriteError),
    }
}

fn write_held<W: Output>(text: &mut TextWriter<'_, W>, report: &Report)
    ensures { (r : reports.Report) × IsReportOf report.now r × Sends W.written W.failures text.old text.new (report_text r) }
{
    let lists = ReportLists {
        files: report.files(),
        classes: report.classes(),
        again: report.classes(),
        provided: report.provided(),
        required: report.required(),
    };
    write_lists(text, lists);
}

/// Writes the part of a class, or a line `none` if the files do not have the class. Returns [`WriteError`] if the
/// output fails; the output then has a beginning of this text. Does not allocate.
pub fn write_part_of<W: Output>(report: &Report, name: &[u8], out: &mut W) -> Result<(), WriteError>
    ensures text { WritesPart result (W.written out.old) (W.written out.new) report.now name.now }
    ensures failures { CountsFault result (W.failures out.old) (W.failures out.new) }
{
    let mut text = TextWriter::new(out);
    write_found(&mut text, report.class(name));
    match text.finish() {
        Ok(()) => Ok(()),
        Err(_) => Err(WriteError),
    }
}

fn write_found<W: Output>(text: &mut TextWriter<'_, W>, class: Option<LentClass<'_>>)
    ensures { Sends W.written W.failures text.old text.new (found_text class.entry) }
{
    match class {
        Some(class) => write_part(text, class.facts, class.part),
        None => text.text(b"none\n"),
    }
}
