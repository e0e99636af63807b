//! The text of a report.

ghost use Rattle.std.specs.Prelude.{OnErr, OnOk};
ghost use Rattle.std.specs.Io.KnownBytes.{Appends};
ghost use Rattle.std.specs.Iterator.{IsFinite};
ghost use Rattle.std.specs.List.{flat_map};
ghost use Rattle.jc_base.specs.Device.{CountsFault, WritesFront};
ghost use Rattle.jc_text.specs.Sends.{Sends};
ghost use Rattle.jc_report.specs.ClassLent.{class_lent};
ghost use Rattle.jc_report.specs.FileRowText.{row_text};
ghost use Rattle.jc_report.specs.FileRowView as lent;
ghost use Rattle.jc_report.specs.ReportLists.{AreListsOf, SendsReport};
ghost use Rattle.jc_report.specs.ReportText.{class_text, name_line, report_text, row_line};
ghost use Rattle.jc_report.specs.RowView.{row_lent};
ghost use Rattle.jc_report.specs.inside.Given.{ForGiven, circular_lines};

use crate::file_row::{FileRow, write_file_row};
use crate::lent_class::LentClass;
use crate::part_text::{kind_word, write_named, write_part};
use crate::report::TreeReport;
use crate::row::Row;
use jc_base::{DeviceFault, Output};
use jc_classes::Key;
use jc_text::TextWriter;

/// The lists of a report, as iterators. Each is passed over once.
#[derive(Drop)]
pub struct ReportLists<F, C, P, Q> {
    /// The state of each file, in the order of the paths.
    pub files: F,
    /// The classes, in the order of their names.
    pub classes: C,
    /// The same classes once more, for the circular ones among them.
    pub again: C,
    /// The rows that the classes provide, sorted.
    pub provided: P,
    /// The rows that the classes require, sorted.
    pub required: Q,
}

/// Writes a report: `[files]` and the files by path, `[parts]` and the classes by name, `[circular]`, `[provided]` and
/// `[required]`. Returns `DeviceFault` if the output fails; the output then has a beginning of this text. Does not
/// allocate.
pub fn write_report<W: Output>(report: &TreeReport<'_>, out: &mut W) -> Result<(), DeviceFault>
    ensures ok { OnOk result (Appends (W.written out.old) (W.written out.new) (report_text report.now)) }
    ensures front { OnErr result (WritesFront (W.written out.old) (W.written out.new) (report_text report.now)) }
    ensures failures { CountsFault result (W.failures out.old) (W.failures out.new) }
{
    let mut text = TextWriter::new(out);
    write_held(&mut text, report);
    text.finish()
}

fn write_held<W: Output>(text: &mut TextWriter<'_, W>, report: &TreeReport<'_>)
    ensures { Sends W.written W.failures text.old text.new (report_text report.now) }
{
    let lists = ReportLists {
        files: report.files().iter().copied(),
        classes: report.lent_classes(),
        again: report.lent_classes(),
        provided: report.provided(),
        required: report.required().iter().copied(),
    };
    write_lists(text, lists);
}

/// Writes the report with these lists. If the output fails, it has a beginning of this text, and [`TextWriter::finish`]
/// returns the error.
pub fn write_lists<'a, W: Output, F, C, P, Q>(
    text: &mut TextWriter<'_, W>,
    lists: ReportLists<F, C, P, Q>,
)
where
    F: Iterator<Item = FileRow<'a>> + Drop,
    C: Iterator<Item = LentClass<'a>> + Drop,
    P: Iterator<Item = Row<'a>> + Drop,
    Q: Iterator<Item = Row<'a>> + Drop,
    requires files { F.can_next lists.files × IsFinite (F.remaining lists.files) }
    requires classes { C.can_next lists.classes × IsFinite (C.remaining lists.classes) }
    requires again { C.can_next lists.again × IsFinite (C.remaining lists.again) }
    requires provided { P.can_next lists.provided × IsFinite (P.remaining lists.provided) }
    requires required { Q.can_next lists.required × IsFinite (Q.remaining lists.required) }
    ensures { SendsReport W.written W.failures text.old text.new
        (AreListsOf F.next_gives C.next_gives P.next_gives Q.next_gives lists) }
{
    text.text(b"[files]\n");
    write_files(text, lists.files);
    text.text(b"[parts]\n");
    write_classes(text, lists.classes);
    text.text(b"[circular]\n");
    write_circular(text, lists.again);
    text.text(b"[provided]\n");
    write_rows(text, lists.provided);
    text.text(b"[required]\n");
    write_rows(text, lists.required);
}

fn write_files<'a, W: Output, I: Iterator<Item = FileRow<'a>> + Drop>(
    text: &mut TextWriter<'_, W>,
    files: I,
)
    requires can { I.can_next files }
    requires ends { IsFinite (I.remaining files) }
    ensures { ForGiven I.next_gives lent.row_lent files (λ all. Sends W.written W.failures text.old text.new (flat_map row_text all)) }
{
    for row in files {
        write_file_row(text, &row);
    }
}

fn write_classes<'a, W: Output, I: Iterator<Item = LentClass<'a>> + Drop>(
    text: &mut TextWriter<'_, W>,
    classes: I,
)
    requires can { I.can_next classes }
    requires ends { IsFinite (I.remaining classes) }
    ensures { ForGiven I.next_gives class_lent classes (λ all. Sends W.written W.failures text.old text.new (flat_map class_text all)) }
{
    for class in classes {
        write_part(text, class.facts, class.part);
    }
}

fn write_circular<'a, W: Output, I: Iterator<Item = LentClass<'a>> + Drop>(
    text: &mut TextWriter<'_, W>,
    classes: I,
)
    requires can { I.can_next classes }
    requires ends { IsFinite (I.remaining classes) }
    ensures { ForGiven I.next_gives class_lent classes (λ all. Sends W.written W.failures text.old text.new (circular_lines all)) }
{
    for class in classes {
        if class.part.is_circular() {
            write_name(text, class.facts.name());
        }
    }
}

/// Writes the name of a class, with escapes as [`TextWriter::shown`] writes them, and LF.
pub fn write_name<W: Output>(text: &mut TextWriter<'_, W>, name: &[u8])
    ensures { Sends W.written W.failures text.old text.new (name_line name.now) }
{
    text.shown(name);
    text.text(b"\n");
}

fn write_rows<'a, W: Output, I: Iterator<Item = Row<'a>> + Drop>(
    text: &mut TextWriter<'_, W>,
    rows: I,
)
    requires can { I.can_next rows }
    requires ends { IsFinite (I.remaining rows) }
    ensures { ForGiven I.next_gives row_lent rows (λ all. Sends W.written W.failures text.old text.new (flat_map row_line all)) }
{
    for row in rows {
        write_row(text, row);
    }
}

/// Writes a row that is provided or required.
fn write_row<W: Output>(text: &mut TextWriter<'_, W>, row: Row<'_>)
    ensures { Sends W.written W.failures text.old text.new (row_line (row_lent row.entry)) }
{
    let key = Key {
        name: row.name,
        descriptor: row.descriptor,
    };
    text.text(kind_word(row.kind));
    text.text(b" ");
    write_named(text, row.kind, row.class, key);
    text.text(b"\n");
}
