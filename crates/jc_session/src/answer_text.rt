//! The texts of answers, except reports and listings.

ghost use Rattle.std.specs.Prelude.{codes, OnOk, OnErr};
ghost use Rattle.std.specs.Io.KnownBytes.{Appends};
ghost use Rattle.jc_base.specs.Device.{CountsFault, WritesFront};
ghost use Rattle.jc_text.specs.Sends.{Sends};
ghost use Rattle.jc_classes.specs.Names.{names_of};
ghost use Rattle.jc_session.specs.AnswerText.{names_text, refused_text, unread_text};
ghost use Rattle.jc_session.specs.inside.EditText.{edit_text};

use jc_base::{DeviceFault, Output, write_all};
use jc_edits::{Done, EditError};
use jc_report::write_name;
use jc_text::TextWriter;

/// Writes the answer to an edit: `ok`, or why it was refused.
pub(crate) fn write_edit_answer<W: Output>(
    out: &mut W,
    answer: Result<Done, EditError>,
) -> Result<(), DeviceFault>
    ensures ok { OnOk result (Appends (W.written out.old) (W.written out.new) (edit_text answer)) }
    ensures front { OnErr result (WritesFront (W.written out.old) (W.written out.new) (edit_text answer)) }
    ensures failures { CountsFault result (W.failures out.old) (W.failures out.new) }
{
    match answer {
        Ok(_) => write_all(out, b"ok\n"),
        Err(error) => write_refusal(out, error),
    }
}

fn write_refusal<W: Output>(out: &mut W, error: EditError) -> Result<(), DeviceFault>
    ensures ok { OnOk result (Appends (W.written out.old) (W.written out.new) (refused_text error)) }
    ensures front { OnErr result (WritesFront (W.written out.old) (W.written out.new) (refused_text error)) }
    ensures failures { CountsFault result (W.failures out.old) (W.failures out.new) }
{
    let mut text = TextWriter::new(out);
    write_edit_error(&mut text, error);
    text.finish()
}

fn write_edit_error<W: Output>(text: &mut TextWriter<'_, W>, error: EditError)
    ensures { Sends W.written W.failures text.old text.new (refused_text error) }
{
    text.text(b"refused ");
    text.decimal(error.code());
    text.text(b" ");
    text.text(error.name());
    text.text(b"\n");
}

/// Writes `unread` and a path: the source returned no bytes for it.
pub(crate) fn write_unread<W: Output>(out: &mut W, path: &[u8]) -> Result<(), DeviceFault>
    ensures ok { OnOk result (Appends (W.written out.old) (W.written out.new) (unread_text path.now)) }
    ensures front { OnErr result (WritesFront (W.written out.old) (W.written out.new) (unread_text path.now)) }
    ensures failures { CountsFault result (W.failures out.old) (W.failures out.new) }
{
    let mut text = TextWriter::new(out);
    text.text(b"unread ");
    text.path(path);
    text.text(b"\n");
    text.finish()
}

/// Writes the answer to a line that is no command.
pub(crate) fn write_bad_line<W: Output>(out: &mut W) -> Result<(), DeviceFault>
    ensures ok { OnOk result (Appends (W.written out.old) (W.written out.new) (codes "bad line\n")) }
    ensures front { OnErr result (WritesFront (W.written out.old) (W.written out.new) (codes "bad line\n")) }
    ensures failures { CountsFault result (W.failures out.old) (W.failures out.new) }
{
    write_all(out, b"bad line\n")
}

/// Writes each name on a line of its own, or `none` if there is no name.
pub(crate) fn write_names<W: Output>(out: &mut W, names: &[Vec<u8>]) -> Result<(), DeviceFault>
    ensures ok { OnOk result (Appends (W.written out.old) (W.written out.new) (names_text (names_of names.now))) }
    ensures front { OnErr result (WritesFront (W.written out.old) (W.written out.new) (names_text (names_of names.now))) }
    ensures failures { CountsFault result (W.failures out.old) (W.failures out.new) }
{
    let mut text = TextWriter::new(out);
    write_name_lines(&mut text, names);
    text.finish()
}

fn write_name_lines<W: Output>(text: &mut TextWriter<'_, W>, names: &[Vec<u8>])
    ensures { Sends W.written W.failures text.old text.new (names_text (names_of names.now)) }
{
    if names.is_empty() {
        text.text(b"none\n");
        return;
    }
    for name in names {
        write_name(text, name.as_slice());
    }
}
