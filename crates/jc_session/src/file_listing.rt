//! The listing of a file, and of the file that gives a class.

ghost use Rattle.std.specs.Prelude.{◌≡◌, Err, IfErr, IfOk, IsSome, MatchResult, Ok, codes};
ghost use Rattle.jc_list.specs.declared.list_error.ListError.TheVariants.{NoMemory, Write};
ghost use Rattle.jc_list.specs.ListErrors.{CountsWrites, WritesListing};
ghost use Rattle.jc_session.specs.ListedText.{file_text, is_faulty_file, listed_text, unreadable_text};
ghost use Rattle.jc_report.specs.FileRows.{winner};

use jc_base::{DeviceFault, Output};
use jc_edits::Session;
use jc_list::{ListError, list_class};
use jc_report::write_refusal;
use jc_text::TextWriter;
use jc_view::{ParseError, outcomes_are_exact, parse};
use std::alloc::Global;

/// Writes the listing of a class file, or why the bytes are not a readable class file.
///
/// Returns whether the bytes are not a readable class file, or a fault is listed. `Write`: the output failed.
/// `NoMemory`: an allocation failed.
pub fn list_file<W: Output>(alloc: Global, bytes: &[u8], out: &mut W) -> Result<bool, ListError>
    ensures faulty { IfOk result (λ faulty. faulty ≡ is_faulty_file bytes.now) }
    ensures listing { WritesListing result (W.written out.old) (W.written out.new) (file_text bytes.now) }
    ensures failures { CountsWrites result (W.failures out.old) (W.failures out.new) }
{
    outcomes_are_exact();
    match parse(alloc, bytes) {
        Ok(view) => list_class(alloc, &view, out),
        Err(ParseError::NoMemory) => Err(ListError::NoMemory),
        Err(refusal) => {
            write_unreadable_line(out, refusal)?;
            Ok(true)
        }
    }
}

fn write_unreadable_line<W: Output>(out: &mut W, refusal: ParseError) -> Result<(), ListError>
    ensures listing { WritesListing result (W.written out.old) (W.written out.new) (unreadable_text refusal) }
    ensures failures { CountsWrites result (W.failures out.old) (W.failures out.new) }
{
    let mut text = TextWriter::new(out);
    text.text(b"unreadable ");
    write_refusal(&mut text, refusal);
    text.text(b"\n");
    finished(text.finish())
}

/// Writes the listing of the winner of a class, or `none` if no file names the class.
pub(crate) fn list_winner<W: Output>(
    alloc: Global,
    session: &Session,
    name: &[u8],
    out: &mut W,
) -> Result<(), ListError>
    ensures listing { WritesListing result (W.written out.old) (W.written out.new) (listed_text session.now.files name.now) }
    ensures memory { result ≡ Err NoMemory → IsSome (winner session.now.files name.now) }
    ensures failures { CountsWrites result (W.failures out.old) (W.failures out.new) }
{
    match session.winning_file(name) {
        Some(bytes) => {
            list_file(alloc, bytes, out)?;
            Ok(())
        }
        None => write_none(out),
    }
}

/// Writes `none`: no file names the class.
fn write_none<W: Output>(out: &mut W) -> Result<(), ListError>
    ensures listing { WritesListing result (W.written out.old) (W.written out.new) (codes "none\n") }
    ensures failures { CountsWrites result (W.failures out.old) (W.failures out.new) }
    ensures err { IfErr result (λ e. e ≡ Write) }
{
    let mut text = TextWriter::new(out);
    text.text(b"none\n");
    finished(text.finish())
}

fn finished(written: Result<(), DeviceFault>) -> Result<(), ListError>
    ensures { MatchResult written (λ done. result ≡ Ok done) (λ _. result ≡ Err Write) }
{
    match written {
        Ok(()) => Ok(()),
        Err(DeviceFault) => Err(ListError::Write),
    }
}
