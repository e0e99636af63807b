//! The rows of files in a report, and their lines.

ghost use Rattle.std.specs.Prelude.{◌≡◌, ◌++◌, [], codes, option_map, unwrap_or};
ghost use Rattle.jc_text.specs.Escapes.{path_text, shown};
ghost use Rattle.jc_text.specs.Sends.{Sends};
ghost use Rattle.jc_report.specs.FileRowText.{at_text, refusal_name, refusal_text, state_text, row_text};
ghost use Rattle.jc_report.specs.FileRowView.{state_lent, row_lent};

use crate::part_text::write_shown;
use jc_base::Output;
use jc_text::TextWriter;
use jc_view::ParseError;

/// The row of a file in a report: its path and its state.
#[derive(Clone, Copy)]
pub struct FileRow<'a> {
    pub path: &'a [u8],
    pub state: FileState<'a>,
}

/// The state of a file in a tree. Names are in modified UTF-8; paths are bytes.
#[derive(Clone, Copy)]
pub enum FileState<'a> {
    /// The file has the tree's class of this name.
    Class(&'a [u8]),
    /// The file has a class of this name, but so has the file at this lesser path, and the tree takes the class from
    /// there.
    Shadowed(&'a [u8], &'a [u8]),
    /// The file cannot be read as a class file.
    Unreadable(ParseError),
}

/// Writes the line of a file: its path and its state, for example `a/B.class: class a/B`.
pub fn write_file_row<W: Output>(text: &mut TextWriter<'_, W>, row: &FileRow)
    ensures { Sends W.written W.failures text.old text.new (row_text (row_lent row.now)) }
{
    text.path(row.path);
    text.text(b": ");
    write_state(text, row.state);
    text.text(b"\n");
}

fn write_state<W: Output>(text: &mut TextWriter<'_, W>, state: FileState)
    ensures { Sends W.written W.failures text.old text.new (state_text (state_lent state.entry)) }
{
    match state {
        FileState::Class(name) => write_shown(text, b"class ", name),
        FileState::Shadowed(name, winner) => write_shadowed(text, name, winner),
        FileState::Unreadable(refusal) => write_unreadable(text, refusal),
    }
}

fn write_shadowed<W: Output>(text: &mut TextWriter<'_, W>, name: &[u8], winner: &[u8])
    ensures { Sends W.written W.failures text.old text.new
        (codes "shadowed " ++ shown name.now ++ codes " by " ++ path_text winner.now) }
{
    write_shown(text, b"shadowed ", name);
    text.text(b" by ");
    text.path(winner);
}

fn write_unreadable<W: Output>(text: &mut TextWriter<'_, W>, refusal: ParseError)
    ensures { Sends W.written W.failures text.old text.new (codes "unreadable " ++ refusal_text refusal) }
{
    text.text(b"unreadable ");
    write_refusal(text, refusal);
}

/// Writes a refusal: its number, its name and its place, if it has one, for example `4 Tag(10)`.
pub fn write_refusal<W: Output>(text: &mut TextWriter<'_, W>, refusal: ParseError)
    ensures { Sends W.written W.failures text.old text.new (refusal_text refusal) }
{
    text.decimal(refusal.code());
    text.text(b" ");
    write_refusal_name(text, refusal);
}

fn write_refusal_name<W: Output>(text: &mut TextWriter<'_, W>, refusal: ParseError)
    ensures { Sends W.written W.failures text.old text.new (refusal_name refusal) }
{
    let (name, place) = name_and_place(refusal);
    text.text(name);
    match place {
        Some(place) => write_place(text, place),
        None => {}
    }
}

fn name_and_place(refusal: ParseError) -> (&'static [u8], Option<usize>)
    ensures { refusal_name refusal ≡ result.0.now ++ unwrap_or (option_map at_text result.1) [] }
{
    match refusal {
        ParseError::Magic => (b"Magic", None),
        ParseError::Version => (b"Version", None),
        ParseError::Count => (b"Count", None),
        ParseError::Tag(place) => (b"Tag", Some(place)),
        ParseError::Wide(place) => (b"Wide", Some(place)),
        ParseError::Trailing(place) => (b"Trailing", Some(place)),
        ParseError::Short => (b"Short", None),
        ParseError::NoName => (b"NoName", None),
        ParseError::NoMemory => (b"NoMemory", None),
    }
}

/// Writes a place after a name, for example `(10)` of `Tag(10)`.
fn write_place<W: Output>(text: &mut TextWriter<'_, W>, place: usize)
    ensures { Sends W.written W.failures text.old text.new (at_text place) }
{
    text.text(b"(");
    text.decimal(place);
    text.text(b")");
}
