//! The faults that end the program with a line on standard error: their texts and statuses.

ghost use Rattle.std.specs.Prelude.{◌≡◌, ◌++◌, codes};
ghost use Rattle.jc_text.specs.Escapes.{path_text};
ghost use Rattle.jc_text.specs.Sends.{Sends};
ghost use Rattle.jc_session.specs.Statuses.{NoMemory, Refused, WritesUnlessFailed, fault_of, fault_of_check, fault_status, fault_text};
ghost use Rattle.jc_session.specs.LentChecks.{check_fault_lent};
ghost use Rattle.jc_session.specs.inside.LentFaults.{fault_lent, fault_of_listing};

use crate::tree_check::CheckError;
use jc_base::{NoMemory as NoMemoryLeft, Output};
use jc_edits::EditError;
use jc_input::RunError;
use jc_list::ListError;
use jc_text::TextWriter;
use std::alloc::AllocError;

/// Why the program ends with a line on standard error.
#[derive(Clone, Copy)]
pub(crate) enum ProgramError<'w> {
    /// The arguments are a usage error.
    Usage,
    /// The input of a session failed.
    Input,
    /// The output failed.
    Output,
    /// Out of memory.
    NoMemory,
    /// The file or folder at the path can't be read.
    Unread(&'w [u8]),
    /// The file at the path is refused.
    Refused(EditError, &'w [u8]),
}

impl ProgramError<'_> {
    /// Returns the exit status: 2, 3 or 4.
    pub(crate) fn status(self) -> u8
        ensures { result ≡ fault_status (fault_lent self.entry) }
    {
        match self {
            ProgramError::Usage => 2,
            ProgramError::Input
            | ProgramError::Output
            | ProgramError::Unread(_)
            | ProgramError::Refused(_, _) => 3,
            ProgramError::NoMemory => 4,
        }
    }
}

/// Writes the line of a fault. Write errors are ignored.
pub(crate) fn tell<E: Output>(err: &mut E, fault: ProgramError<'_>)
    ensures { WritesUnlessFailed (fault_text (fault_lent fault.entry))
        (E.written err.old) (E.written err.new) (E.failures err.old) (E.failures err.new) }
{
    let mut text = TextWriter::new(err);
    write_fault(&mut text, fault);
    let _ = text.finish();
}

fn write_fault<E: Output>(text: &mut TextWriter<'_, E>, fault: ProgramError<'_>)
    ensures { Sends E.written E.failures text.old text.new (fault_text (fault_lent fault.entry)) }
{
    match fault {
        ProgramError::Usage => text.text(b"jclink: usage\n"),
        ProgramError::Input => text.text(b"jclink: cannot read input\n"),
        ProgramError::Output => text.text(b"jclink: cannot write\n"),
        ProgramError::NoMemory => text.text(b"jclink: no memory\n"),
        ProgramError::Unread(path) => write_with_path(text, b"jclink: cannot read ", path),
        ProgramError::Refused(error, path) => write_refused(text, error, path),
    }
}

fn write_with_path<E: Output>(text: &mut TextWriter<'_, E>, words: &[u8], path: &[u8])
    ensures { Sends E.written E.failures text.old text.new (words.now ++ path_text path.now ++ codes "\n") }
{
    text.text(words);
    text.path(path);
    text.text(b"\n");
}

fn write_refused<E: Output>(text: &mut TextWriter<'_, E>, error: EditError, path: &[u8])
    ensures { Sends E.written E.failures text.old text.new (fault_text (Refused error path.now)) }
{
    text.text(b"jclink: refused ");
    text.decimal(error.code());
    text.text(b" ");
    text.text(error.name());
    text.text(b" ");
    text.path(path);
    text.text(b"\n");
}

impl From<RunError> for ProgramError<'_> {
    ghost from_gives = { λ error fault. fault_lent fault ≡ fault_of error };

    fn from(error: RunError) -> Self {
        match error {
            RunError::Read => ProgramError::Input,
            RunError::Write => ProgramError::Output,
            RunError::NoMemory => ProgramError::NoMemory,
        }
    }
}

impl From<ListError> for ProgramError<'_> {
    ghost from_gives = { λ error fault. fault_lent fault ≡ fault_of_listing error };

    fn from(error: ListError) -> Self {
        match error {
            ListError::Write => ProgramError::Output,
            ListError::NoMemory => ProgramError::NoMemory,
        }
    }
}

impl From<NoMemoryLeft> for ProgramError<'_> {
    ghost from_gives = { λ _ fault. fault_lent fault ≡ NoMemory };

    fn from(_: NoMemoryLeft) -> Self {
        ProgramError::NoMemory
    }
}

impl From<AllocError> for ProgramError<'_> {
    ghost from_gives = { λ _ fault. fault_lent fault ≡ NoMemory };

    fn from(_: AllocError) -> Self {
        ProgramError::NoMemory
    }
}

impl<'p> From<CheckError<'p>> for ProgramError<'p> {
    ghost from_gives = { λ error fault. fault_lent fault ≡ fault_of_check (check_fault_lent error) };

    fn from(error: CheckError<'p>) -> Self {
        match error {
            CheckError::Unread(path) => ProgramError::Unread(path),
            CheckError::Refused(error, path) => ProgramError::Refused(error, path),
            CheckError::Write => ProgramError::Output,
            CheckError::NoMemory => ProgramError::NoMemory,
        }
    }
}
