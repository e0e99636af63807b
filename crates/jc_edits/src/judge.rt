//! The refusals of edits.

ghost use Rattle.std.specs.Prelude.{◌≡◌};
ghost use Rattle.jc_edits.specs.Edits as edits;
ghost use Rattle.jc_input.specs.FileEdits as files_of;
ghost use Rattle.jc_input.specs.Changes.{Adds, Replaces, change_lent, prefix_change};

use crate::file::File;
use jc_base::ByteMap;
use jc_input::{EditError, LentEdit, PrefixEdit, path_refusal, room_refusal, size_refusal};
use jc_link::{MOST_PREFIXES, Outside, is_bad_prefix};

/// Returns the first refusal of an edit of files that applies, apart from `NoMemory`.
pub(crate) fn judge(files: &ByteMap<File>, edit: &LentEdit<'_>) -> Option<EditError>
    ensures { result ≡ files_of.judge files.now (change_lent edit.now) }
{
    match edit {
        LentEdit::Add(path, bytes) => judge_add(files, path, bytes),
        LentEdit::Replace(path, bytes) => judge_replace(files, path, bytes),
        LentEdit::Remove(path) => path_refusal(path).or(missing_fault(files, path)),
    }
}

fn judge_add(files: &ByteMap<File>, path: &[u8], bytes: &[u8]) -> Option<EditError>
    ensures { result ≡ files_of.judge files.now (Adds path.now bytes.now) }
{
    path_refusal(path)
        .or(there_refusal(files, path))
        .or(size_refusal(bytes))
        .or(room_refusal(files.len()))
}

fn judge_replace(files: &ByteMap<File>, path: &[u8], bytes: &[u8]) -> Option<EditError>
    ensures { result ≡ files_of.judge files.now (Replaces path.now bytes.now) }
{
    path_refusal(path)
        .or(missing_fault(files, path))
        .or(size_refusal(bytes))
}

fn there_refusal(files: &ByteMap<File>, path: &[u8]) -> Option<EditError>
    ensures { result ≡ files_of.there_refusal files.now path.now }
{
    if files.contains_key(path) {
        Some(EditError::AlreadyThere)
    } else {
        None
    }
}

fn missing_fault(files: &ByteMap<File>, path: &[u8]) -> Option<EditError>
    ensures { result ≡ files_of.missing_fault files.now path.now }
{
    if files.contains_key(path) {
        None
    } else {
        Some(EditError::NoSuchFile)
    }
}

/// Returns the first refusal of an edit of the outside prefixes that applies, apart from `NoMemory`.
pub(crate) fn judge_prefix(outside: &Outside, edit: PrefixEdit<'_>) -> Option<EditError>
    ensures { result ≡ edits.judge_prefix outside.now (prefix_change edit.entry) }
{
    match edit {
        PrefixEdit::Add(prefix) => prefix_fault(prefix)
            .or(held_fault(outside, prefix))
            .or(full_fault(outside)),
        PrefixEdit::Drop(prefix) => prefix_fault(prefix).or(lacking_fault(outside, prefix)),
    }
}

fn prefix_fault(prefix: &[u8]) -> Option<EditError>
    ensures { result ≡ edits.prefix_fault prefix.now }
{
    if is_bad_prefix(prefix) {
        Some(EditError::BadPrefix)
    } else {
        None
    }
}

fn held_fault(outside: &Outside, prefix: &[u8]) -> Option<EditError>
    ensures { result ≡ edits.held_fault outside.now prefix.now }
{
    if outside.has(prefix) {
        Some(EditError::PrefixThere)
    } else {
        None
    }
}

fn lacking_fault(outside: &Outside, prefix: &[u8]) -> Option<EditError>
    ensures { result ≡ edits.lacking_fault outside.now prefix.now }
{
    if outside.has(prefix) {
        None
    } else {
        Some(EditError::NoSuchPrefix)
    }
}

fn full_fault(outside: &Outside) -> Option<EditError>
    ensures { result ≡ edits.full_fault outside.now }
{
    if outside.len() < MOST_PREFIXES {
        None
    } else {
        Some(EditError::TooManyPrefixes)
    }
}
