//! A source of the files below a folder, by their paths relative to it.

ghost use Rattle.std.specs.Prelude.{◌≡◌, IfOk};
ghost use Rattle.std.specs.String.{string_bytes};
ghost use Rattle.std.specs.declared.option.Option.TheVariants.{None};
ghost use Rattle.jc_session.specs.inside.Paths.{below};

use jc_input::{FileSource, Source, SourceError};
use std::alloc::{AllocError, Global};
use std::rt::Files;

/// A source that reads the files below a folder. Its contract says nothing of the bytes that it returns.
#[derive(Drop)]
pub(crate) struct FolderSource<'a, R> {
    rt: &'a R,
    folder: &'a str,
    files: FileSource<'a, R>,
}

impl<'a, R: Files + AllocGlobal> FolderSource<'a, R> {
    /// Returns a source of the files of a runtime, by their paths relative to a folder.
    pub(crate) fn new(rt: &'a R, folder: &'a str) -> FolderSource<'a, R> {
        FolderSource {
            rt,
            folder,
            files: FileSource::new(rt),
        }
    }
}

impl<R: Files + AllocGlobal> Source for FolderSource<'_, R> {
    ghost answers = { λ _. None };

    /// Returns the bytes of the file, or its first 16,777,217 bytes. A path that is not UTF-8 is `Unread`.
    fn read(&mut self, path: &[u8]) -> Result<Vec<u8>, SourceError> {
        let Ok(path) = str::from_utf8(path) else {
            return Err(SourceError::Unread);
        };
        match path_below(self.rt.alloc(), self.folder, path) {
            Ok(path) => self.files.read(path.as_bytes()),
            Err(_) => Err(SourceError::NoMemory),
        }
    }
}

/// Joins a folder and a path relative to it. The empty path is the folder itself.
pub(crate) fn path_below(alloc: Global, folder: &str, path: &str) -> Result<String, AllocError>
    ensures { IfOk result (λ whole. string_bytes whole ≡ below folder.now path.now) }
{
    let length = folder.len().saturating_add(path.len()).saturating_add(1);
    let mut whole = String::with_capacity(alloc, length)?;
    whole.push_str(folder)?;
    if !path.is_empty() {
        whole.push('/')?;
        whole.push_str(path)?;
    }
    Ok(whole)
}
