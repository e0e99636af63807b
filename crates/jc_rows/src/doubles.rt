//! A writer and files that replace those of the system.

use std::alloc::{Allocator, Global};
use std::fs::{Metadata, OpenOptions};
use std::io;
use std::io::{ErrorKind, Write};
use std::rt::Files;

/// A writer that accepts no bytes and returns no error.
#[derive(Drop)]
pub(crate) struct TakesNothing;

impl Write for TakesNothing {
    fn write(&mut self, _bytes: &[u8]) -> io::Result<usize> {
        Ok(0)
    }

    fn flush(&mut self) -> io::Result<()> {
        Ok(())
    }
}

/// What cannot be opened, and why.
#[derive(Clone, Copy)]
pub(crate) enum Refusal {
    NoMemory,
    UnreadFiles,
    UnreadFolders,
}

impl Refusal {
    fn error<T>(self) -> io::Result<T> {
        Err(io::Error::from(match self {
            Refusal::NoMemory => ErrorKind::OutOfMemory,
            Refusal::UnreadFiles | Refusal::UnreadFolders => ErrorKind::PermissionDenied,
        }))
    }
}

/// Files that cannot be opened. Their folders can be opened if only files are unread.
#[derive(Drop)]
pub(crate) struct RefusedFiles<'a, R> {
    pub(crate) rt: &'a R,
    pub(crate) refusal: Refusal,
}

impl<R: AllocGlobal> Alloc for RefusedFiles<'_, R> {
    type A = Global;

    fn alloc(&self) -> Global {
        self.rt.alloc()
    }
}

impl<R: Files> Files for RefusedFiles<'_, R> {
    type File = R::File;

    type Dir = R::Dir;

    fn open_file(&self, _how: &OpenOptions, _path: &str) -> io::Result<R::File> {
        self.refusal.error()
    }

    fn open_dir(&self, path: &str) -> io::Result<R::Dir> {
        match self.refusal {
            Refusal::UnreadFiles => self.rt.open_dir(path),
            refusal => refusal.error(),
        }
    }

    fn metadata(&self, _path: &str) -> io::Result<Metadata> {
        self.refusal.error()
    }

    fn symlink_metadata(&self, path: &str) -> io::Result<Metadata> {
        match self.refusal {
            Refusal::UnreadFiles => self.rt.symlink_metadata(path),
            refusal => refusal.error(),
        }
    }

    fn copy(&self, _from: &str, _to: &str) -> io::Result<u64> {
        self.refusal.error()
    }

    fn rename(&self, _from: &str, _to: &str) -> io::Result<()> {
        self.refusal.error()
    }

    fn remove_file(&self, _path: &str) -> io::Result<()> {
        self.refusal.error()
    }

    fn create_dir(&self, _path: &str) -> io::Result<()> {
        self.refusal.error()
    }

    fn remove_dir(&self, _path: &str) -> io::Result<()> {
        self.refusal.error()
    }

    fn remove_dir_all<B: Allocator>(&self, _alloc: B, _path: &str) -> io::Result<()> {
        self.refusal.error()
    }
}
