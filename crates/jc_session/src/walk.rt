//! The walk of a folder: the paths of the class files below it.

ghost use Rattle.std.specs.Prelude.{◌≡◌, ◌||◌, IfOk, OnOk, true};
ghost use Rattle.std.specs.FinMap as map;
ghost use Rattle.std.specs.List.Sorted.{IsStrictlySortedBy};
ghost use Rattle.jc_classes.specs.NameLists.{Lists};
ghost use Rattle.jc_classes.specs.Names.{Name, name_cmp, names_of};
ghost use Rattle.jc_session.specs.inside.FolderNames.{is_entry_name, is_name_in};
ghost use Rattle.jc_session.specs.inside.Paths.{IsEntry};

use crate::folder::path_below;
use jc_base::{ByteMap, NoMemory};
use std::alloc::{AllocError, AllocFailed, Global};
use std::fs;
use std::io::{self, ErrorKind, Read};
use std::rt::Files;

/// The number of bytes of names that one read may return.
const ROOM: usize = 8192;

/// Why the walk of a folder fails.
#[derive(Drop)]
pub(crate) enum WalkError {
    /// The file or folder at this path can't be read. The path is relative to the folder of the walk, or is the path of
    /// that folder itself.
    Unread(Vec<u8>),
    /// An allocation failed, or the system is out of memory.
    NoMemory,
}

/// Returns the paths of the regular files below a folder whose names end in `.class`.
///
/// The paths are relative to the folder and sorted by their bytes. The walk is depth first, takes the entries of each
/// folder in the order of their names, and follows no link below `folder`. It ends at the first fault. A name that is
/// not UTF-8 is a fault at the folder that contains it.
pub(crate) fn class_files<'a, F: Files + AllocGlobal>(
    rt: &'a F,
    folder: &'a str,
) -> Result<Vec<Vec<u8>>, WalkError>
    ensures { IfOk result (λ paths. IsStrictlySortedBy name_cmp (names_of paths.items)) }
{
    let mut walk = FolderWalk {
        rt,
        folder,
        pending: Vec::new(rt.alloc()),
        files: ByteMap::new(rt.alloc()),
    };
    walk.go_through()?;
    Ok(walk.files.into_keys(rt.alloc())?)
}

/// An entry of a folder.
#[derive(Drop)]
enum Entry {
    /// The entry at this path, relative to the folder of the walk.
    At(String),
    /// An entry whose name is not UTF-8, in the folder at this path.
    Unnamed(String),
}

/// A walk through all entries below a folder.
#[derive(Drop)]
struct FolderWalk<'a, F> {
    rt: &'a F,
    folder: &'a str,
    /// The entries that are still to be visited, the next one last.
    pending: Vec<Entry>,
    /// The paths of the class files that were found.
    files: ByteMap<()>,
}

impl<F: Files + AllocGlobal> FolderWalk<'_, F> {
    /// Visits all entries below the folder. A folder with an empty path can't be read.
    fn go_through(&mut self) -> Result<(), WalkError> {
        if self.folder.is_empty() {
            return Err(self.unread_at(""));
        }
        self.enter("")?;
        for _ in 0..u64::MAX {
            match self.pending.pop() {
                Some(entry) => self.take(entry)?,
                None => break,
            }
        }
        Ok(())
    }

    /// Visits an entry, or returns the fault of the folder of an entry whose name is not UTF-8.
    fn take(&mut self, entry: Entry) -> Result<(), WalkError> {
        match entry {
            Entry::At(path) => self.visit(path),
            Entry::Unnamed(folder) => Err(self.unread_at(folder.as_str())),
        }
    }

    /// Adds the entries of the folder at a path to those to be visited, or the class file at it to the files found.
    fn visit(&mut self, path: String) -> Result<(), WalkError> {
        let kind = match self.kind(path.as_str()) {
            Ok(kind) => kind,
            Err(error) => return Err(self.unread(&error, path.as_str())),
        };
        if kind.is_dir() {
            self.enter(path.as_str())
        } else if kind.is_file() && path.ends_with(".class") {
            self.files.insert(path.into_bytes(), ())?;
            Ok(())
        } else {
            Ok(())
        }
    }

    /// Returns the type of the file at a path. A link is not followed.
    fn kind(&self, path: &str) -> io::Result<fs::FileType> {
        let path = path_below(self.rt.alloc(), self.folder, path)?;
        Ok(fs::symlink_metadata(self.rt, path.as_str())?.file_type())
    }

    /// Puts the entries of the folder at a path before the entries that are still to be visited.
    fn enter(&mut self, path: &str) -> Result<(), WalkError> {
        match self.names(path) {
            Ok(names) => Ok(self.put_before(path, &sorted(self.rt.alloc(), &names)?)?),
            Err(error) => Err(self.unread(&error, path)),
        }
    }

    /// Puts the entries of these names in a folder before the entries that are still to be visited.
    fn put_before(&mut self, folder: &str, names: &[Vec<u8>]) -> Result<(), NoMemory> {
        for name in names.iter().rev() {
            let entry = entry_of(self.rt.alloc(), folder, name)?;
            self.pending.push(entry)?;
        }
        Ok(())
    }

    /// Returns the names in a folder, each ended by a NUL.
    fn names(&self, path: &str) -> io::Result<Vec<u8>> {
        let mut path = path_below(self.rt.alloc(), self.folder, path)?;
        path.push('/')?;
        let mut folder = self.rt.open_dir(path.as_str())?;
        let mut names = Vec::new(self.rt.alloc());
        read_names(&mut folder, &mut names)?;
        Ok(names)
    }

    fn unread(&self, error: &io::Error, path: &str) -> WalkError {
        match error.kind() {
            ErrorKind::OutOfMemory => WalkError::NoMemory,
            _ => self.unread_at(path),
        }
    }

    /// Returns the fault at a path relative to the folder of the walk. The empty path is that folder itself.
    fn unread_at(&self, path: &str) -> WalkError {
        let path = if path.is_empty() { self.folder } else { path };
        match Vec::from_slice(self.rt.alloc(), path.as_bytes()) {
            Ok(path) => WalkError::Unread(path),
            Err(_) => WalkError::NoMemory,
        }
    }
}

/// Appends the names in a folder, each ended by a NUL. A read returns whole names only, so the longest must fit `room`.
fn read_names<R: Read>(folder: &mut R, names: &mut Vec<u8>) -> io::Result<()> {
    let mut room = [0u8; ROOM];
    for _ in 0..u64::MAX {
        let count = folder.read(&mut room)?;
        if count == 0 {
            break;
        }
        names.extend_from_slice(&room[..count])?;
    }
    Ok(())
}

/// Returns the names of a folder's entries, sorted by their bytes. In `names` each name is ended by a NUL.
fn sorted(alloc: Global, names: &[u8]) -> Result<Vec<Vec<u8>>, NoMemory>
    ensures { IfOk result (λ each. Lists (names_of each.items) (λ n. is_name_in names.now n ≡ true)) }
{
    let mut each = ByteMap::new(alloc);
    sort_into(alloc, &mut each, names)?;
    each.into_keys(alloc)
}

fn sort_into(alloc: Global, each: &mut ByteMap<()>, names: &[u8]) -> Result<(), NoMemory>
    ensures { OnOk result ((n : Name) → map.contains_key each.new n ≡ (map.contains_key each.old n || is_name_in names.now n)) }
{
    for name in names.split(|byte| *byte == 0) {
        if is_entry_name(name) {
            each.insert(Vec::from_slice(alloc, name)?, ())?;
        }
    }
    Ok(())
}

/// Returns whether a name in a folder is neither empty nor `.` nor `..`.
fn is_entry_name(name: &[u8]) -> bool
    ensures { result ≡ is_entry_name name.now }
{
    !name.is_empty() && name != b".".as_slice() && name != b"..".as_slice()
}

/// Returns the entry of a name in a folder.
fn entry_of(alloc: Global, folder: &str, name: &[u8]) -> Result<Entry, AllocError>
    ensures { IfOk result (IsEntry folder.now name.now) }
{
    match str::from_utf8(name) {
        Ok(name) if folder.is_empty() => Ok(Entry::At(String::from_str(alloc, name)?)),
        Ok(name) => Ok(Entry::At(path_below(alloc, folder, name)?)),
        Err(_) => Ok(Entry::Unnamed(String::from_str(alloc, folder)?)),
    }
}

impl From<NoMemory> for WalkError {
    fn from(_: NoMemory) -> WalkError {
        WalkError::NoMemory
    }
}

impl From<AllocError> for WalkError {
    fn from(_: AllocError) -> WalkError {
        WalkError::NoMemory
    }
}

impl<T: Drop> From<AllocFailed<T>> for WalkError {
    fn from(_: AllocFailed<T>) -> WalkError {
        WalkError::NoMemory
    }
}
