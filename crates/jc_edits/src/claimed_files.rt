//! The files of a session, with the names of their classes. An edit first allocates all that it needs. Then it is committed
//! or undone, and neither can fail.

ghost use Rattle.std.specs.Prelude.{◌≡◌, [], IfOk, None, OnErr, OnOk, Some, false, true};
ghost use Rattle.std.specs.FinMap as map;
ghost use Rattle.jc_edits.specs.inside.Claims.{AreClaims};
ghost use Rattle.jc_edits.specs.inside.Growth.{AreClaimsBesides, HasPlace, IsGrown, committed, put_at, undone};

use crate::claims::{Claims, claim, withdraw, withdraw_stale};
use crate::file::File;
use jc_base::{ByteMap, NoMemory};
use std::alloc::Global;
use std::mem;

/// The files by path, and for each class the paths of the files that have it.
#[derive(Drop)]
pub(crate) struct ClaimedFiles {
    pub(crate) files: ByteMap<File>,
    pub(crate) claims: Claims,
}

/// What an edit has allocated. Nothing is removed before the edit is committed. The old file at the path and its claim stay,
/// so the class can still be found as it was.
#[derive(Drop)]
pub(crate) struct Grown<'a> {
    path: &'a [u8],
    /// The new file at the path, if there is one. Its claim is already there.
    file: Option<File>,
    /// Whether the path is new, and an empty file reserves its place.
    is_new: bool,
}

impl ClaimedFiles {
    /// Returns a session's files without any file. Does not allocate.
    pub(crate) fn new(alloc: Global) -> ClaimedFiles
        ensures files { result.files ≡ map.empty }
        ensures claims { AreClaims result.claims result.files }
    {
        ClaimedFiles {
            files: ByteMap::new(alloc),
            claims: Claims::new(alloc),
        }
    }
}

/// Allocates what an edit needs that puts this file at the path, or removes the file there. `is_new` says whether the
/// path of the file is new.
pub(crate) fn grow<'a>(
    held: &mut ClaimedFiles,
    alloc: Global,
    path: &'a [u8],
    file: Option<File>,
    is_new: bool,
) -> Result<Grown<'a>, NoMemory>
    requires claims { AreClaims held.old.claims held.old.files }
    requires new { is_new ≡ true → map.get held.old.files path.now ≡ None }
    requires there { is_new ≡ false → HasPlace held.old.files path.now file }
    ensures grown { IfOk result (λ grown. IsGrown held.new.claims held.new.files grown) }
    ensures place { IfOk result (λ grown. HasPlace held.new.files grown.path.now grown.file) }
    ensures commits { IfOk result (λ grown. committed held.new.files grown ≡ put_at held.old.files path.now file) }
    ensures undoes { IfOk result (λ grown. undone held.new.files grown ≡ held.old.files) }
    ensures err_files { OnErr result (held.new.files ≡ held.old.files) }
    ensures err_claims { OnErr result (AreClaims held.new.claims held.new.files) }
{
    let Some(file) = file else {
        return Ok(Grown {
            path,
            file: None,
            is_new: false,
        });
    };
    if is_new {
        grow_new(held, alloc, path, file)
    } else {
        grow_file(held, path, file)
    }
}

/// Undoes an edit that was not committed. Does not allocate.
pub(crate) fn undo(held: &mut ClaimedFiles, grown: Grown<'_>)
    requires { IsGrown held.old.claims held.old.files grown }
    ensures files { held.new.files ≡ undone held.old.files grown.entry }
    ensures claims { AreClaims held.new.claims held.new.files }
{
    unclaim(held, &grown.file, grown.path);
    if grown.is_new {
        give_up(held, grown.path);
    }
}

/// Commits an edit. Does not allocate.
pub(crate) fn commit(held: &mut ClaimedFiles, grown: Grown<'_>)
    requires grown { IsGrown held.old.claims held.old.files grown }
    requires place { HasPlace held.old.files grown.path.now grown.file }
    ensures files { held.new.files ≡ committed held.old.files grown.entry }
    ensures claims { AreClaims held.new.claims held.new.files }
{
    let Grown { path, file, .. } = grown;
    match file {
        Some(file) => put(held, path, file),
        None => take_out(held, path),
    }
}

/// Adds the claim of a new file at a path that has a file.
fn grow_file<'a>(held: &mut ClaimedFiles, path: &'a [u8], file: File) -> Result<Grown<'a>, NoMemory>
    requires { AreClaims held.old.claims held.old.files }
    ensures files { held.new.files ≡ held.old.files }
    ensures grown { IfOk result (λ grown. AreClaimsBesides held.new.claims held.new.files path.now (Some file)) }
    ensures path { IfOk result (λ grown. grown.path.now ≡ path.now) }
    ensures file { IfOk result (λ grown. grown.file ≡ Some file) }
    ensures old { IfOk result (λ grown. grown.is_new ≡ false) }
    ensures err { OnErr result (AreClaims held.new.claims held.new.files) }
{
    claim(&mut held.claims, &file, path)?;
    Ok(Grown {
        path,
        file: Some(file),
        is_new: false,
    })
}

/// Adds the claim of a new file at a new path, whose place an empty file reserves.
fn grow_new<'a>(
    held: &mut ClaimedFiles,
    alloc: Global,
    path: &'a [u8],
    file: File,
) -> Result<Grown<'a>, NoMemory>
    requires claims { AreClaims held.old.claims held.old.files }
    requires absent { map.get held.old.files path.now ≡ None }
    ensures grown { IfOk result (λ grown. IsGrown held.new.claims held.new.files grown) }
    ensures place { IfOk result (λ grown. HasPlace held.new.files grown.path.now grown.file) }
    ensures commits { IfOk result (λ grown. committed held.new.files grown ≡ map.insert held.old.files path.now file) }
    ensures undoes { IfOk result (λ grown. undone held.new.files grown ≡ held.old.files) }
    ensures err_files { OnErr result (held.new.files ≡ held.old.files) }
    ensures err_claims { OnErr result (AreClaims held.new.claims held.new.files) }
{
    let mut grown = grow_file(held, path, file)?;
    match keep_place(&mut held.files, alloc, path) {
        Ok(()) => {
            grown.is_new = true;
            Ok(grown)
        }
        Err(refused) => {
            undo(held, grown);
            Err(refused)
        }
    }
}

/// Puts an empty file at a new path.
fn keep_place(files: &mut ByteMap<File>, alloc: Global, path: &[u8]) -> Result<(), NoMemory>
    ensures ok { OnOk result (files.new ≡ map.insert files.old path.now []) }
    ensures err { OnErr result (files.new ≡ files.old) }
{
    let path = Vec::from_slice(alloc, path)?;
    files.insert(path, File::empty(alloc))?;
    Ok(())
}

/// Removes the claim of the new file at the path, unless the old file there has the same class.
fn unclaim(held: &mut ClaimedFiles, file: &Option<File>, path: &[u8])
    requires { AreClaimsBesides held.old.claims held.old.files path.now file.now }
    ensures files { held.new.files ≡ held.old.files }
    ensures claims { AreClaims held.new.claims held.new.files }
{
    let Some(file) = file else {
        return;
    };
    match held.files.get(path) {
        Some(there) => withdraw_stale(&mut held.claims, file, there, path),
        None => withdraw(&mut held.claims, file, path),
    }
}

/// Removes the empty file that reserves a place.
fn give_up(held: &mut ClaimedFiles, path: &[u8])
    requires claims { AreClaims held.old.claims held.old.files }
    requires empty { map.get held.old.files path.now ≡ Some [] }
    ensures files { held.new.files ≡ map.remove held.old.files path.now }
    ensures claims { AreClaims held.new.claims held.new.files }
{
    held.files.remove(path);
}

/// Replaces the file at the path by one whose claim is already there.
fn put(held: &mut ClaimedFiles, path: &[u8], file: File)
    requires claims { AreClaimsBesides held.old.claims held.old.files path.now (Some file) }
    requires place { map.contains_key held.old.files path.now ≡ true }
    ensures files { held.new.files ≡ map.insert held.old.files path.now file }
    ensures claims { AreClaims held.new.claims held.new.files }
{
    let Some(place) = held.files.get_mut(path) else {
        unreachable!();
    };
    withdraw_stale(&mut held.claims, place, &file, path);
    drop(mem::replace(place, file));
}

/// Removes the file at the path, and its claim.
fn take_out(held: &mut ClaimedFiles, path: &[u8])
    requires { AreClaims held.old.claims held.old.files }
    ensures files { held.new.files ≡ map.remove held.old.files path.now }
    ensures claims { AreClaims held.new.claims held.new.files }
{
    if let Some(file) = held.files.remove(path) {
        withdraw(&mut held.claims, &file, path);
    }
}
