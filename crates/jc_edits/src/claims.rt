//! The files that have a class.

ghost use Rattle.std.specs.Prelude.{◌≡◌, false, ℕ, List, OnOk, OnErr};
ghost use Rattle.std.specs.Option.{option_map};
ghost use Rattle.jc_view.specs.Outcome.{class_named};
ghost use Rattle.jc_edits.specs.inside.Changing.{winner_but};
ghost use Rattle.jc_edits.specs.inside.Claims.{AddsClaim, AreClaims, TakesClaim, claim_at, claim_of, claimed_state};
ghost use Rattle.jc_edits.specs.inside.Claims.{first_claim, has_claim, stale_claim};
ghost use Rattle.jc_report.specs.Files.{Files};
ghost use Rattle.jc_report.specs.FileRowView.{state_lent};
ghost use Rattle.jc_report.specs.FileRows as rows;

use crate::file::File;
use jc_base::{ByteMap, NoMemory};
use jc_report::FileState;
use std::alloc::Global;
use std::marker::Model;

/// For each name of a class the paths of the files that have it. A *claim* is a name with such a path.
#[derive(Drop)]
pub(crate) struct Claims {
    alloc: Global,
    by_name: ByteMap<ByteMap<()>>,
}

impl Model for Claims {
    ghost use Rattle.std.specs.Coded.{coded_list, coded_ℕ};
    ghost use Rattle.std.specs.FinMap as map;
    ghost use Rattle.std.specs.FinSet as set;
    ghost use Rattle.jc_edits.specs.inside.Claims.{PathsByName, NoneEmpty};

    ghost Value = { PathsByName };

    ghost coded = { map.code (coded_list coded_ℕ) (set.code (coded_list coded_ℕ)) };

    ghost view = { λ a. a.by_name };

    ghost invariant = { λ a. NoneEmpty a.by_name };
}

impl Claims {
    /// Returns no claims. Does not allocate.
    pub(crate) fn new(alloc: Global) -> Claims
        ensures { (name path : List ℕ) → has_claim result name path ≡ false }
    {
        Claims {
            alloc,
            by_name: ByteMap::new(alloc),
        }
    }

    /// Adds a claim: the file at the path has the class.
    pub(crate) fn add(&mut self, name: &[u8], path: &[u8]) -> Result<(), NoMemory>
        ensures ok { OnOk result (AddsClaim (claim_of name.now path.now) self.old self.new) }
        ensures err { OnErr result (self.new ≡ self.old) }
    {
        let path = Vec::from_slice(self.alloc, path)?;
        if let Some(paths) = self.by_name.get_mut(name) {
            paths.insert(path, ())?;
            return Ok(());
        }
        let name = Vec::from_slice(self.alloc, name)?;
        let mut paths = ByteMap::new(self.alloc);
        paths.insert(path, ())?;
        self.by_name.insert(name, paths)?;
        Ok(())
    }

    /// Removes a claim. Does not allocate.
    pub(crate) fn remove(&mut self, name: &[u8], path: &[u8])
        ensures { TakesClaim (claim_of name.now path.now) self.old self.new }
    {
        if let Some(paths) = self.by_name.get_mut(name) {
            paths.remove(path);
            if paths.is_empty() {
                self.by_name.remove(name);
            }
        }
    }

    /// Returns the least path of the files that have the class.
    pub(crate) fn first(&self, name: &[u8]) -> Option<&[u8]>
        ensures { option_map (λ path. path.now) result ≡ first_claim self.now name.now }
    {
        let paths = self.by_name.get(name)?;
        paths.keys().next()
    }

    /// Returns the least path, without this one, of the files that have the class.
    pub(crate) fn other(&self, name: &[u8], path: &[u8]) -> Option<&[u8]>
        ensures { (f : Files) → AreClaims self.now f → option_map (λ other. other.now) result ≡ winner_but f path.now name.now }
    {
        let paths = self.by_name.get(name)?;
        for other in paths.keys() {
            if other != path {
                return Some(other);
            }
        }
        None
    }
}

/// Adds the claim of the file at the path, if it has a class.
pub(crate) fn claim(claims: &mut Claims, file: &File, path: &[u8]) -> Result<(), NoMemory>
    ensures ok { OnOk result (AddsClaim (claim_at path.now file.now) claims.old claims.new) }
    ensures err { OnErr result (claims.new ≡ claims.old) }
{
    match file.class() {
        Ok(name) => claims.add(name, path),
        Err(_) => Ok(()),
    }
}

/// Removes the claim of the file at the path, if it has a class.
pub(crate) fn withdraw(claims: &mut Claims, file: &File, path: &[u8])
    ensures { TakesClaim (claim_at path.now file.now) claims.old claims.new }
{
    if let Ok(name) = file.class() {
        claims.remove(name, path);
    }
}

/// Removes the claim of the old file at the path, unless the new one has the same class.
pub(crate) fn withdraw_stale(claims: &mut Claims, before: &File, now: &File, path: &[u8])
    ensures { TakesClaim (stale_claim path.now before.now now.now) claims.old claims.new }
{
    if let Ok(name) = before.class()
        && !now.names(name)
    {
        claims.remove(name, path);
    }
}

/// Returns the state of the file at the path, by the claims of all files.
pub(crate) fn state<'a>(claims: &'a Claims, file: &'a File, path: &'a [u8]) -> FileState<'a>
    ensures { state_lent result ≡ claimed_state claims.now path.now (class_named file.now) }
{
    match file.class() {
        Ok(name) => state_by(path, name, claims.first(name)),
        Err(refusal) => FileState::Unreadable(refusal),
    }
}

fn state_by<'a>(path: &'a [u8], name: &'a [u8], winner: Option<&'a [u8]>) -> FileState<'a>
    ensures { state_lent result ≡ rows.state_by path.now name.now (option_map (λ path. path.now) winner.entry) }
{
    match winner {
        Some(winner) if winner != path => FileState::Shadowed(name, winner),
        _ => FileState::Class(name),
    }
}
