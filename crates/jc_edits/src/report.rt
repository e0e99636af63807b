//! The report of a session.

ghost use Rattle.std.specs.Prelude.{◌≡◌, ◌≤◌, IfOk, IfSome, IsTrue, None, OnErr, OnOk, is_some, option_and_then};
ghost use Rattle.std.specs.Option.{option_map};
ghost use Rattle.std.specs.FinMap as map;
ghost use Rattle.jc_classes.specs.Parts.{IsPart};
ghost use Rattle.jc_report.specs.FileRows.{rows, winner};
ghost use Rattle.jc_report.specs.Reports as reports;
ghost use Rattle.jc_report.specs.Reports.{facts_at, is_wrong, world_of};
ghost use Rattle.jc_input.specs.Changes.{change_lent, path_of, prefix_change};
ghost use Rattle.jc_input.specs.FileEdits.{after, judge};
ghost use Rattle.jc_edits.specs.Edits.{after_prefix};
ghost use Rattle.jc_edits.specs.Reported.{CountsHoldersAt, IsReportOf};
ghost use Rattle.jc_edits.specs.Touched.{gives};
ghost use Rattle.jc_edits.specs.inside.Changing.{bytes_of, is_add};
ghost use Rattle.jc_edits.specs.inside.HeldFile.{bytes_held};
ghost use Rattle.jc_edits.specs.inside.Metered.{MetersChange};

use crate::changes::{Changes, changes_of};
use crate::claimed_files::{ClaimedFiles, commit, grow, undo};
use crate::rows::Rows;
use jc_base::NoMemory;
use jc_input::{LentEdit, PrefixEdit};
use jc_link::{Meter, Outside};
use jc_linkage::{HeldClasses, Linkage, Required};
use jc_report::{Asked, Circular, LentClass, Provided, is_any_wrong};
use std::alloc::Global;
use std::marker::Model;

/// The report of the files of a session. Its model is a record of the files and the outside prefixes, which determine
/// the report.
#[derive(Drop)]
pub struct Report {
    pub(crate) held: ClaimedFiles,
    pub(crate) linkage: Linkage,
}

impl Model for Report {
    ghost use Rattle.jc_edits.specs.SessionState.{Contents};
    ghost use Rattle.jc_edits.specs.inside.Reporting.{IsWhole};
    ghost use Rattle.jc_edits.specs.inside.StateCode.{contents_code};

    ghost Value = { Contents };

    ghost coded = { contents_code };

    ghost view = { λ a. record { files = a.held.files; prefixes = a.linkage.prefixes } };

    ghost invariant = { IsWhole };
}

impl Report {
    /// Returns the report of no files, and the meter that counts the parts and look-ups of its edits. Returns
    /// `NoMemory` only when an allocation fails.
    pub(crate) fn new(alloc: Global, outside: Outside) -> Result<(Report, Meter), NoMemory>
        ensures held { IfOk result (λ made. made.0 ≡ record { files = map.empty; prefixes = outside }) }
        ensures asks { IfOk result (λ made. made.1.asks ≡ 0) }
        ensures made { IfOk result (λ made. made.1.made ≡ 0) }
    {
        let (linkage, meter) = Linkage::new(alloc, outside)?;
        let held = ClaimedFiles::new(alloc);
        Ok((Report { held, linkage }, meter))
    }

    /// Makes an edit of files that is not refused. If an allocation fails, nothing has changed, but the meter may have
    /// counted. If the file at the path has these bytes already, nothing is parsed, looked up or computed.
    pub(crate) fn make(
        &mut self,
        alloc: Global,
        edit: LentEdit<'_>,
        meter: &mut Meter,
    ) -> Result<(), NoMemory>
        requires { judge self.old.files (change_lent edit) ≡ None }
        ensures ok { OnOk result (self.new.files ≡ after self.old.files (change_lent edit.entry)) }
        ensures err { OnErr result (self.new.files ≡ self.old.files) }
        ensures prefixes { self.new.prefixes ≡ self.old.prefixes }
        ensures counted { OnOk result (MetersChange self.old self.new meter.old meter.new) }
        ensures asks_rise { meter.old.asks ≤ meter.new.asks }
        ensures made_rise { meter.old.made ≤ meter.new.made }
    {
        if self.is_unchanged(&edit) {
            return Ok(());
        }
        let is_new = is_add(&edit);
        let (path, bytes) = parts_of(edit);
        let Changes { file, first, put } = changes_of(alloc, &self.held, path, bytes, is_new)?;
        let grown = grow(&mut self.held, alloc, path, file, is_new)?;
        match self.linkage.change(first, put, meter) {
            Ok(()) => {
                commit(&mut self.held, grown);
                Ok(())
            }
            Err(_) => {
                undo(&mut self.held, grown);
                Err(NoMemory)
            }
        }
    }

    /// Returns whether an edit leaves the files as they are: the file at the path has these bytes already. Does not
    /// allocate.
    fn is_unchanged(&self, edit: &LentEdit<'_>) -> bool
        ensures { IsTrue result → after self.now.files (change_lent edit.now) ≡ self.now.files }
    {
        let LentEdit::Replace(path, bytes) = edit else {
            return false;
        };
        match self.file(path) {
            Some(there) => there == bytes.as_slice(),
            None => false,
        }
    }

    /// Makes an edit of the outside prefixes that is not refused. If an allocation fails, nothing has changed, but the
    /// meter may have counted.
    pub(crate) fn make_prefix(
        &mut self,
        alloc: Global,
        edit: PrefixEdit<'_>,
        meter: &mut Meter,
    ) -> Result<(), NoMemory>
        ensures ok { OnOk result (self.new.prefixes ≡ after_prefix self.old.prefixes (prefix_change edit.entry)) }
        ensures err { OnErr result (self.new.prefixes ≡ self.old.prefixes) }
        ensures files { self.new.files ≡ self.old.files }
        ensures counted { OnOk result (MetersChange self.old self.new meter.old meter.new) }
        ensures asks_rise { meter.old.asks ≤ meter.new.asks }
        ensures made_rise { meter.old.made ≤ meter.new.made }
    {
        let outside = match edit {
            PrefixEdit::Add(prefix) => self.linkage.outside().plus(alloc, prefix)?,
            PrefixEdit::Drop(prefix) => self.linkage.outside().minus(alloc, prefix)?,
        };
        self.linkage.change_outside(outside, meter)
    }

    /// Returns whether a file is unreadable, a class has a fault or does not load, a reference does not resolve, or an
    /// instruction does not link. Does not allocate.
    pub fn wrong(&self) -> bool
        ensures { (r : reports.Report) × IsReportOf self.now r × (result ≡ is_wrong r) }
    {
        is_any_wrong(self.files(), self.classes(), Asked::all())
    }

    /// Returns the state of each file, in the order of the paths. Does not allocate.
    pub fn files(&self) -> Rows<'_>
        ensures { result ≡ rows self.now.files }
    {
        Rows {
            files: self.held.files.iter(),
            claims: &self.held.claims,
        }
    }

    /// Returns the classes of the files with their parts, in the order of their names. Does not allocate.
    pub fn classes(&self) -> HeldClasses<'_>
        ensures { (r : reports.Report) × IsReportOf self.now r × (result ≡ r.classes) }
    {
        self.linkage.classes()
    }

    /// Returns the class of a name with its part, if the files have it. The meter counts no look-up. Does not allocate.
    pub fn class(&self, name: &[u8]) -> Option<LentClass<'_>>
        ensures given { is_some result ≡ gives self.now.files name.now }
        ensures facts { option_map (λ class. class.facts.now) result ≡ facts_at self.now.files name.now }
        ensures part { IfSome result (λ class. IsPart (world_of self.now.files self.now.prefixes) name.now class.part.now) }
    {
        self.linkage.class(name)
    }

    /// Returns the names of the circular classes, sorted. Does not allocate.
    pub fn circular(&self) -> Circular<'_, HeldClasses<'_>>
        ensures { (r : reports.Report) → IsReportOf self.now r → result ≡ r.circular }
    {
        self.linkage.circular()
    }

    /// Returns the rows that the classes provide, sorted, each once. Does not allocate.
    pub fn provided(&self) -> Provided<'_, HeldClasses<'_>>
        ensures { (r : reports.Report) → IsReportOf self.now r → result ≡ r.provided }
    {
        self.linkage.provided()
    }

    /// Returns the rows that the classes require, sorted, each once. Does not allocate.
    pub fn required(&self) -> Required<'_>
        ensures { (r : reports.Report) → IsReportOf self.now r → result ≡ r.required }
    {
        self.linkage.required()
    }

    /// Returns the number of classes that require the row at a place of [`Report::required`]. Places are counted from
    /// 0; beyond the last row the number is 0. Takes time linear in the place. Does not allocate.
    pub(crate) fn holders(&self, place: usize) -> usize
        ensures { CountsHoldersAt self.now place result }
    {
        self.linkage.holders(place)
    }

    /// Returns the bytes of the winner of a class, or `None` if no readable file names the class.
    pub(crate) fn winning_file(&self, name: &[u8]) -> Option<&[u8]>
        ensures { option_map (λ bytes. bytes.now) result ≡ option_and_then (map.get self.now.files) (winner self.now.files name.now) }
    {
        self.file(self.held.claims.first(name)?)
    }

    /// Returns the bytes of the file at the path.
    pub(crate) fn file(&self, path: &[u8]) -> Option<&[u8]>
        ensures { option_map (λ bytes. bytes.now) result ≡ map.get self.now.files path.now }
    {
        let file = self.held.files.get(path)?;
        Some(file.bytes())
    }
}

/// Returns whether an edit adds a file.
fn is_add(edit: &LentEdit<'_>) -> bool
    ensures { result ≡ is_add (change_lent edit.now) }
{
    matches!(edit, LentEdit::Add(..))
}

/// Returns the path of an edit, and the new bytes of the file there.
fn parts_of<'a>(edit: LentEdit<'a>) -> (&'a [u8], Option<Vec<u8>>)
    ensures path { result.0.now ≡ path_of (change_lent edit.entry) }
    ensures bytes { bytes_held result.1 ≡ bytes_of (change_lent edit.entry) }
{
    match edit {
        LentEdit::Add(path, bytes) | LentEdit::Replace(path, bytes) => (path, Some(bytes)),
        LentEdit::Remove(path) => (path, None),
    }
}
