//! A session over class files.

ghost use Rattle.std.specs.Prelude.{◌≡◌, ◌≤◌, ◌-◌, IfOk, IfSome, OnOk, OnErr, is_some, option_and_then};
ghost use Rattle.std.specs.Option.{option_map};
ghost use Rattle.std.specs.FinMap as map;
ghost use Rattle.jc_classes.specs.NameLists.{Lists};
ghost use Rattle.jc_classes.specs.Names.{names_of};
ghost use Rattle.jc_classes.specs.Parts.{IsPart};
ghost use Rattle.jc_report.specs.FileRows.{winner};
ghost use Rattle.jc_report.specs.Reports.{world_of};
ghost use Rattle.jc_input.specs.Changes.{change_lent, change_of, prefix_change};
ghost use Rattle.jc_input.specs.FileEdits.{after, judge};
ghost use Rattle.jc_edits.specs.Edits.{after_edit, after_prefix, judge_edit, judge_prefix};
ghost use Rattle.jc_edits.specs.Judged.{IsAnswered};
ghost use Rattle.jc_edits.specs.Reported.{CountsHoldersAt, IsDependant};
ghost use Rattle.jc_edits.specs.SessionState.{contents_of};
ghost use Rattle.jc_edits.specs.Touched.{IsCountedStep, gives};

use crate::judge::{judge, judge_prefix};
use crate::report::Report;
use jc_base::NoMemory;
use jc_input::{Done, Edit, EditError, LentEdit, PrefixEdit};
use jc_link::{Meter, Outside, Part};
use std::alloc::Global;
use std::marker::Model;

/// A session: class files by path, outside prefixes, and the report of them. Its model is a record of the files, the
/// prefixes, the number of look-ups, and the number of parts that were computed.
///
/// For example (`crates/jc_rows/src/edits.rt`):
///
/// ```
/// match session.report().class(name.as_bytes()) {
///     Some(class) => write_answer(out, class.answer(index)),
///     None => out.text(b"no class"),
/// }
/// ..
/// match session.edit(Edit::Add(path, bytes)) {
///     Ok(_) => Ok(()),
///     Err(_) => bail!("a refused edit"),
/// }
/// ```
#[derive(Drop)]
pub struct Session {
    alloc: Global,
    report: Report,
    meter: Meter,
}

impl Model for Session {
    ghost use Rattle.jc_edits.specs.SessionState.{SessionState};
    ghost use Rattle.jc_edits.specs.inside.StateCode.{state_code};

    ghost Value = { SessionState };

    ghost coded = { state_code };

    ghost view = { λ a. record { files = a.report.files; prefixes = a.report.prefixes; asks = a.meter.asks; made = a.meter.made } };
}

impl Session {
    /// Returns a session without files. A name is outside if it begins with one of these prefixes and has no class. The
    /// class `java/lang/Object` is built in. Returns `NoMemory` only when an allocation fails.
    pub fn new(alloc: Global, outside: Outside) -> Result<Session, NoMemory>
        ensures { IfOk result (λ session. session ≡ record { files = map.empty; prefixes = outside; asks = 0; made = 0 }) }
    {
        let (report, meter) = Report::new(alloc, outside)?;
        Ok(Session {
            alloc,
            report,
            meter,
        })
    }

    /// Makes an edit, and returns its cost. A refused edit changes neither a file nor a prefix. If an allocation fails,
    /// the meter may have counted.
    ///
    /// Recomputes only the parts of the classes whose reach has a name that the edit touches. It touches a name whose
    /// facts change, and a name without a class that becomes outside or inside.
    pub fn edit(&mut self, edit: Edit) -> Result<Done, EditError>
        ensures judged { IsAnswered result (judge_edit (contents_of self.old) (change_of edit)) }
        ensures ok { OnOk result (contents_of self.new ≡ after_edit (contents_of self.old) (change_of edit)) }
        ensures err { OnErr result (contents_of self.new ≡ contents_of self.old) }
        ensures made { IfOk result (λ done. done.made ≡ self.new.made - self.old.made) }
        ensures asks { IfOk result (λ done. done.asks ≡ self.new.asks - self.old.asks) }
        ensures counted { OnOk result (IsCountedStep self.old self.new) }
        ensures asks_rise { self.old.asks ≤ self.new.asks }
        ensures made_rise { self.old.made ≤ self.new.made }
    {
        match edit {
            Edit::Add(path, bytes) => self.make(LentEdit::Add(&path, bytes)),
            Edit::Replace(path, bytes) => self.make(LentEdit::Replace(&path, bytes)),
            Edit::Remove(path) => self.make(LentEdit::Remove(&path)),
            Edit::AddPrefix(prefix) => self.make_prefix(PrefixEdit::Add(&prefix)),
            Edit::DropPrefix(prefix) => self.make_prefix(PrefixEdit::Drop(&prefix)),
        }
    }

    /// Makes an edit of the outside prefixes, with a borrowed prefix, as [`Session::edit`] does.
    pub fn make_prefix(&mut self, edit: PrefixEdit<'_>) -> Result<Done, EditError>
        ensures judged { IsAnswered result (judge_prefix self.old.prefixes (prefix_change edit.entry)) }
        ensures ok { OnOk result (self.new.prefixes ≡ after_prefix self.old.prefixes (prefix_change edit.entry)) }
        ensures err { OnErr result (self.new.prefixes ≡ self.old.prefixes) }
        ensures files { self.new.files ≡ self.old.files }
        ensures made { IfOk result (λ done. done.made ≡ self.new.made - self.old.made) }
        ensures asks { IfOk result (λ done. done.asks ≡ self.new.asks - self.old.asks) }
        ensures counted { OnOk result (IsCountedStep self.old self.new) }
        ensures asks_rise { self.old.asks ≤ self.new.asks }
        ensures made_rise { self.old.made ≤ self.new.made }
    {
        if let Some(fault) = judge_prefix(self.outside(), edit) {
            return Err(fault);
        }
        let made = self.meter.made();
        let asks = self.meter.asks();
        self.report.make_prefix(self.alloc, edit, &mut self.meter)?;
        Ok(Done {
            made: self.meter.made().saturating_sub(made),
            asks: self.meter.asks().saturating_sub(asks),
        })
    }

    /// Returns the outside prefixes. Does not allocate.
    pub fn outside(&self) -> &Outside
        ensures { result.now ≡ self.now.prefixes }
    {
        self.report.linkage.outside()
    }

    /// Makes an edit of the files, with a borrowed path, as [`Session::edit`] does.
    pub fn make(&mut self, edit: LentEdit<'_>) -> Result<Done, EditError>
        ensures judged { IsAnswered result (judge self.old.files (change_lent edit.entry)) }
        ensures ok { OnOk result (self.new.files ≡ after self.old.files (change_lent edit.entry)) }
        ensures err { OnErr result (self.new.files ≡ self.old.files) }
        ensures prefixes { self.new.prefixes ≡ self.old.prefixes }
        ensures made { IfOk result (λ done. done.made ≡ self.new.made - self.old.made) }
        ensures asks { IfOk result (λ done. done.asks ≡ self.new.asks - self.old.asks) }
        ensures counted { OnOk result (IsCountedStep self.old self.new) }
        ensures asks_rise { self.old.asks ≤ self.new.asks }
        ensures made_rise { self.old.made ≤ self.new.made }
    {
        if let Some(fault) = judge(&self.report.held.files, &edit) {
            return Err(fault);
        }
        let made = self.meter.made();
        let asks = self.meter.asks();
        self.report.make(self.alloc, edit, &mut self.meter)?;
        Ok(Done {
            made: self.meter.made().saturating_sub(made),
            asks: self.meter.asks().saturating_sub(asks),
        })
    }

    /// Returns the report. Does not allocate.
    pub fn report(&self) -> &Report
        ensures files { result.now.files ≡ self.now.files }
        ensures prefixes { result.now.prefixes ≡ self.now.prefixes }
    {
        &self.report
    }

    /// Returns the part of a class, if the files have it. Does not allocate.
    pub fn part(&self, name: &[u8]) -> Option<&Part>
        ensures given { is_some result ≡ gives self.now.files name.now }
        ensures part { IfSome result (λ part. IsPart (world_of self.now.files self.now.prefixes) name.now part.now) }
    {
        self.report.linkage.part(name)
    }

    /// Returns the names of the classes of the files whose reach has this name, sorted. No file needs to give this
    /// name. Does not allocate.
    pub fn dependants(&self, name: &[u8]) -> &[Vec<u8>]
        ensures { Lists (names_of result.now) (IsDependant (contents_of self.now) name.now) }
    {
        self.report.linkage.dependants(name)
    }

    /// Returns the number of classes that require the row at a place of [`Report::required`]. Places are counted from
    /// 0; beyond the last row the number is 0. Takes time linear in the place. Does not allocate.
    pub fn holders(&self, place: usize) -> usize
        ensures { CountsHoldersAt (contents_of self.now) place result }
    {
        self.report.holders(place)
    }

    /// Returns the meter, which counts the look-ups in the table of classes and the parts that were computed. Does not
    /// allocate.
    pub fn meter(&self) -> &Meter
        ensures asks { result.now.asks ≡ self.now.asks }
        ensures made { result.now.made ≡ self.now.made }
    {
        &self.meter
    }

    /// Returns the bytes of the winner of a class, or `None` if no readable file names the class. Does not allocate.
    pub fn winning_file(&self, name: &[u8]) -> Option<&[u8]>
        ensures { option_map (λ bytes. bytes.now) result ≡ option_and_then (map.get self.now.files) (winner self.now.files name.now) }
    {
        self.report.winning_file(name)
    }

    /// Returns the bytes of the file at the path, readable or not. Does not allocate.
    pub fn file(&self, path: &[u8]) -> Option<&[u8]>
        ensures { option_map (λ bytes. bytes.now) result ≡ map.get self.now.files path.now }
    {
        self.report.file(path)
    }
}
