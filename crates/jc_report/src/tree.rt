//! The class files of a tree.

ghost use Rattle.std.specs.Prelude.{◌≡◌, ◌≤◌, IfErr, IfOk, List, OnOk, Some, ℕ};
ghost use Rattle.std.specs.FinMap as map;
ghost use Rattle.jc_view.specs.Outcome.{class_named, class_read};
ghost use Rattle.jc_view.specs.Refusal.{IsNamed};
ghost use Rattle.jc_classes.specs.FactsOf.{facts_of};
ghost use Rattle.jc_link.specs.Tables.{class_at};
ghost use Rattle.jc_report.specs.declared.tree.AddError.TheVariants as errors;
ghost use Rattle.jc_report.specs.Files.{Files};
ghost use Rattle.jc_report.specs.FileRows.{state_by};
ghost use Rattle.jc_report.specs.FileRowView.{state_lent};
ghost use Rattle.jc_report.specs.Trees.{HasOneMore, IsTree, is_there};
ghost use Rattle.jc_report.specs.inside.FileStates.{IsStateIn};
ghost use Rattle.jc_report.specs.inside.Kept.{kept, kept_read, path_kept, put_back};

use crate::file_row::FileState;
use crate::outcome::FileOutcome;
use crate::winner::wins;
use jc_base::{ByteMap, NoMemory};
use jc_classes::Facts;
use jc_file::{ClassView, ParseError, parse};
use jc_link::{Meter, Table};
use jc_view::outcomes_are_exact;
use std::alloc::{AllocError, AllocFailed, Global};
use std::marker::Model;

/// The class files of a tree: for each file the name of its class or why it is not readable, and the facts of each
/// class. The bytes of the files are not kept. If several files name one class, its facts are those of the file with
/// the least path.
///
/// For example (`crates/jc_session/src/tree_check.rt`):
///
/// ```
/// let report = TreeReport::make(alloc, tree, outside, meter)?;
/// match write_report(&report, out) {
///     Ok(()) => Ok(report.wrong()),
///     Err(_) => Err(CheckError::Write),
/// }
/// ..
/// let (mut tree, meter) = Tree::new(alloc)?;
/// ..
/// match tree.add(path, bytes) {
///     Ok(tree) => Ok(tree),
/// ```
#[derive(Drop)]
pub struct Tree {
    alloc: Global,
    pub(crate) outcomes: ByteMap<FileOutcome>,
    pub(crate) table: Table,
}

/// Why a file was not added to a tree.
#[derive(Clone, Copy, Debug, PartialEq, Eq)]
pub enum AddError {
    /// The tree already has a file at this path.
    AlreadyThere,
    /// An allocation failed.
    NoMemory,
}

impl Model for Tree {
    ghost use Rattle.jc_report.specs.Trees as specs;
    ghost use Rattle.jc_link.specs.contracts.table.Table as tables;
    ghost use Rattle.jc_view.specs.contracts.parse_error.ParseError as refusals;
    ghost use Rattle.jc_report.specs.inside.TreeCode.{outcomes_code, tree_code};

    ghost Value = { specs.Tree };

    ghost coded = { tree_code (outcomes_code refusals.the_row.coded) tables.the_row.coded };

    ghost view = { λ a. record { outcomes = a.outcomes; classes = a.table } };
}

impl Tree {
    /// Returns a tree without files, and the meter that counts the look-ups of its classes. Returns `NoMemory` only
    /// when an allocation fails.
    pub fn new(alloc: Global) -> Result<(Tree, Meter), NoMemory>
        ensures empty { IfOk result (λ made. IsTree map.empty made.0) }
        ensures asks { IfOk result (λ made. made.1.asks ≡ 0) }
        ensures made { IfOk result (λ made. made.1.made ≡ 0) }
    {
        let (table, meter) = Table::new(alloc)?;
        let tree = Tree {
            alloc,
            outcomes: ByteMap::new(alloc),
            table,
        };
        Ok((tree, meter))
    }

    /// Returns the number of files.
    pub fn len(&self) -> usize
        ensures { (f : Files) → IsTree f self.now → result ≡ map.len f }
    {
        self.outcomes.len()
    }

    /// Returns whether the tree has a file at this path.
    pub fn contains(&self, path: &[u8]) -> bool
        ensures { (f : Files) → IsTree f self.now → result ≡ map.contains_key f path.now }
    {
        self.outcomes.contains_key(path)
    }

    /// Adds a file, and returns the tree. The order in which files are added does not matter.
    ///
    /// Returns `AlreadyThere` if the tree has a file at the path, and `NoMemory` only when an allocation fails. An
    /// error drops the tree.
    pub fn add(self, path: &[u8], bytes: &[u8]) -> Result<Tree, AddError>
        ensures ok { (f : Files) → IsTree f self → IfOk result (HasOneMore f path.now bytes.now) }
        ensures err { (f : Files) → IsTree f self → IfErr result (λ e. map.contains_key f path.now ≡ is_there e) }
    {
        let mut tree = self;
        tree.take_in(path, bytes)?;
        Ok(tree)
    }

    /// Adds a file in place. After an error the content of the tree is unspecified.
    fn take_in(&mut self, path: &[u8], bytes: &[u8]) -> Result<(), AddError>
        ensures ok { (f : Files) → IsTree f self.old → OnOk result (HasOneMore f path.now bytes.now self.new) }
        ensures err { (f : Files) → IsTree f self.old → IfErr result (λ e. map.contains_key f path.now ≡ is_there e) }
    {
        if self.contains(path) {
            return Err(AddError::AlreadyThere);
        }
        let outcome = self.read(path, bytes)?;
        let path = Vec::from_slice(self.alloc, path)?;
        self.outcomes.insert(path, outcome)?;
        Ok(())
    }

    /// Reads a file. Keeps its class, unless a file with a lesser path has the class of that name.
    fn read(&mut self, path: &[u8], bytes: &[u8]) -> Result<FileOutcome, NoMemory>
        ensures outcomes { self.new.outcomes ≡ self.old.outcomes }
        ensures classes { OnOk result (self.new.classes ≡ kept_read self.old.classes path.now (class_read bytes.now)) }
        ensures outcome { IfOk result (λ outcome. outcome ≡ class_named bytes.now) }
    {
        outcomes_are_exact();
        match parse(self.alloc, bytes) {
            Ok(view) => self.read_class(path, &view),
            Err(ParseError::NoMemory) => Err(NoMemory),
            Err(refusal) => Ok(FileOutcome::refused(refusal)),
        }
    }

    /// Keeps the class of a file, unless a file with a lesser path has the class of that name.
    fn read_class(&mut self, path: &[u8], view: &ClassView<'_>) -> Result<FileOutcome, NoMemory>
        ensures outcomes { self.new.outcomes ≡ self.old.outcomes }
        ensures classes { OnOk result (self.new.classes ≡ kept self.old.classes path.now (facts_of path.now view.now)) }
        ensures named { IfOk result (λ outcome. (name : List ℕ) × IsNamed view.now name × (outcome ≡ Ok name)) }
    {
        let facts = Facts::of(self.alloc, view, path)?;
        if let Some(before) = self.put(facts)? {
            self.put_winner(before, path)?;
        }
        FileOutcome::named(self.alloc, view.name())
    }

    /// Puts a class back that the class from this path replaced, if its file wins.
    fn put_winner(&mut self, before: Facts, path: &[u8]) -> Result<(), NoMemory>
        ensures outcomes { self.new.outcomes ≡ self.old.outcomes }
        ensures classes { OnOk result (self.new.classes ≡ put_back (Some before) path.now self.old.classes) }
    {
        if wins(before.path(), Some(path)) {
            self.put(before).and(Ok(()))
        } else {
            Ok(())
        }
    }

    /// Puts a class into the table, and returns the one that it replaces.
    fn put(&mut self, facts: Facts) -> Result<Option<Facts>, NoMemory>
        ensures outcomes { self.new.outcomes ≡ self.old.outcomes }
        ensures classes { OnOk result (self.new.classes ≡ map.insert self.old.classes facts.name (Some facts)) }
        ensures before { IfOk result (λ before. before ≡ class_at self.old.classes facts.name) }
    {
        self.table.put(facts).or(Err(NoMemory))
    }

    /// Returns the state of a file of the tree, by its outcome.
    pub(crate) fn state<'t>(
        &'t self,
        path: &'t [u8],
        outcome: &'t FileOutcome,
        meter: &mut Meter,
    ) -> FileState<'t>
        ensures state { IsStateIn self.now path.now outcome.now (state_lent result) }
        ensures made { meter.new.made ≡ meter.old.made }
        ensures asks_rise { meter.old.asks ≤ meter.new.asks }
    {
        match outcome.class() {
            Ok(name) => self.class_state(path, name, meter),
            Err(refusal) => FileState::Unreadable(refusal),
        }
    }

    /// Returns the state of a file that has a class of this name.
    fn class_state<'t>(&'t self, path: &'t [u8], name: &'t [u8], meter: &mut Meter) -> FileState<'t>
        ensures state { state_lent result ≡ state_by path.now name.now (path_kept self.now.classes name.now) }
        ensures made { meter.new.made ≡ meter.old.made }
        ensures asks_rise { meter.old.asks ≤ meter.new.asks }
    {
        match self.table.get(name, meter) {
            Some(facts) if facts.path() != path => FileState::Shadowed(name, facts.path()),
            _ => FileState::Class(name),
        }
    }
}

impl From<NoMemory> for AddError {
    ghost from_gives = { λ _ e. e ≡ errors.NoMemory };

    fn from(_: NoMemory) -> AddError {
        AddError::NoMemory
    }
}

impl From<AllocError> for AddError {
    ghost from_gives = { λ _ e. e ≡ errors.NoMemory };

    fn from(_: AllocError) -> AddError {
        AddError::NoMemory
    }
}

impl<T: Drop> From<AllocFailed<T>> for AddError {
    ghost from_gives = { λ _ e. e ≡ errors.NoMemory };

    fn from(_: AllocFailed<T>) -> AddError {
        AddError::NoMemory
    }
}
