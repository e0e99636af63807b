//! The report of a tree of class files.

ghost use Rattle.std.specs.Prelude.{◌≡◌, ◌≤◌, List, ◌++◌, ◌==◌, [], not, IfOk, OnOk, length, map};
ghost use Rattle.std.specs.Iterator.{IsFinite};
ghost use Rattle.std.specs.List.{list_any};
ghost use Rattle.jc_classes.specs.Names.{Name};
ghost use Rattle.jc_link.specs.Meters.{counted};
ghost use Rattle.jc_link.specs.Graphs.{IsIn, names_of_classes};
ghost use Rattle.jc_link.specs.Tables.{classes_of, world};
ghost use Rattle.jc_resolve.specs.Answers.{loading_of};
ghost use Rattle.jc_report.specs.ClassLent.{class_lent};
ghost use Rattle.jc_report.specs.ClassRows.{provided_rows, required_rows};
ghost use Rattle.jc_report.specs.Files.{Files};
ghost use Rattle.jc_report.specs.FileRows.{rows};
ghost use Rattle.jc_report.specs.FileRowView as lent;
ghost use Rattle.jc_report.specs.ReportLists.{AreListedIn};
ghost use Rattle.jc_report.specs.Reports.{GivesRow, IsReport, Report, circular_names, is_load_error, is_wrong, name_of};
ghost use Rattle.jc_report.specs.ErrorsText.{asked_lent, has_listed_error, is_wrong_among, is_wrong_class};
ghost use Rattle.jc_report.specs.ErrorsText.{is_wrong_file, is_wrong_listed};
ghost use Rattle.jc_report.specs.Rows.{AreRows};
ghost use Rattle.jc_report.specs.RowView.{row_lent};
ghost use Rattle.jc_report.specs.Trees.{IsTree};
ghost use Rattle.jc_report.specs.inside.Given.{ForGiven};
ghost use Rattle.jc_report.specs.inside.Made.{AreMadeOf};
ghost use Rattle.jc_report.specs.inside.ProvidedInOrder.{provided_in};
ghost use Rattle.jc_report.specs.inside.ReportShown.{AreByName, AreClasses};

use crate::asked::{Asked, is_asked, is_listed, user_at};
use crate::circular::Circular;
use crate::class_rows::push_required;
use crate::errors_text::is_unreadable;
use crate::file_row::FileRow;
use crate::lent_class::{LentClass, LentClasses};
use crate::provided::Provided;
use crate::row::Row;
use crate::row_set::RowSet;
use crate::tree::Tree;
use jc_base::NoMemory;
use jc_classes::Facts;
use jc_link::{ClassGraph, Meter, Outside, Part, PartMaker, Table};
use jc_resolve::{Answers, LinkErrors, Loading};
use std::alloc::Global;
use std::marker::Model;

/// A class of a tree, with its part.
#[derive(Drop)]
pub(crate) struct Class<'t> {
    facts: &'t Facts,
    part: Part,
}

/// The report of a tree: the state of each file, the part of each class, the circular classes, and the rows that the
/// classes provide and require.
#[derive(Drop)]
pub struct TreeReport<'t> {
    files: Vec<FileRow<'t>>,
    classes: Vec<Class<'t>>,
    required: Vec<Row<'t>>,
}

impl<'t> Model for Class<'t> {
    ghost use Rattle.jc_report.specs.Reports as specs;

    ghost Value = { specs.Class };

    ghost view = { λ a. record { facts = a.facts.now; part = a.part } };
}

impl<'t> Model for TreeReport<'t> {
    ghost use Rattle.jc_report.specs.Reports as specs;

    ghost Value = { specs.Report };

    ghost use Rattle.jc_report.specs.inside.ReportShown.{report_shown};

    ghost view = { report_shown };
}

impl<'t> Class<'t> {
    /// Returns the facts of its file.
    pub(crate) fn facts(&self) -> &'t Facts
        ensures { result.now ≡ self.now.facts }
    {
        self.facts
    }

    /// Returns its part.
    pub(crate) fn part(&self) -> &Part
        ensures { result.now ≡ self.now.part }
    {
        &self.part
    }

    /// Returns the facts and the part, borrowed.
    pub(crate) fn lent(&self) -> LentClass<'_>
        ensures { class_lent result ≡ self.now }
    {
        LentClass {
            facts: self.facts,
            part: &self.part,
        }
    }
}

impl<'t> TreeReport<'t> {
    /// Makes the report of a tree.
    ///
    /// Each class gets its part once, in the order of the names; the meter counts the parts and the look-ups. Returns
    /// `NoMemory` when an allocation fails, and when there are too many names for [`ClassGraph::of`].
    pub fn make(
        alloc: Global,
        tree: &'t Tree,
        outside: &Outside,
        meter: &mut Meter,
    ) -> Result<TreeReport<'t>, NoMemory>
        ensures report { (f : Files) → IsTree f tree.now → IfOk result (λ r. IsReport f outside.now r) }
        ensures made { IfOk result (λ r. meter.new.made ≡ counted meter.old.made (length r.classes)) }
        ensures made_rise { meter.old.made ≤ meter.new.made }
        ensures asks_rise { meter.old.asks ≤ meter.new.asks }
    {
        let graph = ClassGraph::of(alloc, &tree.table, outside, meter)?;
        let mut maker = PartMaker::new(alloc, &graph)?;
        TreeReport::over(alloc, tree, &mut maker, meter)
    }

    /// Makes the report of a tree over the graph of its classes.
    pub(crate) fn over(
        alloc: Global,
        tree: &'t Tree,
        maker: &mut PartMaker,
        meter: &mut Meter,
    ) -> Result<TreeReport<'t>, NoMemory>
        requires classes { maker.old.classes ≡ names_of_classes (classes_of tree.now.classes) }
        ensures report { (prefixes : List Name) → IsIn (world tree.now.classes prefixes) maker.old
            → (f : Files) → IsTree f tree.now → IfOk result (λ r. IsReport f prefixes r) }
        ensures names { IfOk result (λ r. map name_of r.classes ≡ maker.old.classes) }
        ensures graph { maker.new ≡ maker.old }
        ensures made { IfOk result (λ r. meter.new.made ≡ counted meter.old.made (length r.classes)) }
        ensures made_rise { meter.old.made ≤ meter.new.made }
        ensures asks_rise { meter.old.asks ≤ meter.new.asks }
    {
        let mut report = TreeReport::empty(alloc);
        report.fill(alloc, tree, maker, meter)?;
        Ok(report)
    }

    /// Returns the report of a tree without files.
    fn empty(alloc: Global) -> TreeReport<'t>
        ensures files { result.files ≡ [] }
        ensures classes { result.classes ≡ [] }
        ensures required { result.required ≡ [] }
    {
        TreeReport {
            files: Vec::new(alloc),
            classes: Vec::new(alloc),
            required: Vec::new(alloc),
        }
    }

    /// Fills an empty report. After an error its content is unspecified.
    fn fill(
        &mut self,
        alloc: Global,
        tree: &'t Tree,
        maker: &mut PartMaker,
        meter: &mut Meter,
    ) -> Result<(), NoMemory>
        requires files { self.old.files ≡ [] }
        requires classes { self.old.classes ≡ [] }
        requires required { self.old.required ≡ [] }
        requires graph { maker.old.classes ≡ names_of_classes (classes_of tree.now.classes) }
        ensures report { (prefixes : List Name) → IsIn (world tree.now.classes prefixes) maker.old
            → (f : Files) → IsTree f tree.now → OnOk result (IsReport f prefixes self.new) }
        ensures names { OnOk result (map name_of self.new.classes ≡ maker.old.classes) }
        ensures graph { maker.new ≡ maker.old }
        ensures made { OnOk result (meter.new.made ≡ counted meter.old.made (length self.new.classes)) }
        ensures made_rise { meter.old.made ≤ meter.new.made }
        ensures asks_rise { meter.old.asks ≤ meter.new.asks }
    {
        fill_files(&mut self.files, tree, meter)?;
        fill_classes(&mut self.classes, alloc, tree, maker, meter)?;
        provided_by_name(&self.classes);
        fill_required(&mut self.required, alloc, &self.classes)
    }

    /// Returns whether a file is unreadable, a class has a fault or does not load, an instruction does not link, or a
    /// reference does not resolve.
    pub fn wrong(&self) -> bool
        ensures { result ≡ is_wrong self.now }
    {
        self.wrong_among(Asked::all())
    }

    /// Returns whether anything that is asked for is wrong, in the sense of [`TreeReport::wrong`].
    pub fn wrong_among(&self, asked: Asked<'_>) -> bool
        ensures { result ≡ is_wrong_among (asked_lent asked.entry) self.now }
    {
        is_any_wrong(self.files().iter().copied(), self.lent_classes(), asked)
    }

    /// Returns the row of each file, in the order of the paths.
    pub fn files(&self) -> &[FileRow<'t>]
        ensures { map lent.row_lent result.now ≡ self.now.files }
    {
        self.files.as_slice()
    }

    /// Returns the classes of the tree, in the order of their names.
    pub(crate) fn classes(&self) -> &[Class<'t>]
        ensures by_name { result.now ≡ self.now.classes }
    {
        self.classes.as_slice()
    }

    /// Returns an iterator over the classes of the tree, with their parts, in the order of their names. Does not
    /// allocate.
    pub fn lent_classes(&self) -> LentClasses<'_, 't>
        ensures by_name { result ≡ self.now.classes }
        ensures circular { self.now.circular ≡ circular_names result }
    {
        LentClasses {
            classes: self.classes.iter(),
        }
    }

    /// Returns an iterator over the names of the circular classes, sorted. Does not allocate.
    pub fn circular(&self) -> Circular<'_, LentClasses<'_, 't>>
        ensures { result ≡ self.now.circular }
    {
        Circular::of(self.lent_classes())
    }

    /// Returns an iterator over the rows that the classes provide, sorted. These are the rows of the PUBLIC classes
    /// that load, and of their PUBLIC and PROTECTED members except `<clinit>`. Does not allocate.
    pub fn provided(&self) -> Provided<'_, LentClasses<'_, 't>>
        ensures { result ≡ self.now.provided }
    {
        Provided {
            classes: LentClasses {
                classes: self.classes.iter(),
            },
            rows: None,
        }
    }

    /// Returns the rows that the classes require, sorted, each once. These are the rows of the references whose answer
    /// is `Outside`, `NoClass`, `NoField` or `NoMethod`.
    pub fn required(&self) -> &[Row<'t>]
        ensures { map row_lent result.now ≡ self.now.required }
    {
        self.required.as_slice()
    }
}

/// Adds the state of each file of a tree, in the order of the paths.
fn fill_files<'t>(
    files: &mut Vec<FileRow<'t>>,
    tree: &'t Tree,
    meter: &mut Meter,
) -> Result<(), NoMemory>
    requires { map lent.row_lent files.old.items ≡ [] }
    ensures rows { (f : Files) → IsTree f tree.now → OnOk result (map lent.row_lent files.new.items ≡ rows f) }
    ensures made { meter.new.made ≡ meter.old.made }
    ensures asks_rise { meter.old.asks ≤ meter.new.asks }
{
    files.reserve_exact(tree.len())?;
    for (path, outcome) in &tree.outcomes {
        let state = tree.state(path, outcome, meter);
        files.push(FileRow { path, state })?;
    }
    Ok(())
}

/// Adds the classes of a tree, in the order of their names, each with its part.
fn fill_classes<'t>(
    classes: &mut Vec<Class<'t>>,
    alloc: Global,
    tree: &'t Tree,
    maker: &mut PartMaker,
    meter: &mut Meter,
) -> Result<(), NoMemory>
    requires none { classes.old.items ≡ [] }
    requires graph { maker.old.classes ≡ names_of_classes (classes_of tree.now.classes) }
    ensures classes { (prefixes : List Name) → IsIn (world tree.now.classes prefixes) maker.old
        → (f : Files) → IsTree f tree.now → OnOk result (AreClasses f prefixes classes.new.items) }
    ensures names { OnOk result (map name_of classes.new.items ≡ maker.old.classes) }
    ensures graph { maker.new ≡ maker.old }
    ensures made { OnOk result (meter.new.made ≡ counted meter.old.made (length classes.new.items)) }
    ensures made_rise { meter.old.made ≤ meter.new.made }
    ensures asks { meter.new.asks ≡ meter.old.asks }
{
    classes.reserve_exact(tree.len())?;
    push_classes(classes, alloc, &tree.table, maker, meter)
}

/// Adds the classes of a table, each with its part.
fn push_classes<'t>(
    classes: &mut Vec<Class<'t>>,
    alloc: Global,
    table: &'t Table,
    maker: &mut PartMaker,
    meter: &mut Meter,
) -> Result<(), NoMemory>
    requires none { classes.old.items ≡ [] }
    requires names { maker.old.classes ≡ names_of_classes (classes_of table.now) }
    ensures classes { (prefixes : List Name) → IsIn (world table.now prefixes) maker.old
        → OnOk result (AreMadeOf table.now prefixes classes.new.items) }
    ensures names { OnOk result (map name_of classes.new.items ≡ maker.old.classes) }
    ensures graph { maker.new ≡ maker.old }
    ensures made { OnOk result (meter.new.made ≡ counted meter.old.made (length classes.new.items)) }
    ensures made_rise { meter.old.made ≤ meter.new.made }
    ensures asks { meter.new.asks ≡ meter.old.asks }
{
    for facts in table.classes() {
        let part = maker.part(alloc, classes.len(), meter)?;
        classes.push(Class { facts, part })?;
    }
    Ok(())
}

/// If classes are sorted by name, the rows that they provide, one class after another, are sorted.
fn provided_by_name(classes: &[Class<'_>])
    ensures { AreByName classes.now → AreRows (provided_in classes.now) (GivesRow provided_rows classes.now) }
{}

/// Adds the rows that the classes require.
fn fill_required<'t>(
    rows: &mut Vec<Row<'t>>,
    alloc: Global,
    classes: &[Class<'t>],
) -> Result<(), NoMemory>
    requires { map row_lent rows.old.items ≡ [] }
    ensures { OnOk result (AreRows (map row_lent rows.new.items) (GivesRow required_rows classes.now)) }
{
    let mut apart = RowSet::new(alloc);
    for class in classes {
        push_required(&mut apart, class.facts, &class.part)?;
    }
    apart.copy_into(rows)
}

/// Returns whether one of these files is unreadable or one of these classes is wrong, among those that are asked for.
pub fn is_any_wrong<'a, F, C>(files: F, classes: C, asked: Asked<'_>) -> bool
where
    F: Iterator<Item = FileRow<'a>> + Drop,
    C: Iterator<Item = LentClass<'a>> + Drop,
    requires files { F.can_next files × IsFinite (F.remaining files) }
    requires classes { C.can_next classes × IsFinite (C.remaining classes) }
    ensures { (r : Report) → AreListedIn F.next_gives C.next_gives files classes r
        → result ≡ is_wrong_among (asked_lent asked.entry) r }
{
    let has_unreadable = has_unreadable(files, asked);
    let has_wrong_part = has_wrong_part(classes, asked);
    has_unreadable || has_wrong_part
}

fn has_unreadable<'a, I: Iterator<Item = FileRow<'a>> + Drop>(files: I, asked: Asked<'_>) -> bool
    requires can { I.can_next files }
    requires ends { IsFinite (I.remaining files) }
    ensures { ForGiven I.next_gives lent.row_lent files (λ all. result ≡ list_any (is_wrong_file (asked_lent asked.entry)) all) }
{
    for row in files {
        if is_wrong_file(&row, asked) {
            return true;
        }
    }
    false
}

fn has_wrong_part<'a, I: Iterator<Item = LentClass<'a>> + Drop>(
    classes: I,
    asked: Asked<'_>,
) -> bool
    requires can { I.can_next classes }
    requires ends { IsFinite (I.remaining classes) }
    ensures { ForGiven I.next_gives class_lent classes (λ all. result ≡ list_any (is_wrong_class (asked_lent asked.entry)) all) }
{
    for class in classes {
        if is_wrong_class(class, asked) {
            return true;
        }
    }
    false
}

/// Returns whether a file is asked for and unreadable.
pub(crate) fn is_wrong_file(row: &FileRow<'_>, asked: Asked<'_>) -> bool
    ensures { result ≡ is_wrong_file (asked_lent asked.entry) (lent.row_lent row.now) }
{
    is_asked(asked, row.path) && is_unreadable(row)
}

/// Returns whether a class is asked for and wrong.
fn is_wrong_class(class: LentClass<'_>, asked: Asked<'_>) -> bool
    ensures { result ≡ is_wrong_class (asked_lent asked.entry) (class_lent class.entry) }
{
    is_asked(asked, class.facts.name()) && is_wrong_part(class.facts, class.part, asked.used_only)
}

/// Returns whether a class has a fault or does not load, an instruction does not link, or a reference does not resolve.
/// With `used_only`, references that nothing uses do not count.
fn is_wrong_part(facts: &Facts, part: &Part, used_only: bool) -> bool
    ensures { result ≡ is_wrong_listed used_only facts.now part.now }
{
    !part.format_faults().is_empty()
        || !part.code_faults().is_empty()
        || is_load_error(part.load())
        || has_link(part.links())
        || has_listed_error(facts, part.answers(), used_only)
}

fn is_load_error(load: &Loading) -> bool
    ensures { result ≡ is_load_error (loading_of load.now) }
{
    match load {
        Loading::Loaded | Loading::Outside => false,
        Loading::Fails(_, _) => true,
    }
}

fn has_link(mut links: LinkErrors<'_>) -> bool
    ensures { result ≡ not (length links.entry == 0) }
{
    links.next().is_some()
}

/// Returns whether an answer is an error. With `used_only`, references that nothing uses do not count.
fn has_listed_error(facts: &Facts, answers: &Answers, used_only: bool) -> bool
    ensures { result ≡ has_listed_error used_only facts.now 0 answers.now }
{
    for number in 0..answers.len() {
        let user = user_at(facts, number);
        if is_listed(used_only, user, answers.at(number)) {
            return true;
        }
    }
    false
}
