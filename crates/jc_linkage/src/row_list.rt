//! The rows that a class requires, sorted, each once.

ghost use Rattle.std.specs.Prelude.{◌≡◌, ℕ, ◌⊎◌, ◌++◌, ◌∷◌, [], List, true, IfOk, IsTrue, OnOk, cond, is_ok, map, not};
ghost use Rattle.std.specs.List.{Contains, filter};
ghost use Rattle.std.specs.List.Sorted.{IsStrictlySortedBy};
ghost use Rattle.jc_classes.specs.Facts.{Reference};
ghost use Rattle.jc_classes.specs.NameLists.{has};
ghost use Rattle.jc_classes.specs.Names.{Name, name_cmp};
ghost use Rattle.jc_report.specs.ClassRows.{required_rows};
ghost use Rattle.jc_report.specs.RequiredRows.{AreOf, spelled, spelled_all};
ghost use Rattle.jc_report.specs.RowKeys.{row_key};
ghost use Rattle.jc_report.specs.declared.required_row.RequiredRow.{RequiredRow as RowValue};
ghost use Rattle.jc_linkage.specs.inside.RowLists.{AreInOrder, AreMarks, IsThere, ShareReferences, Stay, is_marked};

use jc_base::NoMemory;
use jc_classes::{Facts, References};
use jc_link::Part;
use jc_report::{RequiredRow, required_numbers, rows_of};
use std::alloc::Global;
use std::marker::Model;

/// The rows that a class requires, sorted, each once. The model is the list of rows.
#[derive(Drop)]
pub struct RowList {
    /// The references to which the rows belong, if the class has facts.
    references: Option<References>,
    rows: Vec<RequiredRow>,
}

impl Model for RowList {
    ghost use Rattle.std.specs.Prelude.{List};
    ghost use Rattle.jc_report.specs.declared.required_row.RequiredRow.{RequiredRow as RowValue};
    ghost use Rattle.jc_linkage.specs.inside.RowLists.{IsRowList};

    ghost Value = { List RowValue };

    ghost view = { λ a. a.rows.items };

    ghost invariant = { λ a. IsRowList a.references a.rows.items };
}

impl RowList {
    /// Returns an empty list. Does not allocate.
    pub fn new(alloc: Global) -> RowList
        ensures { result ≡ [] }
    {
        RowList {
            references: None,
            rows: Vec::new(alloc),
        }
    }

    /// Returns the rows that a class with these facts and this part requires. Rows of `before` are reused if they are
    /// of the same references.
    ///
    /// Returns `NoMemory` only when an allocation fails or the references have as many owners as can be counted.
    pub fn of(
        alloc: Global,
        facts: &Facts,
        part: &Part,
        before: Option<&RowList>,
    ) -> Result<RowList, NoMemory>
        ensures { IfOk result (λ list. (key : Name) → has (spelled_all list) key ≡ has (map row_key (required_rows facts.now part.now)) key) }
    {
        let references = facts.shared_references()?;
        let numbers = required_numbers(alloc, &references, part)?;
        let rows = rows_after(alloc, before, &references, &numbers)?;
        Ok(RowList {
            references: Some(references),
            rows,
        })
    }

    /// Returns whether the rows are known to be of these references. Does not allocate.
    fn is_of(&self, references: &References) -> bool
        ensures { IsTrue result → AreOf references.now self.now }
    {
        match &self.references {
            Some(own) => own.is_same(references),
            None => false,
        }
    }

    /// Returns whether another list is known to have rows of the same references. Then rows with the same number are
    /// the same. Does not allocate.
    pub(crate) fn is_like(&self, other: &RowList) -> bool
        ensures { IsTrue result → ShareReferences self.now other.now }
    {
        match &other.references {
            Some(references) => self.is_of(references),
            None => false,
        }
    }

    /// Returns the rows. Does not allocate.
    pub fn rows(&self) -> &[RequiredRow]
        ensures rows { result.now ≡ self.now }
        ensures rises { IsStrictlySortedBy name_cmp (spelled_all self.now) }
    {
        self.rows.as_slice()
    }

    /// Returns the place of a row, or else the place where it would be inserted. It tries `place` first, and compares
    /// there by number if `is_like` is set. Then it does a binary search. Does not allocate.
    pub(crate) fn find_near(
        &self,
        place: usize,
        row: &RequiredRow,
        is_like: bool,
    ) -> Result<usize, usize>
        requires { is_like ≡ true → AreOf row.now.references self.now }
        ensures { is_ok result ≡ has (spelled_all self.now) (spelled row.now) }
    {
        match self.rows.get(place) {
            Some(near) if is_same(near, row, is_like) => Ok(place),
            _ => self.rows.binary_search(row),
        }
    }
}

/// Returns whether two rows are known to be the same. Rows of the same references are compared by number. Does not
/// allocate.
fn is_same(one: &RequiredRow, other: &RequiredRow, is_like: bool) -> bool
    requires { is_like ≡ true → one.now.references ≡ other.now.references }
    ensures { IsTrue result → spelled one.now ≡ spelled other.now }
{
    if is_like {
        one.number() == other.number()
    } else {
        one == other
    }
}

/// Returns the rows with these numbers, sorted, each once. It reuses the rows of `before` if they are of the same
/// references.
fn rows_after(
    alloc: Global,
    before: Option<&RowList>,
    references: &References,
    numbers: &[usize],
) -> Result<Vec<RequiredRow>, NoMemory>
    ensures { IfOk result (λ rows. AreInOrder references.now numbers.now rows.items) }
{
    match before {
        Some(before) if before.is_of(references) => {
            changed(alloc, before.rows(), references, numbers)
        }
        _ => Ok(in_order(rows_of(alloc, references, numbers)?)),
    }
}

/// Returns the rows with these numbers, sorted, each once. It keeps the rows of `before` that have such a number, and
/// sorts only if there are other rows.
fn changed(
    alloc: Global,
    before: &[RequiredRow],
    references: &References,
    numbers: &[usize],
) -> Result<Vec<RequiredRow>, NoMemory>
    requires of { AreOf references.now before.now }
    requires rises { IsStrictlySortedBy name_cmp (spelled_all before.now) }
    ensures { IfOk result (λ rows. AreInOrder references.now numbers.now rows.items) }
{
    let rows = staying(alloc, before, numbers, references.len())?;
    let comes = coming(alloc, numbers, &rows, references.len())?;
    if comes.is_empty() {
        return Ok(rows);
    }
    let more = rows_of(alloc, references, &comes)?;
    Ok(in_order(joined(rows, more)?))
}

/// Returns the rows that have one of these numbers. All numbers are below `count`.
fn staying(
    alloc: Global,
    rows: &[RequiredRow],
    numbers: &[usize],
    count: usize,
) -> Result<Vec<RequiredRow>, NoMemory>
    ensures { IfOk result (λ kept. Stay rows.now numbers.now kept.items) }
{
    let marks = marks_of(alloc, numbers, count)?;
    marked_rows(alloc, rows, &marks)
}

/// Returns the numbers that no row has. All numbers are below `count`.
fn coming(
    alloc: Global,
    numbers: &[usize],
    rows: &[RequiredRow],
    count: usize,
) -> Result<Vec<usize>, NoMemory>
    ensures sound { IfOk result (λ comes. (n : ℕ) → Contains comes.items n → Contains numbers.now n) }
    ensures complete { IfOk result (λ comes. (n : ℕ) → Contains numbers.now n → Contains comes.items n ⊎ IsThere rows.now n) }
{
    let there = numbers_of(alloc, rows)?;
    let marks = marks_of(alloc, &there, count)?;
    unmarked(alloc, numbers, &marks)
}

/// Returns the numbers of rows.
fn numbers_of(alloc: Global, rows: &[RequiredRow]) -> Result<Vec<usize>, NoMemory>
    ensures { IfOk result (λ numbers. numbers.items ≡ map (λ (row : RowValue). row.number) rows.now) }
{
    let mut numbers = Vec::with_capacity(alloc, rows.len())?;
    for row in rows {
        numbers.push(row.number())?;
    }
    Ok(numbers)
}

/// Returns a mark for each number below a count, set if the number is one of these.
fn marks_of(alloc: Global, numbers: &[usize], count: usize) -> Result<Vec<bool>, NoMemory>
    ensures { IfOk result (λ marks. AreMarks numbers.now marks.items) }
{
    let mut marks = vec![in alloc; false; count]?;
    for number in numbers {
        mark(&mut marks, *number);
    }
    Ok(marks)
}

/// Sets the mark of a number, if the number has a mark. Does not allocate.
fn mark(marks: &mut Vec<bool>, number: usize)
    ensures { (n : ℕ) → is_marked marks.new.items n ≡ true → (is_marked marks.old.items n ≡ true) ⊎ (n ≡ number) }
{
    if number < marks.len() {
        marks[number] = true;
    }
}

/// Returns whether the mark of a number is set. Does not allocate.
fn is_marked(marks: &[bool], number: usize) -> bool
    ensures { result ≡ is_marked marks.now number }
{
    match marks.get(number) {
        Some(mark) => *mark,
        None => false,
    }
}

/// Returns the rows whose numbers are marked.
fn marked_rows(
    alloc: Global,
    rows: &[RequiredRow],
    marks: &[bool],
) -> Result<Vec<RequiredRow>, NoMemory>
    ensures { IfOk result (λ kept. kept.items ≡ filter (λ (row : RowValue). is_marked marks.now row.number) rows.now) }
{
    let mut kept = Vec::with_capacity(alloc, rows.len())?;
    for row in rows {
        push_if(&mut kept, row, is_marked(marks, row.number()))?;
    }
    Ok(kept)
}

/// Appends a row, if it is wanted.
fn push_if(rows: &mut Vec<RequiredRow>, row: &RequiredRow, is_wanted: bool) -> Result<(), NoMemory>
    ensures { OnOk result (rows.new.items ≡ rows.old.items ++ cond is_wanted (row.now ∷ []) []) }
{
    if is_wanted {
        rows.push(row.share()?)?;
    }
    Ok(())
}

/// Returns the numbers that are not marked.
fn unmarked(alloc: Global, numbers: &[usize], marks: &[bool]) -> Result<Vec<usize>, NoMemory>
    ensures { IfOk result (λ left. left.items ≡ filter (λ n. not (is_marked marks.now n)) numbers.now) }
{
    let mut left = Vec::new(alloc);
    for number in numbers {
        if !is_marked(marks, *number) {
            left.push(*number)?;
        }
    }
    Ok(left)
}

/// Returns the rows of two lists.
fn joined(rows: Vec<RequiredRow>, more: Vec<RequiredRow>) -> Result<Vec<RequiredRow>, NoMemory>
    ensures { IfOk result (λ all. all.items ≡ rows.items ++ more.items) }
{
    let mut rows = rows;
    let mut more = more;
    rows.append(&mut more)?;
    Ok(rows)
}

/// Sorts rows, and removes repeated ones. Does not allocate.
fn in_order(rows: Vec<RequiredRow>) -> Vec<RequiredRow>
    ensures same { (key : Name) → has (spelled_all result.items) key ≡ has (spelled_all rows.items) key }
    ensures rises { IsStrictlySortedBy name_cmp (spelled_all result.items) }
    ensures of { (references : List Reference) → AreOf references rows.items → AreOf references result.items }
{
    let mut rows = rows;
    rows.sort_unstable();
    rows.dedup();
    rows
}
