//! The references whose rows a class requires, by their numbers.

ghost use Rattle.std.specs.Prelude.{◌≡◌, IfOk, map};
ghost use Rattle.jc_report.specs.ClassRows.{rows_required};
ghost use Rattle.jc_report.specs.RequiredRows.{AreOf, row_required, rows_numbered};

use crate::class_rows::is_required;
use crate::required_row::{RequiredRow, numbered};
use jc_base::NoMemory;
use jc_classes::References;
use jc_link::Part;
use std::alloc::Global;

/// Returns the numbers of the references of a class whose answers say that they are required, in ascending order.
pub fn required_numbers(
    alloc: Global,
    references: &References,
    part: &Part,
) -> Result<Vec<usize>, NoMemory>
    ensures { IfOk result (λ numbers. rows_numbered references.now numbers.items ≡ rows_required references.now part.now.answers) }
{
    let answers = part.answers();
    let mut numbers = Vec::with_capacity(alloc, answers.len())?;
    for number in 0..answers.len() {
        if is_required(answers.kind(number)) {
            match references.at(number) {
                Some(_) => numbers.push(number)?,
                None => return Ok(numbers),
            }
        }
    }
    Ok(numbers)
}

/// Returns the rows of the references with these numbers. Each row shares its texts with the class.
pub fn rows_of(
    alloc: Global,
    references: &References,
    numbers: &[usize],
) -> Result<Vec<RequiredRow>, NoMemory>
    ensures rows { IfOk result (λ rows. map row_required rows.items ≡ rows_numbered references.now numbers.now) }
    ensures of { IfOk result (λ rows. AreOf references.now rows.items) }
{
    let mut rows = Vec::with_capacity(alloc, numbers.len())?;
    for number in numbers {
        rows.push(numbered(references, *number)?)?;
    }
    Ok(rows)
}
