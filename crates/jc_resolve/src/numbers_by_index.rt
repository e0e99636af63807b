//! The numbers of the references of a class, by the indexes of their constants.

ghost use Rattle.std.specs.Prelude.{◌≡◌, None, slice_index_or, IfOk, OnOk, Some};
ghost use Rattle.jc_resolve.specs.inside.Numbers.{AreNumbersBy, IsPut};

use crate::answer_list::small;
use jc_base::NoMemory;
use jc_classes::Facts;
use std::alloc::Global;

/// Returns the numbers of the references of a class, by the indexes of their constants.
pub(crate) fn numbers_by_index(alloc: Global, facts: &Facts) -> Result<Vec<Option<u32>>, NoMemory>
    ensures { IfOk result (λ numbers. AreNumbersBy facts.now.references 0 numbers.items) }
{
    let mut numbers = Vec::new(alloc);
    let mut number = facts.reference_count();
    while number > 0 {
        number -= 1;
        if let Some(reference) = facts.reference(number) {
            let kept = small(number)?;
            put(&mut numbers, reference.index, kept)?;
        }
    }
    Ok(numbers)
}

/// Puts a number at an index, and replaces the number that was there.
fn put(numbers: &mut Vec<Option<u32>>, index: u16, number: u32) -> Result<(), NoMemory>
    ensures { OnOk result (IsPut index (Some number) numbers.old.items numbers.new.items) }
{
    let index = index as usize;
    if index >= numbers.len() {
        numbers.resize(index + 1, None)?;
    }
    numbers[index] = Some(number);
    Ok(())
}

/// Returns the number of the reference at an index.
pub(crate) fn number_at(numbers: &[Option<u32>], index: u16) -> Option<usize>
    ensures { result ≡ slice_index_or numbers.now index None }
{
    let number = *numbers.get(index as usize)?;
    Some(number? as usize)
}
