//! The place of an index among the references of a class.

ghost use Rattle.std.specs.Prelude.{◌≡◌, option_map};
ghost use Rattle.jc_classes.specs.Lent.{reference_lent};
ghost use Rattle.jc_report.specs.ErrorsText.{reference_at};
ghost use Rattle.jc_report.specs.inside.ReferencePlaces as places;
ghost use Rattle.jc_report.specs.inside.ReferencePlaces.{IsNarrowed};

use jc_classes::{Facts, Reference};

/// Returns the reference of the constant at an index, by binary search.
pub(crate) fn reference_by_index(facts: &Facts, index: u16) -> Option<Reference<'_>>
    ensures { option_map reference_lent result ≡ reference_at facts.now.references index }
{
    facts.are_in_order();
    let reference = facts.reference(place_of(facts, index))?;
    if reference.index == index {
        Some(reference)
    } else {
        None
    }
}

/// Returns the number of references with a lesser index, by binary search: references are in ascending order of index.
pub(crate) fn place_of(facts: &Facts, index: u16) -> usize
    ensures { IsNarrowed facts.now.references index result result }
{
    let mut low = 0;
    let mut high = facts.reference_count();
    while low < high {
        let middle = low + (high - low) / 2;
        if is_below(facts, index, middle) {
            low = middle + 1;
        } else {
            high = middle;
        }
    }
    low
}

/// Returns whether the reference of a number has a lesser index.
fn is_below(facts: &Facts, index: u16, number: usize) -> bool
    ensures { result ≡ places.is_below facts.now.references index number }
{
    match facts.reference(number) {
        Some(reference) => reference.index < index,
        None => false,
    }
}
