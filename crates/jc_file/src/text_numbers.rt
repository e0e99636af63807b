//! Numbers for the texts of a class, so that texts are compared by their numbers.

ghost use Rattle.std.specs.Prelude.{◌≡◌, Some, slice_get, slice_set, unwrap_or, IfOk, OnOk, OnErr};
ghost use Rattle.std.specs.BTreeMap.{IsUnchanged};
ghost use Rattle.std.specs.Option.{option_flatten};
ghost use Rattle.jc_file.specs.inside.TextNumbers.{number_in, IsNumberAt, AreNumbers, KeepsNumbers, NumbersText};

use jc_base::NoMemory;
use jc_view::{ClassView, ConstantIndex};
use std::alloc::Global;
use std::collections::BTreeMap;

/// The numbers of the texts that were looked up. The number of a text is the first index that was looked up with it.
///
/// A text is searched in the map once per index that names it. The map is ordered, so hostile texts do not make it
/// slow.
#[derive(Drop)]
pub(crate) struct TextNumbers<'a> {
    by_index: Vec<Option<ConstantIndex>>,
    by_text: BTreeMap<&'a [u8], ConstantIndex>,
}

impl<'a> TextNumbers<'a> {
    pub(crate) fn new(alloc: Global, class: &ClassView<'a>) -> Result<TextNumbers<'a>, NoMemory>
        ensures { IfOk result (AreNumbers class.now) }
    {
        let mut by_index = Vec::new(alloc);
        by_index.resize(class.constant_count() as usize, None)?;
        Ok(TextNumbers {
            by_index,
            by_text: BTreeMap::new(alloc),
        })
    }

    /// Returns the number of the text at an index, or `None` if the index does not name a `Utf8` constant.
    pub(crate) fn number(
        &mut self,
        class: &ClassView<'a>,
        index: ConstantIndex,
    ) -> Result<Option<ConstantIndex>, NoMemory>
        requires { AreNumbers class.now self.now }
        ensures sound { AreNumbers class.now self.new }
        ensures keeps { KeepsNumbers self.old self.new }
        ensures ok { IfOk result (IsNumberAt class.now self.new index) }
    {
        if let Some(number) = known(&self.by_index, index) {
            return Ok(Some(number));
        }
        let Some(text) = class.utf8(index) else {
            return Ok(None);
        };
        let number = number_text(&mut self.by_text, text, index)?;
        keep(&mut self.by_index, index, number);
        Ok(Some(number))
    }
}

/// Returns the number that is kept for an index.
fn known(numbers: &[Option<ConstantIndex>], index: ConstantIndex) -> Option<ConstantIndex>
    ensures { result ≡ option_flatten (slice_get numbers.now index.0) }
{
    *numbers.get(index.0 as usize)?
}

/// Keeps the number of the text at an index.
fn keep(numbers: &mut Vec<Option<ConstantIndex>>, index: ConstantIndex, number: ConstantIndex)
    ensures { numbers.new.items ≡ slice_set numbers.old.items index.0 (Some number) }
{
    let place = index.0 as usize;
    if place < numbers.len() {
        numbers[place] = Some(number);
    }
}

/// Returns the number of a text. If it has none, it gets this number.
fn number_text<'a>(
    numbers: &mut BTreeMap<&'a [u8], ConstantIndex>,
    text: &'a [u8],
    number: ConstantIndex,
) -> Result<ConstantIndex, NoMemory>
    ensures number { IfOk result (λ n. n ≡ unwrap_or (number_in numbers.old text.now) number) }
    ensures ok { OnOk result (NumbersText numbers.old numbers.new text.now number) }
    ensures err { OnErr result (IsUnchanged numbers.old numbers.new) }
{
    if let Some(known) = numbers.get(text) {
        return Ok(*known);
    }
    numbers.insert(text, number)?;
    Ok(number)
}
