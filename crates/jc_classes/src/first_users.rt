//! The first method whose code uses each constant of a class file.

ghost use Rattle.std.specs.Prelude.{◌≡◌, ◌==◌, IfOk, slice_index_or, None};
ghost use Rattle.std.specs.List.{list_any};
ghost use Rattle.jc_classes.specs.Users.{names_constant};
ghost use Rattle.jc_classes.specs.UsedConstants.{is_among};
ghost use Rattle.jc_classes.specs.inside.Using.{Marks};
ghost use Rattle.jc_classes.specs.inside.FirstUsers.{AddsFirst, AreSeen, IsEmpty, SetsFirst, first_at};

use crate::used::{is_marked, mark};
use jc_base::NoMemory;
use jc_view::{ClassView, ConstantIndex};
use std::alloc::Global;

/// The number of the first method whose code uses each constant, by the constant's index.
#[derive(Drop)]
pub(crate) struct FirstUsers {
    pub(crate) numbers: Vec<Option<u16>>,
    /// Whether code that was added names each constant. The constants that it uses then have numbers.
    pub(crate) seen: Vec<bool>,
}

impl FirstUsers {
    /// Returns a table in which no constant has a number.
    pub(crate) fn new(alloc: Global, class: &ClassView) -> Result<FirstUsers, NoMemory>
        ensures { IfOk result (IsEmpty class.now) }
    {
        let count = class.constant_count() as usize;
        Ok(FirstUsers {
            numbers: vec![in alloc; None; count]?,
            seen: vec![in alloc; false; count]?,
        })
    }

    /// Adds the code of a method, which names these constants. A constant that has a number keeps it.
    pub(crate) fn add(&mut self, class: &ClassView, names: &[ConstantIndex], method: u16)
        requires { AreSeen class.now self.old }
        ensures seen { AreSeen class.now self.new }
        ensures marks { Marks (is_among names.now) self.old.seen.items self.new.seen.items }
        ensures added { AddsFirst (λ i. list_any (names_constant class.now i) names.now) method self.old self.new }
    {
        for index in names {
            self.add_name(class, *index, method);
        }
    }

    /// Adds a constant that the code of a method names.
    fn add_name(&mut self, class: &ClassView, index: ConstantIndex, method: u16)
        requires { AreSeen class.now self.old }
        ensures seen { AreSeen class.now self.new }
        ensures marks { Marks (λ i. index.0 == i) self.old.seen.items self.new.seen.items }
        ensures added { AddsFirst (λ i. names_constant class.now i index) method self.old self.new }
    {
        if is_marked(&self.seen, index.0) {
            return;
        }
        mark(&mut self.seen, index);
        set_first(&mut self.numbers, index, method);
        if let Some(class_index) = class.class_index(index) {
            set_first(&mut self.numbers, class_index, method);
        }
    }
}

/// Returns the number of the method at `index`, if there is one.
pub(crate) fn first_at(numbers: &[Option<u16>], index: u16) -> Option<u16>
    ensures { result ≡ first_at numbers.now index }
{
    match numbers.get(index as usize) {
        Some(number) => *number,
        None => None,
    }
}

/// Sets the number of the constant at `index`, if it has none.
fn set_first(numbers: &mut Vec<Option<u16>>, index: ConstantIndex, method: u16)
    ensures { SetsFirst (λ i. index.0 == i) method numbers.old.items numbers.new.items }
{
    let at = index.0 as usize;
    if at < numbers.len() && numbers[at].is_none() {
        numbers[at] = Some(method);
    }
}
