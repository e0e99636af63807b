//! The instruction at an offset of a method.

ghost use Rattle.std.specs.Prelude.{◌≡◌};
ghost use Rattle.jc_classes.specs.FactsOrder.{AreByPlace};
ghost use Rattle.jc_report.specs.ErrorsText.{use_at};

use jc_code::MethodUse;

/// Returns the instruction at an offset of a method, by binary search: instructions are in ascending order of method and
/// offset.
pub(crate) fn use_at(uses: &[MethodUse], method: u16, place: u16) -> Option<MethodUse>
    requires { AreByPlace uses.now }
    ensures { result ≡ use_at uses.now method place }
{
    match uses.binary_search_by_key(&(method, place), |found| (found.method, found.place)) {
        Ok(number) => Some(uses[number]),
        Err(_) => None,
    }
}
