//! Tests of texts that the rules use.

ghost use Rattle.std.specs.Prelude.{◌≡◌, is_some};
ghost use Rattle.jc_base.specs.TextTests.{units_of};
ghost use Rattle.jc_base.specs.DescriptorTests.{begins_with};
ghost use Rattle.jc_file.specs.FormatRules.{is_init, is_clinit, is_object};

use jc_base::check_units;

/// Returns whether the text is modified UTF-8.
pub(crate) fn is_well_spelled(text: &[u8]) -> bool
    ensures { result ≡ is_some (units_of text.now) }
{
    check_units(text).is_ok()
}

/// Returns whether the text begins with `byte`.
pub(crate) fn begins_with(byte: u8, text: &[u8]) -> bool
    ensures { result ≡ begins_with byte text.now }
{
    match text {
        [first, ..] => *first == byte,
        [] => false,
    }
}

/// Returns whether the name is `<init>`.
pub(crate) fn is_init(name: &[u8]) -> bool
    ensures { result ≡ is_init name.now }
{
    name == b"<init>".as_slice()
}

pub(crate) fn is_clinit(name: &[u8]) -> bool
    ensures { result ≡ is_clinit name.now }
{
    name == b"<clinit>".as_slice()
}

/// Returns whether the name is `java/lang/Object`.
pub(crate) fn is_object(name: &[u8]) -> bool
    ensures { result ≡ is_object name.now }
{
    name == b"java/lang/Object".as_slice()
}
