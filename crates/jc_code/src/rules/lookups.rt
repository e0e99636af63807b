//! Look-ups of the constants that instructions name.

ghost use Rattle.std.specs.Prelude.{◌≡◌};
ghost use Rattle.std.specs.Option.{option_copied};
ghost use Rattle.jc_base.specs.DescriptorTests.{begins_with};
ghost use Rattle.jc_code.specs.CodeRules.{double_kinds, is_either_method, is_init, is_one_of, is_special, referred_name, single_kinds};

use jc_view::{ClassView, ConstantIndex, ConstantKind};

/// Returns whether the index is that of a constant that `ldc` and `ldc_w` may load.
pub(crate) fn is_single(class: &ClassView, index: ConstantIndex) -> bool
    ensures { result ≡ is_one_of class.now single_kinds index }
{
    matches!(
        class.kind(index),
        Some(
            ConstantKind::Integer
                | ConstantKind::Float
                | ConstantKind::String
                | ConstantKind::Class
                | ConstantKind::MethodType
                | ConstantKind::MethodHandle
        )
    )
}

/// Returns whether the index is that of a `Long` or a `Double`, which only `ldc2_w` may load.
pub(crate) fn is_double(class: &ClassView, index: ConstantIndex) -> bool
    ensures { result ≡ is_one_of class.now double_kinds index }
{
    matches!(
        class.kind(index),
        Some(ConstantKind::Long | ConstantKind::Double)
    )
}

/// Returns whether the index is that of a constant that `invokespecial` and `invokestatic` may name.
pub(crate) fn is_either_method(class: &ClassView, index: ConstantIndex) -> bool
    ensures { result ≡ is_either_method class.now index }
{
    match class.kind(index) {
        Some(ConstantKind::Methodref) => true,
        Some(ConstantKind::InterfaceMethodref) => class.version().major >= 52,
        _ => false,
    }
}

/// Returns the name of the member that the constant at `index` refers to.
pub(crate) fn referred_name<'a>(class: &ClassView<'a>, index: ConstantIndex) -> Option<&'a [u8]>
    ensures { option_copied result ≡ referred_name class.now index }
{
    class.member_name_at(class.name_and_type_index(index)?)
}

/// Returns whether a method's name begins with `<`.
pub(crate) fn is_special(name: &[u8]) -> bool
    ensures { result ≡ is_special name.now }
{
    match name {
        [first, ..] => *first == b'<',
        [] => false,
    }
}

pub(crate) fn is_init(name: &[u8]) -> bool
    ensures { result ≡ is_init name.now }
{
    name == b"<init>".as_slice()
}
