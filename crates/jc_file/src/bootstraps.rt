//! The bootstrap methods of a class (JVMS 4.7.23).

ghost use Rattle.std.specs.Prelude.{◌≡◌, length, nat_lt, if◌then◌else◌};
ghost use Rattle.jc_base.specs.Endian.{big_number};
ghost use Rattle.std.specs.List.{list_all};
ghost use Rattle.jc_view.specs.ClassFile.{constant_at};
ghost use Rattle.jc_view.specs.Lent.{constant_of};
ghost use Rattle.jc_view.specs.Reading.{after_table};
ghost use Rattle.jc_view.specs.Moves.{Lends};
ghost use Rattle.jc_view.specs.Lookups.{passes};
ghost use Rattle.jc_view.specs.AttributeReading.{after_bootstrap, bootstraps_in};
ghost use Rattle.jc_file.specs.FormatRules.{breaks_f27, is_argument, is_bootstrap};
ghost use Rattle.jc_file.specs.inside.BootstrapsRead.{are_bootstraps_at, is_bootstrap_at, declared_by};
ghost use Rattle.jc_view.specs.Attributes.{bootstrap_attributes};

use crate::recognised::next_of_kind;
use jc_base::Cursor;
use jc_view::{
    AttributeKind, ClassView, Constant, ConstantIndex, ConstantKind, Indexes, read_index,
    read_indexes,
};

/// Returns the number of bootstrap methods of the class, or 0 if it does not have exactly one `BootstrapMethods`
/// attribute.
pub(crate) fn declared_methods(class: &ClassView) -> u16
    ensures { result ≡ declared_by (bootstrap_attributes class.now) }
{
    let mut attributes = class.attributes();
    let Some(only) = next_of_kind(&mut attributes, AttributeKind::BootstrapMethods) else {
        return 0;
    };
    match next_of_kind(&mut attributes, AttributeKind::BootstrapMethods) {
        Some(_) => 0,
        None => declared_count(only.bytes()),
    }
}

/// Returns the count at the front of a table of methods, or 0 if the table is shorter than that.
fn declared_count(table: &[u8]) -> u16
    ensures { result ≡ (if nat_lt (length table.now) 2 then 0 else big_number 2 table.now) }
{
    Cursor::new(table).u2().unwrap_or(0)
}

/// Returns whether the class has more than one `BootstrapMethods` attribute, or one that is not well-formed.
pub(crate) fn breaks_f27(class: &ClassView) -> bool
    ensures { result ≡ breaks_f27 class.now }
{
    let mut attributes = class.attributes();
    let Some(only) = next_of_kind(&mut attributes, AttributeKind::BootstrapMethods) else {
        return false;
    };
    match next_of_kind(&mut attributes, AttributeKind::BootstrapMethods) {
        Some(_) => true,
        None => !are_bootstraps(class, only.bytes()),
    }
}

/// Returns whether the bytes are a table of well-formed bootstrap methods, and nothing else.
fn are_bootstraps(class: &ClassView, bytes: &[u8]) -> bool
    ensures { result ≡ passes (list_all (is_bootstrap class.now)) (bootstraps_in bytes.now) }
{
    let mut cursor = Cursor::new(bytes);
    match read_bootstraps(class, &mut cursor) {
        Some(are_bootstraps) => are_bootstraps && !cursor.has_left(),
        None => false,
    }
}

/// Reads a table of bootstrap methods with its count, and returns whether all of them are well-formed.
fn read_bootstraps(class: &ClassView, cursor: &mut Cursor) -> Option<bool>
    ensures { Lends (λ all. all) (after_table after_bootstrap) (are_bootstraps_at class.now) cursor.old result cursor.new }
{
    let count = cursor.u2()?;
    let mut all = true;
    for _ in 0..count {
        all &= read_bootstrap(class, cursor)?;
    }
    Some(all)
}

/// Reads a bootstrap method, and returns whether it is well-formed.
#[tactic(auto, unfolding(jc_view::specs::AttributeReading::after_bootstrap))]
fn read_bootstrap(class: &ClassView, cursor: &mut Cursor) -> Option<bool>
    ensures { Lends (λ it. it) after_bootstrap (is_bootstrap_at class.now) cursor.old result cursor.new }
{
    let method = read_index(cursor)?;
    let arguments = read_indexes(cursor)?;
    Some(class.is_entry(ConstantKind::MethodHandle, method) && are_arguments(class, arguments))
}

/// Returns whether each index names a constant that may be an argument of a bootstrap method.
fn are_arguments(class: &ClassView, indexes: Indexes) -> bool
    ensures { result ≡ list_all (λ index. passes is_argument (constant_at class.now index)) indexes.entry }
{
    for index in indexes {
        if !is_argument_at(class, index) {
            return false;
        }
    }
    true
}

fn is_argument_at(class: &ClassView, index: ConstantIndex) -> bool
    ensures { result ≡ passes is_argument (constant_at class.now index) }
{
    class.constant(index.0).is_some_and(is_argument)
}

/// Returns whether a constant may be an argument of a bootstrap method (JVMS 4.7.23).
fn is_argument(constant: Constant) -> bool
    ensures { result ≡ is_argument (constant_of constant.entry) }
{
    matches!(
        constant,
        Constant::String(_)
            | Constant::Class(_)
            | Constant::Integer(_)
            | Constant::Long(_)
            | Constant::Float(_)
            | Constant::Double(_)
            | Constant::MethodHandle(_, _)
            | Constant::MethodType(_)
    )
}
