//! The rules about the class itself and its interfaces (JVMS 4.1).

ghost use Rattle.std.specs.Prelude.{◌≡◌};
ghost use Rattle.std.specs.Option.{option_copied};
ghost use Rattle.jc_base.specs.TextTests.{is_class_text};
ghost use Rattle.jc_view.specs.Lookups.{lacks};
ghost use Rattle.jc_file.specs.FormatRules.{is_interface, names_object, breaks_f12, breaks_f13, breaks_f13_with, breaks_f14};
ghost use Rattle.jc_file.specs.inside.RuleTables.{AreBroken, class_tests, interface_tests};

use crate::bootstraps::breaks_f27;
use crate::fault::FormatRule;
use crate::flags::{ABSTRACT, ANNOTATION, ENUM, FINAL, INTERFACE, SUPER, has};
use crate::names::is_object;
use crate::rule_set::RuleSet;
use crate::texts::Texts;
use jc_base::is_class_name;
use jc_view::{ClassView, Constant, ConstantIndex};

/// Returns the rules that the class itself breaks.
pub(crate) fn class_rules(class: &ClassView) -> RuleSet
    ensures { AreBroken (class_tests class.now) result }
{
    RuleSet::none()
        .with(FormatRule::F12, breaks_f12(class))
        .with(FormatRule::F13, breaks_f13(class))
        .with(FormatRule::F27, breaks_f27(class))
}

pub(crate) fn is_interface(class: &ClassView) -> bool
    ensures { result ≡ is_interface class.now }
{
    has(class.flags(), INTERFACE)
}

/// Returns whether the flags of the class are not a permitted combination.
fn breaks_f12(class: &ClassView) -> bool
    ensures { result ≡ breaks_f12 class.now }
{
    let flags = class.flags();
    is_interface(class)
        && (!has(flags, ABSTRACT) || has(flags, FINAL) || has(flags, SUPER) || has(flags, ENUM))
        || has(flags, ANNOTATION) && !is_interface(class)
        || has(flags, FINAL) && has(flags, ABSTRACT)
}

/// Returns whether `super_class` is not permitted: it is 0 or names a class that it must not name.
fn breaks_f13(class: &ClassView) -> bool
    ensures { result ≡ breaks_f13 class.now }
{
    if class.super_class().0 == 0 {
        !names_object(class, class.this_class()) || is_interface(class)
    } else {
        breaks_f13_with(class)
    }
}

/// Returns whether `super_class`, which is not 0, is not permitted.
fn breaks_f13_with(class: &ClassView) -> bool
    ensures { result ≡ breaks_f13_with class.now }
{
    names_object(class, class.this_class())
        || lacks_class_name(class.super_name())
        || is_interface(class) && !names_object(class, class.super_class())
}

/// Returns whether the `Class` at an index names `java/lang/Object`.
fn names_object(class: &ClassView, index: ConstantIndex) -> bool
    ensures { result ≡ names_object class.now index }
{
    class.class_text(index).is_some_and(is_object)
}

/// Returns whether the name is missing, or is not the name of a class.
fn lacks_class_name(name: Option<&[u8]>) -> bool
    ensures { result ≡ lacks is_class_text (option_copied name.entry) }
{
    match name {
        Some(name) => !is_class_name(name),
        None => true,
    }
}

/// Returns the rules that the index of a direct superinterface breaks.
pub(crate) fn interface_rules(texts: &mut Texts, index: ConstantIndex) -> RuleSet
    ensures same { texts.new ≡ texts.old }
    ensures rules { AreBroken (interface_tests texts.old index) result }
{
    RuleSet::none().with(FormatRule::F14, breaks_f14(texts, index))
}

/// Returns whether the index is not that of a `Class` with the name of a class.
fn breaks_f14(texts: &mut Texts, index: ConstantIndex) -> bool
    ensures same { texts.new ≡ texts.old }
    ensures breaks { result ≡ breaks_f14 texts.old index }
{
    match texts.class().constant(index.0) {
        Some(Constant::Class(name)) => !matches!(texts.is_class(name), Some(true)),
        _ => true,
    }
}
