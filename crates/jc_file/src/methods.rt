//! The rules about methods (JVMS 4.6).

ghost use Rattle.std.specs.Prelude.{◌≡◌};
ghost use Rattle.jc_view.specs.declared.attribute_kind.Holder.TheVariants as holders;
ghost use Rattle.jc_view.specs.Attributes.{codes_of, exceptions_of};
ghost use Rattle.jc_file.specs.FormatRules.{are_bad_interface_flags, has_bad_exceptions, has_more_than_abstract};
ghost use Rattle.jc_file.specs.FormatRules.{has_more_than_constructor, is_named_clinit, is_named_init};
ghost use Rattle.jc_file.specs.FormatRules.{breaks_f19, breaks_f20, breaks_f21, breaks_f23, breaks_f26};
ghost use Rattle.jc_file.specs.inside.MemberAttributes.{AreOf, Counts};
ghost use Rattle.jc_file.specs.inside.RuleTables.{AreBroken, method_tests};

use crate::classes::is_interface;
use crate::fault::FormatRule;
use crate::flags::{
    ABSTRACT, BRIDGE, FINAL, NATIVE, PRIVATE, PROTECTED, PUBLIC, STATIC, STRICT, SYNCHRONIZED, has,
    has_two_accesses,
};
use crate::method_attributes::OfKind;
use crate::names::{is_clinit, is_init};
use crate::rule_set::RuleSet;
use crate::texts::Texts;
use jc_view::Member;

/// Returns the rules that a method with these `Code` and `Exceptions` attributes breaks, except the rule against
/// repeated methods.
pub(crate) fn method_rules(
    texts: &mut Texts,
    method: &Member,
    codes: OfKind,
    exceptions: OfKind,
) -> RuleSet
    requires class { method.now.class ≡ texts.old }
    requires holder { method.now.member.holder ≡ holders.Method }
    requires found { AreOf texts.old method.now.member.member codes exceptions }
    ensures same { texts.new ≡ texts.old }
    ensures rules { AreBroken (method_tests texts.old method.now.member.member) result }
{
    RuleSet::none()
        .with(FormatRule::F19, breaks_f19(texts, method))
        .with(FormatRule::F20, breaks_f20(texts, method))
        .with(FormatRule::F21, breaks_f21(method))
        .with(FormatRule::F23, breaks_f23(method, codes))
        .with(FormatRule::F24, codes.has_bad)
        .with(FormatRule::F26, breaks_f26(method, exceptions))
}

/// Returns whether the name of a method is missing, or is not a method name.
fn breaks_f19(texts: &mut Texts, method: &Member) -> bool
    ensures same { texts.new ≡ texts.old }
    ensures breaks { result ≡ breaks_f19 texts.old method.now.member.member }
{
    !matches!(texts.is_method_name(method.name_index()), Some(true))
}

/// Returns whether the descriptor of a method is missing or is not a method descriptor, or its parameters take too many
/// slots.
fn breaks_f20(texts: &mut Texts, method: &Member) -> bool
    ensures same { texts.new ≡ texts.old }
    ensures breaks { result ≡ breaks_f20 texts.old method.now.member.member }
{
    match texts.descriptor(method.descriptor_index()) {
        Some(descriptor) => !descriptor.fits(has(method.flags(), STATIC)),
        None => true,
    }
}

/// Returns whether the flags of the method are not a permitted combination. Constructors and methods of interfaces have
/// more restrictions.
fn breaks_f21(method: &Member) -> bool
    ensures { result ≡ breaks_f21 method.now.class method.now.member.member }
{
    let flags = method.flags();
    let class = method.class();
    !is_named_clinit(method)
        && (has_two_accesses(flags)
            || has(flags, ABSTRACT) && has_more_than_abstract(flags)
            || is_interface(class) && are_bad_interface_flags(class.version().major, flags)
            || is_named_init(method) && has_more_than_constructor(flags))
}

/// Returns whether the method is named `<clinit>`.
fn is_named_clinit(method: &Member) -> bool
    ensures { result ≡ is_named_clinit method.now.class method.now.member.member }
{
    method.name().is_some_and(is_clinit)
}

fn is_named_init(method: &Member) -> bool
    ensures { result ≡ is_named_init method.now.class method.now.member.member }
{
    method.name().is_some_and(is_init)
}

/// Returns whether an abstract method must not have these flags.
fn has_more_than_abstract(flags: u16) -> bool
    ensures { result ≡ has_more_than_abstract flags }
{
    has(flags, PRIVATE)
        || has(flags, STATIC)
        || has(flags, FINAL)
        || has(flags, SYNCHRONIZED)
        || has(flags, NATIVE)
        || has(flags, STRICT)
}

/// Returns whether a method of an interface must not have these flags, in a file of this version.
fn are_bad_interface_flags(major: u16, flags: u16) -> bool
    ensures { result ≡ are_bad_interface_flags major flags }
{
    let (is_public, is_private) = (has(flags, PUBLIC), has(flags, PRIVATE));
    let is_bad_access = if major < 52 {
        !(is_public && has(flags, ABSTRACT))
    } else {
        is_public == is_private
    };
    has(flags, PROTECTED)
        || has(flags, FINAL)
        || has(flags, SYNCHRONIZED)
        || has(flags, NATIVE)
        || is_bad_access
}

/// Returns whether a constructor must not have these flags.
fn has_more_than_constructor(flags: u16) -> bool
    ensures { result ≡ has_more_than_constructor flags }
{
    has(flags, STATIC)
        || has(flags, FINAL)
        || has(flags, SYNCHRONIZED)
        || has(flags, BRIDGE)
        || has(flags, NATIVE)
        || has(flags, ABSTRACT)
}

/// Returns whether a method that must have no `Code` has one, or a method that must have one has none or several.
fn breaks_f23(method: &Member, codes: OfKind) -> bool
    requires { Counts codes.count (codes_of method.now.class method.now.member.member) }
    ensures { result ≡ breaks_f23 method.now.class method.now.member.member }
{
    let flags = method.flags();
    if (has(flags, NATIVE) || has(flags, ABSTRACT)) && !is_named_clinit(method) {
        codes.count > 0
    } else {
        codes.count != 1
    }
}

/// Returns whether a method has more than one `Exceptions`, or one that is not a list of classes.
fn breaks_f26(method: &Member, exceptions: OfKind) -> bool
    requires counts { Counts exceptions.count (exceptions_of method.now.class method.now.member.member) }
    requires bad { exceptions.has_bad ≡ has_bad_exceptions method.now.class method.now.member.member }
    ensures { result ≡ breaks_f26 method.now.class method.now.member.member }
{
    exceptions.count >= 2 || exceptions.has_bad
}
