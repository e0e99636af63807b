//! The rules about fields (JVMS 4.5).

ghost use Rattle.std.specs.Prelude.{◌≡◌, codes};
ghost use Rattle.std.specs.List.{list_any};
ghost use Rattle.jc_base.specs.Bytes.{same_bytes};
ghost use Rattle.jc_view.specs.Attributes.{values_of};
ghost use Rattle.jc_view.specs.declared.attribute_kind.Holder.TheVariants as holders;
ghost use Rattle.jc_file.specs.FormatRules.{are_constant_flags, constant_kind_of, has_misfit, names_other};
ghost use Rattle.jc_file.specs.FormatRules.{misfits, breaks_f15, breaks_f16, breaks_f17, breaks_f25};
ghost use Rattle.jc_file.specs.inside.RuleTables.{AreBroken, field_tests};

use crate::classes::is_interface;
use crate::fault::FormatRule;
use crate::flags::{
    ENUM, FINAL, PRIVATE, PROTECTED, PUBLIC, STATIC, TRANSIENT, VOLATILE, has, has_two_accesses,
};
use crate::recognised::has_two;
use crate::rule_set::RuleSet;
use crate::texts::Texts;
use jc_view::{Attribute, AttributeKind, ConstantKind, Member, index_at};

/// Returns the rules that a field breaks, except the rule against repeated fields.
pub(crate) fn field_rules(texts: &mut Texts, field: &Member) -> RuleSet
    requires class { field.now.class ≡ texts.old }
    requires holder { field.now.member.holder ≡ holders.Field }
    ensures same { texts.new ≡ texts.old }
    ensures rules { AreBroken (field_tests texts.old field.now.member.member) result }
{
    RuleSet::none()
        .with(FormatRule::F15, breaks_f15(texts, field))
        .with(FormatRule::F16, breaks_f16(texts, field))
        .with(FormatRule::F17, breaks_f17(field))
        .with(FormatRule::F25, breaks_f25(field))
}

/// Returns whether the name of a field is missing, or is not an unqualified name.
fn breaks_f15(texts: &mut Texts, field: &Member) -> bool
    ensures same { texts.new ≡ texts.old }
    ensures breaks { result ≡ breaks_f15 texts.old field.now.member.member }
{
    !matches!(texts.is_unqualified(field.name_index()), Some(true))
}

/// Returns whether the descriptor of a field is missing, or is not a field descriptor.
fn breaks_f16(texts: &mut Texts, field: &Member) -> bool
    ensures same { texts.new ≡ texts.old }
    ensures breaks { result ≡ breaks_f16 texts.old field.now.member.member }
{
    match texts.descriptor(field.descriptor_index()) {
        Some(descriptor) => !descriptor.is_field(),
        None => true,
    }
}

/// Returns whether the flags of the field are not a permitted combination.
fn breaks_f17(field: &Member) -> bool
    ensures { result ≡ breaks_f17 field.now.class field.now.member.member }
{
    let flags = field.flags();
    has_two_accesses(flags)
        || has(flags, FINAL) && has(flags, VOLATILE)
        || is_interface(field.class()) && !are_constant_flags(flags)
}

/// Returns whether a field of an interface may have these flags.
fn are_constant_flags(flags: u16) -> bool
    ensures { result ≡ are_constant_flags flags }
{
    has(flags, PUBLIC)
        && has(flags, STATIC)
        && has(flags, FINAL)
        && !has(flags, PRIVATE)
        && !has(flags, PROTECTED)
        && !has(flags, VOLATILE)
        && !has(flags, TRANSIENT)
        && !has(flags, ENUM)
}

/// Returns whether a static field has more than one `ConstantValue`, or one that does not fit its type.
fn breaks_f25(field: &Member) -> bool
    requires { field.now.member.holder ≡ holders.Field }
    ensures { result ≡ breaks_f25 field.now.class field.now.member.member }
{
    has(field.flags(), STATIC)
        && (has_two(field, AttributeKind::ConstantValue) || has_misfit(field))
}

/// Returns whether a `ConstantValue` of the field does not fit its type.
fn has_misfit(field: &Member) -> bool
    requires { field.now.member.holder ≡ holders.Field }
    ensures { result ≡ has_misfit field.now.class field.now.member.member }
{
    match field.descriptor() {
        Some(descriptor) => has_other_type(field, descriptor),
        None => false,
    }
}

/// Returns whether a `ConstantValue` of the field does not fit this type.
#[tactic(auto, using(crate::proofs::kinds::AnyOfKind::any_of_member))]
fn has_other_type(field: &Member, descriptor: &[u8]) -> bool
    requires { field.now.member.holder ≡ holders.Field }
    ensures { result ≡ list_any (misfits field.now.class descriptor.now) (values_of field.now.class field.now.member.member) }
{
    for attribute in field.attributes() {
        if attribute.is(AttributeKind::ConstantValue) && misfits(&attribute, descriptor) {
            return true;
        }
    }
    false
}

/// Returns whether the attribute does not name a constant that initializes a field of this type.
fn misfits(attribute: &Attribute, descriptor: &[u8]) -> bool
    ensures { result ≡ misfits attribute.now.class descriptor.now attribute.now.attribute.attribute }
{
    match constant_kind_of(descriptor) {
        Some(kind) => names_other(attribute, kind),
        None => true,
    }
}

/// Returns whether the attribute has two bytes that do not name a constant of this kind.
fn names_other(attribute: &Attribute, kind: ConstantKind) -> bool
    ensures { result ≡ names_other attribute.now.class kind attribute.now.attribute.attribute }
{
    let bytes = attribute.bytes();
    bytes.len() == 2 && !attribute.class().is_entry(kind, index_at(bytes, 0))
}

/// Returns the kind of constants that initialize a static field of this type (JVMS 4.7.2).
fn constant_kind_of(descriptor: &[u8]) -> Option<ConstantKind>
    ensures { result ≡ constant_kind_of descriptor.now }
{
    match descriptor {
        b"I" | b"S" | b"C" | b"B" | b"Z" => Some(ConstantKind::Integer),
        b"F" => Some(ConstantKind::Float),
        b"J" => Some(ConstantKind::Long),
        b"D" => Some(ConstantKind::Double),
        _ if is_string_type(descriptor) => Some(ConstantKind::String),
        _ => None,
    }
}

fn is_string_type(descriptor: &[u8]) -> bool
    ensures { result ≡ same_bytes descriptor.now (codes "Ljava/lang/String;") }
{
    descriptor == b"Ljava/lang/String;".as_slice()
}
