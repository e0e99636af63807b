//! The rules about attributes (JVMS 4.7).

ghost use Rattle.std.specs.Prelude.{◌≡◌, [], ◌∷◌, OnOk};
ghost use Rattle.std.specs.Option.{option_map};
ghost use Rattle.jc_view.specs.Attributes.{IsRecognisedAs};
ghost use Rattle.jc_view.specs.AttributeReading.{code_of};
ghost use Rattle.jc_view.specs.Lent.{lent_code};
ghost use Rattle.jc_file.specs.FormatRules.{breaks_f29, breaks_f30, lacks_method};
ghost use Rattle.jc_file.specs.inside.AttributePlaces.{places_among, places_of_one, places_with_inner};
ghost use Rattle.jc_file.specs.inside.Broken.{AddsPlaces};
ghost use Rattle.jc_file.specs.inside.Kinds.{has_other_length, length_of, names_no_method, names_no_text, names_other};
ghost use Rattle.jc_file.specs.inside.RuleTables.{AreBroken, attribute_tests};

use crate::broken::{Broken, add_broken};
use crate::fault::FormatRule;
use crate::rule_set::RuleSet;
use jc_base::NoMemory;
use jc_view::{
    Attribute, AttributeKind, Attributes, ClassView, Code, ConstantIndex, ConstantKind, index_at,
};

/// Adds the rules that attributes and the attributes inside them break.
pub(crate) fn add_with_inner(
    broken: &mut Vec<Broken>,
    attributes: Attributes,
) -> Result<(), NoMemory>
    ensures { OnOk result (AddsPlaces (places_with_inner attributes.entry) broken.old.items broken.new.items) }
{
    for attribute in attributes {
        let kind = attribute.kind();
        let code = attribute.code();
        add_of_one(broken, &attribute, kind, &code)?;
    }
    Ok(())
}

/// Adds the rules that an attribute and the attributes inside `code` break. `kind` and `code` are those of the
/// attribute.
pub(crate) fn add_of_one(
    broken: &mut Vec<Broken>,
    attribute: &Attribute,
    kind: Option<AttributeKind>,
    code: &Option<Code>,
) -> Result<(), NoMemory>
    requires kind { IsRecognisedAs attribute.now.class attribute.now.attribute.holder attribute.now.attribute.attribute kind }
    requires code { code.now ≡ option_map (lent_code attribute.now) (code_of attribute.now.class attribute.now.attribute) }
    ensures { OnOk result (AddsPlaces (places_of_one attribute.now) broken.old.items broken.new.items) }
{
    add_own(broken, attribute, kind)?;
    if let Some(code) = code {
        add_each(broken, code.attributes())?;
    }
    Ok(())
}

/// Adds the rules that attributes break. The attributes inside them are not judged.
fn add_each(broken: &mut Vec<Broken>, attributes: Attributes) -> Result<(), NoMemory>
    ensures { OnOk result (AddsPlaces (λ rule. places_among rule attributes.entry.class attributes.entry.left) broken.old.items broken.new.items) }
{
    for attribute in attributes {
        let kind = attribute.kind();
        add_own(broken, &attribute, kind)?;
    }
    Ok(())
}

/// Adds the rules that an attribute of this kind itself breaks.
fn add_own(
    broken: &mut Vec<Broken>,
    attribute: &Attribute,
    kind: Option<AttributeKind>,
) -> Result<(), NoMemory>
    requires { IsRecognisedAs attribute.now.class attribute.now.attribute.holder attribute.now.attribute.attribute kind }
    ensures { OnOk result (AddsPlaces (λ rule. places_among rule attribute.now.class (attribute.now.attribute ∷ [])) broken.old.items broken.new.items) }
{
    add_broken(broken, attribute.place(), attribute_rules(attribute, kind))
}

/// Returns the rules that an attribute of this kind breaks.
fn attribute_rules(attribute: &Attribute, kind: Option<AttributeKind>) -> RuleSet
    requires { IsRecognisedAs attribute.now.class attribute.now.attribute.holder attribute.now.attribute.attribute kind }
    ensures { AreBroken (attribute_tests attribute.now.class attribute.now.attribute) result }
{
    RuleSet::none()
        .with(FormatRule::F28, attribute.name().is_none())
        .with(FormatRule::F29, breaks_f29(attribute, kind))
        .with(FormatRule::F30, breaks_f30(attribute, kind))
}

/// Returns whether the attribute is recognised as one of a kind with a fixed length, and has another length.
fn breaks_f29(attribute: &Attribute, kind: Option<AttributeKind>) -> bool
    requires { IsRecognisedAs attribute.now.class attribute.now.attribute.holder attribute.now.attribute.attribute kind }
    ensures { result ≡ breaks_f29 attribute.now.class attribute.now.attribute }
{
    match kind {
        Some(kind) => is_missized(attribute, kind),
        None => false,
    }
}

/// Returns whether attributes of this kind have a fixed length, and this attribute has another length.
fn is_missized(attribute: &Attribute, kind: AttributeKind) -> bool
    ensures { result ≡ has_other_length kind attribute.now.attribute.attribute }
{
    match length_of(kind) {
        Some(length) => attribute.bytes().len() != length,
        None => false,
    }
}

/// Returns the fixed length of attributes of a kind, if there is one (JVMS 4.7.2, 4.7.7 to 4.7.10, 4.7.15).
fn length_of(kind: AttributeKind) -> Option<usize>
    ensures { result ≡ length_of kind }
{
    match kind {
        AttributeKind::ConstantValue | AttributeKind::SourceFile | AttributeKind::Signature => {
            Some(2)
        }
        AttributeKind::EnclosingMethod => Some(4),
        AttributeKind::Synthetic | AttributeKind::Deprecated => Some(0),
        AttributeKind::Code | AttributeKind::Exceptions | AttributeKind::BootstrapMethods => None,
    }
}

/// Returns whether an attribute of the right length names a constant that it must not name.
fn breaks_f30(attribute: &Attribute, kind: Option<AttributeKind>) -> bool
    requires { IsRecognisedAs attribute.now.class attribute.now.attribute.holder attribute.now.attribute.attribute kind }
    ensures { result ≡ breaks_f30 attribute.now.class attribute.now.attribute }
{
    match kind {
        Some(kind) => names_other(attribute, kind),
        None => false,
    }
}

/// Returns whether an attribute of this kind names a constant that it must not name. Attributes of another length do
/// not.
fn names_other(attribute: &Attribute, kind: AttributeKind) -> bool
    ensures { result ≡ names_other kind attribute.now.class attribute.now.attribute }
{
    match kind {
        AttributeKind::SourceFile | AttributeKind::Signature => names_no_text(attribute),
        AttributeKind::EnclosingMethod => names_no_method(attribute),
        AttributeKind::ConstantValue
        | AttributeKind::Code
        | AttributeKind::Exceptions
        | AttributeKind::BootstrapMethods
        | AttributeKind::Synthetic
        | AttributeKind::Deprecated => false,
    }
}

/// Returns whether an attribute of two bytes does not name a `Utf8` constant.
fn names_no_text(attribute: &Attribute) -> bool
    ensures { result ≡ names_no_text attribute.now.class attribute.now.attribute }
{
    let bytes = attribute.bytes();
    bytes.len() == 2
        && !attribute
            .class()
            .is_entry(ConstantKind::Utf8, index_at(bytes, 0))
}

/// Returns whether an attribute of four bytes does not name a `Class`, or its second index is neither 0 nor that of a
/// `NameAndType`.
fn names_no_method(attribute: &Attribute) -> bool
    ensures { result ≡ names_no_method attribute.now.class attribute.now.attribute }
{
    let class = attribute.class();
    let bytes = attribute.bytes();
    bytes.len() == 4
        && (!class.is_entry(ConstantKind::Class, index_at(bytes, 0))
            || is_no_method(class, index_at(bytes, 2)))
}

/// Returns whether an index is neither 0 nor that of a `NameAndType`.
fn is_no_method(class: &ClassView, index: ConstantIndex) -> bool
    ensures { result ≡ lacks_method class.now index }
{
    index.0 != 0 && !class.is_entry(ConstantKind::NameAndType, index)
}
