//! The attributes of methods (JVMS 4.7.3, 4.7.5).

ghost use Rattle.std.specs.Prelude.{◌≡◌, ◌||◌, IfOk, OnOk};
ghost use Rattle.std.specs.List.{list_all};
ghost use Rattle.jc_view.specs.declared.attribute_kind.AttributeKind.TheVariants as kinds;
ghost use Rattle.jc_view.specs.declared.attribute_kind.Holder.TheVariants as holders;
ghost use Rattle.jc_view.specs.declared.constant_pool.ConstantKind.TheVariants as constants;
ghost use Rattle.jc_view.specs.Attributes.{is_kind};
ghost use Rattle.jc_view.specs.Lookups.{is_entry};
ghost use Rattle.jc_file.specs.FormatRules.{lacks_classes};
ghost use Rattle.jc_file.specs.inside.AttributePlaces.{places_of_member};
ghost use Rattle.jc_file.specs.inside.Broken.{AddsPlaces};
ghost use Rattle.jc_file.specs.inside.MemberAttributes.{AddsIf, AreOf};

use crate::attributes::add_of_one;
use crate::broken::Broken;
use jc_base::{Cursor, NoMemory};
use jc_view::{Attribute, AttributeKind, ClassView, ConstantKind, Indexes, Member, read_indexes};

/// The number of the attributes of a kind, and whether one of them is bad.
#[derive(Clone, Copy)]
pub(crate) struct OfKind {
    /// The number of these attributes, or 2 if there are more.
    pub(crate) count: u8,
    /// Whether one of them breaks a rule.
    pub(crate) has_bad: bool,
}

impl OfKind {
    /// Counts one more attribute, if there is one.
    fn with(self, is_one: bool, is_bad: bool) -> OfKind
        ensures { AddsIf is_one is_bad self result }
    {
        if !is_one {
            return self;
        }
        OfKind {
            count: if self.count == 0 { 1 } else { 2 },
            has_bad: self.has_bad || is_bad,
        }
    }
}

/// Adds the rules that the attributes of a method and the attributes inside them break. Returns its `Code` and
/// `Exceptions` attributes.
///
/// A `Code` is bad if it is not well-formed. An `Exceptions` is bad if it is not a list of classes.
pub(crate) fn add_attributes_of(
    broken: &mut Vec<Broken>,
    method: &Member,
) -> Result<(OfKind, OfKind), NoMemory>
    requires { method.now.member.holder ≡ holders.Method }
    ensures added { OnOk result (AddsPlaces (places_of_member method.now) broken.old.items broken.new.items) }
    ensures found { IfOk result (λ found. AreOf method.now.class method.now.member.member found.0 found.1) }
{
    let none = OfKind {
        count: 0,
        has_bad: false,
    };
    let (mut codes, mut exceptions) = (none, none);
    for attribute in method.attributes() {
        let kind = attribute.kind();
        let code = attribute.code();
        add_of_one(broken, &attribute, kind, &code)?;
        codes = codes.with(is_of(kind, AttributeKind::Code), code.is_none());
        exceptions = with_exceptions(exceptions, &attribute, kind);
    }
    Ok((codes, exceptions))
}

/// Counts an attribute of this kind, if it is an `Exceptions`.
fn with_exceptions(exceptions: OfKind, attribute: &Attribute, kind: Option<AttributeKind>) -> OfKind
    ensures { AddsIf (is_kind kinds.Exceptions kind) (lacks_classes attribute.now.class attribute.now.attribute.attribute.bytes) exceptions result }
{
    if is_of(kind, AttributeKind::Exceptions) {
        exceptions.with(true, lacks_classes(attribute.class(), attribute.bytes()))
    } else {
        exceptions
    }
}

/// Returns whether the kind that was found is this one.
fn is_of(found: Option<AttributeKind>, kind: AttributeKind) -> bool
    ensures { result ≡ is_kind kind found }
{
    match found {
        Some(found) => found.name() == kind.name(),
        None => false,
    }
}

/// Returns whether the bytes are not a count and a list of `Class` indexes (JVMS 4.7.5).
fn lacks_classes(class: &ClassView, bytes: &[u8]) -> bool
    ensures { result ≡ lacks_classes class.now bytes.now }
{
    let mut cursor = Cursor::new(bytes);
    match read_indexes(&mut cursor) {
        Some(indexes) => cursor.has_left() || !are_classes(class, indexes),
        None => true,
    }
}

/// Returns whether each index names a `Class`.
fn are_classes(class: &ClassView, indexes: Indexes) -> bool
    ensures { result ≡ list_all (is_entry class.now constants.Class) indexes.entry }
{
    for index in indexes {
        if !class.is_entry(ConstantKind::Class, index) {
            return false;
        }
    }
    true
}
