//! The rules about constants (JVMS 4.4).

ghost use Rattle.std.specs.Prelude.{◌≡◌, ◌||◌};
ghost use Rattle.std.specs.Option.{option_copied};
ghost use Rattle.jc_view.specs.Attributes.{bootstrap_attributes};
ghost use Rattle.jc_view.specs.ClassFile.{ClassFile};
ghost use Rattle.jc_view.specs.Lent.{constant_of};
ghost use Rattle.jc_view.specs.declared.constant_pool.ConstantKind.TheVariants as kinds;
ghost use Rattle.jc_view.specs.ConstantPool.{Utf8, Class, String, Fieldref, Methodref, InterfaceMethodref};
ghost use Rattle.jc_view.specs.ConstantPool.{NameAndType, MethodHandle, MethodType, InvokeDynamic};
ghost use Rattle.jc_view.specs.Lookups.{fails, is_entry, is_kind, member_descriptor_at, member_name_at, name_of, passes, utf8_at};
ghost use Rattle.jc_base.specs.DescriptorTests.{is_field_text, is_method_text};
ghost use Rattle.jc_file.specs.FormatRules.{breaks_f3, breaks_f5, breaks_f8, breaks_f9, fits_handle, is_bad_special, is_wrong_name};
ghost use Rattle.jc_file.specs.FormatRules.{is_array_text, lacks_member_entries, returns_value};
ghost use Rattle.jc_file.specs.inside.BootstrapsRead.{declared_by};
ghost use Rattle.jc_file.specs.inside.RuleTables.{AreBroken, constant_tests};
ghost use Rattle.jc_file.specs.inside.Texts.{fails_with};

use crate::fault::FormatRule;
use crate::names::{begins_with, is_clinit, is_init, is_well_spelled};
use crate::rule_set::RuleSet;
use crate::texts::{Descriptor, Texts};
use jc_view::{ClassView, Constant, ConstantIndex, ConstantKind};

/// Returns the rules that a constant breaks. `bootstraps` is the number of bootstrap methods of the class.
pub(crate) fn constant_rules(texts: &mut Texts, bootstraps: u16, constant: Constant) -> RuleSet
    requires { bootstraps ≡ declared_by (bootstrap_attributes texts.old) }
    ensures same { texts.new ≡ texts.old }
    ensures rules { AreBroken (constant_tests texts.old (constant_of constant.entry)) result }
{
    match constant {
        Constant::Utf8(text) => utf8_rules(text),
        Constant::Class(name) => class_rules(texts, name),
        Constant::String(text) => string_rules(texts.class(), text),
        Constant::Fieldref(class, entry) => fieldref_rules(texts, class, entry),
        Constant::Methodref(class, entry) => methodref_rules(texts, class, entry),
        Constant::InterfaceMethodref(class, entry) => {
            interface_methodref_rules(texts, class, entry)
        }
        Constant::NameAndType(name, descriptor) => name_and_type_rules(texts, name, descriptor),
        Constant::MethodHandle(kind, reference) => {
            method_handle_rules(texts.class(), kind, reference)
        }
        Constant::MethodType(descriptor) => method_type_rules(texts, descriptor),
        Constant::InvokeDynamic(method, entry) => {
            invoke_dynamic_rules(texts, bootstraps, method, entry)
        }
        Constant::Integer(_) | Constant::Float(_) | Constant::Long(_) | Constant::Double(_) => {
            RuleSet::none()
        }
    }
}

fn utf8_rules(text: &[u8]) -> RuleSet
    ensures { (c : ClassFile) → AreBroken (constant_tests c (Utf8 text.now)) result }
{
    RuleSet::none().with(FormatRule::F2, !is_well_spelled(text))
}

fn class_rules(texts: &mut Texts, name: ConstantIndex) -> RuleSet
    ensures same { texts.new ≡ texts.old }
    ensures rules { AreBroken (constant_tests texts.old (Class name)) result }
{
    RuleSet::none()
        .with(FormatRule::F1, !is_utf8(texts.class(), name))
        .with(FormatRule::F3, breaks_f3(texts, name))
}

fn string_rules(class: &ClassView, text: ConstantIndex) -> RuleSet
    ensures { AreBroken (constant_tests class.now (String text)) result }
{
    RuleSet::none().with(FormatRule::F1, !is_utf8(class, text))
}

fn fieldref_rules(texts: &mut Texts, class: ConstantIndex, entry: ConstantIndex) -> RuleSet
    ensures same { texts.new ≡ texts.old }
    ensures rules { AreBroken (constant_tests texts.old (Fieldref class entry)) result }
{
    RuleSet::none()
        .with(
            FormatRule::F1,
            lacks_member_entries(texts.class(), class, entry),
        )
        .with(FormatRule::F6, is_no_field(texts, entry))
}

fn methodref_rules(texts: &mut Texts, class: ConstantIndex, entry: ConstantIndex) -> RuleSet
    ensures same { texts.new ≡ texts.old }
    ensures rules { AreBroken (constant_tests texts.old (Methodref class entry)) result }
{
    RuleSet::none()
        .with(
            FormatRule::F1,
            lacks_member_entries(texts.class(), class, entry),
        )
        .with(FormatRule::F6, is_no_method(texts, entry))
        .with(FormatRule::F7, breaks_f7(texts, entry))
}

fn interface_methodref_rules(
    texts: &mut Texts,
    class: ConstantIndex,
    entry: ConstantIndex,
) -> RuleSet
    ensures same { texts.new ≡ texts.old }
    ensures rules { AreBroken (constant_tests texts.old (InterfaceMethodref class entry)) result }
{
    RuleSet::none()
        .with(
            FormatRule::F1,
            lacks_member_entries(texts.class(), class, entry),
        )
        .with(FormatRule::F6, is_no_method(texts, entry))
}

fn name_and_type_rules(texts: &mut Texts, name: ConstantIndex, descriptor: ConstantIndex) -> RuleSet
    ensures same { texts.new ≡ texts.old }
    ensures rules { AreBroken (constant_tests texts.old (NameAndType name descriptor)) result }
{
    RuleSet::none()
        .with(
            FormatRule::F1,
            !is_utf8(texts.class(), name) || !is_utf8(texts.class(), descriptor),
        )
        .with(FormatRule::F4, breaks_f4(texts, descriptor))
        .with(FormatRule::F5, breaks_f5(texts, name, descriptor))
}

fn method_handle_rules(class: &ClassView, kind: u8, reference: ConstantIndex) -> RuleSet
    ensures { AreBroken (constant_tests class.now (MethodHandle kind reference)) result }
{
    RuleSet::none()
        .with(FormatRule::F8, breaks_f8(class, kind, reference))
        .with(FormatRule::F9, breaks_f9(class, kind, reference))
}

fn method_type_rules(texts: &mut Texts, descriptor: ConstantIndex) -> RuleSet
    ensures same { texts.new ≡ texts.old }
    ensures rules { AreBroken (constant_tests texts.old (MethodType descriptor)) result }
{
    RuleSet::none()
        .with(FormatRule::F1, !is_utf8(texts.class(), descriptor))
        .with(FormatRule::F10, is_no_method_text(texts, descriptor))
}

fn invoke_dynamic_rules(
    texts: &mut Texts,
    bootstraps: u16,
    method: u16,
    entry: ConstantIndex,
) -> RuleSet
    requires { bootstraps ≡ declared_by (bootstrap_attributes texts.old) }
    ensures same { texts.new ≡ texts.old }
    ensures rules { AreBroken (constant_tests texts.old (InvokeDynamic method entry)) result }
{
    RuleSet::none()
        .with(
            FormatRule::F1,
            !texts.class().is_entry(ConstantKind::NameAndType, entry),
        )
        .with(FormatRule::F6, is_no_method(texts, entry))
        .with(FormatRule::F11, method >= bootstraps)
}

fn is_utf8(class: &ClassView, index: ConstantIndex) -> bool
    ensures { result ≡ is_entry class.now kinds.Utf8 index }
{
    class.is_entry(ConstantKind::Utf8, index)
}

fn lacks_member_entries(class: &ClassView, class_index: ConstantIndex, entry: ConstantIndex) -> bool
    ensures { result ≡ lacks_member_entries class.now class_index entry }
{
    !class.is_entry(ConstantKind::Class, class_index)
        || !class.is_entry(ConstantKind::NameAndType, entry)
}

/// Returns whether the text of a `Class` is neither a class name nor an array descriptor.
fn breaks_f3(texts: &mut Texts, name: ConstantIndex) -> bool
    ensures same { texts.new ≡ texts.old }
    ensures breaks { result ≡ breaks_f3 texts.old (Class name) }
{
    matches!(texts.is_class(name), Some(false)) && !is_array_text(texts, name)
}

/// Returns whether the descriptor of a `NameAndType` is neither a field descriptor nor a method descriptor.
fn breaks_f4(texts: &mut Texts, descriptor: ConstantIndex) -> bool
    ensures same { texts.new ≡ texts.old }
    ensures breaks { result ≡ fails (λ text. is_field_text text || is_method_text text) (utf8_at texts.old descriptor) }
{
    match texts.descriptor(descriptor) {
        Some(descriptor) => !descriptor.is_field() && !descriptor.is_method(),
        None => false,
    }
}

/// Returns whether the name of a `NameAndType` does not fit its descriptor.
fn breaks_f5(texts: &mut Texts, name: ConstantIndex, descriptor: ConstantIndex) -> bool
    ensures same { texts.new ≡ texts.old }
    ensures breaks { result ≡ breaks_f5 texts.old (NameAndType name descriptor) }
{
    match texts.descriptor(descriptor) {
        Some(descriptor) => fails_beside(texts, descriptor, name),
        None => false,
    }
}

/// Returns whether a name does not fit a descriptor.
fn fails_beside(texts: &mut Texts, descriptor: Descriptor, name: ConstantIndex) -> bool
    ensures same { texts.new ≡ texts.old }
    ensures fails { result ≡ fails_with descriptor (utf8_at texts.old name) }
{
    match descriptor {
        Descriptor::Field(_) => matches!(texts.is_unqualified(name), Some(false)),
        Descriptor::Method { .. } => matches!(texts.is_method_name(name), Some(false)),
        Descriptor::Other => false,
    }
}

/// Returns whether a `NameAndType` has a descriptor that is not a field descriptor.
fn is_no_field(texts: &mut Texts, entry: ConstantIndex) -> bool
    ensures same { texts.new ≡ texts.old }
    ensures fails { result ≡ fails is_field_text (member_descriptor_at texts.old entry) }
{
    match texts.class().name_and_type(entry) {
        Some((_, descriptor)) => is_no_field_text(texts, descriptor),
        None => false,
    }
}

/// Returns whether a `NameAndType` has a descriptor that is not a method descriptor.
fn is_no_method(texts: &mut Texts, entry: ConstantIndex) -> bool
    ensures same { texts.new ≡ texts.old }
    ensures fails { result ≡ fails is_method_text (member_descriptor_at texts.old entry) }
{
    match texts.class().name_and_type(entry) {
        Some((_, descriptor)) => is_no_method_text(texts, descriptor),
        None => false,
    }
}

/// Returns whether the text at an index exists and is not a field descriptor.
fn is_no_field_text(texts: &mut Texts, index: ConstantIndex) -> bool
    ensures same { texts.new ≡ texts.old }
    ensures fails { result ≡ fails is_field_text (utf8_at texts.old index) }
{
    match texts.descriptor(index) {
        Some(descriptor) => !descriptor.is_field(),
        None => false,
    }
}

/// Returns whether the text at an index exists and is not a method descriptor.
fn is_no_method_text(texts: &mut Texts, index: ConstantIndex) -> bool
    ensures same { texts.new ≡ texts.old }
    ensures fails { result ≡ fails is_method_text (utf8_at texts.old index) }
{
    match texts.descriptor(index) {
        Some(descriptor) => !descriptor.is_method(),
        None => false,
    }
}

/// Returns whether the text at an index is an array descriptor.
fn is_array_text(texts: &mut Texts, index: ConstantIndex) -> bool
    ensures same { texts.new ≡ texts.old }
    ensures passes { result ≡ passes is_array_text (utf8_at texts.old index) }
{
    match texts.descriptor(index) {
        Some(descriptor) => descriptor.is_array(),
        None => false,
    }
}

/// Returns whether a method with this `NameAndType` has a special name that is not permitted.
fn breaks_f7(texts: &mut Texts, entry: ConstantIndex) -> bool
    ensures same { texts.new ≡ texts.old }
    ensures breaks { result ≡ passes (is_bad_special (member_descriptor_at texts.old entry)) (member_name_at texts.old entry) }
{
    let Some((name, descriptor)) = texts.class().name_and_type(entry) else {
        return false;
    };
    match texts.class().utf8(name) {
        Some(name) => is_bad_special(texts, descriptor, name),
        None => false,
    }
}

/// Returns whether the name of a method begins with `<`, but it is not `<init>` or the method returns a value.
fn is_bad_special(texts: &mut Texts, descriptor: ConstantIndex, name: &[u8]) -> bool
    ensures same { texts.new ≡ texts.old }
    ensures is { result ≡ is_bad_special (utf8_at texts.old descriptor) name.now }
{
    begins_with(b'<', name) && (!is_init(name) || returns_value(texts, descriptor))
}

/// Returns whether the text at an index is a method descriptor whose result is not void.
fn returns_value(texts: &mut Texts, descriptor: ConstantIndex) -> bool
    ensures same { texts.new ≡ texts.old }
    ensures is { result ≡ passes returns_value (utf8_at texts.old descriptor) }
{
    match texts.descriptor(descriptor) {
        Some(descriptor) => descriptor.returns_value(),
        None => false,
    }
}

fn breaks_f8(class: &ClassView, kind: u8, reference: ConstantIndex) -> bool
    ensures { result ≡ breaks_f8 class.now (MethodHandle kind reference) }
{
    match class.constant(reference.0) {
        Some(entry) => !fits_handle(class.version().major, kind, entry),
        None => true,
    }
}

fn breaks_f9(class: &ClassView, kind: u8, reference: ConstantIndex) -> bool
    ensures { result ≡ breaks_f9 class.now (MethodHandle kind reference) }
{
    match class.constant(reference.0) {
        Some(entry) => {
            fits_handle(class.version().major, kind, entry)
                && name_of(class, entry).is_some_and(|name| is_wrong_name(kind, name))
        }
        None => false,
    }
}

/// Returns the name of the field or method that a constant refers to.
fn name_of<'a>(class: &ClassView<'a>, reference: Constant) -> Option<&'a [u8]>
    ensures { option_copied result ≡ name_of class.now (constant_of reference.entry) }
{
    match reference {
        Constant::Fieldref(_, entry)
        | Constant::Methodref(_, entry)
        | Constant::InterfaceMethodref(_, entry)
        | Constant::InvokeDynamic(_, entry) => class.member_name_at(entry),
        _ => None,
    }
}

/// Returns whether a handle of this kind may refer to this constant in a file of this version (JVMS 4.4.8).
fn fits_handle(major: u16, kind: u8, entry: Constant) -> bool
    ensures { result ≡ fits_handle major kind (constant_of entry.entry) }
{
    1 <= kind && kind <= 4 && is_kind(ConstantKind::Fieldref, entry)
        || 5 <= kind && kind <= 8 && is_kind(ConstantKind::Methodref, entry)
        || 6 <= kind && kind <= 7 && major >= 52 && is_kind(ConstantKind::InterfaceMethodref, entry)
        || kind == 9 && is_kind(ConstantKind::InterfaceMethodref, entry)
}

/// Returns whether a handle of this kind must not refer to a method with this name.
fn is_wrong_name(kind: u8, name: &[u8]) -> bool
    ensures { result ≡ is_wrong_name kind name.now }
{
    kind == 8 && !is_init(name)
        || (5 <= kind && kind <= 7 || kind == 9) && (is_init(name) || is_clinit(name))
}

/// Returns whether a constant is of a kind.
fn is_kind(kind: ConstantKind, constant: Constant) -> bool
    ensures { result ≡ is_kind kind (constant_of constant.entry) }
{
    constant.kind().tag() == kind.tag()
}
