//! The descriptors whose classes code resolves (JVMS 5.4.3.3, 5.4.3.5, 5.4.3.6).

ghost use Rattle.std.specs.Prelude.{◌≡◌, ◌++◌, None, IfOk, OnOk, if◌then◌else◌, option_and_then};
ghost use Rattle.std.specs.List.{flat_map};
ghost use Rattle.jc_view.specs.ClassFile.{constant_at};
ghost use Rattle.jc_classes.specs.ResolvedDescriptors.{descriptor_in, is_method_handle, own_descriptor};
ghost use Rattle.jc_classes.specs.UsedConstants.{by_constants, by_named, named, named_by_handle, resolved_descriptors};
ghost use Rattle.jc_classes.specs.inside.DescriptorClasses.{descriptor_of_member, member_descriptor};
ghost use Rattle.jc_classes.specs.inside.Using.{are_marks, mark_at};

use crate::names::same;
use crate::read_facts::push_some;
use crate::used::is_marked;
use jc_base::NoMemory;
use jc_view::{ClassView, Constant, ConstantIndex};
use std::alloc::Global;

/// Returns the indexes of the descriptors that code resolves. `handles` has the constants that method handles name, and
/// `marks` marks the named constants.
///
/// Returns `NoMemory` only when an allocation fails.
pub(crate) fn resolved_descriptors(
    alloc: Global,
    class: &ClassView,
    handles: &[ConstantIndex],
    marks: &[bool],
) -> Result<Vec<ConstantIndex>, NoMemory>
    requires handles { handles.now ≡ by_constants named_by_handle class.now }
    requires marks { marks.now ≡ are_marks class.now (named class.now) }
    ensures { IfOk result (λ descriptors. descriptors.items ≡ resolved_descriptors class.now) }
{
    let mut descriptors = Vec::new(alloc);
    add_own(&mut descriptors, class, marks)?;
    add_of_members(&mut descriptors, class, handles)?;
    Ok(descriptors)
}

/// Adds the descriptors that are resolved with marked constants.
fn add_own(
    descriptors: &mut Vec<ConstantIndex>,
    class: &ClassView,
    marks: &[bool],
) -> Result<(), NoMemory>
    requires { marks.now ≡ are_marks class.now (named class.now) }
    ensures { OnOk result (descriptors.new.items ≡ descriptors.old.items ++ by_named (own_descriptor class.now) class.now) }
{
    for index in 1..class.constant_count() {
        push_some(descriptors, own_if_marked(class, marks, index))?;
    }
    Ok(())
}

/// Returns the descriptor that is resolved with the constant at `index` if the constant is marked.
fn own_if_marked(class: &ClassView, marks: &[bool], index: u16) -> Option<ConstantIndex>
    ensures { result ≡ (if mark_at marks.now index then option_and_then (own_descriptor class.now) (constant_at class.now (record { 0 = index })) else None) }
{
    if is_marked(marks, index) {
        own_descriptor(class, index)
    } else {
        None
    }
}

/// Returns the descriptor that is resolved with the constant at `index`. This is the descriptor of a method type, of a
/// call site, or of a method that may be signature polymorphic.
fn own_descriptor(class: &ClassView, index: u16) -> Option<ConstantIndex>
    ensures { result ≡ option_and_then (own_descriptor class.now) (constant_at class.now (record { 0 = index })) }
{
    match class.constant(index)? {
        Constant::MethodType(descriptor) => Some(descriptor),
        Constant::InvokeDynamic(_, entry) => descriptor_in(class, entry),
        Constant::Methodref(class_index, entry) => polymorphic_descriptor(
            class,
            class_index,
            entry,
        ),
        _ => None,
    }
}

/// Returns the descriptor of a method of `java/lang/invoke/MethodHandle`. The method may be signature polymorphic (JVMS
/// 2.9).
fn polymorphic_descriptor(
    class: &ClassView,
    class_index: ConstantIndex,
    entry: ConstantIndex,
) -> Option<ConstantIndex>
    ensures { result ≡ (if is_method_handle class.now class_index then descriptor_in class.now entry else None) }
{
    if is_method_handle(class, class_index) {
        descriptor_in(class, entry)
    } else {
        None
    }
}

/// Returns whether a Class constant names `java/lang/invoke/MethodHandle`.
fn is_method_handle(class: &ClassView, class_index: ConstantIndex) -> bool
    ensures { result ≡ is_method_handle class.now class_index }
{
    match class.class_text(class_index) {
        Some(name) => same(b"java/lang/invoke/MethodHandle", name),
        None => false,
    }
}

/// Returns the descriptor of a NameAndType.
fn descriptor_in(class: &ClassView, entry: ConstantIndex) -> Option<ConstantIndex>
    ensures { result ≡ descriptor_in class.now entry }
{
    let (_, descriptor) = class.name_and_type(entry)?;
    Some(descriptor)
}

/// Adds the descriptors of members.
fn add_of_members(
    descriptors: &mut Vec<ConstantIndex>,
    class: &ClassView,
    members: &[ConstantIndex],
) -> Result<(), NoMemory>
    ensures { OnOk result (descriptors.new.items ≡ descriptors.old.items ++ flat_map (descriptor_of_member class.now) members.now) }
{
    for member in members {
        push_some(descriptors, member_descriptor(class, *member))?;
    }
    Ok(())
}

/// Returns the descriptor of the member that the constant at `index` refers to.
fn member_descriptor(class: &ClassView, index: ConstantIndex) -> Option<ConstantIndex>
    ensures { result ≡ member_descriptor class.now index }
{
    descriptor_in(class, class.name_and_type_index(index)?)
}
