//! The constants of a class file that are used. Code resolves no other constants.

ghost use Rattle.std.specs.Prelude.{◌≡◌, ◌++◌, ◌<◌, ◌==◌, ◌^◌, None, length, IfOk, OnOk, if◌then◌else◌, option_and_then};
ghost use Rattle.std.specs.List.{flat_map};
ghost use Rattle.jc_view.specs.AttributeReading.{after_bootstrap, bootstrap_value};
ghost use Rattle.jc_view.specs.Attributes.{bootstrap_attributes};
ghost use Rattle.jc_view.specs.ClassFile.{constant_at};
ghost use Rattle.jc_view.specs.Moves.{Lends};
ghost use Rattle.jc_view.specs.Reading.{after_table};
ghost use Rattle.jc_view.specs.Lookups.{class_index};
ghost use Rattle.jc_classes.specs.UsedConstants.{by_constants, is_among, named, named_by_handle, named_by_methods, named_by_table, used_constants};
ghost use Rattle.jc_classes.specs.inside.Using.{Marks, are_marks, arguments_at, mark_at, named_by_attribute, owners};

use crate::descriptor_classes::add_resolved_classes;
use crate::read_facts::push_some;
use jc_base::{Cursor, NoMemory};
use jc_view::{
    Attribute, AttributeKind, ClassView, Constant, ConstantIndex, ConstantKind, Indexes,
    read_index, read_indexes,
};
use std::alloc::Global;

/// What uses a reference of a class file, and so may cause a virtual machine to resolve it (JVMS 5.4.3).
#[derive(Clone, Copy, Debug, PartialEq, Eq)]
pub enum User {
    /// The code of a method. It names the reference or, for a reference to a class, a reference to a member of this
    /// class. The number is that of the first such method, from 0 in file order.
    Method(u16),
    /// No code of a method, but a method handle, an argument of a bootstrap method, or a descriptor that code resolves.
    Other,
    /// Nothing. No code resolves the reference.
    Nothing,
}

/// Returns a mark for each index of the constant pool, which is set if the constant is used.
///
/// A constant is named if an instruction, an exception handler or a method handle refers to it, or if it is an argument
/// of a bootstrap method. A named constant is used. So is a Class constant that is the class of a named reference to a
/// member, or whose class is in a descriptor that code resolves. `marks` has the marks of the constants that the code
/// of methods names.
///
/// Returns `NoMemory` only when an allocation fails.
pub(crate) fn used(
    alloc: Global,
    class: &ClassView,
    mut marks: Vec<bool>,
) -> Result<Vec<bool>, NoMemory>
    requires { marks.items ≡ are_marks class.now (named_by_methods class.now) }
    ensures { IfOk result (λ marks. marks.items ≡ are_marks class.now (used_constants class.now)) }
{
    let mut handles = Vec::new(alloc);
    add_by_handles(&mut handles, class)?;
    mark_named(alloc, class, &handles, &mut marks)?;
    let mut classes = Vec::new(alloc);
    add_owners(&mut classes, class, &marks)?;
    add_resolved_classes(alloc, &mut classes, class, &handles, &marks)?;
    mark_all(&mut marks, &classes);
    Ok(marks)
}

/// Marks the constants that method handles and bootstrap methods name. `handles` has those that method handles name.
fn mark_named(
    alloc: Global,
    class: &ClassView,
    handles: &[ConstantIndex],
    marks: &mut Vec<bool>,
) -> Result<(), NoMemory>
    requires handles { handles.now ≡ by_constants named_by_handle class.now }
    requires marks { marks.old.items ≡ are_marks class.now (named_by_methods class.now) }
    ensures { OnOk result (marks.new.items ≡ are_marks class.now (named class.now)) }
{
    mark_all(marks, handles);
    let mut names = Vec::new(alloc);
    add_by_bootstraps(alloc, &mut names, class)?;
    mark_all(marks, &names);
    Ok(())
}

/// Adds the constants that method handles name.
fn add_by_handles(names: &mut Vec<ConstantIndex>, class: &ClassView) -> Result<(), NoMemory>
    ensures { OnOk result (names.new.items ≡ names.old.items ++ by_constants named_by_handle class.now) }
{
    for index in 1..class.constant_count() {
        push_some(names, named_by_handle(class, index))?;
    }
    Ok(())
}

/// Returns the `reference_index` of the MethodHandle at `index`, if there is one (JVMS 4.4.8).
fn named_by_handle(class: &ClassView, index: u16) -> Option<ConstantIndex>
    ensures { result ≡ option_and_then named_by_handle (constant_at class.now (record { 0 = index })) }
{
    if !class.is_entry(ConstantKind::MethodHandle, ConstantIndex(index)) {
        return None;
    }
    match class.constant(index)? {
        Constant::MethodHandle(_, reference) => Some(reference),
        _ => None,
    }
}

/// Adds the arguments of bootstrap methods.
fn add_by_bootstraps(
    alloc: Global,
    names: &mut Vec<ConstantIndex>,
    class: &ClassView,
) -> Result<(), NoMemory>
    ensures { OnOk result (names.new.items ≡ names.old.items
        ++ flat_map (λ a. named_by_table a.bytes) (bootstrap_attributes class.now)) }
{
    for attribute in class.attributes() {
        add_by_attribute(alloc, names, &attribute)?;
    }
    Ok(())
}

/// Adds the arguments of the bootstrap methods in an attribute.
fn add_by_attribute(
    alloc: Global,
    names: &mut Vec<ConstantIndex>,
    attribute: &Attribute,
) -> Result<(), NoMemory>
    ensures { OnOk result (names.new.items ≡ names.old.items ++ named_by_attribute attribute.now.class attribute.now.attribute) }
{
    if attribute.is(AttributeKind::BootstrapMethods) {
        add_by_table(alloc, names, attribute.bytes())
    } else {
        Ok(())
    }
}

/// Adds the arguments in the bytes of an attribute, if the bytes are exactly a table of bootstrap methods.
fn add_by_table(alloc: Global, names: &mut Vec<ConstantIndex>, bytes: &[u8]) -> Result<(), NoMemory>
    ensures { OnOk result (names.new.items ≡ names.old.items ++ named_by_table bytes.now) }
{
    let mut cursor = Cursor::new(bytes);
    match read_arguments(alloc, &mut cursor)? {
        Some(arguments) if !cursor.has_left() => Ok(names.extend_from_slice(&arguments)?),
        _ => Ok(()),
    }
}

/// Reads the table of bootstrap methods at the cursor, which begins with its count, and returns all their arguments.
/// Returns `None` if the table is cut off.
fn read_arguments(
    alloc: Global,
    cursor: &mut Cursor,
) -> Result<Option<Vec<ConstantIndex>>, NoMemory>
    ensures { IfOk result (λ read. Lends (λ v. v.items) (after_table after_bootstrap) arguments_at cursor.old read cursor.new) }
{
    let Some(count) = cursor.u2() else {
        return Ok(None);
    };
    let mut arguments = Vec::new(alloc);
    for _ in 0..count {
        match read_method(cursor) {
            Some(indexes) => add_indexes(&mut arguments, indexes)?,
            None => return Ok(None),
        }
    }
    Ok(Some(arguments))
}

/// Reads the bootstrap method at the cursor, and returns its arguments.
#[tactic(auto, unfolding(jc_view::specs::AttributeReading::after_bootstrap))]
fn read_method<'a>(cursor: &mut Cursor<'a>) -> Option<Indexes<'a>>
    ensures { Lends (λ indexes. indexes) after_bootstrap (λ xs. (bootstrap_value xs).arguments) cursor.old result cursor.new }
{
    read_index(cursor)?;
    read_indexes(cursor)
}

fn add_indexes(names: &mut Vec<ConstantIndex>, indexes: Indexes) -> Result<(), NoMemory>
    ensures { OnOk result (names.new.items ≡ names.old.items ++ indexes.entry) }
{
    for index in indexes {
        names.push(index)?;
    }
    Ok(())
}

/// Adds the classes of the marked references to members.
fn add_owners(
    names: &mut Vec<ConstantIndex>,
    class: &ClassView,
    marks: &[bool],
) -> Result<(), NoMemory>
    requires { marks.now ≡ are_marks class.now (named class.now) }
    ensures { OnOk result (names.new.items ≡ names.old.items ++ owners class.now (named class.now)) }
{
    for index in 1..class.constant_count() {
        push_some(names, owner_if_marked(class, marks, index))?;
    }
    Ok(())
}

/// Returns the class of a reference to a member, if the reference is marked.
fn owner_if_marked(class: &ClassView, marks: &[bool], index: u16) -> Option<ConstantIndex>
    ensures { result ≡ (if mark_at marks.now index then option_and_then class_index (constant_at class.now (record { 0 = index })) else None) }
{
    if *marks.get(index as usize)? {
        class.class_index(ConstantIndex(index))
    } else {
        None
    }
}

/// Returns a mark for each index of the constant pool, which is set if the index is in `names`.
pub(crate) fn marked(
    alloc: Global,
    class: &ClassView,
    names: &[ConstantIndex],
) -> Result<Vec<bool>, NoMemory>
    ensures { IfOk result (λ marks. marks.items ≡ are_marks class.now names.now) }
{
    let mut marks = vec![in alloc; false; class.constant_count() as usize]?;
    mark_all(&mut marks, names);
    Ok(marks)
}

/// Sets the marks of these indexes.
fn mark_all(marks: &mut Vec<bool>, indexes: &[ConstantIndex])
    ensures { Marks (is_among indexes.now) marks.old.items marks.new.items }
{
    for index in indexes {
        mark(marks, *index);
    }
}

/// Sets the mark of an index, if the index has a mark.
pub(crate) fn mark(marks: &mut Vec<bool>, index: ConstantIndex)
    ensures { Marks (λ i. index.0 == i) marks.old.items marks.new.items }
{
    let at = index.0 as usize;
    if at < marks.len() {
        marks[at] = true;
    }
}

/// Returns whether the mark of `index` is set.
pub(crate) fn is_marked(marks: &[bool], index: u16) -> bool
    ensures { result ≡ mark_at marks.now index }
{
    match marks.get(index as usize) {
        Some(mark) => *mark,
        None => false,
    }
}
