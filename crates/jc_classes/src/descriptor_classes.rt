//! The Class constants whose classes code resolves by a descriptor (JVMS 5.4.3.3, 5.4.3.5, 5.4.3.6).

ghost use Rattle.std.specs.Prelude.{◌≡◌, ◌++◌, [], ◌∷◌, None, Some, IfOk, OnOk, if◌then◌else◌, slice_index_or, slice_set};
ghost use Rattle.std.specs.FinMap as map;
ghost use Rattle.std.specs.List.{list_any};
ghost use Rattle.jc_view.specs.Lookups.{utf8_at};
ghost use Rattle.jc_classes.specs.NameLists.{has};
ghost use Rattle.jc_classes.specs.Names.{Name};
ghost use Rattle.jc_classes.specs.ResolvedDescriptors.{class_in_type, classes_at, classes_in};
ghost use Rattle.jc_classes.specs.UsedConstants.{by_constants, class_that, classes_that, is_resolved, named, named_by_handle};
ghost use Rattle.jc_classes.specs.inside.Using.{are_marks, mark_at};
ghost use Rattle.jc_classes.specs.inside.DescriptorClasses.{Adds, AreKnown, names_one};

use crate::read_facts::push_some;
use crate::reference::{class_in_descriptor, class_named, without_dimensions};
use crate::resolved_descriptors::resolved_descriptors;
use crate::used::{is_marked, marked};
use jc_base::{ByteMap, MethodDesc, NoMemory};
use jc_view::{ClassView, ConstantIndex};
use std::alloc::Global;

/// Adds the Class constants whose classes are in descriptors that code resolves. The class of an array is its innermost
/// class. `handles` has the constants that method handles name, and `marks` marks the named constants. Each text is
/// read once, even if several constants name it.
///
/// Returns `NoMemory` only when an allocation fails.
pub(crate) fn add_resolved_classes(
    alloc: Global,
    names: &mut Vec<ConstantIndex>,
    class: &ClassView,
    handles: &[ConstantIndex],
    marks: &[bool],
) -> Result<(), NoMemory>
    requires handles { handles.now ≡ by_constants named_by_handle class.now }
    requires marks { marks.now ≡ are_marks class.now (named class.now) }
    ensures { OnOk result (names.new.items ≡ names.old.items ++ classes_that (is_resolved class.now) class.now) }
{
    let descriptors = resolved_descriptors(alloc, class, handles, marks)?;
    if descriptors.is_empty() {
        return Ok(());
    }
    let found = classes_in_all(alloc, class, &descriptors)?;
    add_classes_found(alloc, names, class, &found)
}

/// Returns the names of the classes in descriptors.
fn classes_in_all(
    alloc: Global,
    class: &ClassView,
    descriptors: &[ConstantIndex],
) -> Result<ByteMap<()>, NoMemory>
    ensures { IfOk result (λ found. (n : Name) → map.contains_key found n ≡ list_any (λ index. has (classes_at class.now index) n) descriptors.now) }
{
    let marks = marked(alloc, class, descriptors)?;
    let mut found = ByteMap::new(alloc);
    for index in 0..class.constant_count() {
        add_if_marked(alloc, &mut found, class, &marks, index)?;
    }
    Ok(found)
}

/// Adds the classes in the descriptor at `index` if the descriptor is marked.
fn add_if_marked(
    alloc: Global,
    found: &mut ByteMap<()>,
    class: &ClassView,
    marks: &[bool],
    index: u16,
) -> Result<(), NoMemory>
    ensures { OnOk result (Adds (if mark_at marks.now index then classes_at class.now (record { 0 = index }) else []) found.old found.new) }
{
    if is_marked(marks, index) {
        add_classes_at(alloc, found, class, ConstantIndex(index))
    } else {
        Ok(())
    }
}

/// Adds the classes in the descriptor at `index`.
fn add_classes_at(
    alloc: Global,
    found: &mut ByteMap<()>,
    class: &ClassView,
    index: ConstantIndex,
) -> Result<(), NoMemory>
    ensures { OnOk result (Adds (classes_at class.now index) found.old found.new) }
{
    match class.utf8(index) {
        Some(text) => add_classes_in(alloc, found, text),
        None => Ok(()),
    }
}

/// Adds the classes in a descriptor.
fn add_classes_in(alloc: Global, found: &mut ByteMap<()>, text: &[u8]) -> Result<(), NoMemory>
    ensures { OnOk result (Adds (classes_in text.now) found.old found.new) }
{
    let Some(descriptor) = MethodDesc::read(text) else {
        return add_class_in(alloc, found, text);
    };
    for param in descriptor.params() {
        add_class_in(alloc, found, param)?;
    }
    match descriptor.result() {
        Some(result) => add_class_in(alloc, found, result),
        None => Ok(()),
    }
}

/// Adds the class of a type; for an array, its innermost class.
fn add_class_in(alloc: Global, found: &mut ByteMap<()>, text: &[u8]) -> Result<(), NoMemory>
    ensures { OnOk result (Adds (class_in_type text.now) found.old found.new) }
{
    match class_in_descriptor(without_dimensions(text)) {
        Some(name) => add(alloc, found, name),
        None => Ok(()),
    }
}

/// Adds a name.
fn add(alloc: Global, found: &mut ByteMap<()>, name: &[u8]) -> Result<(), NoMemory>
    ensures { OnOk result (Adds (name.now ∷ []) found.old found.new) }
{
    if !found.contains_key(name) {
        let name = Vec::from_slice(alloc, name)?;
        found.insert(name, ())?;
    }
    Ok(())
}

/// Adds the Class constants whose classes are in `found`; for an array, its innermost class. Each text is read once.
fn add_classes_found(
    alloc: Global,
    names: &mut Vec<ConstantIndex>,
    class: &ClassView,
    found: &ByteMap<()>,
) -> Result<(), NoMemory>
    ensures { OnOk result (names.new.items ≡ names.old.items ++ classes_that (map.contains_key found.now) class.now) }
{
    let mut known = vec![in alloc; None; class.constant_count() as usize]?;
    for index in 1..class.constant_count() {
        push_some(names, class_if_found(class, found, &mut known, index))?;
    }
    Ok(())
}

/// Returns `index` if the constant there is a Class whose class is in `found`; for an array, its innermost class.
fn class_if_found(
    class: &ClassView,
    found: &ByteMap<()>,
    known: &mut Vec<Option<bool>>,
    index: u16,
) -> Option<ConstantIndex>
    requires { AreKnown (map.contains_key found.now) class.now known.old.items }
    ensures known { AreKnown (map.contains_key found.now) class.now known.new.items }
    ensures class { result ≡ class_that (map.contains_key found.now) class.now index }
{
    let text = class.class_name_index(ConstantIndex(index))?;
    if names_once(class, found, known, text) {
        Some(ConstantIndex(index))
    } else {
        None
    }
}

/// Returns whether the text at `index` names a class in `found` or an array of one, and notes the result.
fn names_once(
    class: &ClassView,
    found: &ByteMap<()>,
    known: &mut Vec<Option<bool>>,
    index: ConstantIndex,
) -> bool
    requires { AreKnown (map.contains_key found.now) class.now known.old.items }
    ensures known { AreKnown (map.contains_key found.now) class.now known.new.items }
    ensures names { result ≡ names_one (map.contains_key found.now) (utf8_at class.now index) }
{
    if let Some(names) = known_at(known, index) {
        return names;
    }
    let names = names_one(class, found, index);
    note(known, index, names);
    names
}

/// Returns whether the text at `index` names a class in `found`, or an array of one.
fn names_one(class: &ClassView, found: &ByteMap<()>, index: ConstantIndex) -> bool
    ensures { result ≡ names_one (map.contains_key found.now) (utf8_at class.now index) }
{
    match class.utf8(index) {
        Some(text) => names_found(found, text),
        None => false,
    }
}

/// Returns the known result at an index.
fn known_at(known: &[Option<bool>], index: ConstantIndex) -> Option<bool>
    ensures { result ≡ slice_index_or known.now index.0 None }
{
    *known.get(index.0 as usize)?
}

/// Notes a result at an index.
fn note(known: &mut Vec<Option<bool>>, index: ConstantIndex, names: bool)
    ensures { known.new.items ≡ slice_set known.old.items index.0 (Some names) }
{
    let place = index.0 as usize;
    if place < known.len() {
        known[place] = Some(names);
    }
}

/// Returns whether the text of a Class constant names a class in `found`, or an array of one.
fn names_found(found: &ByteMap<()>, text: &[u8]) -> bool
    ensures { result ≡ names_one (map.contains_key found.now) (Some text.now) }
{
    match class_named(text) {
        Some(name) => found.contains_key(name),
        None => false,
    }
}
