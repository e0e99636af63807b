//! The sizes that the texts of a class describe: the dimensions of arrays, and the slots of parameters.

ghost use Rattle.std.specs.Prelude.{◌≡◌, ◌+◌, None, [], slice_index_or, IfOk, OnOk};
ghost use Rattle.std.specs.Option.{option_map};
ghost use Rattle.jc_base.specs.DescriptorTests.{begins_with};
ghost use Rattle.jc_view.specs.ClassFile.{class_text_at};
ghost use Rattle.jc_code.specs.CodeRules.{dimensions_of};
ghost use Rattle.jc_code.specs.inside.TextSizes.{AreSizes, AreSizesBefore, Fills, FillsNext, interface_slots};

use crate::known_slots::KnownSlots;
use jc_base::{FieldDesc, NoMemory};
use jc_view::{ClassView, Constant, ConstantIndex, ConstantKind};
use std::alloc::Global;
use std::marker::Model;

/// The dimensions of the arrays that a class names, and the slots of the parameters of the interface
/// methods that it names.
///
/// Any number of constants and instructions may name the same long text. So each text is parsed here
/// at most once as an array and at most once as the descriptor of a method. Look-ups do not parse.
///
/// Its model is the class file.
#[derive(Drop)]
pub struct TextSizes<'c, 'a> {
    class: &'c ClassView<'a>,
    sizes: Sizes,
}

/// Sizes by the indexes of constants. After the end of a list, the sizes are 0 or `None`.
#[derive(Drop)]
struct Sizes {
    /// At the index of a text, the dimensions of the array that it describes, or 0.
    dims: Vec<u8>,
    /// At the index of an `InterfaceMethodref`, the number of slots of its method's parameters.
    slots: Vec<Option<u8>>,
}

impl<'c, 'a> Model for TextSizes<'c, 'a> {
    ghost use Rattle.jc_view.specs.ClassFile.{ClassFile};

    ghost Value = { ClassFile };

    ghost use Rattle.jc_code.specs.inside.TextSizes.{AreSizes};

    ghost view = { λ s. s.class.now };

    ghost invariant = { λ s. AreSizes s.class.now s.sizes };
}

impl<'c, 'a> TextSizes<'c, 'a> {
    /// Returns the sizes of all texts of a class.
    ///
    /// Does not allocate if no text begins with `[` and no interface method is named. Returns `NoMemory`
    /// only when an allocation fails.
    pub fn of(alloc: Global, class: &'c ClassView<'a>) -> Result<TextSizes<'c, 'a>, NoMemory>
        ensures { IfOk result (λ sizes. sizes ≡ class.now) }
    {
        let mut sizes = Sizes {
            dims: Vec::new(alloc),
            slots: Vec::new(alloc),
        };
        read_all(alloc, class, &mut sizes)?;
        Ok(TextSizes { class, sizes })
    }

    /// Returns the class whose texts describe the sizes.
    pub fn class(&self) -> &'c ClassView<'a>
        ensures { result.now ≡ self.now }
    {
        self.class
    }

    /// Returns the number of dimensions of the class that the `Class` constant at `index` names. It is 0
    /// if this class is not an array. Returns `None` if there is no such constant, or if it has no text.
    pub(crate) fn dimensions(&self, index: ConstantIndex) -> Option<u8>
        ensures { result ≡ option_map dimensions_of (class_text_at self.now index) }
    {
        let text = self.class.class_name_index(index)?;
        self.class.utf8(text)?;
        Some(dims_at(&self.sizes.dims, text))
    }

    /// Returns the number of slots of the parameters of the method that an `InterfaceMethodref` names.
    /// Returns `None` if the constant is of another kind, or if its descriptor is not that of a method.
    pub(crate) fn slots(&self, index: ConstantIndex) -> Option<u8>
        ensures { result ≡ interface_slots self.now index.0 }
    {
        *self.sizes.slots.get(index.0 as usize)?
    }
}

/// Reads the sizes of all texts of a class.
fn read_all(alloc: Global, class: &ClassView, sizes: &mut Sizes) -> Result<(), NoMemory>
    requires dims { sizes.old.dims.items ≡ [] }
    requires slots { sizes.old.slots.items ≡ [] }
    ensures { OnOk result (AreSizes class.now sizes.new) }
{
    let mut known = KnownSlots::new(alloc, class);
    for index in 0..class.constant_count() {
        read_at(&mut known, index, sizes)?;
    }
    Ok(())
}

/// Reads the size at an index. The sizes at all lower indexes must have been read before.
///
/// Reads only the first byte of most texts, and only the kind of most other constants.
fn read_at(known: &mut KnownSlots, index: u16, sizes: &mut Sizes) -> Result<(), NoMemory>
    requires { AreSizesBefore known.old index sizes.old }
    ensures class { known.new ≡ known.old }
    ensures sizes { OnOk result (AreSizesBefore known.old (index + 1) sizes.new) }
{
    let class = known.class();
    let at = ConstantIndex(index);
    if let Some(text) = class.utf8(at) {
        add_dimensions(&mut sizes.dims, index, text)
    } else if class.is_entry(ConstantKind::InterfaceMethodref, at) {
        read_slots(known, index, &mut sizes.slots)
    } else {
        Ok(())
    }
}

/// Reads the slots at an index, if it is that of an `InterfaceMethodref`. Those at all lower indexes must
/// have been read before.
fn read_slots(
    known: &mut KnownSlots,
    index: u16,
    slots: &mut Vec<Option<u8>>,
) -> Result<(), NoMemory>
    requires { Fills None (interface_slots known.old) index slots.old.items }
    ensures class { known.new ≡ known.old }
    ensures slots { OnOk result (Fills None (interface_slots known.old) (index + 1) slots.new.items) }
{
    let Some(constant) = known.class().constant(index) else {
        return Ok(());
    };
    match constant {
        Constant::InterfaceMethodref(_, entry) => {
            let more = known.by_entry(entry)?;
            add_slots(slots, index, more)
        }
        _ => Ok(()),
    }
}

/// Sets the dimensions of the text at an index, if the text can be the descriptor of an array.
fn add_dimensions(dims: &mut Vec<u8>, index: u16, text: &[u8]) -> Result<(), NoMemory>
    ensures { FillsNext 0 index (dimensions_of text.now) result dims.old.items dims.new.items }
{
    if is_array(text) {
        dims.resize(index as usize, 0)?;
        dims.push(dimensions_of(text))?;
    }
    Ok(())
}

/// Returns whether a text begins with `[`: if it is a descriptor, it is that of an array.
fn is_array(text: &[u8]) -> bool
    ensures { result ≡ begins_with 91 text.now }
{
    match text {
        [first, ..] => *first == b'[',
        [] => false,
    }
}

/// Sets the number of slots at an index, if there is such a number.
fn add_slots(slots: &mut Vec<Option<u8>>, index: u16, more: Option<u8>) -> Result<(), NoMemory>
    ensures { FillsNext None index more result slots.old.items slots.new.items }
{
    if more.is_some() {
        slots.resize(index as usize, None)?;
        slots.push(more)?;
    }
    Ok(())
}

/// Returns the dimensions of the class that a text names: 0, unless the text is the descriptor of an array.
fn dimensions_of(text: &[u8]) -> u8
    ensures { result ≡ dimensions_of text.now }
{
    match FieldDesc::read(text) {
        Some(descriptor) => descriptor.dims(),
        None => 0,
    }
}

/// Returns the dimensions at an index.
fn dims_at(dims: &[u8], index: ConstantIndex) -> u8
    ensures { result ≡ slice_index_or dims.now index.0 0 }
{
    match dims.get(index.0 as usize) {
        Some(count) => *count,
        None => 0,
    }
}
