//! Access to the constants of parsed bytes, by index.

ghost use Rattle.std.specs.Prelude.{◌≡◌, ◌+◌, ◌≤◌, drop, length, option_and_then};
ghost use Rattle.std.specs.Option.{option_copied, option_map};
ghost use Rattle.jc_view.specs.Reading.{after, after_body, after_sized, body_value, sized_value};
ghost use Rattle.jc_view.specs.inside.ConstantRead.{constant_read, kind_read};
ghost use Rattle.jc_view.specs.ConstantPool.{class_name_index, index_value, kind_of, utf8_text};
ghost use Rattle.jc_base.specs.Endian.{big_number};
ghost use Rattle.jc_view.specs.Moves.{Lends};
ghost use Rattle.jc_view.specs.declared.constant_pool.ConstantKind.TheVariants as kinds;
ghost use Rattle.jc_view.specs.ClassFile.{ClassFile, constant_at};
ghost use Rattle.jc_view.specs.Lookups.{name_and_type, name_and_type_at, class_index, name_and_type_index, utf8_at};
ghost use Rattle.jc_view.specs.inside.ConstantPlaces.{Holds};
ghost use Rattle.jc_view.specs.Places.{place_at};
ghost use Rattle.jc_view.specs.Lent.{constant_of};

use crate::constant_pool::{Constant, ConstantIndex, ConstantKind};
use byteorder::{BigEndian, ByteOrder};
use jc_base::Cursor;

/// Returns the place where the constant at an index begins, if there is one.
fn place_at(offsets: &[Option<usize>], index: ConstantIndex) -> Option<usize>
    ensures { result ≡ place_at offsets.now index }
{
    *offsets.get(index.0 as usize)?
}

/// Returns the constant at an index, if it is usable.
pub(crate) fn entry<'a>(
    bytes: &'a [u8],
    offsets: &[Option<usize>],
    index: ConstantIndex,
) -> Option<Constant<'a>>
    ensures { (c : ClassFile) → Holds bytes.now offsets.now c → option_map constant_of result ≡ constant_at c index }
{
    constant_at(bytes, place_at(offsets, index)?)
}

/// Returns the kind of the constant at an index, if it is usable. Only the tag is read.
pub(crate) fn kind_entry(
    bytes: &[u8],
    offsets: &[Option<usize>],
    index: ConstantIndex,
) -> Option<ConstantKind>
    ensures { (c : ClassFile) → Holds bytes.now offsets.now c → result ≡ option_map kind_of (constant_at c index) }
{
    kind_at(bytes, place_at(offsets, index)?)
}

/// Returns the kind of the constant that begins at a place, by its tag.
fn kind_at(bytes: &[u8], place: usize) -> Option<ConstantKind>
    ensures { result ≡ kind_read place bytes.now }
{
    ConstantKind::of_tag(*bytes.get(place)?)
}

/// Returns the text of the `Utf8` constant at an index. A constant of another kind is not read.
pub(crate) fn text_entry<'a>(
    bytes: &'a [u8],
    offsets: &[Option<usize>],
    index: ConstantIndex,
) -> Option<&'a [u8]>
    ensures { (c : ClassFile) → Holds bytes.now offsets.now c → option_copied result ≡ utf8_at c index }
{
    text_at(bytes, place_at(offsets, index)?)
}

/// Returns the text of the `Utf8` constant that begins at a place (JVMS 4.4.7).
#[tactic(auto, unfolding(crate::specs::inside::ConstantRead::constant_read))]
fn text_at(bytes: &[u8], place: usize) -> Option<&[u8]>
    ensures { option_copied result ≡ option_and_then utf8_text (constant_read place bytes.now) }
{
    let mut cursor = Cursor::new(bytes);
    cursor.take(place)?;
    if cursor.u1()? != ConstantKind::Utf8.tag() {
        return None;
    }
    read_text(&mut cursor)
}

/// Returns the `name_index` of the `Class` constant at an index. A constant of another kind is not read.
pub(crate) fn class_name_index(
    bytes: &[u8],
    offsets: &[Option<usize>],
    index: ConstantIndex,
) -> Option<ConstantIndex>
    ensures { (c : ClassFile) → Holds bytes.now offsets.now c → result ≡ option_and_then class_name_index (constant_at c index) }
{
    class_at(bytes, place_at(offsets, index)?)
}

/// Returns the `name_index` of the `Class` constant that begins at a place (JVMS 4.4.1).
#[tactic(auto, unfolding(crate::specs::inside::ConstantRead::constant_read))]
fn class_at(bytes: &[u8], place: usize) -> Option<ConstantIndex>
    ensures { result ≡ option_and_then class_name_index (constant_read place bytes.now) }
{
    let mut cursor = Cursor::new(bytes);
    cursor.take(place)?;
    if cursor.u1()? != ConstantKind::Class.tag() {
        return None;
    }
    read_index(&mut cursor)
}

/// Returns the name and descriptor indexes of the `NameAndType` at an index. A constant of another kind is not read.
pub(crate) fn name_and_type_entry(
    bytes: &[u8],
    offsets: &[Option<usize>],
    index: ConstantIndex,
) -> Option<(ConstantIndex, ConstantIndex)>
    ensures { (c : ClassFile) → Holds bytes.now offsets.now c → result ≡ name_and_type_at c index }
{
    name_and_type_at(bytes, place_at(offsets, index)?)
}

/// Returns the name and descriptor indexes of the `NameAndType` that begins at a place (JVMS 4.4.6).
#[tactic(auto, unfolding(crate::specs::inside::ConstantRead::constant_read))]
fn name_and_type_at(bytes: &[u8], place: usize) -> Option<(ConstantIndex, ConstantIndex)>
    ensures { result ≡ option_and_then name_and_type (constant_read place bytes.now) }
{
    let mut cursor = Cursor::new(bytes);
    cursor.take(place)?;
    if cursor.u1()? != ConstantKind::NameAndType.tag() {
        return None;
    }
    read_pair(&mut cursor)
}

/// Returns the `class_index` of the reference to a field or method at an index. A constant of another kind is not read.
pub(crate) fn owner_entry(
    bytes: &[u8],
    offsets: &[Option<usize>],
    index: ConstantIndex,
) -> Option<ConstantIndex>
    ensures { (c : ClassFile) → Holds bytes.now offsets.now c → result ≡ option_and_then class_index (constant_at c index) }
{
    owner_at(bytes, place_at(offsets, index)?)
}

/// Returns the `class_index` of the reference to a field or method that begins at a place (JVMS 4.4.2).
#[tactic(auto, unfolding(crate::specs::inside::ConstantRead::constant_read))]
fn owner_at(bytes: &[u8], place: usize) -> Option<ConstantIndex>
    ensures { result ≡ option_and_then class_index (constant_read place bytes.now) }
{
    let mut cursor = Cursor::new(bytes);
    cursor.take(place)?;
    match ConstantKind::of_tag(cursor.u1()?)? {
        ConstantKind::Fieldref | ConstantKind::Methodref | ConstantKind::InterfaceMethodref => {
            Some(read_pair(&mut cursor)?.0)
        }
        _ => None,
    }
}

/// Returns the `name_and_type_index` of the reference to a field or method, or of the `InvokeDynamic`, at an index. A
/// constant of another kind is not read.
pub(crate) fn name_and_type_index(
    bytes: &[u8],
    offsets: &[Option<usize>],
    index: ConstantIndex,
) -> Option<ConstantIndex>
    ensures { (c : ClassFile) → Holds bytes.now offsets.now c → result ≡ option_and_then name_and_type_index (constant_at c index) }
{
    signature_at(bytes, place_at(offsets, index)?)
}

/// Returns the `name_and_type_index` of the reference to a field or method, or of the `InvokeDynamic`, that begins at a
/// place (JVMS 4.4.2, 4.4.10).
#[tactic(auto, unfolding(crate::specs::inside::ConstantRead::constant_read))]
fn signature_at(bytes: &[u8], place: usize) -> Option<ConstantIndex>
    ensures { result ≡ option_and_then name_and_type_index (constant_read place bytes.now) }
{
    let mut cursor = Cursor::new(bytes);
    cursor.take(place)?;
    match ConstantKind::of_tag(cursor.u1()?)? {
        ConstantKind::Fieldref
        | ConstantKind::Methodref
        | ConstantKind::InterfaceMethodref
        | ConstantKind::InvokeDynamic => Some(read_pair(&mut cursor)?.1),
        _ => None,
    }
}

/// Returns the constant that begins at a place.
#[tactic(auto, unfolding(crate::specs::inside::ConstantRead::constant_read))]
fn constant_at(bytes: &[u8], place: usize) -> Option<Constant<'_>>
    ensures { option_map constant_of result ≡ constant_read place bytes.now }
{
    let mut cursor = Cursor::new(bytes);
    cursor.take(place)?;
    let kind = ConstantKind::of_tag(cursor.u1()?)?;
    read_body(kind, &mut cursor)
}

/// Reads the body of a constant of a kind.
fn read_body<'a>(kind: ConstantKind, cursor: &mut Cursor<'a>) -> Option<Constant<'a>>
    ensures { Lends constant_of (after_body kind) (body_value kind) cursor.old result cursor.new }
{
    match kind {
        ConstantKind::Utf8 => Some(Constant::Utf8(read_text(cursor)?)),
        ConstantKind::Integer => Some(Constant::Integer(cursor.u4()?)),
        ConstantKind::Float => Some(Constant::Float(cursor.u4()?)),
        ConstantKind::Long => Some(Constant::Long(read_u8(cursor)?)),
        ConstantKind::Double => Some(Constant::Double(read_u8(cursor)?)),
        ConstantKind::Class => Some(Constant::Class(read_index(cursor)?)),
        ConstantKind::String => Some(Constant::String(read_index(cursor)?)),
        ConstantKind::MethodType => Some(Constant::MethodType(read_index(cursor)?)),
        ConstantKind::Fieldref => {
            let (class, name_and_type) = read_pair(cursor)?;
            Some(Constant::Fieldref(class, name_and_type))
        }
        ConstantKind::Methodref => {
            let (class, name_and_type) = read_pair(cursor)?;
            Some(Constant::Methodref(class, name_and_type))
        }
        ConstantKind::InterfaceMethodref => {
            let (class, name_and_type) = read_pair(cursor)?;
            Some(Constant::InterfaceMethodref(class, name_and_type))
        }
        ConstantKind::NameAndType => {
            let (name, descriptor) = read_pair(cursor)?;
            Some(Constant::NameAndType(name, descriptor))
        }
        ConstantKind::MethodHandle => read_method_handle(cursor),
        ConstantKind::InvokeDynamic => read_invoke_dynamic(cursor),
    }
}

/// Reads a text after its two bytes of length.
fn read_text<'a>(cursor: &mut Cursor<'a>) -> Option<&'a [u8]>
    ensures { Lends (λ text. text.now) (after_sized 2) (sized_value 2) cursor.old result cursor.new }
{
    let length = cursor.u2()?;
    cursor.take(length as usize)
}

/// Reads an index of the constant pool.
pub fn read_index(cursor: &mut Cursor) -> Option<ConstantIndex>
    ensures { Lends (λ index. index) (after 2) index_value cursor.old result cursor.new }
{
    Some(ConstantIndex(cursor.u2()?))
}

/// Returns the index of the constant pool in the two bytes at a position.
pub fn index_at(bytes: &[u8], at: usize) -> ConstantIndex
    requires { at + 2 ≤ length bytes.now }
    ensures { result ≡ index_value (drop at bytes.now) }
{
    ConstantIndex(BigEndian::read_u16(&bytes[at..]))
}

/// Reads a number of eight bytes, as two halves (JVMS 4.4.5).
fn read_u8(cursor: &mut Cursor) -> Option<u64>
    ensures { Lends (λ bits. bits) (after 8) (big_number 8) cursor.old result cursor.new }
{
    let high = cursor.u4()?;
    let low = cursor.u4()?;
    Some(u64::from(high) * (1 << 32) + u64::from(low))
}

pub(crate) fn read_pair(cursor: &mut Cursor) -> Option<(ConstantIndex, ConstantIndex)>
    ensures { Lends (λ pair. pair) (after 4) (λ xs. (index_value xs, index_value (drop 2 xs))) cursor.old result cursor.new }
{
    let first = read_index(cursor)?;
    let second = read_index(cursor)?;
    Some((first, second))
}

fn read_method_handle<'a>(cursor: &mut Cursor<'a>) -> Option<Constant<'a>>
    ensures { Lends constant_of (after_body kinds.MethodHandle) (body_value kinds.MethodHandle) cursor.old result cursor.new }
{
    let kind = cursor.u1()?;
    let reference = read_index(cursor)?;
    Some(Constant::MethodHandle(kind, reference))
}

fn read_invoke_dynamic<'a>(cursor: &mut Cursor<'a>) -> Option<Constant<'a>>
    ensures { Lends constant_of (after_body kinds.InvokeDynamic) (body_value kinds.InvokeDynamic) cursor.old result cursor.new }
{
    let bootstrap = cursor.u2()?;
    let name_and_type = read_index(cursor)?;
    Some(Constant::InvokeDynamic(bootstrap, name_and_type))
}
