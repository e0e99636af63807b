//! A readable class file as a borrowed view (JVMS 4.1).

ghost use Rattle.std.specs.Prelude.{◌≡◌, ◌⊎◌, ◌+◌, ◌<◌, ◌^◌, ℕ, List, length, option_and_then, IfOk, IfErr, IfSome, IfNone};
ghost use Rattle.jc_view.specs.declared.parse_error.ParseError.TheVariants.{NoMemory};
ghost use Rattle.std.specs.Option.{option_copied, option_map};
ghost use Rattle.jc_view.specs.ClassFile.{ClassFile, all_slots, class_text_at, constant_at};
ghost use Rattle.jc_view.specs.ConstantPool.{class_name_index, kind_of};
ghost use Rattle.jc_view.specs.Lookups.{is_entry, member_descriptor_at, member_name_at, name_and_type_at, class_index, name_and_type_index, utf8_at};
ghost use Rattle.jc_view.specs.Places.{fields_in, methods_in, attributes_in, IsLent};
ghost use Rattle.jc_view.specs.Lent.{constant_of};
ghost use Rattle.jc_view.specs.inside.ConstantPlaces.{Holds, IsNamedAt};
ghost use Rattle.jc_view.specs.Outcome.{AreBytes};
ghost use Rattle.jc_view.specs.Refusal.{HasHead, IsLayoutOf, IsNamed, IsNameless, IsReadable, IsRefusal};

use crate::attribute_kind::Holder;
use crate::attributes::Attributes;
use crate::constant_pool::{Constant, ConstantIndex, ConstantKind};
use crate::constant_reader::{
    class_name_index, entry, kind_entry, name_and_type_entry, name_and_type_index, owner_entry,
    text_entry,
};
use crate::indexes::Indexes;
use crate::interfaces::Interfaces;
use crate::layout_reader::{ClassNumbers, ClassTables, skip_class};
use crate::members::Members;
use crate::parse_error::ParseError;
use jc_base::{Cursor, is_class_name};
use std::alloc::Global;
use std::marker::Model;

/// The version of the format of a class file (JVMS 4.1).
#[derive(Clone, Copy)]
pub struct Version {
    pub major: u16,
    pub minor: u16,
}

/// A readable class file. The texts that it returns are slices of the file.
///
/// For example (`crates/jc_rows/src/class_answers.rt`):
///
/// ```
/// match parse(alloc, bytes) {
///     Ok(view) => {
///         out.text(b"class ");
///         out.path(view.name());
///     }
///     Err(refusal) => write_refusal(out, refusal),
/// }
/// ```
#[derive(Drop)]
pub struct ClassView<'a> {
    bytes: &'a [u8],
    offsets: Vec<Option<usize>>,
    tail: usize,
    version: Version,
    numbers: ClassNumbers,
    tables: ClassTables<'a>,
    name: &'a [u8],
}

impl<'a> Model for ClassView<'a> {
    ghost use Rattle.std.specs.Option.{option_copied, option_map};
    ghost use Rattle.jc_view.specs.ClassFile.{ClassFile, class_text_at, constant_at};
    ghost use Rattle.jc_view.specs.Lent.{constant_of};

    ghost Value = { ClassFile };

    ghost use Rattle.jc_view.specs.inside.ClassView.{class_shown, IsViewed};

    ghost view = { class_shown };

    ghost invariant = { IsViewed };
}

impl<'a> ClassView<'a> {
    /// Returns the bytes of the whole file.
    pub fn bytes(&self) -> &'a [u8]
        ensures layout { IsLayoutOf self.now result.now }
        ensures numbers { AreBytes result.now }
    {
        self.bytes
    }

    /// Returns the name of the class, in its internal form (JVMS 4.2.1).
    pub fn name(&self) -> &'a [u8]
        ensures named { IsNamed self.now result.now }
        // The name is the part of the file at the place of its constant.
        ensures lent { (named : IsNamed self.now result.now) → IsLent self.now named.entry result.now }
    {
        self.name
    }

    /// Returns the access flags of the class, including bits that have no meaning (JVMS 4.1).
    pub fn flags(&self) -> u16
        ensures { result ≡ self.now.flags }
    {
        self.numbers.flags
    }

    /// Returns the index of the `Class` constant of the class itself.
    pub fn this_class(&self) -> ConstantIndex
        ensures { result ≡ self.now.this_class }
    {
        self.numbers.this_class
    }

    /// Returns `super_class`: the index of the `Class` constant of the superclass, or 0 (JVMS 4.1). The index is not
    /// checked.
    pub fn super_class(&self) -> ConstantIndex
        ensures { result ≡ self.now.super_class }
    {
        self.numbers.super_class
    }

    /// Returns the text of the `Class` constant at `super_class`, or `None` if there is none. For example,
    /// `super_class` is 0 in `java/lang/Object`.
    pub fn super_name(&self) -> Option<&'a [u8]>
        ensures { option_copied result ≡ class_text_at self.now self.now.super_class }
    {
        self.class_text(self.numbers.super_class)
    }

    /// Returns the version of the format: 51 with any minor version, or 52.0.
    pub fn version(&self) -> Version
        ensures major { result.major ≡ self.now.major }
        ensures minor { result.minor ≡ self.now.minor }
    {
        self.version
    }

    /// Returns `constant_pool_count`: the number of indexes that the constants take, plus one (JVMS 4.1).
    pub fn constant_count(&self) -> u16
        ensures { result ≡ 1 + all_slots self.now.constants }
    {
        self.offsets.as_slice().len() as u16
    }

    /// Returns the names of the direct superinterfaces, in file order. The iterator yields for each index what
    /// [`ClassView::class_text`] returns.
    pub fn interfaces(&self) -> Interfaces<'_, 'a>
        ensures left { result ≡ record { class = self.now; left = self.now.interfaces } }
        ensures few { length self.now.interfaces < 2 ^ 16 }
    {
        Interfaces {
            class: self,
            table: self.tables.interfaces.fork(),
        }
    }

    /// Returns the indexes of the `Class` constants of the direct superinterfaces, in file order. The indexes are not
    /// checked.
    pub fn interface_indexes(&self) -> Indexes<'a>
        ensures left { result ≡ self.now.interfaces }
        ensures few { length self.now.interfaces < 2 ^ 16 }
    {
        Indexes {
            table: self.tables.interfaces.fork(),
        }
    }

    /// Returns the fields, in file order (JVMS 4.5).
    pub fn fields(&self) -> Members<'_, 'a>
        ensures left { result ≡ record { class = self.now; left = fields_in self.now } }
        ensures few { length self.now.fields < 2 ^ 16 }
        ensures all { length result.left ≡ length self.now.fields }
    {
        Members {
            class: self,
            holder: Holder::Field,
            table: self.tables.fields.fork(),
        }
    }

    /// Returns the methods, including constructors and initializers, in file order (JVMS 4.6).
    pub fn methods(&self) -> Members<'_, 'a>
        ensures left { result ≡ record { class = self.now; left = methods_in self.now } }
        ensures few { length self.now.methods < 2 ^ 16 }
        ensures all { length result.left ≡ length self.now.methods }
    {
        Members {
            class: self,
            holder: Holder::Method,
            table: self.tables.methods.fork(),
        }
    }

    /// Returns the attributes of the class itself.
    pub fn attributes(&self) -> Attributes<'_, 'a>
        ensures left { result ≡ record { class = self.now; left = attributes_in self.now } }
        ensures few { length self.now.attributes < 2 ^ 16 }
    {
        Attributes {
            class: self,
            holder: Holder::Class,
            table: self.tables.attributes.fork(),
        }
    }

    /// Returns the text of the `Utf8` constant at an index, or `None` if there is no such constant. The text may not be
    /// modified UTF-8.
    pub fn utf8(&self, index: ConstantIndex) -> Option<&'a [u8]>
        ensures { option_copied result ≡ utf8_at self.now index }
    {
        text_entry(self.bytes, &self.offsets, index)
    }

    /// Returns the text of the `Class` constant at an index. Returns `None` if there is no such constant or if it does
    /// not name a `Utf8` constant.
    pub fn class_text(&self, index: ConstantIndex) -> Option<&'a [u8]>
        ensures { option_copied result ≡ class_text_at self.now index }
    {
        class_text(self.bytes, &self.offsets, index)
    }

    /// Returns the `name_index` of the `Class` constant at an index, or `None` if there is no such constant.
    pub fn class_name_index(&self, index: ConstantIndex) -> Option<ConstantIndex>
        ensures { result ≡ option_and_then class_name_index (constant_at self.now index) }
    {
        class_name_index(self.bytes, &self.offsets, index)
    }

    /// Returns the indexes of the name and of the descriptor in the `NameAndType` at an index, or `None` if there is no
    /// such constant.
    pub fn name_and_type(&self, index: ConstantIndex) -> Option<(ConstantIndex, ConstantIndex)>
        ensures { result ≡ name_and_type_at self.now index }
    {
        name_and_type_entry(self.bytes, &self.offsets, index)
    }

    /// Returns the `class_index` of the `Fieldref`, `Methodref` or `InterfaceMethodref` at an index, or `None` if there
    /// is no such constant.
    pub fn class_index(&self, index: ConstantIndex) -> Option<ConstantIndex>
        ensures { result ≡ option_and_then class_index (constant_at self.now index) }
    {
        owner_entry(self.bytes, &self.offsets, index)
    }

    /// Returns the `name_and_type_index` of the constant at an index. Returns `None` if there is no `Fieldref`,
    /// `Methodref`, `InterfaceMethodref` or `InvokeDynamic` at the index.
    pub fn name_and_type_index(&self, index: ConstantIndex) -> Option<ConstantIndex>
        ensures { result ≡ option_and_then name_and_type_index (constant_at self.now index) }
    {
        name_and_type_index(self.bytes, &self.offsets, index)
    }

    /// Returns the name in the `NameAndType` at an index. Returns `None` if there is no such `NameAndType` or if it
    /// does not name a `Utf8` constant.
    pub fn member_name_at(&self, index: ConstantIndex) -> Option<&'a [u8]>
        ensures { option_copied result ≡ member_name_at self.now index }
    {
        let (name, _) = self.name_and_type(index)?;
        self.utf8(name)
    }

    /// Returns the descriptor in the `NameAndType` at an index. Returns `None` if there is no such `NameAndType` or if
    /// it does not name a `Utf8` constant.
    pub fn member_descriptor_at(&self, index: ConstantIndex) -> Option<&'a [u8]>
        ensures { option_copied result ≡ member_descriptor_at self.now index }
    {
        let (_, descriptor) = self.name_and_type(index)?;
        self.utf8(descriptor)
    }

    /// Returns the kind of the constant at an index, or `None` if [`ClassView::constant`] returns `None`. Reads only
    /// the tag.
    pub fn kind(&self, index: ConstantIndex) -> Option<ConstantKind>
        ensures { result ≡ option_map kind_of (constant_at self.now index) }
    {
        kind_entry(self.bytes, &self.offsets, index)
    }

    /// Returns whether there is a constant of this kind at an index.
    pub fn is_entry(&self, kind: ConstantKind, index: ConstantIndex) -> bool
        ensures { result ≡ is_entry self.now kind index }
    {
        self.kind(index)
            .is_some_and(|found| found.tag() == kind.tag())
    }

    /// Returns the constant at an index. Returns `None` for 0, for an index after the last, and for the second index of
    /// a `Long` or a `Double` (JVMS 4.4.5).
    pub fn constant(&self, index: u16) -> Option<Constant<'a>>
        ensures { option_map constant_of result ≡ constant_at self.now (record { 0 = index }) }
    {
        entry(self.bytes, &self.offsets, ConstantIndex(index))
    }
}

/// Parses a class file. Reads the bytes in one pass, and copies none of them.
///
/// If the bytes are not a readable class file, returns the first refusal that applies. Returns `NoMemory` only when an
/// allocation fails, which is possible only after the version and `constant_pool_count` are read.
pub fn parse<'a>(alloc: Global, bytes: &'a [u8]) -> Result<ClassView<'a>, ParseError>
    ensures ok { IfOk result (λ view. IsLayoutOf view bytes.now) }
    ensures named { IfOk result (λ view. (name : List ℕ) × IsNamed view name) }
    ensures refused { IfErr result (λ e. (e ≡ NoMemory) ⊎ IsRefusal bytes.now e) }
    ensures readable { IsReadable bytes.now → IfErr result (λ e. e ≡ NoMemory) }
    ensures memory { IfErr result (λ e. e ≡ NoMemory → HasHead bytes.now) }
{
    let mut cursor = Cursor::new(bytes);
    let parts = skip_class(alloc, &mut cursor)?;
    let Some(name) = class_name(bytes, &parts.offsets, parts.numbers.this_class) else {
        return Err(ParseError::NoName);
    };
    Ok(ClassView {
        bytes,
        offsets: parts.offsets,
        tail: parts.tail,
        version: parts.version,
        numbers: parts.numbers,
        tables: parts.tables,
        name,
    })
}

/// Returns the text of the `Class` constant at an index.
fn class_text<'a>(
    bytes: &'a [u8],
    offsets: &[Option<usize>],
    index: ConstantIndex,
) -> Option<&'a [u8]>
    ensures { (c : ClassFile) → Holds bytes.now offsets.now c → option_copied result ≡ class_text_at c index }
{
    text_entry(bytes, offsets, class_name_index(bytes, offsets, index)?)
}

/// Returns the text of the `Class` constant at an index, if it is the name of a class.
fn class_name<'a>(
    bytes: &'a [u8],
    offsets: &[Option<usize>],
    index: ConstantIndex,
) -> Option<&'a [u8]>
    ensures some { (c : ClassFile) → IsNamedAt c bytes.now offsets.now index → IfSome result (λ name. IsNamed c name.now) }
    ensures none { (c : ClassFile) → IsNamedAt c bytes.now offsets.now index → IfNone result (IsNameless c) }
{
    let name = class_text(bytes, offsets, index)?;
    if is_class_name(name) {
        Some(name)
    } else {
        None
    }
}
