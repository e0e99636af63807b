//! The texts of a class file, and what is known about each. Many constants and members may name the same long text, but
//! no text is read twice for the same question.

ghost use Rattle.std.specs.Prelude.{◌≡◌, IfOk, option_map, slice_get, true};
ghost use Rattle.jc_base.specs.TextTests.{is_class_text, is_method_name_text, is_unqualified_text};
ghost use Rattle.jc_view.specs.declared.constant_pool.ConstantIndex.{ConstantIndex};
ghost use Rattle.jc_view.specs.ClassFile.{ClassFile};
ghost use Rattle.jc_view.specs.Lookups.{passes, utf8_at};
ghost use Rattle.jc_file.specs.inside.Texts.{IsKnown, descriptor_of, fits, is_array, is_field, is_known_text, is_method, is_spelled, returns};

use jc_base::{FieldDesc, MethodDesc, NoMemory, is_class_name, is_method_name, is_unqualified};
use jc_view::{ClassView, ConstantIndex};
use std::alloc::Global;
use std::marker::Model;

/// Which descriptor a text is (JVMS 4.3).
#[derive(Clone, Copy)]
pub(crate) enum Descriptor {
    /// A field descriptor with this number of dimensions.
    Field(u8),
    /// A method descriptor. The parameters take this number of slots, without the receiver.
    Method { slots: u8, returns_value: bool },
    /// The text is not a descriptor.
    Other,
}

impl Descriptor {
    pub(crate) fn is_field(self) -> bool
        ensures { result ≡ is_field self }
    {
        matches!(self, Descriptor::Field(_))
    }

    pub(crate) fn is_array(self) -> bool
        ensures { result ≡ is_array self }
    {
        match self {
            Descriptor::Field(dims) => dims > 0,
            Descriptor::Method { .. } | Descriptor::Other => false,
        }
    }

    pub(crate) fn is_method(self) -> bool
        ensures { result ≡ is_method self }
    {
        matches!(self, Descriptor::Method { .. })
    }

    pub(crate) fn returns_value(self) -> bool
        ensures { result ≡ returns self }
    {
        match self {
            Descriptor::Method { returns_value, .. } => returns_value,
            Descriptor::Field(_) | Descriptor::Other => false,
        }
    }

    /// Returns whether this is a method descriptor whose parameters take at most 255 slots, with the receiver unless
    /// the method is static.
    pub(crate) fn fits(self, is_static: bool) -> bool
        ensures { result ≡ fits is_static self }
    {
        match self {
            Descriptor::Method { slots, .. } => is_static || slots < 255,
            Descriptor::Field(_) | Descriptor::Other => false,
        }
    }
}

/// What is known about a text.
#[derive(Clone, Copy)]
struct Known {
    is_class: Option<bool>,
    is_unqualified: Option<bool>,
    is_method_name: Option<bool>,
    descriptor: Option<Descriptor>,
}

impl Known {
    fn nothing() -> Known
        ensures { (c : ClassFile) (index : ConstantIndex) → IsKnown c index result }
    {
        Known {
            is_class: None,
            is_unqualified: None,
            is_method_name: None,
            descriptor: None,
        }
    }

    /// Returns whether the text is known to be a name or a descriptor. Then it is modified UTF-8.
    fn is_name_or_descriptor(self) -> bool
        ensures { result ≡ is_known_text self }
    {
        matches!(self.is_class, Some(true))
            || matches!(self.is_unqualified, Some(true))
            || matches!(self.is_method_name, Some(true))
            || self.descriptor.is_some_and(|descriptor| descriptor.is_field()
                || descriptor.is_method())
    }
}

/// A class file, and what is known about its texts.
#[derive(Drop)]
pub(crate) struct Texts<'v, 'a> {
    class: &'v ClassView<'a>,
    known: Vec<Known>,
}

impl<'v, 'a> Model for Texts<'v, 'a> {
    ghost use Rattle.jc_view.specs.ClassFile.{ClassFile};

    ghost Value = { ClassFile };

    ghost use Rattle.jc_file.specs.inside.Texts.{AreKnown};

    ghost view = { λ t. t.class.now };

    ghost invariant = { AreKnown };
}

impl<'v, 'a> Texts<'v, 'a> {
    pub(crate) fn new(alloc: Global, class: &'v ClassView<'a>) -> Result<Texts<'v, 'a>, NoMemory>
        ensures { IfOk result (λ texts. texts ≡ class.now) }
    {
        let known = vec![in alloc; Known::nothing(); class.constant_count() as usize]?;
        Ok(Texts { class, known })
    }

    pub(crate) fn class(&self) -> &'v ClassView<'a>
        ensures { result.now ≡ self.now }
    {
        self.class
    }

    /// Returns whether the text at `index` is known to be a name or a descriptor. Then it is modified UTF-8.
    pub(crate) fn is_name_or_descriptor(&self, index: ConstantIndex) -> bool
        ensures { result ≡ true → passes is_spelled (utf8_at self.now index) ≡ true }
    {
        self.known(index).is_name_or_descriptor()
    }

    /// Returns whether the text at `index` is the name of a class or interface (JVMS 4.2.1). Returns `None` if the
    /// index does not name a `Utf8`.
    pub(crate) fn is_class(&mut self, index: ConstantIndex) -> Option<bool>
        ensures same { self.new ≡ self.old }
        ensures answer { result ≡ option_map is_class_text (utf8_at self.old index) }
    {
        let known = self.known(index);
        if known.is_class.is_some() {
            return known.is_class;
        }
        let is_class = Some(is_class_name(self.class.utf8(index)?));
        self.note(index, Known { is_class, ..known });
        is_class
    }

    /// Returns whether the text at `index` is an unqualified name (JVMS 4.2.2). Returns `None` if the index does not
    /// name a `Utf8`.
    pub(crate) fn is_unqualified(&mut self, index: ConstantIndex) -> Option<bool>
        ensures same { self.new ≡ self.old }
        ensures answer { result ≡ option_map is_unqualified_text (utf8_at self.old index) }
    {
        let known = self.known(index);
        if known.is_unqualified.is_some() {
            return known.is_unqualified;
        }
        let is_unqualified = Some(is_unqualified(self.class.utf8(index)?));
        self.note(
            index,
            Known {
                is_unqualified,
                ..known
            },
        );
        is_unqualified
    }

    /// Returns whether the text at `index` is the name of a method (JVMS 4.2.2). Returns `None` if the index does not
    /// name a `Utf8`.
    pub(crate) fn is_method_name(&mut self, index: ConstantIndex) -> Option<bool>
        ensures same { self.new ≡ self.old }
        ensures answer { result ≡ option_map is_method_name_text (utf8_at self.old index) }
    {
        let known = self.known(index);
        if known.is_method_name.is_some() {
            return known.is_method_name;
        }
        let is_method_name = Some(is_method_name(self.class.utf8(index)?));
        self.note(
            index,
            Known {
                is_method_name,
                ..known
            },
        );
        is_method_name
    }

    /// Returns which descriptor the text at `index` is (JVMS 4.3). Returns `None` if the index does not name a `Utf8`.
    pub(crate) fn descriptor(&mut self, index: ConstantIndex) -> Option<Descriptor>
        ensures same { self.new ≡ self.old }
        ensures answer { result ≡ option_map descriptor_of (utf8_at self.old index) }
    {
        let known = self.known(index);
        match known.descriptor {
            Some(descriptor) => Some(descriptor),
            None => self.read_descriptor(index, known),
        }
    }

    /// Reads the text at `index` as a descriptor, and notes the result.
    #[inline(never)]
    fn read_descriptor(&mut self, index: ConstantIndex, known: Known) -> Option<Descriptor>
        requires { IsKnown self.old index known }
        ensures same { self.new ≡ self.old }
        ensures answer { result ≡ option_map descriptor_of (utf8_at self.old index) }
    {
        let descriptor = Some(descriptor_of(self.class.utf8(index)?));
        self.note(
            index,
            Known {
                descriptor,
                ..known
            },
        );
        descriptor
    }

    fn known(&self, index: ConstantIndex) -> Known
        ensures { IsKnown self.now index result }
    {
        match known_at(&self.known, index) {
            Some(known) => known,
            None => Known::nothing(),
        }
    }

    fn note(&mut self, index: ConstantIndex, known: Known)
        requires { IsKnown self.old index known }
        ensures { self.new ≡ self.old }
    {
        let place = index.0 as usize;
        if place < self.known.len() {
            self.known[place] = known;
        }
    }
}

/// Returns what is known about the text at an index.
fn known_at(known: &[Known], index: ConstantIndex) -> Option<Known>
    ensures { result ≡ slice_get known.now index.0 }
{
    Some(*known.get(index.0 as usize)?)
}

fn descriptor_of(text: &[u8]) -> Descriptor
    ensures { result ≡ descriptor_of text.now }
{
    if let Some(field) = FieldDesc::read(text) {
        return Descriptor::Field(field.dims());
    }
    match MethodDesc::read(text) {
        Some(method) => Descriptor::Method {
            slots: method.slots(),
            returns_value: method.result().is_some(),
        },
        None => Descriptor::Other,
    }
}
