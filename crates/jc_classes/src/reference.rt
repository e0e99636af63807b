//! Symbolic references (JVMS 5.1).

ghost use Rattle.std.specs.Prelude.{◌≡◌};
ghost use Rattle.std.specs.Option.{option_copied};
ghost use Rattle.jc_classes.specs.Parts.{class_of};
ghost use Rattle.jc_classes.specs.Worlds.{is_array};
ghost use Rattle.jc_classes.specs.NamedTexts.{class_in_descriptor, named_by, without_dimensions};

use crate::member::Key;

/// The kind of a symbolic reference.
#[derive(Clone, Copy, PartialEq, Eq, PartialOrd, Ord)]
pub enum ReferenceKind {
    Class,
    Field,
    Method,
    InterfaceMethod,
}

/// A symbolic reference of a class file.
#[derive(Clone, Copy)]
pub struct Reference<'a> {
    /// The index of its constant.
    pub index: u16,
    pub kind: ReferenceKind,
    /// The text of the `Class` constant: the name of a class, or the descriptor of an array (JVMS 4.4.1).
    pub class: &'a [u8],
    /// The name and the descriptor of the member. Both are empty in a reference to a class.
    pub key: Key<'a>,
}

impl<'a> Reference<'a> {
    /// Returns whether the reference names an array.
    pub fn is_array(self) -> bool
        ensures { result ≡ is_array (named_by self.entry.class.now) }
    {
        is_array(self.class)
    }

    /// Returns the class that the reference names; for an array, the class that is its element type (JVMS 2.4). Returns
    /// `None` if the element type is primitive.
    pub fn class_name(self) -> Option<&'a [u8]>
        ensures { option_copied result ≡ class_of (named_by self.entry.class.now) }
    {
        class_named(self.class)
    }
}

/// Returns whether the text of a `Class` constant names an array.
fn is_array(text: &[u8]) -> bool
    ensures { result ≡ is_array (named_by text.now) }
{
    text.first() == Some(&b'[')
}

/// Returns the class that the text of a `Class` constant names; for an array, the class that is its element type.
/// Returns `None` if the element type is primitive.
pub(crate) fn class_named(text: &[u8]) -> Option<&[u8]>
    ensures { option_copied result ≡ class_of (named_by text.now) }
{
    if is_array(text) {
        class_in_descriptor(without_dimensions(text))
    } else {
        Some(text)
    }
}

/// Returns a descriptor without the `[` in front.
pub(crate) fn without_dimensions(descriptor: &[u8]) -> &[u8]
    ensures { result.now ≡ without_dimensions descriptor.now }
{
    let mut rest = descriptor;
    while let Some((b'[', behind)) = rest.split_first() {
        rest = behind;
    }
    rest
}

/// Returns the class between the `L` at the front and the last byte of a descriptor, if there are both.
pub(crate) fn class_in_descriptor(descriptor: &[u8]) -> Option<&[u8]>
    ensures { option_copied result ≡ class_in_descriptor descriptor.now }
{
    let (b'L', behind) = descriptor.split_first()? else {
        return None;
    };
    let (_, name) = behind.split_last()?;
    Some(name)
}
