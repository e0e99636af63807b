//! The facts of a class file.

ghost use Rattle.std.specs.Prelude.{◌≡◌, [], length, option_map, slice_get, IfOk};
ghost use Rattle.std.specs.Option.{option_copied, option_map_or};
ghost use Rattle.jc_classes.specs.Facts.{is_faulty};
ghost use Rattle.jc_classes.specs.FactsOrder.{AreByIndex, AreByPlace};
ghost use Rattle.jc_classes.specs.Lent.{member_lent, reference_lent};
ghost use Rattle.jc_classes.specs.MemberOrder.{IsOrder};
ghost use Rattle.jc_classes.specs.inside.FactsShown.{facts_shown, reference_shown};
ghost use Rattle.jc_classes.specs.inside.Ordered.{AreOrdered};

use crate::member::{Key, Member};
use crate::reference::{Reference, ReferenceKind};
use crate::references::References;
use crate::text_list::TextList;
use crate::used::User;
use jc_base::NoMemory;
use jc_code::{CodeFault, MethodUse};
use jc_file::Fault;
use std::alloc::Global;
use std::marker::Model;
use std::rc::Rc;

/// The facts of a class file: the data that linking uses. They are its path, name, flags and supertypes, the members
/// that it declares, its references and their uses, and its faults. If the file has a format fault, they are only its
/// path, name, flags and format faults.
#[derive(Drop)]
pub struct Facts {
    pub(crate) inside: Box<FactsInside>,
}

/// The fields of `Facts`. They are on the heap, so that facts are moved as one pointer.
#[derive(Drop)]
pub(crate) struct FactsInside {
    pub(crate) path: Vec<u8>,
    /// Names and descriptors, shared with `References`. The fields below refer to them by number.
    pub(crate) texts: Rc<TextList>,
    pub(crate) name: u16,
    pub(crate) flags: u16,
    pub(crate) superclass: Option<u16>,
    pub(crate) interfaces: Vec<u16>,
    pub(crate) fields: Vec<MemberEntry>,
    pub(crate) methods: Vec<MemberEntry>,
    /// The numbers of the fields for look-up, sorted by name and then by descriptor. Ties keep file order.
    pub(crate) field_order: Vec<u16>,
    /// The numbers of the methods, in the same order.
    pub(crate) method_order: Vec<u16>,
    pub(crate) references: Rc<Vec<ReferenceEntry>>,
    pub(crate) uses: Vec<MethodUse>,
    /// What uses each reference, in the order of the references.
    pub(crate) users: Vec<User>,
    /// The faults, if there are any.
    pub(crate) faults: Option<Rc<Faults>>,
}

/// The faults of a class file.
#[derive(Drop)]
pub struct Faults {
    /// The format faults, by rule and then by place.
    pub format: Vec<Fault>,
    /// The faults of methods' code, each with the number of the method.
    pub code: Vec<(usize, CodeFault)>,
}

/// A field or a method. In `Facts`, `name` and `descriptor` are numbers of texts in `Facts::texts`. While a class file
/// is read, they are first the indexes of its Utf8 constants.
#[derive(Clone, Copy)]
pub(crate) struct MemberEntry {
    pub(crate) name: u16,
    pub(crate) descriptor: u16,
    pub(crate) flags: u16,
}

/// A reference, and the index of its constant. `class`, `name` and `descriptor` refer to texts in the same two ways as
/// in a `MemberEntry`. In a reference to a class, `name` and `descriptor` refer to the empty text.
#[derive(Clone, Copy, PartialEq, Eq)]
pub(crate) struct ReferenceEntry {
    pub(crate) index: u16,
    pub(crate) kind: ReferenceKind,
    pub(crate) class: u16,
    pub(crate) name: u16,
    pub(crate) descriptor: u16,
}

impl Faults {
    /// Puts faults into an `Rc`, so that they can be shared. Returns `None` if there are no faults.
    pub(crate) fn shared(
        alloc: Global,
        format: Vec<Fault>,
        code: Vec<(usize, CodeFault)>,
    ) -> Result<Option<Rc<Faults>>, NoMemory>
        ensures format { IfOk result (λ faults. option_map_or (λ f. f.value.format.items) faults [] ≡ format.items) }
        ensures code { IfOk result (λ faults. option_map_or (λ f. f.value.code.items) faults [] ≡ code.items) }
    {
        if format.is_empty() && code.is_empty() {
            return Ok(None);
        }
        Ok(Some(Rc::new(alloc, Faults { format, code })?))
    }
}

/// Returns an empty list of references in an `Rc`.
pub(crate) fn no_references(alloc: Global) -> Result<Rc<Vec<ReferenceEntry>>, NoMemory>
    ensures { IfOk result (λ references. references.value.items ≡ []) }
{
    Ok(Rc::new(alloc, Vec::new(alloc))?)
}

impl Model for Facts {
    ghost use Rattle.jc_classes.specs.Facts as specs;

    ghost Value = { specs.Facts };

    ghost use Rattle.jc_classes.specs.inside.FactsShown.{facts_shown};
    ghost use Rattle.jc_classes.specs.inside.Ordered.{AreOrdered};

    ghost view = { λ a. facts_shown a.inside.value };

    ghost invariant = { λ a. AreOrdered a.inside.value };
}

impl Facts {
    /// Returns facts with these fields.
    pub(crate) fn boxed(alloc: Global, inside: FactsInside) -> Result<Facts, NoMemory>
        requires { AreOrdered inside }
        ensures { IfOk result (λ facts. facts ≡ facts_shown inside) }
    {
        Ok(Facts {
            inside: Box::new(alloc, inside)?,
        })
    }

    /// Returns the path of the file; it is empty for the built-in `java/lang/Object`.
    pub fn path(&self) -> &[u8]
        ensures { result.now ≡ self.now.path }
    {
        self.inside.path.as_slice()
    }

    /// Returns the name of the class.
    pub fn name(&self) -> &[u8]
        ensures { result.now ≡ self.now.name }
    {
        self.inside.texts.as_ref().text(self.inside.name as usize)
    }

    /// Returns the access flags of the class (JVMS 4.1).
    pub fn flags(&self) -> u16
        ensures { result ≡ self.now.flags }
    {
        self.inside.flags
    }

    /// Returns whether the file has a format fault.
    pub fn is_faulty(&self) -> bool
        ensures { result ≡ is_faulty self.now }
    {
        !self.format_faults().is_empty()
    }

    /// Returns the format faults, by rule and then by place.
    pub fn format_faults(&self) -> &[Fault]
        ensures { result.now ≡ self.now.format_faults }
    {
        match &self.inside.faults {
            Some(faults) => faults.as_ref().format.as_slice(),
            None => &[],
        }
    }

    /// Returns the faults of the methods' code, each with the number of the method.
    pub fn code_faults(&self) -> &[(usize, CodeFault)]
        ensures { result.now ≡ self.now.code_faults }
    {
        match &self.inside.faults {
            Some(faults) => faults.as_ref().code.as_slice(),
            None => &[],
        }
    }

    /// Returns the name of the superclass. `java/lang/Object` and a file with a format fault have none.
    pub fn superclass(&self) -> Option<&[u8]>
        ensures { option_copied result ≡ self.now.superclass }
    {
        match self.inside.superclass {
            Some(name) => Some(self.inside.texts.as_ref().text(name as usize)),
            None => None,
        }
    }

    /// Returns the name of the direct superinterface at `number`, from 0 in file order. Each name is listed once.
    pub fn interface(&self, number: usize) -> Option<&[u8]>
        ensures { option_copied result ≡ slice_get self.now.interfaces number }
    {
        match self.inside.interfaces.get(number) {
            Some(name) => Some(self.inside.texts.as_ref().text(*name as usize)),
            None => None,
        }
    }

    /// Returns the number of direct superinterfaces.
    pub fn interface_count(&self) -> usize
        ensures { result ≡ length self.now.interfaces }
    {
        self.inside.interfaces.len()
    }

    /// Returns the field at `number`, from 0 in file order.
    pub fn own_field(&self, number: usize) -> Option<Member<'_>>
        ensures { option_map member_lent result ≡ slice_get self.now.fields number }
    {
        match self.inside.fields.get(number) {
            Some(entry) => Some(entry.lend(self.inside.texts.as_ref())),
            None => None,
        }
    }

    /// Returns the number of fields that the class declares.
    pub fn field_count(&self) -> usize
        ensures { result ≡ length self.now.fields }
    {
        self.inside.fields.len()
    }

    /// Returns the numbers of the fields, sorted by name and then by descriptor. Ties keep file order.
    pub fn field_order(&self) -> &[u16]
        ensures { IsOrder self.now.fields result.now }
    {
        self.inside.field_order.as_slice()
    }

    /// Returns the method at `number`, from 0 in file order.
    pub fn own_method(&self, number: usize) -> Option<Member<'_>>
        ensures { option_map member_lent result ≡ slice_get self.now.methods number }
    {
        match self.inside.methods.get(number) {
            Some(entry) => Some(entry.lend(self.inside.texts.as_ref())),
            None => None,
        }
    }

    /// Returns the number of methods that the class declares.
    pub fn method_count(&self) -> usize
        ensures { result ≡ length self.now.methods }
    {
        self.inside.methods.len()
    }

    /// Returns the numbers of the methods, sorted by name and then by descriptor. Ties keep file order.
    pub fn method_order(&self) -> &[u16]
        ensures { IsOrder self.now.methods result.now }
    {
        self.inside.method_order.as_slice()
    }

    /// Returns the reference at `number`. References are numbered from 0, in ascending order of the indexes of their
    /// constants.
    pub fn reference(&self, number: usize) -> Option<Reference<'_>>
        ensures { option_map reference_lent result ≡ slice_get self.now.references number }
    {
        match self.inside.references.as_ref().get(number) {
            Some(entry) => Some(entry.lend(self.inside.texts.as_ref())),
            None => None,
        }
    }

    /// Returns the number of references.
    pub fn reference_count(&self) -> usize
        ensures { result ≡ length self.now.references }
    {
        self.inside.references.as_ref().len()
    }

    /// Returns the instructions that may fail to link although their references resolve (JVMS 6.5), sorted by method
    /// and then by offset. Covers only methods with exactly one well-formed `Code` that has no fault.
    pub fn uses(&self) -> &[MethodUse]
        ensures { result.now ≡ self.now.uses }
    {
        self.inside.uses.as_slice()
    }

    /// Returns what uses the reference at `number`: the first method whose code uses it, something else, or nothing.
    /// Does not allocate.
    ///
    /// Code uses a reference if an instruction or an exception handler names it. Code uses a reference to a class also
    /// if it names a reference to a member of this class. Method handles, arguments of bootstrap methods, and
    /// descriptors that code resolves also use references (JVMS 5.4.3.3, 5.4.3.5, 5.4.3.6).
    pub fn user(&self, number: usize) -> Option<User>
        ensures { result ≡ slice_get self.now.users number }
    {
        self.inside.users.get(number).copied()
    }

    /// States in its contract that references are sorted by index, and uses by method and then by offset. Has no
    /// effect.
    pub fn are_in_order(&self)
        ensures references { AreByIndex self.now.references }
        ensures uses { AreByPlace self.now.uses }
    {
        let _uses = self.inside.uses.as_slice();
    }

    /// Returns the references. They share their texts with the facts, and may outlive them.
    ///
    /// Returns `NoMemory` only when the strong count of an `Rc` would overflow.
    pub fn shared_references(&self) -> Result<References, NoMemory>
        ensures { IfOk result (λ references. references ≡ self.now.references) }
    {
        Ok(References {
            texts: self.inside.texts.clone()?,
            entries: self.inside.references.clone()?,
        })
    }

    /// Returns the faults, shared with the facts, or `None` if there are none.
    ///
    /// Returns `NoMemory` only when the strong count of the `Rc` would overflow.
    pub fn shared_faults(&self) -> Result<Option<Rc<Faults>>, NoMemory>
        ensures format { IfOk result (λ faults. option_map_or (λ f. f.value.format.items) faults [] ≡ self.now.format_faults) }
        ensures code { IfOk result (λ faults. option_map_or (λ f. f.value.code.items) faults [] ≡ self.now.code_faults) }
    {
        match &self.inside.faults {
            Some(faults) => Ok(Some(faults.clone()?)),
            None => Ok(None),
        }
    }
}

impl ReferenceEntry {
    /// Returns the reference with the texts to which its numbers refer.
    pub(crate) fn lend(self, texts: &TextList) -> Reference<'_>
        ensures { reference_lent result ≡ reference_shown texts.now self }
    {
        Reference {
            index: self.index,
            kind: self.kind,
            class: texts.text(self.class as usize),
            key: Key {
                name: texts.text(self.name as usize),
                descriptor: texts.text(self.descriptor as usize),
            },
        }
    }
}
