//! The facts of a class file, read from its view.

ghost use Rattle.std.specs.Prelude.{◌≡◌, ◌+◌, ◌<◌, ◌^◌, ◌++◌, [], map, option_map, IfOk, OnOk};
ghost use Rattle.std.specs.List.{All, flat_map};
ghost use Rattle.std.specs.Option.{option_map_or, option_to_list};
ghost use Rattle.jc_view.specs.declared.attribute_kind.Holder.TheVariants as holders;
ghost use Rattle.jc_view.specs.ClassFile.{all_slots, class_text_at};
ghost use Rattle.jc_view.specs.Lookups.{utf8_at};
ghost use Rattle.jc_file.specs.Faults.{faults};
ghost use Rattle.jc_code.specs.MethodFaults.{code_faults, numbered_faults};
ghost use Rattle.jc_code.specs.MethodUses.{method_uses, uses};
ghost use Rattle.jc_code.specs.NamedConstants.{named_by_method};
ghost use Rattle.jc_classes.specs.FactsOf.{class_name, class_reference, facts_of, faulty_facts, interfaces_in};
ghost use Rattle.jc_classes.specs.FactsOf.{member_of, member_reference, reference_at, references_in, sound_facts};
ghost use Rattle.jc_classes.specs.UsedConstants.{named_by_methods};
ghost use Rattle.jc_classes.specs.Users.{user_of, uses_constant};
ghost use Rattle.jc_classes.specs.inside.ClassTexts.{Tells};
ghost use Rattle.jc_classes.specs.inside.Entries.{AreEntries};
ghost use Rattle.jc_classes.specs.inside.FirstUsers.{AddsFirst, AreFirst, AreSeen};
ghost use Rattle.jc_classes.specs.inside.Using.{are_marks};
ghost use Rattle.jc_classes.specs.inside.FactsShown.{member_shown, reference_shown, text_at};
ghost use Rattle.jc_classes.specs.inside.ConstantTexts.{is_reference, key_at, key_shown, texts_of};

use crate::class_texts::ClassTexts;
use crate::facts::{Facts, FactsInside, Faults, MemberEntry, ReferenceEntry, no_references};
use crate::first_users::FirstUsers;
use crate::reference::ReferenceKind;
use crate::text_list::TextList;
use crate::used::User;
use crate::users::users;
use jc_base::NoMemory;
use jc_code::{CodeFault, MethodUse, TextSizes, faults_and_uses, method_code};
use jc_file::{Fault, format_faults};
use jc_view::{ClassView, Constant, ConstantIndex, ConstantKind, Member, Members};
use std::alloc::Global;
use std::rc::Rc;

impl Facts {
    /// Returns the facts of a class file at a path.
    ///
    /// Returns `NoMemory` only when an allocation fails.
    pub fn of(alloc: Global, class: &ClassView, path: &[u8]) -> Result<Facts, NoMemory>
        ensures { IfOk result (λ facts. facts ≡ facts_of path.now class.now) }
    {
        let faults = format_faults(alloc, class)?;
        if faults.is_empty() {
            sound_facts(alloc, class, path)
        } else {
            faulty_facts(alloc, class, path, faults)
        }
    }
}

/// The entries of a class file that linking uses, by the numbers of their texts.
#[derive(Drop)]
struct Entries {
    name: u16,
    superclass: Option<u16>,
    interfaces: Vec<u16>,
    fields: Vec<MemberEntry>,
    methods: Vec<MemberEntry>,
    field_order: Vec<u16>,
    method_order: Vec<u16>,
    references: Vec<ReferenceEntry>,
}

/// Returns the facts of a class file without a format fault. Entries are first read by the indexes of their texts. Then
/// these texts are numbered, so that only the texts that linking uses are kept.
fn sound_facts(alloc: Global, class: &ClassView, path: &[u8]) -> Result<Facts, NoMemory>
    ensures { IfOk result (λ facts. facts ≡ sound_facts path.now class.now) }
{
    let path = Vec::from_slice(alloc, path)?;
    let mut texts = ClassTexts::new(alloc, class)?;
    let entries = read_entries(&mut texts, class)?;
    let (uses, users, faults) = code_facts(alloc, class, &entries.references)?;
    let texts_shared = Rc::new(alloc, texts.into_list())?;
    let references = Rc::new(alloc, entries.references)?;
    Facts::boxed(
        alloc,
        FactsInside {
            path,
            texts: texts_shared,
            name: entries.name,
            flags: class.flags(),
            superclass: entries.superclass,
            interfaces: entries.interfaces,
            fields: entries.fields,
            methods: entries.methods,
            field_order: entries.field_order,
            method_order: entries.method_order,
            references,
            uses,
            users,
            faults,
        },
    )
}

/// Reads the code of a class file without a format fault. Returns its uses of references, what uses each of these
/// references, and its faults.
fn code_facts(
    alloc: Global,
    class: &ClassView,
    references: &[ReferenceEntry],
) -> Result<(Vec<MethodUse>, Vec<User>, Option<Rc<Faults>>), NoMemory>
    requires { All (λ entry. entry.index < 1 + all_slots class.now.constants) references.now }
    ensures uses { IfOk result (λ code. code.0.items ≡ uses class.now) }
    ensures users { IfOk result (λ code. code.1.items ≡ map (λ entry. user_of class.now entry.index) references.now) }
    ensures format { IfOk result (λ code. option_map_or (λ f. f.value.format.items) code.2 [] ≡ []) }
    ensures faults { IfOk result (λ code. option_map_or (λ f. f.value.code.items) code.2 [] ≡ code_faults class.now) }
{
    let codes = read_codes(alloc, class)?;
    let users = users(alloc, class, codes.first, references)?;
    let faults = Faults::shared(alloc, Vec::new(alloc), codes.faults)?;
    Ok((codes.uses, users, faults))
}

/// Reads the entries of a class file, and numbers their texts.
fn read_entries(texts: &mut ClassTexts, class: &ClassView) -> Result<Entries, NoMemory>
    requires { texts.old.class ≡ class.now }
    ensures { IfOk result (λ entries. Tells texts.old texts.new (λ numbered. AreEntries class.now numbered entries)) }
{
    let name = texts.number(own_name_index(class))?;
    let superclass = texts.number_of_some(name_index(class, class.super_class()))?;
    let interfaces = texts.interfaces()?;
    let fields = texts.members(class.fields())?;
    let methods = texts.members(class.methods())?;
    let interfaces = texts.once(interfaces)?;
    let field_order = texts.order(&fields)?;
    let method_order = texts.order(&methods)?;
    let references = texts.references()?;
    Ok(Entries {
        name,
        superclass,
        interfaces,
        fields,
        methods,
        field_order,
        method_order,
        references,
    })
}

/// Returns the facts of a class file with format faults.
fn faulty_facts(
    alloc: Global,
    class: &ClassView,
    path: &[u8],
    format_faults: Vec<Fault>,
) -> Result<Facts, NoMemory>
    requires { format_faults.items ≡ faults class.now }
    ensures { IfOk result (λ facts. facts ≡ faulty_facts path.now class.now) }
{
    let path = Vec::from_slice(alloc, path)?;
    let mut texts = TextList::new(alloc);
    texts.push(class.name())?;
    let texts_shared = Rc::new(alloc, texts)?;
    let references = no_references(alloc)?;
    Facts::boxed(
        alloc,
        FactsInside {
            path,
            texts: texts_shared,
            name: 0,
            flags: class.flags(),
            superclass: None,
            interfaces: Vec::new(alloc),
            fields: Vec::new(alloc),
            methods: Vec::new(alloc),
            field_order: Vec::new(alloc),
            method_order: Vec::new(alloc),
            references,
            uses: Vec::new(alloc),
            users: Vec::new(alloc),
            faults: Faults::shared(alloc, format_faults, Vec::new(alloc))?,
        },
    )
}

/// Appends an entry, if there is one.
pub(crate) fn push_some<T: Drop>(entries: &mut Vec<T>, entry: Option<T>) -> Result<(), NoMemory>
    ensures { OnOk result (entries.new.items ≡ entries.old.items ++ option_to_list entry) }
{
    if let Some(entry) = entry {
        entries.push(entry)?;
    }
    Ok(())
}

/// Returns the index of the class's own name.
fn own_name_index(class: &ClassView) -> u16
    ensures { text_at (texts_of class.now) result ≡ class_name class.now }
{
    match name_index(class, class.this_class()) {
        Some(name) => name,
        None => 0,
    }
}

/// Returns the index of the text of a Class constant.
pub(crate) fn name_index(class: &ClassView, index: ConstantIndex) -> Option<u16>
    ensures { option_map (text_at (texts_of class.now)) result ≡ class_text_at class.now index }
{
    text_index(class, class.class_name_index(index)?)
}

/// Returns the index, if a Utf8 constant has it.
fn text_index(class: &ClassView, index: ConstantIndex) -> Option<u16>
    ensures { option_map (text_at (texts_of class.now)) result ≡ utf8_at class.now index }
{
    if class.is_entry(ConstantKind::Utf8, index) {
        Some(index.0)
    } else {
        None
    }
}

/// Returns the indexes of the texts of a NameAndType.
fn name_and_type(class: &ClassView, index: ConstantIndex) -> Option<(u16, u16)>
    ensures { option_map (key_shown (texts_of class.now)) result ≡ key_at class.now index }
{
    let (name, descriptor) = class.name_and_type(index)?;
    let name = text_index(class, name)?;
    let descriptor = text_index(class, descriptor)?;
    Some((name, descriptor))
}

/// Returns a field or a method, if its name and its descriptor are Utf8 constants.
pub(crate) fn member_entry(class: &ClassView, member: &Member) -> Option<MemberEntry>
    ensures { option_map (member_shown (texts_of class.now)) result ≡ member_of class.now member.now.member.member }
{
    let name = text_index(class, member.name_index())?;
    let descriptor = text_index(class, member.descriptor_index())?;
    Some(MemberEntry {
        name,
        descriptor,
        flags: member.flags(),
    })
}

/// Returns the reference that the constant at an index represents.
pub(crate) fn reference_entry(class: &ClassView, index: u16) -> Option<ReferenceEntry>
    ensures { option_map (reference_shown (texts_of class.now)) result ≡ reference_at class.now index }
{
    if !is_reference(class.kind(ConstantIndex(index))?) {
        return None;
    }
    match class.constant(index)? {
        Constant::Class(name) => class_reference(class, index, name),
        Constant::Fieldref(class_index, entry) => {
            member_reference(class, index, ReferenceKind::Field, class_index, entry)
        }
        Constant::Methodref(class_index, entry) => {
            member_reference(class, index, ReferenceKind::Method, class_index, entry)
        }
        Constant::InterfaceMethodref(class_index, entry) => {
            member_reference(
                class,
                index,
                ReferenceKind::InterfaceMethod,
                class_index,
                entry,
            )
        }
        _ => None,
    }
}

/// Returns whether constants of a kind are references to classes or to members (JVMS 4.4.1, 4.4.2).
fn is_reference(kind: ConstantKind) -> bool
    ensures { result ≡ is_reference kind }
{
    matches!(
        kind,
        ConstantKind::Class
            | ConstantKind::Fieldref
            | ConstantKind::Methodref
            | ConstantKind::InterfaceMethodref
    )
}

/// Returns a reference to a class.
fn class_reference(class: &ClassView, index: u16, name: ConstantIndex) -> Option<ReferenceEntry>
    ensures { option_map (reference_shown (texts_of class.now)) result ≡ class_reference class.now index name }
{
    let text = text_index(class, name)?;
    Some(ReferenceEntry {
        index,
        kind: ReferenceKind::Class,
        class: text,
        name: 0,
        descriptor: 0,
    })
}

/// Returns a reference to a member.
fn member_reference(
    class: &ClassView,
    index: u16,
    kind: ReferenceKind,
    class_index: ConstantIndex,
    entry: ConstantIndex,
) -> Option<ReferenceEntry>
    ensures { option_map (reference_shown (texts_of class.now)) result ≡ member_reference class.now index kind class_index entry }
{
    let text = name_index(class, class_index)?;
    let (name, descriptor) = name_and_type(class, entry)?;
    Some(ReferenceEntry {
        index,
        kind,
        class: text,
        name,
        descriptor,
    })
}

/// The faults, uses and named constants of the code of all methods.
#[derive(Drop)]
struct Codes {
    /// The faults, each with the number of its method.
    faults: Vec<(usize, CodeFault)>,
    /// The uses of references by the instructions of methods without a fault.
    uses: Vec<MethodUse>,
    /// The constants that are named. A constant may occur several times.
    names: Vec<ConstantIndex>,
    /// The first method whose code uses each constant.
    first: FirstUsers,
}

/// Reads the code of all methods of a class file.
fn read_codes(alloc: Global, class: &ClassView) -> Result<Codes, NoMemory>
    ensures faults { IfOk result (λ codes. codes.faults.items ≡ code_faults class.now) }
    ensures uses { IfOk result (λ codes. codes.uses.items ≡ uses class.now) }
    ensures marks { IfOk result (λ codes. codes.first.seen.items ≡ are_marks class.now (named_by_methods class.now)) }
    ensures first { IfOk result (λ codes. AreFirst class.now codes.first.numbers.items) }
{
    read_methods(alloc, &TextSizes::of(alloc, class)?)
}

/// Reads the code of all methods, given the sizes of the class's texts.
fn read_methods(alloc: Global, sizes: &TextSizes) -> Result<Codes, NoMemory>
    ensures faults { IfOk result (λ codes. codes.faults.items ≡ code_faults sizes.now) }
    ensures uses { IfOk result (λ codes. codes.uses.items ≡ uses sizes.now) }
    ensures marks { IfOk result (λ codes. codes.first.seen.items ≡ are_marks sizes.now (named_by_methods sizes.now)) }
    ensures first { IfOk result (λ codes. AreFirst sizes.now codes.first.numbers.items) }
{
    let first = FirstUsers::new(alloc, sizes.class())?;
    let mut codes = Codes {
        faults: Vec::new(alloc),
        uses: Vec::new(alloc),
        names: Vec::new(alloc),
        first,
    };
    for (number, method) in sizes.class().methods().enumerate() {
        read_method(alloc, &mut codes, sizes, &method, number)?;
    }
    codes.uses.shrink_to_fit();
    Ok(codes)
}

/// Adds the findings of a method's code. The method becomes the first user of the constants that no earlier method
/// uses.
fn read_method(
    alloc: Global,
    codes: &mut Codes,
    sizes: &TextSizes,
    method: &Member,
    number: usize,
) -> Result<(), NoMemory>
    requires class { method.now.class ≡ sizes.now }
    requires holder { method.now.member.holder ≡ holders.Method }
    requires few { number < 2 ^ 16 }
    requires seen { AreSeen sizes.now codes.old.first }
    requires marks { codes.old.first.seen.items ≡ are_marks sizes.now codes.old.names.items }
    ensures faults { OnOk result (codes.new.faults.items
        ≡ codes.old.faults.items ++ numbered_faults sizes.now number method.now.member.member) }
    ensures uses { OnOk result (codes.new.uses.items ≡ codes.old.uses.items ++ method_uses sizes.now number method.now.member.member) }
    ensures names { OnOk result (codes.new.names.items ≡ codes.old.names.items ++ named_by_method sizes.now method.now.member.member) }
    ensures seen { OnOk result (AreSeen sizes.now codes.new.first) }
    ensures marks { OnOk result (codes.new.first.seen.items ≡ are_marks sizes.now codes.new.names.items) }
    ensures first { OnOk result (AddsFirst (λ i. uses_constant sizes.now i method.now.member.member) number codes.old.first codes.new.first) }
{
    let before = codes.names.len();
    read_code(alloc, codes, sizes, method, number)?;
    let names = &codes.names[before..];
    codes.first.add(sizes.class(), names, number as u16);
    Ok(())
}

/// Adds the faults of the code of a method, its uses of references, and the constants that it names.
fn read_code(
    alloc: Global,
    codes: &mut Codes,
    sizes: &TextSizes,
    method: &Member,
    number: usize,
) -> Result<(), NoMemory>
    requires class { method.now.class ≡ sizes.now }
    requires holder { method.now.member.holder ≡ holders.Method }
    requires few { number < 2 ^ 16 }
    ensures faults { OnOk result (codes.new.faults.items
        ≡ codes.old.faults.items ++ numbered_faults sizes.now number method.now.member.member) }
    ensures uses { OnOk result (codes.new.uses.items ≡ codes.old.uses.items ++ method_uses sizes.now number method.now.member.member) }
    ensures names { OnOk result (codes.new.names.items ≡ codes.old.names.items ++ named_by_method sizes.now method.now.member.member) }
    ensures first { OnOk result (codes.new.first ≡ codes.old.first) }
{
    let Some(code) = method_code(method) else {
        return Ok(());
    };
    let (uses, names) = (&mut codes.uses, &mut codes.names);
    let faults = faults_and_uses(alloc, sizes, &code, number as u16, uses, names)?;
    add_numbered(&mut codes.faults, number, &faults)
}

/// Appends faults, each with the number of its method.
fn add_numbered(
    numbered: &mut Vec<(usize, CodeFault)>,
    number: usize,
    faults: &[CodeFault],
) -> Result<(), NoMemory>
    ensures { OnOk result (numbered.new.items ≡ numbered.old.items ++ map (λ fault. (number, fault)) faults.now) }
{
    for fault in faults {
        numbered.push((number, *fault))?;
    }
    Ok(())
}
