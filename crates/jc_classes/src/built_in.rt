//! The facts of the built-in `java/lang/Object`.

ghost use Rattle.std.specs.Prelude.{◌≡◌, map, IfOk};
ghost use Rattle.jc_classes.specs.BuiltIn.{object_facts};

use crate::facts::{Facts, FactsInside, Faults, MemberEntry, no_references};
use crate::member_order::order_members;
use crate::text_list::TextList;
use jc_base::NoMemory;
use std::alloc::Global;
use std::rc::Rc;

/// The name of the class, and the names and descriptors of its methods.
const TEXTS: [&[u8]; 19] = [
    b"java/lang/Object",
    b"<init>",
    b"getClass",
    b"hashCode",
    b"equals",
    b"toString",
    b"notify",
    b"notifyAll",
    b"wait",
    b"clone",
    b"finalize",
    b"()V",
    b"()Ljava/lang/Class;",
    b"()I",
    b"(Ljava/lang/Object;)Z",
    b"()Ljava/lang/String;",
    b"(J)V",
    b"(JI)V",
    b"()Ljava/lang/Object;",
];

/// Expands rows of the numbers of a name and of a descriptor, and flags, to an array of members.
macro_rules! members {
    ($([$name:literal, $descriptor:literal, $flags:literal])*) => {
        [$(MemberEntry { name: $name, descriptor: $descriptor, flags: $flags }),*]
    };
}

/// The methods of the class: PUBLIC ones, and two that are PROTECTED.
const METHODS: [MemberEntry; 12] = members! {
    [1, 11, 0x0001]
    [2, 12, 0x0001]
    [3, 13, 0x0001]
    [4, 14, 0x0001]
    [5, 15, 0x0001]
    [6, 11, 0x0001]
    [7, 11, 0x0001]
    [8, 11, 0x0001]
    [8, 16, 0x0001]
    [8, 17, 0x0001]
    [9, 18, 0x0004]
    [10, 11, 0x0004]
};

impl Facts {
    /// Returns the facts of the built-in `java/lang/Object`.
    ///
    /// Returns `NoMemory` only when an allocation fails.
    pub fn built_in_object(alloc: Global) -> Result<Facts, NoMemory>
        ensures { IfOk result (λ facts. facts ≡ object_facts) }
    {
        let texts = list_of(alloc, &TEXTS)?;
        let methods = Vec::from_slice(alloc, &METHODS)?;
        let method_order = order_members(alloc, &texts, &methods)?;
        let texts_shared = Rc::new(alloc, texts)?;
        let references = no_references(alloc)?;
        Facts::boxed(
            alloc,
            FactsInside {
                path: Vec::new(alloc),
                texts: texts_shared,
                name: 0,
                flags: 0x0001,
                superclass: None,
                interfaces: Vec::new(alloc),
                fields: Vec::new(alloc),
                methods,
                field_order: Vec::new(alloc),
                method_order,
                references,
                uses: Vec::new(alloc),
                users: Vec::new(alloc),
                faults: Faults::shared(alloc, Vec::new(alloc), Vec::new(alloc))?,
            },
        )
    }
}

/// Returns a list of these texts.
fn list_of(alloc: Global, texts: &[&[u8]]) -> Result<TextList, NoMemory>
    ensures { IfOk result (λ list. list ≡ map (λ text. text.now) texts.now) }
{
    let mut list = TextList::new(alloc);
    for text in texts {
        list.push(text)?;
    }
    Ok(list)
}
