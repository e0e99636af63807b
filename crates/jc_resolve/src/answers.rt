//! The answer to a reference of a class.

ghost use Rattle.std.specs.Prelude.{◌<◌};
ghost use Rattle.jc_resolve.specs.inside.Looks.{size_of, TellsClass, TellsNode};
ghost use Rattle.jc_resolve.specs.inside.Resolved.{IsWithinAll};

use crate::entry::Entry;
use crate::look::Look;
use crate::resolve::NamedNode;
use jc_classes::{LinkageError, Member};
use jc_numbered::{Load, can_see};

/// The answer to a reference, with borrowed texts.
#[derive(Clone, Copy)]
pub enum Answer<'a> {
    /// The reference resolves to this class, with its access flags, or to this array, with the flags 0.
    ToClass(&'a [u8], u16),
    /// The reference resolves to this field or method. The text is the name of the class that declares it.
    ToMember(&'a [u8], Member<'a>),
    /// The answer depends on this outside name.
    Outside(&'a [u8]),
    /// The class that has the reference does not load.
    NotLoaded,
    /// The reference does not resolve. The text is the name of the class at fault, or the text of the array.
    Error(LinkageError, &'a [u8]),
}

/// The kind of an answer, without its texts.
#[derive(Clone, Copy)]
pub enum AnswerKind {
    /// The reference resolves to a class or a member.
    Found,
    /// The answer depends on an outside name.
    Outside,
    /// The class that has the reference does not load.
    NotLoaded,
    /// The reference does not resolve.
    Error(LinkageError),
}

/// What an answer finds, by its access flags.
#[derive(Clone, Copy)]
pub(crate) enum Found {
    /// A class, or an array, which has the flags 0.
    Class(u16),
    /// A field or a method.
    Member(u16),
}

impl<'l, 'c, 't> Look<'l, 'c, 't> {
    /// Returns the answer to a reference to the class of a node with these flags, or to an array of it.
    fn node_entry(&self, node: usize, flags: u16) -> Entry<usize>
        requires { node < size_of self.now }
        ensures { TellsNode self.now node flags result }
    {
        match self.loads[node] {
            Load::Loaded => {
                if can_see(self.classes, self.class, node) {
                    Entry::ToClass(flags)
                } else {
                    Entry::Error(LinkageError::IllegalAccess, node)
                }
            }
            Load::Outside => Entry::Outside(node),
            Load::Fails(error, about) => Entry::Error(error, about),
        }
    }

    /// Returns the answer to a reference to a class (JVMS 5.4.3.1).
    pub(crate) fn class_entry(&self, named: NamedNode) -> Entry<usize>
        requires { IsWithinAll (size_of self.now) named }
        ensures { TellsClass self.now named result }
    {
        match named {
            NamedNode::Class(node) => self.node_entry(node, self.classes.flags(node)),
            NamedNode::Array(element) => match element {
                Some(node) => self.node_entry(node, 0),
                None => Entry::ToClass(0),
            },
        }
    }
}
