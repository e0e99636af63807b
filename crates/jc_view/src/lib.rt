//! Class files of versions 51 and 52 as borrowed views (JVMS 4.1 to 4.7).
//!
//! [`parse`] decides whether bytes are a readable class file. It returns a [`ClassView`], or a [`ParseError`] that says
//! why the bytes are refused. A view, its [`Member`]s, [`Attribute`]s and [`Code`] refer to slices of the file and copy
//! none of its bytes.
//!
//! The contract of `parse` is exact. It returns a view only if the bytes are the layout of a class file, and otherwise
//! the first refusal that applies, or `NoMemory`. The contracts of the accessors refer to that class file, which is
//! plain data.
#![tactic(auto)]

mod attribute_kind;
mod attributes;
mod code;
mod constant_pool;
mod constant_reader;
mod entries;
mod indexes;
mod interfaces;
mod laws;
mod layout_reader;
mod members;
mod parse_error;
mod view;

pub use attribute_kind::{AttributeKind, Holder};
pub use attributes::{Attribute, Attributes};
pub use code::{Code, ExceptionHandler, Handlers};
pub use constant_pool::{Constant, ConstantIndex, ConstantKind};
pub use constant_reader::{index_at, read_index};
pub use indexes::{Indexes, read_indexes};
pub use interfaces::Interfaces;
pub use laws::{
    attributes_are_read, layouts_are_apart, outcomes_are_exact, parsing_examples,
    texts_lie_in_the_layout,
};
pub use members::{Member, Members};
pub use parse_error::ParseError;
pub use view::{ClassView, Version, parse};
