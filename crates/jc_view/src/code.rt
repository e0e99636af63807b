//! The code of a method, and its exception handlers (JVMS 4.7.3).

ghost use Rattle.std.specs.Prelude.{◌≡◌, ◌+◌, ◌<◌, ◌^◌, length, IfSome};
ghost use Rattle.std.specs.Option.{option_map};
ghost use Rattle.jc_base.specs.Cursor.{Reading};
ghost use Rattle.jc_view.specs.Reading.{after, after_attribute};
ghost use Rattle.jc_view.specs.Attributes.{Code, Handler, code_front, code_attributes};
ghost use Rattle.jc_view.specs.AttributeReading.{code_in, after_code, after_instructions, code_value, after_handlers, handler_value};
ghost use Rattle.jc_view.specs.Moves.{Lends};
ghost use Rattle.jc_view.specs.inside.Tables.{LendsTable};
ghost use Rattle.jc_view.specs.inside.Entries.{body_code, instructions, instructions_value, IsCodeBody};
ghost use Rattle.jc_view.specs.Lent.{handler_of};

use crate::attribute_kind::Holder;
use crate::attributes::{AttributeEntry, Attributes};
use crate::constant_pool::ConstantIndex;
use crate::constant_reader::read_index;
use crate::entries::Entries;
use crate::layout_reader::skip_attributes;
use crate::view::ClassView;
use jc_base::Cursor;
use std::marker::Model;

/// A well-formed `Code` attribute of a method (JVMS 4.7.3): its code has 1 to 65,535 bytes, and its parts take all
/// bytes of its `info`.
#[derive(Drop)]
pub struct Code<'v, 'a> {
    pub(crate) class: &'v ClassView<'a>,
    pub(crate) holder: Holder,
    pub(crate) entry: AttributeEntry<'a>,
    pub(crate) body: CodeBody<'a>,
}

/// The parts of the `info` of a `Code` attribute.
#[derive(Drop)]
pub(crate) struct CodeBody<'a> {
    instructions: Instructions<'a>,
    handlers: Entries<'a>,
    attributes: Entries<'a>,
}

/// The instructions, with the sizes of the operand stack and of the local variables.
#[derive(Clone, Copy)]
struct Instructions<'a> {
    max_stack: u16,
    max_locals: u16,
    bytes: &'a [u8],
}

impl<'v, 'a> Model for Code<'v, 'a> {
    ghost use Rattle.jc_view.specs.Lent.{LentCode};

    ghost Value = { LentCode };

    ghost use Rattle.std.specs.Prelude.{◌+◌};
    ghost use Rattle.jc_view.specs.inside.Entries.{placed_attribute, body_code, IsCodeBody};

    ghost view = { λ a. record { class = a.class.now; attribute = placed_attribute a.holder a.entry; code = body_code a.body } };

    ghost invariant = { λ a. IsCodeBody (a.entry.place + 6) a.body };
}

impl<'v, 'a> Code<'v, 'a> {
    /// Returns the class that the code is part of.
    pub fn class(&self) -> &'v ClassView<'a>
        ensures { result.now ≡ self.now.class }
    {
        self.class
    }

    /// Returns the maximum depth of the operand stack. A `long` or a `double` counts as two.
    pub fn max_stack(&self) -> u16
        ensures { result ≡ self.now.code.max_stack }
    {
        self.body.instructions.max_stack
    }

    /// Returns the number of local variables. A `long` or a `double` counts as two.
    pub fn max_locals(&self) -> u16
        ensures { result ≡ self.now.code.max_locals }
    {
        self.body.instructions.max_locals
    }

    /// Returns the array of instructions, which has 1 to 65,535 bytes.
    pub fn bytes(&self) -> &'a [u8]
        ensures part { result.now ≡ self.now.code.code }
        ensures some { 0 < length result.now }
        ensures few { length result.now < 2 ^ 16 }
    {
        self.body.instructions.bytes
    }

    /// Returns the exception table, in the order in which the handlers are searched (JVMS 2.10).
    pub fn handlers(&self) -> Handlers<'a>
        ensures left { result ≡ self.now.code.handlers }
        ensures few { length self.now.code.handlers < 2 ^ 16 }
    {
        Handlers {
            table: self.body.handlers.fork(),
        }
    }

    /// Returns the attributes of the code, in file order. No kind of attribute is recognised in a `Code`, so
    /// `Attribute::kind` returns `None` for each.
    pub fn attributes(&self) -> Attributes<'v, 'a>
        ensures { result ≡ record { class = self.now.class; left = code_attributes self.now.attribute self.now.code } }
    {
        Attributes {
            class: self.class,
            holder: Holder::Code,
            table: self.body.attributes.fork(),
        }
    }
}

/// An exception handler (JVMS 4.7.3). It begins at `handler_pc` and handles exceptions that instructions from
/// `start_pc` to before `end_pc` throw. These are offsets from the start of the code. It catches exceptions of the
/// class `catch_type`, or all exceptions if `catch_type` is 0.
#[derive(Clone, Copy)]
pub struct ExceptionHandler {
    pub start_pc: u16,
    pub end_pc: u16,
    pub handler_pc: u16,
    pub catch_type: ConstantIndex,
}

/// An iterator over exception handlers, in the order of their table. Its model is the list of those that are left.
#[derive(Drop)]
pub struct Handlers<'a> {
    table: Entries<'a>,
}

impl<'a> Model for Handlers<'a> {
    ghost use Rattle.std.specs.Prelude.{List};
    ghost use Rattle.jc_view.specs.Attributes.{Handler};

    ghost Value = { List Handler };

    ghost use Rattle.jc_view.specs.Reading.{after};
    ghost use Rattle.jc_view.specs.AttributeReading.{handler_value};
    ghost use Rattle.jc_view.specs.inside.Tables.{entries, IsWhole};

    ghost view = { λ a. entries (after 8) handler_value a.table };

    ghost invariant = { λ a. IsWhole (after 8) a.table };
}

impl<'a> Iterator for Handlers<'a> {
    ghost use Rattle.std.specs.Iterator.{YieldsFirstBy, item_count};
    ghost use Rattle.jc_view.specs.Lent.{handler_of};

    type Item = ExceptionHandler;

    ghost next_gives = { YieldsFirstBy handler_of (λ left. left) };

    ghost remaining = { item_count (λ left. left) };

    fn next(&mut self) -> Option<ExceptionHandler> {
        self.table.left = self.table.left.checked_sub(1)?;
        let handler = read_handler(&mut self.table.cursor)?;
        Some(handler)
    }
}

fn read_handler(cursor: &mut Cursor) -> Option<ExceptionHandler>
    ensures { Lends handler_of (after 8) handler_value cursor.old result cursor.new }
{
    let start_pc = cursor.u2()?;
    let end_pc = cursor.u2()?;
    let handler_pc = cursor.u2()?;
    let catch_type = read_index(cursor)?;
    Some(ExceptionHandler {
        start_pc,
        end_pc,
        handler_pc,
        catch_type,
    })
}

/// Reads a well-formed `Code`, which must take all bytes that are left.
pub(crate) fn read_code<'a>(body: &Cursor<'a>) -> Option<CodeBody<'a>>
    ensures code { option_map body_code result ≡ code_in body.now.rest }
    ensures body { IfSome result (IsCodeBody body.now.place) }
{
    let mut cursor = body.fork();
    let code = read_front(&mut cursor)?;
    if cursor.has_left() {
        return None;
    }
    Some(code)
}

/// Reads the well-formed `Code` at the cursor.
#[tactic(auto, unfolding(crate::specs::AttributeReading::after_code))]
fn read_front<'a>(cursor: &mut Cursor<'a>) -> Option<CodeBody<'a>>
    ensures code { Lends body_code after_code code_value cursor.old result cursor.new }
    ensures body { IfSome result (IsCodeBody cursor.old.place) }
{
    let instructions = read_instructions(cursor)?;
    let handlers = skip_handlers(cursor)?;
    let attributes = skip_attributes(cursor)?;
    Some(CodeBody {
        instructions,
        handlers,
        attributes,
    })
}

/// Reads the parts before the exception table. The code has 1 to 65,535 bytes (JVMS 4.7.3).
fn read_instructions<'a>(cursor: &mut Cursor<'a>) -> Option<Instructions<'a>>
    ensures { Lends instructions after_instructions instructions_value cursor.old result cursor.new }
{
    let max_stack = cursor.u2()?;
    let max_locals = cursor.u2()?;
    let length = cursor.u4()?;
    if length == 0 || length >= 1 << 16 {
        return None;
    }
    let bytes = cursor.take(length as usize)?;
    Some(Instructions {
        max_stack,
        max_locals,
        bytes,
    })
}

fn skip_handlers<'a>(cursor: &mut Cursor<'a>) -> Option<Entries<'a>>
    ensures { LendsTable after_handlers cursor.old result cursor.new }
{
    let count = cursor.u2()?;
    let first = cursor.fork();
    cursor.take(8 * count as usize)?;
    Some(Entries {
        left: count,
        cursor: first,
    })
}
