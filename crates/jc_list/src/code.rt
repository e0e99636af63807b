//! A method's code: its instructions, its exception handlers and its own attributes.

ghost use Rattle.std.specs.Prelude.{◌++◌, codes, decimal};
ghost use Rattle.std.specs.List.{flat_map};
ghost use Rattle.jc_text.specs.Sends.{Sends};
ghost use Rattle.jc_view.specs.Lent.{handler_of};
ghost use Rattle.jc_code.specs.InsnReading.{insns_of};
ghost use Rattle.jc_list.specs.AttributeLines.{catch_text, code_line, cut_line, handler_line};
ghost use Rattle.jc_list.specs.InsnLines.{insn_lines};

use crate::insns::write_insn_lines;
use crate::texts::{write_index_with_reference, write_number, write_number_behind};
use jc_base::Output;
use jc_code::Insns;
use jc_text::TextWriter;
use jc_view::{ClassView, Code, ConstantIndex, ExceptionHandler};

/// Writes the sizes of the code.
pub(crate) fn write_code_line<W: Output>(out: &mut TextWriter<'_, W>, code: &Code)
    ensures { Sends W.written W.failures out.old out.new (code_line code.now.code) }
{
    write_number_behind(out, b"  code stack ", code.max_stack());
    write_number_behind(out, b" locals ", code.max_locals());
    write_number_behind(out, b" length ", code.bytes().len());
    out.text(b"\n");
}

/// Writes the instructions, and where they end if that is before the end of the code.
pub(crate) fn write_all_insn_lines<W: Output>(out: &mut TextWriter<'_, W>, code: &Code)
    ensures { Sends W.written W.failures out.old out.new
        (flat_map (insn_lines code.now.class) (insns_of code.now.code.code) ++ cut_line code.now.code) }
{
    let bytes = code.bytes();
    let mut insns = Insns::new(bytes);
    while let Some((place, insn)) = insns.next() {
        write_insn_lines(out, code.class(), place, &insn);
    }
    let end = insns.rest() as usize;
    if end != bytes.len() {
        write_cut_line(out, end);
    }
}

fn write_cut_line<W: Output>(out: &mut TextWriter<'_, W>, end: usize)
    ensures { Sends W.written W.failures out.old out.new (codes "    cut " ++ decimal end ++ codes "\n") }
{
    write_number_behind(out, b"    cut ", end);
    out.text(b"\n");
}

/// Writes the exception handlers, in the order of their table.
pub(crate) fn write_handler_lines<W: Output>(out: &mut TextWriter<'_, W>, code: &Code)
    ensures { Sends W.written W.failures out.old out.new (flat_map (handler_line code.now.class) code.now.code.handlers) }
{
    for handler in code.handlers() {
        write_handler_line(out, code.class(), handler);
    }
}

fn write_handler_line<W: Output>(
    out: &mut TextWriter<'_, W>,
    class: &ClassView,
    handler: ExceptionHandler,
)
    ensures { Sends W.written W.failures out.old out.new (handler_line class.now (handler_of handler)) }
{
    write_number_behind(out, b"    catch ", handler.start_pc);
    write_number(out, handler.end_pc);
    write_number(out, handler.handler_pc);
    out.text(b" ");
    write_catch(out, class, handler.catch_type);
    out.text(b"\n");
}

/// Writes what a handler catches.
fn write_catch<W: Output>(out: &mut TextWriter<'_, W>, class: &ClassView, index: ConstantIndex)
    ensures { Sends W.written W.failures out.old out.new (catch_text class.now index) }
{
    if index.0 == 0 {
        out.text(b"any");
    } else {
        write_index_with_reference(out, class, index);
    }
}
