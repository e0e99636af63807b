//! A line for each instruction.

ghost use Rattle.std.specs.Prelude.{◌≡◌, ◌++◌, codes};
ghost use Rattle.jc_text.specs.Sends.{Sends};
ghost use Rattle.jc_list.specs.Texts.{index_with_reference, index_text, reference_text};
ghost use Rattle.jc_list.specs.InsnLines.{blank_decimal, blank_signed, insn_line, insn_lines, operands_text, switch_lines, wide_text};

use crate::switches::{
    write_case_lines, write_lookup_switch, write_table_switch, write_target_lines,
};
use crate::texts::{
    write_index, write_index_with_reference, write_number, write_number_behind, write_reference,
};
use jc_base::Output;
use jc_code::Insn;
use jc_text::TextWriter;
use jc_view::{ClassView, ConstantIndex};

/// Writes the instruction at a place, and the targets of a switch.
pub(crate) fn write_insn_lines<W: Output>(
    out: &mut TextWriter<'_, W>,
    class: &ClassView,
    place: u32,
    insn: &Insn,
)
    ensures { Sends W.written W.failures out.old out.new (insn_lines class.now (place, insn.now)) }
{
    write_insn_line(out, class, place, insn);
    write_switch_lines(out, insn);
}

fn write_insn_line<W: Output>(
    out: &mut TextWriter<'_, W>,
    class: &ClassView,
    place: u32,
    insn: &Insn,
)
    ensures { Sends W.written W.failures out.old out.new (insn_line class.now place insn.now) }
{
    write_number_behind(out, b"    ", place);
    out.text(b": ");
    out.text(wide(insn));
    out.text(insn.mnemonic().as_bytes());
    write_operands(out, class, insn);
    out.text(b"\n");
}

/// Returns the text before the mnemonic.
fn wide(insn: &Insn) -> &'static [u8]
    ensures { result.now ≡ wide_text insn.now }
{
    match insn {
        Insn::Local { wide: true, .. } | Insn::Increment { wide: true, .. } => b"wide ",
        _ => b"",
    }
}

/// Writes the operands, each after a space.
fn write_operands<W: Output>(out: &mut TextWriter<'_, W>, class: &ClassView, insn: &Insn)
    ensures { Sends W.written W.failures out.old out.new (operands_text class.now insn.now) }
{
    match insn {
        Insn::Plain { .. } => {}
        Insn::Push { value, .. } => write_number(out, *value),
        Insn::Local { index, .. } => write_number(out, *index),
        Insn::Increment { index, amount, .. } => write_increment(out, *index, *amount),
        Insn::Branch { target, .. } => write_number(out, *target),
        Insn::TableSwitch(switch) => write_table_switch(out, switch),
        Insn::LookupSwitch(switch) => write_lookup_switch(out, switch),
        Insn::Ldc { index, .. }
        | Insn::Field { index, .. }
        | Insn::Invoke { index, .. }
        | Insn::InvokeDynamic { index, .. }
        | Insn::Type { index, .. } => write_entry(out, class, *index),
        Insn::InvokeInterface { index, count, .. }
        | Insn::MultiNewArray {
            index,
            dimensions: count,
        } => write_counted_entry(out, class, *index, *count),
        Insn::NewArray { element } => write_number(out, *element),
    }
}

fn write_increment<W: Output>(out: &mut TextWriter<'_, W>, index: u16, amount: i16)
    ensures { Sends W.written W.failures out.old out.new (blank_decimal index ++ blank_signed amount) }
{
    write_number(out, index);
    write_number(out, amount);
}

/// Writes an index, and what its constant refers to.
fn write_entry<W: Output>(out: &mut TextWriter<'_, W>, class: &ClassView, index: ConstantIndex)
    ensures { Sends W.written W.failures out.old out.new (codes " " ++ index_with_reference class.now index) }
{
    out.text(b" ");
    write_index_with_reference(out, class, index);
}

/// Writes an index, a number, and what the constant of the index refers to.
fn write_counted_entry<W: Output>(
    out: &mut TextWriter<'_, W>,
    class: &ClassView,
    index: ConstantIndex,
    count: u8,
)
    ensures { Sends W.written W.failures out.old out.new
        (codes " " ++ index_text index ++ blank_decimal count ++ reference_text class.now index) }
{
    out.text(b" ");
    write_index(out, index);
    write_number(out, count);
    write_reference(out, class, index);
}

/// Writes the targets of a switch, a line for each.
fn write_switch_lines<W: Output>(out: &mut TextWriter<'_, W>, insn: &Insn)
    ensures { Sends W.written W.failures out.old out.new (switch_lines insn.now) }
{
    match insn {
        Insn::TableSwitch(switch) => write_target_lines(out, switch),
        Insn::LookupSwitch(switch) => write_case_lines(out, switch),
        _ => {}
    }
}
