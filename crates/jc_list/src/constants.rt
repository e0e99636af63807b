//! A line for each constant.

ghost use Rattle.std.specs.Prelude.{◌++◌, codes, decimal};
ghost use Rattle.jc_text.specs.Sends.{Sends};
ghost use Rattle.jc_view.specs.Lent.{constant_of};
ghost use Rattle.jc_text.specs.Numbers.{hexadecimal};
ghost use Rattle.jc_list.specs.Texts.{index_text};
ghost use Rattle.jc_list.specs.ConstantLines.{constant_line, constant_lines, constant_text, line_at, pair_text};

use crate::texts::{write_index, write_number_behind};
use jc_base::Output;
use jc_text::TextWriter;
use jc_view::{ClassView, Constant, ConstantIndex};

/// Writes the constants, in the order of their indexes.
pub(crate) fn write_constant_lines<W: Output>(out: &mut TextWriter<'_, W>, class: &ClassView)
    ensures { Sends W.written W.failures out.old out.new (constant_lines class.now) }
{
    for index in 1..class.constant_count() {
        write_line_at(out, class, index);
    }
}

/// Writes the line of an index. An index that is not usable has none.
fn write_line_at<W: Output>(out: &mut TextWriter<'_, W>, class: &ClassView, index: u16)
    ensures { Sends W.written W.failures out.old out.new (line_at class.now index) }
{
    if let Some(constant) = class.constant(index) {
        write_constant_line(out, index, constant);
    }
}

fn write_constant_line<W: Output>(out: &mut TextWriter<'_, W>, index: u16, constant: Constant)
    ensures { Sends W.written W.failures out.old out.new (constant_line index (constant_of constant.entry)) }
{
    write_number_behind(out, b"  #", index);
    out.text(b" ");
    out.text(constant.kind().name().as_bytes());
    out.text(b" ");
    write_constant(out, constant);
    out.text(b"\n");
}

/// Writes the value of a constant.
fn write_constant<W: Output>(out: &mut TextWriter<'_, W>, constant: Constant)
    ensures { Sends W.written W.failures out.old out.new (constant_text (constant_of constant.entry)) }
{
    match constant {
        Constant::Utf8(text) => out.shown(text),
        Constant::Integer(bits) => out.decimal(bits.cast_signed()),
        Constant::Float(bits) => write_bits(out, &bits.to_be_bytes()),
        Constant::Long(bits) => out.decimal(bits.cast_signed()),
        Constant::Double(bits) => write_bits(out, &bits.to_be_bytes()),
        Constant::Class(index) | Constant::String(index) | Constant::MethodType(index) => {
            write_index(out, index)
        }
        Constant::Fieldref(first, second)
        | Constant::Methodref(first, second)
        | Constant::InterfaceMethodref(first, second)
        | Constant::NameAndType(first, second) => write_pair(out, first, second),
        Constant::MethodHandle(kind, index) => write_numbered(out, u16::from(kind), index),
        Constant::InvokeDynamic(bootstrap, index) => write_numbered(out, bootstrap, index),
    }
}

/// Writes the bits of a floating point number.
fn write_bits<W: Output>(out: &mut TextWriter<'_, W>, bytes: &[u8])
    ensures { Sends W.written W.failures out.old out.new (codes "0x" ++ hexadecimal bytes.now) }
{
    out.text(b"0x");
    out.hexadecimal(bytes);
}

fn write_pair<W: Output>(out: &mut TextWriter<'_, W>, first: ConstantIndex, second: ConstantIndex)
    ensures { Sends W.written W.failures out.old out.new (pair_text first second) }
{
    write_index(out, first);
    out.text(b" ");
    write_index(out, second);
}

fn write_numbered<W: Output>(out: &mut TextWriter<'_, W>, number: u16, index: ConstantIndex)
    ensures { Sends W.written W.failures out.old out.new (decimal number ++ codes " " ++ index_text index) }
{
    out.decimal(number);
    out.text(b" ");
    write_index(out, index);
}
