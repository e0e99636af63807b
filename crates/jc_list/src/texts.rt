//! Texts that several lines show.

ghost use Rattle.std.specs.Prelude.{◌≡◌, ◌++◌, [], codes, decimal};
ghost use Rattle.std.specs.Option.{option_copied};
ghost use Rattle.jc_text.specs.Sends.{Sends};
ghost use Rattle.jc_view.specs.Lookups.{utf8_at};
ghost use Rattle.jc_view.specs.Lent.{constant_of};
ghost use Rattle.jc_list.specs.Texts.{flag_text, flags_text, index_text, index_with_reference};
ghost use Rattle.jc_list.specs.Texts.{member_reference, reference_of, reference_text, shown_text};

use itoa::Integer;
use jc_base::Output;
use jc_file::AccessFlag;
use jc_text::TextWriter;
use jc_view::{ClassView, Constant, ConstantIndex};

/// Writes a text, or `?` if it is missing.
pub(crate) fn write_text<W: Output>(out: &mut TextWriter<'_, W>, text: Option<&[u8]>)
    ensures { Sends W.written W.failures out.old out.new (shown_text (option_copied text.entry)) }
{
    match text {
        Some(text) => out.shown(text),
        None => out.text(b"?"),
    }
}

/// Writes a word and a text, or `?` if the text is missing.
pub(crate) fn write_text_behind<W: Output>(
    out: &mut TextWriter<'_, W>,
    word: &[u8],
    text: Option<&[u8]>,
)
    ensures { Sends W.written W.failures out.old out.new (word.now ++ shown_text (option_copied text.entry)) }
{
    out.text(word);
    write_text(out, text);
}

/// Writes the index of a constant.
pub(crate) fn write_index<W: Output>(out: &mut TextWriter<'_, W>, index: ConstantIndex)
    ensures { Sends W.written W.failures out.old out.new (index_text index) }
{
    out.text(b"#");
    out.decimal(index.0);
}

/// Writes a space and a number.
pub(crate) fn write_number<W: Output, I: Integer>(out: &mut TextWriter<'_, W>, number: I)
    ensures { Sends W.written W.failures out.old out.new (codes " " ++ I.text number) }
{
    write_number_behind(out, b" ", number);
}

/// Writes a word and a number.
pub(crate) fn write_number_behind<W: Output, I: Integer>(
    out: &mut TextWriter<'_, W>,
    word: &[u8],
    number: I,
)
    ensures { Sends W.written W.failures out.old out.new (word.now ++ I.text number) }
{
    out.text(word);
    out.decimal(number);
}

/// Writes all bits of the access flags, and the names of the flags that are set and have a meaning.
pub(crate) fn write_flags<W: Output>(out: &mut TextWriter<'_, W>, flags: &[AccessFlag], bits: u16)
    ensures { Sends W.written W.failures out.old out.new (flags_text flags.now bits) }
{
    out.text(b"0x");
    out.hexadecimal(&bits.to_be_bytes());
    for flag in flags {
        write_flag(out, *flag, bits);
    }
}

fn write_flag<W: Output>(out: &mut TextWriter<'_, W>, flag: AccessFlag, bits: u16)
    ensures { Sends W.written W.failures out.old out.new (flag_text bits flag) }
{
    if flag.is_in(bits) {
        out.text(b" ");
        out.text(flag.name().as_bytes());
    }
}

/// Writes an index, and the class, the field or the method that its constant refers to.
pub(crate) fn write_index_with_reference<W: Output>(
    out: &mut TextWriter<'_, W>,
    class: &ClassView,
    index: ConstantIndex,
)
    ensures { Sends W.written W.failures out.old out.new (index_with_reference class.now index) }
{
    write_index(out, index);
    write_reference(out, class, index);
}

/// Writes a space and the class, the field or the method that the constant of an index refers to.
pub(crate) fn write_reference<W: Output>(
    out: &mut TextWriter<'_, W>,
    class: &ClassView,
    index: ConstantIndex,
)
    ensures { Sends W.written W.failures out.old out.new (reference_text class.now index) }
{
    if let Some(constant) = class.constant(index.0) {
        write_reference_of(out, class, constant);
    }
}

fn write_reference_of<W: Output>(out: &mut TextWriter<'_, W>, class: &ClassView, constant: Constant)
    ensures { Sends W.written W.failures out.old out.new (reference_of class.now (constant_of constant.entry)) }
{
    match constant {
        Constant::Class(name) => write_text_behind(out, b" class ", class.utf8(name)),
        Constant::Fieldref(of, entry) => write_member_reference(out, class, b" field ", of, entry),
        Constant::Methodref(of, entry) => write_member_reference(
            out,
            class,
            b" method ",
            of,
            entry,
        ),
        Constant::InterfaceMethodref(of, entry) => {
            write_member_reference(out, class, b" imethod ", of, entry);
        }
        _ => {}
    }
}

/// Writes a word and a member: its class, its name and its descriptor.
fn write_member_reference<W: Output>(
    out: &mut TextWriter<'_, W>,
    class: &ClassView,
    word: &[u8],
    of: ConstantIndex,
    entry: ConstantIndex,
)
    ensures { Sends W.written W.failures out.old out.new (word.now ++ member_reference class.now of entry) }
{
    write_text_behind(out, word, class.class_text(of));
    write_text_behind(out, b".", class.member_name_at(entry));
    write_text_behind(out, b":", class.member_descriptor_at(entry));
}
