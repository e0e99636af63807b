//! The first lines of a listing, which show the class itself.

ghost use Rattle.std.specs.Prelude.{◌++◌, codes};
ghost use Rattle.std.specs.List.{flat_map};
ghost use Rattle.std.specs.Option.{option_copied};
ghost use Rattle.jc_text.specs.Sends.{Sends};
ghost use Rattle.jc_list.specs.Texts.{shown_text};
ghost use Rattle.jc_list.specs.ClassLines.{class_lines, count_line, flags_line, interface_line};
ghost use Rattle.jc_list.specs.ClassLines.{name_line, super_line, super_text, version_line};

use crate::texts::{write_flags, write_number_behind, write_text, write_text_behind};
use jc_base::Output;
use jc_file::AccessFlag;
use jc_text::TextWriter;
use jc_view::ClassView;

/// Writes the class's name, flags, version, superclass and interfaces, and the number of indexes of its
/// constants.
pub(crate) fn write_class_lines<W: Output>(out: &mut TextWriter<'_, W>, class: &ClassView)
    ensures { Sends W.written W.failures out.old out.new (class_lines class.now) }
{
    write_name_line(out, class);
    write_flags_line(out, class);
    write_version_line(out, class);
    write_super_line(out, class);
    write_interface_lines(out, class);
    write_count_line(out, class);
}

fn write_name_line<W: Output>(out: &mut TextWriter<'_, W>, class: &ClassView)
    ensures { Sends W.written W.failures out.old out.new (name_line class.now) }
{
    write_text_behind(out, b"class ", class.class_text(class.this_class()));
    out.text(b"\n");
}

fn write_flags_line<W: Output>(out: &mut TextWriter<'_, W>, class: &ClassView)
    ensures { Sends W.written W.failures out.old out.new (flags_line class.now) }
{
    out.text(b"flags ");
    write_flags(out, &AccessFlag::OF_CLASS, class.flags());
    out.text(b"\n");
}

fn write_version_line<W: Output>(out: &mut TextWriter<'_, W>, class: &ClassView)
    ensures { Sends W.written W.failures out.old out.new (version_line class.now) }
{
    let version = class.version();
    write_number_behind(out, b"version ", version.major);
    write_number_behind(out, b".", version.minor);
    out.text(b"\n");
}

fn write_super_line<W: Output>(out: &mut TextWriter<'_, W>, class: &ClassView)
    ensures { Sends W.written W.failures out.old out.new (super_line class.now) }
{
    out.text(b"super ");
    write_super(out, class);
    out.text(b"\n");
}

fn write_super<W: Output>(out: &mut TextWriter<'_, W>, class: &ClassView)
    ensures { Sends W.written W.failures out.old out.new (super_text class.now) }
{
    if class.super_class().0 == 0 {
        out.text(b"none");
    } else {
        write_text(out, class.super_name());
    }
}

fn write_interface_lines<W: Output>(out: &mut TextWriter<'_, W>, class: &ClassView)
    ensures { Sends W.written W.failures out.old out.new (flat_map (interface_line class.now) class.now.interfaces) }
{
    for name in class.interfaces() {
        write_interface_line(out, name);
    }
}

fn write_interface_line<W: Output>(out: &mut TextWriter<'_, W>, name: Option<&[u8]>)
    ensures { Sends W.written W.failures out.old out.new (codes "interface " ++ shown_text (option_copied name.entry) ++ codes "\n") }
{
    write_text_behind(out, b"interface ", name);
    out.text(b"\n");
}

fn write_count_line<W: Output>(out: &mut TextWriter<'_, W>, class: &ClassView)
    ensures { Sends W.written W.failures out.old out.new (count_line class.now) }
{
    write_number_behind(out, b"constants ", class.constant_count() - 1);
    out.text(b"\n");
}
