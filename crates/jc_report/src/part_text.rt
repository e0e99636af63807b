//! The text of the part of a class.

ghost use Rattle.std.specs.Prelude.{◌≡◌, ◌++◌};
ghost use Rattle.std.specs.List.{flat_map};
ghost use Rattle.jc_text.specs.Escapes.{shown};
ghost use Rattle.jc_text.specs.Sends.{Sends};
ghost use Rattle.jc_classes.specs.Lent.{key_lent, reference_lent};
ghost use Rattle.jc_resolve.specs.Answers.{answer_of, loading_of};
ghost use Rattle.jc_resolve.specs.Linked.{link_lent};
ghost use Rattle.jc_report.specs.PartText.{answer_line, answer_lines, answer_text, answered_text, error_text, format_fault_line, kind_text};
ghost use Rattle.jc_report.specs.PartText.{link_line, link_text, load_line, load_text, method_fault_line, named_text};
ghost use Rattle.jc_report.specs.PartText.{part_text, reference_text};
ghost use Rattle.jc_report.specs.inside.Members.{SendsMember};

use jc_base::Output;
use jc_classes::{Facts, Key, LinkageError, Reference, ReferenceKind};
use jc_code::CodeFault;
use jc_file::Fault;
use jc_link::Part;
use jc_list::{write_code_fault_line, write_format_line};
use jc_resolve::{Answer, Answers, LinkError, LinkErrors, Loading};
use jc_text::TextWriter;

/// Writes the part of the class with these facts: how it loads, its faults, its instructions that do not link, and the
/// answer to each of its references.
pub fn write_part<W: Output>(out: &mut TextWriter<'_, W>, facts: &Facts, part: &Part)
    ensures { Sends W.written W.failures out.old out.new (part_text facts.now part.now) }
{
    write_load_line(out, facts.name(), part.load());
    write_format_faults(out, part.format_faults());
    write_code_faults(out, part.code_faults());
    write_links(out, part.links());
    write_answers(out, facts, part.answers());
}

fn write_load_line<W: Output>(out: &mut TextWriter<'_, W>, name: &[u8], load: &Loading)
    ensures { Sends W.written W.failures out.old out.new (load_line name.now (loading_of load.now)) }
{
    write_shown(out, b"part ", name);
    out.text(b": ");
    write_load(out, load);
    out.text(b"\n");
}

fn write_load<W: Output>(out: &mut TextWriter<'_, W>, load: &Loading)
    ensures { Sends W.written W.failures out.old out.new (load_text (loading_of load.now)) }
{
    match load {
        Loading::Loaded => out.text(b"loaded"),
        Loading::Outside => out.text(b"outside"),
        Loading::Fails(error, name) => write_error(out, *error, name.as_slice()),
    }
}

/// Writes an error, and the name of the class at fault.
pub(crate) fn write_error<W: Output>(out: &mut TextWriter<'_, W>, error: LinkageError, name: &[u8])
    ensures { Sends W.written W.failures out.old out.new (error_text error name.now) }
{
    out.text(b"error ");
    out.decimal(error.code());
    out.text(b" ");
    out.text(error.name().as_bytes());
    write_shown(out, b" ", name);
}

/// Writes a word and a name. Bytes of the name that are not plain ASCII are escaped.
pub(crate) fn write_shown<W: Output>(out: &mut TextWriter<'_, W>, word: &[u8], name: &[u8])
    ensures { Sends W.written W.failures out.old out.new (word.now ++ shown name.now) }
{
    out.text(word);
    out.shown(name);
}

fn write_format_faults<W: Output>(out: &mut TextWriter<'_, W>, faults: &[Fault])
    ensures { Sends W.written W.failures out.old out.new (flat_map format_fault_line faults.now) }
{
    for fault in faults {
        write_format_fault(out, *fault);
    }
}

fn write_format_fault<W: Output>(out: &mut TextWriter<'_, W>, fault: Fault)
    ensures { Sends W.written W.failures out.old out.new (format_fault_line fault) }
{
    out.text(b"  ");
    write_format_line(out, fault);
}

fn write_code_faults<W: Output>(out: &mut TextWriter<'_, W>, faults: &[(usize, CodeFault)])
    ensures { Sends W.written W.failures out.old out.new (flat_map method_fault_line faults.now) }
{
    for fault in faults {
        write_method_fault(out, fault.0, fault.1);
    }
}

fn write_method_fault<W: Output>(out: &mut TextWriter<'_, W>, method: usize, fault: CodeFault)
    ensures { Sends W.written W.failures out.old out.new (method_fault_line (method, fault)) }
{
    out.text(b"  ");
    write_code_fault_line(out, method, fault);
}

fn write_links<W: Output>(out: &mut TextWriter<'_, W>, links: LinkErrors<'_>)
    ensures { Sends W.written W.failures out.old out.new (flat_map link_line links.entry) }
{
    for link in links {
        write_link(out, link);
    }
}

fn write_link<W: Output>(out: &mut TextWriter<'_, W>, link: LinkError<'_>)
    ensures { Sends W.written W.failures out.old out.new (link_line (link_lent link.entry)) }
{
    out.text(b"  ");
    write_link_text(out, link);
}

/// Writes an instruction that does not link, and LF.
fn write_link_text<W: Output>(out: &mut TextWriter<'_, W>, link: LinkError<'_>)
    ensures { Sends W.written W.failures out.old out.new (link_text (link_lent link.entry)) }
{
    out.text(b"link ");
    out.decimal(link.method);
    out.text(b" ");
    out.decimal(link.place);
    out.text(b" ");
    write_error(out, link.error, link.class);
    out.text(b"\n");
}

/// Writes the answer to each reference.
fn write_answers<W: Output>(out: &mut TextWriter<'_, W>, facts: &Facts, answers: &Answers)
    ensures { Sends W.written W.failures out.old out.new (answer_lines facts.now.references answers.now) }
{
    for number in 0..answers.len() {
        match facts.reference(number) {
            Some(reference) => write_answer_line(out, reference, answers.at(number)),
            None => return,
        }
    }
}

fn write_answer_line<W: Output>(
    out: &mut TextWriter<'_, W>,
    reference: Reference<'_>,
    answer: Answer<'_>,
)
    ensures { Sends W.written W.failures out.old out.new (answer_line (reference_lent reference.entry) (answer_of answer.entry)) }
{
    out.text(b"  ");
    write_answered(out, reference, answer);
    out.text(b"\n");
}

/// Writes a reference and the answer to it.
fn write_answered<W: Output>(
    out: &mut TextWriter<'_, W>,
    reference: Reference<'_>,
    answer: Answer<'_>,
)
    ensures { Sends W.written W.failures out.old out.new (answered_text (reference_lent reference.entry) (answer_of answer.entry)) }
{
    out.text(b"#");
    out.decimal(reference.index);
    out.text(b" ");
    write_reference(out, reference);
    out.text(b" -> ");
    write_answer(out, answer);
}

pub(crate) fn write_reference<W: Output>(out: &mut TextWriter<'_, W>, reference: Reference<'_>)
    ensures { Sends W.written W.failures out.old out.new (reference_text (reference_lent reference.entry)) }
{
    out.text(kind_word(reference.kind));
    out.text(b" ");
    write_named(out, reference.kind, reference.class, reference.key);
}

pub(crate) fn kind_word(kind: ReferenceKind) -> &'static [u8]
    ensures { result.now ≡ kind_text kind }
{
    match kind {
        ReferenceKind::Class => b"class",
        ReferenceKind::Field => b"field",
        ReferenceKind::Method => b"method",
        ReferenceKind::InterfaceMethod => b"imethod",
    }
}

/// Writes the class of a reference and, for a field or method, the name and the descriptor.
pub(crate) fn write_named<W: Output>(
    out: &mut TextWriter<'_, W>,
    kind: ReferenceKind,
    class: &[u8],
    key: Key<'_>,
)
    ensures { Sends W.written W.failures out.old out.new (named_text kind class.now (key_lent key.entry)) }
{
    match kind {
        ReferenceKind::Class => out.shown(class),
        ReferenceKind::Field | ReferenceKind::Method | ReferenceKind::InterfaceMethod => {
            write_member(out, class, key.name, key.descriptor);
        }
    }
}

pub(crate) fn write_member<W: Output>(
    out: &mut TextWriter<'_, W>,
    class: &[u8],
    name: &[u8],
    descriptor: &[u8],
)
    ensures { SendsMember W.written W.failures out.old out.new class.now name.now descriptor.now }
{
    out.shown(class);
    write_shown(out, b".", name);
    write_shown(out, b":", descriptor);
}

pub(crate) fn write_answer<W: Output>(out: &mut TextWriter<'_, W>, answer: Answer<'_>)
    ensures { Sends W.written W.failures out.old out.new (answer_text (answer_of answer.entry)) }
{
    match answer {
        Answer::ToClass(class, _) => write_shown(out, b"To ", class),
        Answer::ToMember(class, member) => {
            out.text(b"To ");
            write_member(out, class, member.name, member.descriptor);
        }
        Answer::Outside(name) => write_shown(out, b"Outside ", name),
        Answer::NotLoaded => out.text(b"NotLoaded"),
        Answer::Error(error, name) => write_error(out, error, name),
    }
}
