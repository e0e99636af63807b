//! The lines of errors in the code of methods: faults, and instructions that do not link.

ghost use Rattle.std.specs.Prelude.{◌≡◌, []};
ghost use Rattle.std.specs.List.{flat_map};
ghost use Rattle.std.specs.Option.{option_map_or};
ghost use Rattle.jc_text.specs.Sends.{Sends};
ghost use Rattle.jc_resolve.specs.Linked.{link_lent};
ghost use Rattle.jc_report.specs.ErrorsText.{code_error, link_error, method_text, mnemonic, reference_at, use_at, use_text};
ghost use Rattle.jc_report.specs.PartText.{reference_text};

use crate::part_text::{write_error, write_member, write_reference};
use crate::reference_place::reference_by_index;
use crate::use_place::use_at;
use jc_base::Output;
use jc_classes::Facts;
use jc_code::{CodeFault, LinkKind, MethodUse};
use jc_resolve::{LinkError, LinkErrors};
use jc_text::TextWriter;

/// Writes the name of the class, and the name and descriptor of its method of this number.
pub(crate) fn write_method<W: Output>(text: &mut TextWriter<'_, W>, facts: &Facts, number: usize)
    ensures { Sends W.written W.failures text.old text.new (method_text facts.now number) }
{
    match facts.own_method(number) {
        Some(method) => write_member(text, facts.name(), method.name, method.descriptor),
        None => text.shown(facts.name()),
    }
}

/// Writes a line for each fault of the code of a method.
pub(crate) fn write_code_errors<W: Output>(
    text: &mut TextWriter<'_, W>,
    facts: &Facts,
    faults: &[(usize, CodeFault)],
)
    ensures { Sends W.written W.failures text.old text.new (flat_map (code_error facts.now) faults.now) }
{
    for fault in faults {
        write_code_error(text, facts, fault.0, fault.1);
    }
}

fn write_code_error<W: Output>(
    text: &mut TextWriter<'_, W>,
    facts: &Facts,
    number: usize,
    fault: CodeFault,
)
    ensures { Sends W.written W.failures text.old text.new (code_error facts.now (number, fault)) }
{
    write_method(text, facts, number);
    text.text(b": ");
    text.text(b"code S");
    text.decimal(fault.rule.number());
    text.text(b" ");
    text.decimal(fault.place);
    text.text(b"\n");
}

/// Writes a line for each instruction that does not link.
pub(crate) fn write_link_errors<W: Output>(
    text: &mut TextWriter<'_, W>,
    facts: &Facts,
    links: LinkErrors<'_>,
)
    ensures { Sends W.written W.failures text.old text.new (flat_map (link_error facts.now) links.entry) }
{
    for link in links {
        write_link_error(text, facts, link);
    }
}

fn write_link_error<W: Output>(text: &mut TextWriter<'_, W>, facts: &Facts, link: LinkError<'_>)
    ensures { Sends W.written W.failures text.old text.new (link_error facts.now (link_lent link.entry)) }
{
    write_method(text, facts, link.method as usize);
    text.text(b": ");
    text.decimal(link.place);
    text.text(b": ");
    write_instruction(text, facts, link.method, link.place);
    text.text(b" -> ");
    write_error(text, link.error, link.class);
    text.text(b"\n");
}

/// Writes the mnemonic of the instruction at an offset of a method, and its reference.
fn write_instruction<W: Output>(
    text: &mut TextWriter<'_, W>,
    facts: &Facts,
    method: u16,
    place: u16,
)
    ensures { Sends W.written W.failures text.old text.new
        (option_map_or (use_text facts.now) (use_at facts.now.uses method place) []) }
{
    facts.are_in_order();
    match use_at(facts.uses(), method, place) {
        Some(found) => write_use(text, facts, found),
        None => (),
    }
}

fn write_use<W: Output>(text: &mut TextWriter<'_, W>, facts: &Facts, found: MethodUse)
    ensures { Sends W.written W.failures text.old text.new (use_text facts.now found) }
{
    text.text(mnemonic(found.kind));
    text.text(b" ");
    write_reference_at(text, facts, found.index);
}

/// Writes the reference of the constant at an index.
fn write_reference_at<W: Output>(text: &mut TextWriter<'_, W>, facts: &Facts, index: u16)
    ensures { Sends W.written W.failures text.old text.new
        (option_map_or reference_text (reference_at facts.now.references index) []) }
{
    match reference_by_index(facts, index) {
        Some(reference) => write_reference(text, reference),
        None => (),
    }
}

/// Returns the mnemonic of an instruction (JVMS 6.5).
fn mnemonic(kind: LinkKind) -> &'static [u8]
    ensures { result.now ≡ mnemonic kind }
{
    match kind {
        LinkKind::GetStatic => b"getstatic",
        LinkKind::PutStatic => b"putstatic",
        LinkKind::GetField => b"getfield",
        LinkKind::PutField => b"putfield",
        LinkKind::InvokeVirtual => b"invokevirtual",
        LinkKind::InvokeSpecial => b"invokespecial",
        LinkKind::InvokeStatic => b"invokestatic",
        LinkKind::InvokeInterface => b"invokeinterface",
        LinkKind::New => b"new",
    }
}
