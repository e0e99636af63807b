//! A line for each attribute, or the lines of a method's code.

ghost use Rattle.std.specs.Prelude.{◌≡◌, codes};
ghost use Rattle.std.specs.List.{flat_map};
ghost use Rattle.std.specs.Option.{option_copied, option_map_or};
ghost use Rattle.jc_view.specs.ConstantPool.{index_value};
ghost use Rattle.jc_list.specs.AttributeLines.{attribute_line, attribute_lines, code_lines, entry_text, signature_text, signatures_of};
ghost use Rattle.jc_list.specs.inside.Fronts.{Lists};

use crate::code::{write_all_insn_lines, write_code_line, write_handler_lines};
use crate::texts::{write_index, write_number, write_text, write_text_behind};
use jc_base::{NoMemory, Output, SigKind, check_signature};
use jc_text::TextWriter;
use jc_view::{Attribute, AttributeKind, Attributes, Code, ConstantIndex, Holder, index_at};
use std::alloc::Global;

/// Writes the attributes of a class, a field or a method.
pub(crate) fn write_attributes<W: Output>(
    alloc: Global,
    out: &mut TextWriter<'_, W>,
    attributes: Attributes,
    indent: &[u8],
) -> Result<(), NoMemory>
    ensures { Lists W.written W.failures result out.old out.new
        (flat_map (attribute_lines attributes.entry.class indent.now) attributes.entry.left) }
{
    for attribute in attributes {
        write_attribute(alloc, out, &attribute, indent)?;
    }
    Ok(())
}

fn write_attribute<W: Output>(
    alloc: Global,
    out: &mut TextWriter<'_, W>,
    attribute: &Attribute,
    indent: &[u8],
) -> Result<(), NoMemory>
    ensures { Lists W.written W.failures result out.old out.new (attribute_lines attribute.now.class indent.now attribute.now.attribute) }
{
    match attribute.code() {
        Some(code) => write_code_lines(alloc, out, &code),
        None => write_attribute_line(alloc, out, attribute, indent),
    }
}

fn write_code_lines<W: Output>(
    alloc: Global,
    out: &mut TextWriter<'_, W>,
    code: &Code,
) -> Result<(), NoMemory>
    ensures { Lists W.written W.failures result out.old out.new (code_lines code.now.class code.now.attribute code.now.code) }
{
    write_code_line(out, code);
    write_all_insn_lines(out, code);
    write_handler_lines(out, code);
    write_inner_attributes(alloc, out, code.attributes())
}

/// Writes the attributes of a method's code.
fn write_inner_attributes<W: Output>(
    alloc: Global,
    out: &mut TextWriter<'_, W>,
    attributes: Attributes,
) -> Result<(), NoMemory>
    ensures { Lists W.written W.failures result out.old out.new
        (flat_map (attribute_line attributes.entry.class (codes "    ")) attributes.entry.left) }
{
    for attribute in attributes {
        write_attribute_line(alloc, out, &attribute, b"    ")?;
    }
    Ok(())
}

fn write_attribute_line<W: Output>(
    alloc: Global,
    out: &mut TextWriter<'_, W>,
    attribute: &Attribute,
    indent: &[u8],
) -> Result<(), NoMemory>
    ensures { Lists W.written W.failures result out.old out.new (attribute_line attribute.now.class indent.now attribute.now.attribute) }
{
    out.text(indent);
    write_text_behind(out, b"attribute ", attribute.name());
    let bytes = attribute.bytes();
    write_number(out, bytes.len());
    if bytes.len() == 2 {
        write_entry(alloc, out, attribute, index_at(bytes, 0))?;
    }
    out.text(b"\n");
    Ok(())
}

/// Writes the entry of a `SourceFile`, a `Signature` or a `ConstantValue`.
fn write_entry<W: Output>(
    alloc: Global,
    out: &mut TextWriter<'_, W>,
    attribute: &Attribute,
    index: ConstantIndex,
) -> Result<(), NoMemory>
    requires { index ≡ index_value attribute.now.attribute.attribute.bytes }
    ensures { Lists W.written W.failures result out.old out.new (entry_text attribute.now.class attribute.now.attribute) }
{
    if attribute.is(AttributeKind::SourceFile) {
        out.text(b" ");
        write_text(out, attribute.class().utf8(index));
    } else if attribute.is(AttributeKind::Signature) {
        out.text(b" ");
        let kind = signatures_of(attribute.holder());
        return write_signature(alloc, out, kind, attribute.class().utf8(index));
    } else if attribute.is(AttributeKind::ConstantValue) {
        out.text(b" ");
        write_index(out, index);
    }
    Ok(())
}

/// Returns the kind of signature of the holder of an attribute.
fn signatures_of(holder: Holder) -> SigKind
    ensures { result ≡ signatures_of holder }
{
    match holder {
        Holder::Class => SigKind::Class,
        Holder::Field => SigKind::Field,
        Holder::Method | Holder::Code => SigKind::Method,
    }
}

/// Writes a signature, or `malformed` and the text (JVMS 4.7.9.1). A missing text is `?`.
fn write_signature<W: Output>(
    alloc: Global,
    out: &mut TextWriter<'_, W>,
    kind: SigKind,
    text: Option<&[u8]>,
) -> Result<(), NoMemory>
    ensures { Lists W.written W.failures result out.old out.new
        (option_map_or (signature_text kind) (option_copied text.entry) (codes "?")) }
{
    let Some(text) = text else {
        out.text(b"?");
        return Ok(());
    };
    if !check_signature(alloc, kind, text)? {
        out.text(b"malformed ");
    }
    out.shown(text);
    Ok(())
}
