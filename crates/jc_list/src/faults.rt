//! A line for each fault.

ghost use Rattle.std.specs.Prelude.{◌≡◌, ◌==◌, IfOk, length, not};
ghost use Rattle.std.specs.List.{flat_map};
ghost use Rattle.jc_text.specs.Sends.{Sends};
ghost use Rattle.jc_view.specs.declared.attribute_kind.Holder.TheVariants as holders;
ghost use Rattle.jc_file.specs.Faults.{faults};
ghost use Rattle.jc_list.specs.FaultLines.{code_fault_line, format_line};
ghost use Rattle.jc_code.specs.MethodFaults.{code_faults, method_faults, numbered_faults};
ghost use Rattle.jc_list.specs.inside.Fronts.{Lists};

use crate::texts::{write_number, write_number_behind};
use jc_base::{NoMemory, Output};
use jc_code::{CodeFault, TextSizes, faults_in, method_code};
use jc_file::{Fault, format_faults};
use jc_text::TextWriter;
use jc_view::{ClassView, Member};
use std::alloc::Global;

/// Writes the faults of the format. Returns whether there is one.
pub(crate) fn write_format_faults<W: Output>(
    alloc: Global,
    out: &mut TextWriter<'_, W>,
    class: &ClassView,
) -> Result<bool, NoMemory>
    ensures lists { Lists W.written W.failures result out.old out.new (flat_map format_line (faults class.now)) }
    ensures some { IfOk result (λ some. some ≡ not (length (faults class.now) == 0)) }
{
    let faults = format_faults(alloc, class)?;
    for fault in &faults {
        write_format_line(out, *fault);
    }
    Ok(!faults.is_empty())
}

/// Writes the line of a fault of the format.
pub fn write_format_line<W: Output>(out: &mut TextWriter<'_, W>, fault: Fault)
    ensures { Sends W.written W.failures out.old out.new (format_line fault) }
{
    write_number_behind(out, b"format F", fault.rule.number());
    write_number(out, fault.place);
    out.text(b"\n");
}

/// Writes the code faults of all methods, by method. Returns whether there is one.
pub(crate) fn write_code_faults<W: Output>(
    alloc: Global,
    out: &mut TextWriter<'_, W>,
    class: &ClassView,
) -> Result<bool, NoMemory>
    ensures lists { Lists W.written W.failures result out.old out.new (flat_map code_fault_line (code_faults class.now)) }
    ensures some { IfOk result (λ some. some ≡ not (length (code_faults class.now) == 0)) }
{
    let sizes = TextSizes::of(alloc, class)?;
    write_faults_by_method(alloc, out, &sizes)
}

/// Writes the faults of each method's code. Returns whether there is one.
fn write_faults_by_method<W: Output>(
    alloc: Global,
    out: &mut TextWriter<'_, W>,
    sizes: &TextSizes,
) -> Result<bool, NoMemory>
    ensures lists { Lists W.written W.failures result out.old out.new (flat_map code_fault_line (code_faults sizes.now)) }
    ensures some { IfOk result (λ some. some ≡ not (length (code_faults sizes.now) == 0)) }
{
    let mut some = false;
    for (number, method) in sizes.class().methods().enumerate() {
        some |= write_method_faults(alloc, out, sizes, &method, number)?;
    }
    Ok(some)
}

/// Writes the faults of a method's code. Returns whether there is one.
fn write_method_faults<W: Output>(
    alloc: Global,
    out: &mut TextWriter<'_, W>,
    sizes: &TextSizes,
    method: &Member,
    number: usize,
) -> Result<bool, NoMemory>
    requires class { method.now.class ≡ sizes.now }
    requires holder { method.now.member.holder ≡ holders.Method }
    ensures lists { Lists W.written W.failures result out.old out.new
        (flat_map code_fault_line (numbered_faults sizes.now number method.now.member.member)) }
    ensures some { IfOk result (λ some. some ≡ not (length (method_faults sizes.now method.now.member.member) == 0)) }
{
    let Some(code) = method_code(method) else {
        return Ok(false);
    };
    let faults = faults_in(alloc, sizes, &code)?;
    for fault in &faults {
        write_code_fault_line(out, number, *fault);
    }
    Ok(!faults.is_empty())
}

/// Writes the line of a code fault, by the number of the method.
pub fn write_code_fault_line<W: Output>(
    out: &mut TextWriter<'_, W>,
    number: usize,
    fault: CodeFault,
)
    ensures { Sends W.written W.failures out.old out.new (code_fault_line (number, fault)) }
{
    write_number_behind(out, b"code S", fault.rule.number());
    write_number(out, number);
    write_number(out, fault.place);
    out.text(b"\n");
}
