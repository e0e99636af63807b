//! The results of `Insns` and `code_faults`.

use crate::class_answers::write_fault;
use jc_base::Output;
use jc_code::{CodeFault, Insn, Insns, LookupSwitch, TableSwitch, code_faults};
use jc_file::parse;
use jc_text::TextWriter;
use std::alloc::Global;

/// Writes the instructions of a code, and the offset where they end.
pub(crate) fn write_instructions<W: Output>(out: &mut TextWriter<'_, W>, code: &[u8]) {
    if code.len() >= 1 << 16 {
        return out.text(b"too long");
    }
    let mut insns = Insns::new(code);
    while let Some((place, insn)) = insns.next() {
        out.decimal(place);
        out.text(b" ");
        out.text(insn.mnemonic().as_bytes());
        write_operands(out, &insn);
        out.text(b", ");
    }
    out.text(b"rest ");
    out.decimal(insns.rest());
}

fn write_operands<W: Output>(out: &mut TextWriter<'_, W>, insn: &Insn) {
    match insn {
        Insn::Plain { .. } => {}
        Insn::Push { value, .. } => write_number(out, i64::from(*value)),
        Insn::Local { index, wide, .. } => {
            write_number(out, i64::from(*index));
            write_wide(out, *wide);
        }
        Insn::Increment {
            index,
            amount,
            wide,
        } => {
            write_number(out, i64::from(*index));
            write_number(out, i64::from(*amount));
            write_wide(out, *wide);
        }
        Insn::Branch { target, .. } => write_number(out, *target),
        Insn::TableSwitch(switch) => write_table(out, switch),
        Insn::LookupSwitch(switch) => write_cases(out, switch),
        Insn::Ldc { index, .. }
        | Insn::Field { index, .. }
        | Insn::Invoke { index, .. }
        | Insn::Type { index, .. } => write_number(out, i64::from(index.0)),
        Insn::InvokeInterface { index, count, last } => {
            write_number(out, i64::from(index.0));
            write_number(out, i64::from(*count));
            write_number(out, i64::from(*last));
        }
        Insn::InvokeDynamic { index, last } => {
            write_number(out, i64::from(index.0));
            write_number(out, i64::from(*last));
        }
        Insn::NewArray { element } => write_number(out, i64::from(*element)),
        Insn::MultiNewArray { index, dimensions } => {
            write_number(out, i64::from(index.0));
            write_number(out, i64::from(*dimensions));
        }
    }
}

fn write_number<W: Output>(out: &mut TextWriter<'_, W>, number: i64) {
    out.text(b" ");
    out.decimal(number);
}

fn write_wide<W: Output>(out: &mut TextWriter<'_, W>, wide: bool) {
    if wide {
        out.text(b" wide");
    }
}

fn write_default<W: Output>(out: &mut TextWriter<'_, W>, target: i64) {
    out.text(b" default");
    write_number(out, target);
    out.text(b":");
}

fn write_table<W: Output>(out: &mut TextWriter<'_, W>, switch: &TableSwitch) {
    write_number(out, i64::from(switch.low()));
    write_number(out, i64::from(switch.high()));
    write_default(out, switch.default());
    for target in switch.targets() {
        write_number(out, target);
    }
}

fn write_cases<W: Output>(out: &mut TextWriter<'_, W>, switch: &LookupSwitch) {
    write_number(out, i64::from(switch.cases().len()));
    write_default(out, switch.default());
    for case in switch.cases() {
        write_number(out, i64::from(case.value));
        write_number(out, case.target);
    }
}

/// Writes the code faults of the first method, in their order.
pub(crate) fn write_code_faults<W: Output>(
    alloc: Global,
    out: &mut TextWriter<'_, W>,
    bytes: &[u8],
) {
    let Ok(view) = parse(alloc, bytes) else {
        return out.text(b"refused");
    };
    match code_faults(alloc, &view, 0) {
        Ok(faults) => write_each(out, &faults),
        Err(_) => out.text(b"no memory"),
    }
}

fn write_each<W: Output>(out: &mut TextWriter<'_, W>, faults: &[CodeFault]) {
    if faults.is_empty() {
        out.text(b"none");
    }
    for (number, fault) in faults.iter().enumerate() {
        write_fault(
            out,
            number > 0,
            b"S",
            fault.rule.number(),
            fault.place as usize,
        );
    }
}
