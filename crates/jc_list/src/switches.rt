//! Switches, and a line for each of their targets.

ghost use Rattle.std.specs.List.{flat_map};
ghost use Rattle.jc_text.specs.Sends.{Sends};
ghost use Rattle.jc_list.specs.InsnLines.{case_line, lookup_switch_text, switch_line, table_switch_text, target_lines};

use crate::texts::{write_number, write_number_behind};
use jc_base::Output;
use jc_code::{LookupSwitch, TableSwitch};
use jc_text::TextWriter;

/// Writes the lowest and the highest value, and the target for all other values.
pub(crate) fn write_table_switch<W: Output>(out: &mut TextWriter<'_, W>, switch: &TableSwitch)
    ensures { Sends W.written W.failures out.old out.new (table_switch_text switch.now) }
{
    write_number(out, switch.low());
    write_number(out, switch.high());
    out.text(b" default");
    write_number(out, switch.default());
}

/// Writes the number of cases, and the target for all other values.
pub(crate) fn write_lookup_switch<W: Output>(out: &mut TextWriter<'_, W>, switch: &LookupSwitch)
    ensures { Sends W.written W.failures out.old out.new (lookup_switch_text switch.now) }
{
    write_number(out, switch.cases().len());
    out.text(b" default");
    write_number(out, switch.default());
}

/// Writes the targets of the values, from the lowest on.
pub(crate) fn write_target_lines<W: Output>(out: &mut TextWriter<'_, W>, switch: &TableSwitch)
    ensures { Sends W.written W.failures out.old out.new (target_lines switch.now.low switch.now.targets.left) }
{
    let low = i64::from(switch.low());
    let mut targets = switch.targets();
    for index in 0..targets.len() {
        let Some(target) = targets.next() else {
            return;
        };
        write_switch_line(out, low + i64::from(index), target);
    }
}

/// Writes the cases: values and their targets.
pub(crate) fn write_case_lines<W: Output>(out: &mut TextWriter<'_, W>, switch: &LookupSwitch)
    ensures { Sends W.written W.failures out.old out.new (flat_map case_line switch.now.cases.left) }
{
    for case in switch.cases() {
        write_switch_line(out, i64::from(case.value), case.target);
    }
}

fn write_switch_line<W: Output>(out: &mut TextWriter<'_, W>, value: i64, target: i64)
    ensures { Sends W.written W.failures out.old out.new (switch_line value target) }
{
    write_number_behind(out, b"      ", value);
    write_number_behind(out, b": ", target);
    out.text(b"\n");
}
