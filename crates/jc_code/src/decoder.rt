//! Decoding of an instruction (JVMS 6.5).

ghost use Rattle.std.specs.Prelude.{◌≡◌, ◌+◌, ◌<◌, ◌^◌, Some, length};
ghost use Rattle.jc_view.specs.Reading.{after};
ghost use Rattle.jc_view.specs.Moves.{Lends};
ghost use Rattle.jc_code.specs.declared.opcode.Operands.TheVariants as operands;
ghost use Rattle.jc_code.specs.InsnReading.{pad, target_count, after_insn, after_lookup_switch, after_operands};
ghost use Rattle.jc_code.specs.InsnReading.{after_table_switch, after_wide, after_widened, insn_value, lookup_switch_value};
ghost use Rattle.jc_code.specs.InsnReading.{operands_value, table_switch_value, wide_value, widened_value};
ghost use Rattle.jc_code.specs.inside.Decoding.{same, LendsOperands, table_size, lookup_size};

use crate::insn::Insn;
use crate::numbers::{int_at, read_byte, read_int, read_short, target, word_at};
use crate::opcode::{Opcode, Operands};
use crate::switch::{LookupSwitch, TableSwitch};
use jc_base::Cursor;
use jc_view::{ConstantIndex, read_index};

/// Reads an instruction. The cursor's place is the offset from the start of the code.
#[tactic(auto, unfolding(crate::specs::InsnReading::after_insn, crate::specs::InsnReading::insn_value))]
pub(crate) fn read_insn<'a>(cursor: &mut Cursor<'a>) -> Option<Insn<'a>>
    requires { cursor.old.place + length cursor.old.rest < 2 ^ 16 }
    ensures { Lends same (after_insn cursor.old.place) (insn_value cursor.old.place) cursor.old result cursor.new }
{
    let place = cursor.place() as u32;
    let opcode = Opcode::new(cursor.u1()?)?;
    read_operands(place, opcode, cursor)
}

/// Reads the operands of an instruction at a place, after its opcode.
fn read_operands<'a>(place: u32, opcode: Opcode, cursor: &mut Cursor<'a>) -> Option<Insn<'a>>
    requires { cursor.old.place + length cursor.old.rest < 2 ^ 16 }
    ensures { LendsOperands (after_operands place) (operands_value place opcode) opcode cursor.old result cursor.new }
{
    match opcode.operands() {
        Operands::Empty | Operands::ImplicitLocal { .. } => Some(Insn::Plain { opcode }),
        Operands::Local { .. } => {
            let index = u16::from(cursor.u1()?);
            Some(Insn::Local {
                opcode,
                index,
                wide: false,
            })
        }
        Operands::Byte => {
            let value = i16::from(read_byte(cursor)?);
            Some(Insn::Push { opcode, value })
        }
        Operands::Short => {
            let value = read_short(cursor)?;
            Some(Insn::Push { opcode, value })
        }
        Operands::ShortLoad => {
            let index = ConstantIndex(u16::from(cursor.u1()?));
            Some(Insn::Ldc { opcode, index })
        }
        Operands::Load => Some(Insn::Ldc {
            opcode,
            index: read_index(cursor)?,
        }),
        Operands::Increment => read_increment(cursor),
        Operands::Branch => {
            let offset = i32::from(read_short(cursor)?);
            Some(Insn::Branch {
                opcode,
                target: target(place, offset),
            })
        }
        Operands::WideBranch => {
            let offset = read_int(cursor)?;
            Some(Insn::Branch {
                opcode,
                target: target(place, offset),
            })
        }
        Operands::TableSwitch => read_table_switch(place, cursor),
        Operands::LookupSwitch => read_lookup_switch(place, cursor),
        Operands::Field => Some(Insn::Field {
            opcode,
            index: read_index(cursor)?,
        }),
        Operands::Invoke => Some(Insn::Invoke {
            opcode,
            index: read_index(cursor)?,
        }),
        Operands::InvokeInterface => read_invoke_interface(cursor),
        Operands::InvokeDynamic => read_invoke_dynamic(cursor),
        Operands::Type => Some(Insn::Type {
            opcode,
            index: read_index(cursor)?,
        }),
        Operands::NewArray => Some(Insn::NewArray {
            element: cursor.u1()?,
        }),
        Operands::MultiNewArray => read_multi_new_array(cursor),
        Operands::Wide => read_wide(cursor),
    }
}

fn read_increment<'a>(cursor: &mut Cursor<'a>) -> Option<Insn<'a>>
    ensures { Lends same (after 2) (operands_value 0 0 operands.Increment) cursor.old result cursor.new }
{
    let index = u16::from(cursor.u1()?);
    let amount = i16::from(read_byte(cursor)?);
    Some(Insn::Increment {
        index,
        amount,
        wide: false,
    })
}

fn read_invoke_interface<'a>(cursor: &mut Cursor<'a>) -> Option<Insn<'a>>
    ensures { Lends same (after 4) (operands_value 0 0 operands.InvokeInterface) cursor.old result cursor.new }
{
    let index = read_index(cursor)?;
    let count = cursor.u1()?;
    let last = cursor.u1()?;
    Some(Insn::InvokeInterface { index, count, last })
}

fn read_invoke_dynamic<'a>(cursor: &mut Cursor<'a>) -> Option<Insn<'a>>
    ensures { Lends same (after 4) (operands_value 0 0 operands.InvokeDynamic) cursor.old result cursor.new }
{
    let index = read_index(cursor)?;
    let last = cursor.u2()?;
    Some(Insn::InvokeDynamic { index, last })
}

fn read_multi_new_array<'a>(cursor: &mut Cursor<'a>) -> Option<Insn<'a>>
    ensures { Lends same (after 3) (operands_value 0 0 operands.MultiNewArray) cursor.old result cursor.new }
{
    let index = read_index(cursor)?;
    let dimensions = cursor.u1()?;
    Some(Insn::MultiNewArray { index, dimensions })
}

/// Reads what follows `wide`: an opcode, and its operands in their wide form.
fn read_wide<'a>(cursor: &mut Cursor<'a>) -> Option<Insn<'a>>
    ensures { Lends same after_wide wide_value cursor.old result cursor.new }
{
    let opcode = Opcode::new(cursor.u1()?)?;
    read_widened(opcode, cursor)
}

/// Reads the operands of a load, a store, `ret` or `iinc`, of two bytes each.
fn read_widened<'a>(opcode: Opcode, cursor: &mut Cursor<'a>) -> Option<Insn<'a>>
    ensures { LendsOperands after_widened (widened_value opcode) opcode cursor.old result cursor.new }
{
    match opcode.operands() {
        Operands::Local { .. } => Some(Insn::Local {
            opcode,
            index: cursor.u2()?,
            wide: true,
        }),
        Operands::Increment => {
            let index = cursor.u2()?;
            let amount = read_short(cursor)?;
            Some(Insn::Increment {
                index,
                amount,
                wide: true,
            })
        }
        _ => None,
    }
}

/// Skips the pad of a switch at a place: the bytes up to the next multiple of four from the start of the code.
fn skip_pad(place: u32, cursor: &mut Cursor) -> Option<()>
    ensures { Lends same (after (pad place)) (λ _. tt) cursor.old result cursor.new }
{
    let count = 3 - place % 4;
    cursor.take(count as usize)?;
    Some(())
}

/// Reads the operands of a `tableswitch` at a place.
fn read_table_switch<'a>(place: u32, cursor: &mut Cursor<'a>) -> Option<Insn<'a>>
    requires { cursor.old.place + length cursor.old.rest < 2 ^ 16 }
    ensures { Lends same (after_table_switch place) (table_switch_value place) cursor.old result cursor.new }
{
    skip_pad(place, cursor)?;
    let size = table_size(cursor.rest())?;
    let bytes = cursor.take(size)?;
    Some(Insn::TableSwitch(TableSwitch { place, bytes }))
}

/// Returns the number of bytes of a `tableswitch` from its default target on.
///
/// `None` if the bytes before the targets are not all there, or if the lowest value is above the highest.
fn table_size(bytes: &[u8]) -> Option<usize>
    ensures { result ≡ table_size bytes.now }
{
    if bytes.len() < 12 {
        return None;
    }
    let count = target_count(int_at(bytes, 4), int_at(bytes, 8))?;
    Some(12 + 4 * count)
}

/// Returns the number of values from the lowest to the highest, or `None` if the lowest is above the highest.
fn target_count(low: i32, high: i32) -> Option<usize>
    ensures { result ≡ target_count low high }
{
    if low > high {
        return None;
    }
    Some((i64::from(high) - i64::from(low) + 1) as usize)
}

/// Reads the operands of a `lookupswitch` at a place.
fn read_lookup_switch<'a>(place: u32, cursor: &mut Cursor<'a>) -> Option<Insn<'a>>
    requires { cursor.old.place + length cursor.old.rest < 2 ^ 16 }
    ensures { Lends same (after_lookup_switch place) (lookup_switch_value place) cursor.old result cursor.new }
{
    skip_pad(place, cursor)?;
    let size = lookup_size(cursor.rest())?;
    let bytes = cursor.take(size)?;
    Some(Insn::LookupSwitch(LookupSwitch { place, bytes }))
}

/// Returns the number of bytes of a `lookupswitch` from its default target on.
///
/// `None` if the bytes before the cases are not all there, or if the number of cases is negative.
fn lookup_size(bytes: &[u8]) -> Option<usize>
    ensures { result ≡ lookup_size bytes.now }
{
    if bytes.len() < 8 {
        return None;
    }
    let count = word_at(bytes, 4);
    if count >= 1 << 31 {
        return None;
    }
    Some(8 + 8 * count as usize)
}
