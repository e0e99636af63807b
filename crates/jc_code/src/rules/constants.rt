//! The rules for the constants that instructions name, and for other operands.

ghost use Rattle.std.specs.Prelude.{◌≡◌, ◌&&◌, nat_le, not};
ghost use Rattle.jc_view.specs.declared.constant_pool.ConstantKind.TheVariants as kinds;
ghost use Rattle.jc_view.specs.Lookups.{is_entry, passes};
ghost use Rattle.jc_code.specs.declared.insn.Insn.TheVariants as insns;
ghost use Rattle.jc_code.specs.CodeRules.{is_bad_special, is_other_count, is_right_entry, is_special, referred_name};
ghost use Rattle.jc_code.specs.CodeRules.{breaks_s6, breaks_s7, breaks_s18, breaks_s19, breaks_s20};

use crate::opcode::Opcode;
use crate::rules::lookups::{
    is_double, is_either_method, is_init, is_single, is_special, referred_name,
};
use crate::scope::Scope;
use jc_view::{ConstantIndex, ConstantKind};

/// Returns whether `ldc` or `ldc_w` names no constant that it may load.
pub(crate) fn breaks_s6(scope: &Scope, opcode: Opcode, index: ConstantIndex) -> bool
    ensures { result ≡ breaks_s6 scope.now (insns.Ldc opcode index) }
{
    opcode != Opcode::LDC2_W && !is_single(scope.class(), index)
}

/// Returns whether `ldc2_w` loads neither a `Long` nor a `Double`.
pub(crate) fn breaks_s7(scope: &Scope, opcode: Opcode, index: ConstantIndex) -> bool
    ensures { result ≡ breaks_s7 scope.now (insns.Ldc opcode index) }
{
    opcode == Opcode::LDC2_W && !is_double(scope.class(), index)
}

pub(crate) fn breaks_s8(scope: &Scope, index: ConstantIndex) -> bool
    ensures { result ≡ not (is_entry scope.now.class kinds.Fieldref index) }
{
    !scope.class().is_entry(ConstantKind::Fieldref, index)
}

pub(crate) fn is_interface_method(scope: &Scope, index: ConstantIndex) -> bool
    ensures { result ≡ is_entry scope.now.class kinds.InterfaceMethodref index }
{
    scope
        .class()
        .is_entry(ConstantKind::InterfaceMethodref, index)
}

/// Returns whether a count differs from the slots of an interface method's parameters and the receiver.
pub(crate) fn is_other_count(scope: &Scope, index: ConstantIndex, count: u8) -> bool
    ensures { result ≡ is_other_count scope.now.class index count }
{
    match scope.sizes.slots(index) {
        Some(slots) => u16::from(count) != u16::from(slots) + 1,
        None => false,
    }
}

pub(crate) fn breaks_s14(scope: &Scope, index: ConstantIndex) -> bool
    ensures { result ≡ not (is_entry scope.now.class kinds.InvokeDynamic index) }
{
    !scope.class().is_entry(ConstantKind::InvokeDynamic, index)
}

/// Returns whether an invocation names an entry of a kind that it may name.
pub(crate) fn is_right_entry(scope: &Scope, opcode: Opcode, index: ConstantIndex) -> bool
    ensures { result ≡ is_right_entry scope.now opcode index }
{
    if opcode == Opcode::INVOKEVIRTUAL {
        scope.class().is_entry(ConstantKind::Methodref, index)
    } else {
        is_either_method(scope.class(), index)
    }
}

/// Returns whether an invocation names a special method that it may not invoke.
pub(crate) fn is_bad_special(scope: &Scope, opcode: Opcode, index: ConstantIndex) -> bool
    ensures { result ≡ is_bad_special scope.now.class opcode index }
{
    match referred_name(scope.class(), index) {
        Some(name) => is_special(name) && !(opcode == Opcode::INVOKESPECIAL && is_init(name)),
        None => false,
    }
}

/// Returns whether `invokeinterface` names a special method by an entry of the right kind.
pub(crate) fn is_right_special(scope: &Scope, is_right: bool, index: ConstantIndex) -> bool
    ensures { result ≡ (is_right && passes is_special (referred_name scope.now.class index)) }
{
    is_right && names_special(scope, index)
}

fn names_special(scope: &Scope, index: ConstantIndex) -> bool
    ensures { result ≡ passes is_special (referred_name scope.now.class index) }
{
    match referred_name(scope.class(), index) {
        Some(name) => is_special(name),
        None => false,
    }
}

pub(crate) fn breaks_s17(scope: &Scope, index: ConstantIndex) -> bool
    ensures { result ≡ not (is_entry scope.now.class kinds.Class index) }
{
    !scope.class().is_entry(ConstantKind::Class, index)
}

pub(crate) fn breaks_s18(scope: &Scope, opcode: Opcode, index: ConstantIndex) -> bool
    ensures { result ≡ breaks_s18 scope.now (insns.Type opcode index) }
{
    opcode == Opcode::NEW && scope.sizes.dimensions(index).is_some_and(|count| count > 0)
}

pub(crate) fn breaks_s19(scope: &Scope, opcode: Opcode, index: ConstantIndex) -> bool
    ensures { result ≡ breaks_s19 scope.now (insns.Type opcode index) }
{
    opcode == Opcode::ANEWARRAY
        && scope
            .sizes
            .dimensions(index)
            .is_some_and(|count| count == 255)
}

/// Returns whether `multianewarray` creates no dimension, or more dimensions than the class has.
pub(crate) fn breaks_s20(scope: &Scope, index: ConstantIndex, made: u8) -> bool
    ensures { result ≡ breaks_s20 scope.now (insns.MultiNewArray index made) }
{
    made == 0
        || scope
            .sizes
            .dimensions(index)
            .is_some_and(|count| count < made)
}

pub(crate) fn breaks_s21(element: u8) -> bool
    ensures { result ≡ not (nat_le 4 element && nat_le element 11) }
{
    element < 4 || element > 11
}
