//! One pass over the instructions of a method's code.

ghost use Rattle.std.specs.Prelude.{◌≡◌, ◌<◌, ◌^◌, ◌++◌, ◌∷◌, [], cond, length, IfOk, OnOk};
ghost use Rattle.jc_code.specs.InsnReading.{insns_of};
ghost use Rattle.jc_code.specs.inside.FirstPass.{IsFirstPass, name_if, named_if, use_if, uses_if};
ghost use Rattle.jc_code.specs.inside.Found.{has_targets, insn_faults};
ghost use Rattle.jc_code.specs.inside.Fronts.{BeginsWith};

use crate::code_fault::CodeFault;
use crate::insn::Insn;
use crate::insn_faults::add_insn_faults;
use crate::insns::Insns;
use crate::method_use::{MethodUse, push_use};
use crate::named_constants::push_named;
use crate::scope::Scope;
use crate::starts::Starts;
use jc_base::NoMemory;
use jc_view::ConstantIndex;
use std::alloc::Global;

/// The result of one pass: where instructions start, the offset where they end, and the faults of the instructions
/// without targets.
///
/// `jumps` has the instructions with targets, each with its offset. Their targets can be checked only when all starts
/// are known.
#[derive(Drop)]
pub(crate) struct FirstPass<'a> {
    pub(crate) starts: Starts,
    pub(crate) end: u32,
    pub(crate) jumps: Vec<(u32, Insn<'a>)>,
    pub(crate) found: Vec<CodeFault>,
}

/// Decodes each instruction of a method's code once. Does not use the starts in `scope`, which are not known yet.
///
/// If `are_wanted`, appends the uses of references to `uses`, and the constants that instructions name to `names`. If
/// an allocation fails, some of them may have been appended.
pub(crate) fn first_pass<'a>(
    alloc: Global,
    scope: &Scope,
    code: &'a [u8],
    method: u16,
    are_wanted: bool,
    uses: &mut Vec<MethodUse>,
    names: &mut Vec<ConstantIndex>,
) -> Result<FirstPass<'a>, NoMemory>
    requires { length code.now < 2 ^ 16 }
    ensures found { IfOk result (λ pass. IsFirstPass scope.now code.now pass) }
    ensures uses { OnOk result (uses.new.items ≡ uses.old.items ++ uses_if are_wanted method (insns_of code.now)) }
    ensures names { OnOk result (names.new.items ≡ names.old.items ++ named_if are_wanted (insns_of code.now)) }
    ensures uses_kept { BeginsWith uses.new.items uses.old.items }
    ensures names_kept { BeginsWith names.new.items names.old.items }
{
    let mut marks = vec![in alloc; false; code.len()]?;
    let mut jumps = Vec::new(alloc);
    let mut found = Vec::new(alloc);
    let mut insns = Insns::new(code);
    while let Some((place, insn)) = insns.next() {
        marks[place as usize] = true;
        push_if(are_wanted, uses, names, method, place as u16, &insn)?;
        if has_targets(&insn) {
            jumps.push((place, insn))?;
        } else {
            add_insn_faults(&mut found, scope, place, &insn)?;
        }
    }
    Ok(FirstPass {
        starts: Starts { marks },
        end: insns.rest(),
        jumps,
        found,
    })
}

/// If `are_wanted`, appends the use of a reference by an instruction, and the constant that the instruction names.
fn push_if(
    are_wanted: bool,
    uses: &mut Vec<MethodUse>,
    names: &mut Vec<ConstantIndex>,
    method: u16,
    place: u16,
    insn: &Insn,
) -> Result<(), NoMemory>
    ensures uses { OnOk result (uses.new.items ≡ uses.old.items ++ use_if are_wanted method (place, insn.now)) }
    ensures names { OnOk result (names.new.items ≡ names.old.items ++ name_if are_wanted (place, insn.now)) }
    ensures uses_kept { BeginsWith uses.new.items uses.old.items }
    ensures names_kept { BeginsWith names.new.items names.old.items }
{
    if are_wanted {
        push_use(uses, method, place, insn)?;
        push_named(names, insn)?;
    }
    Ok(())
}

/// Returns whether the rules for an instruction need the starts of instructions.
fn has_targets(insn: &Insn) -> bool
    ensures { result ≡ has_targets insn.now }
{
    matches!(
        insn,
        Insn::Branch { .. } | Insn::TableSwitch(_) | Insn::LookupSwitch(_)
    )
}
