//! The faults of a method's code (JVMS 4.7.3, 4.9.1).

ghost use Rattle.std.specs.Prelude.{◌≡◌, ◌<◌, ◌≤◌, ◌++◌, ◌↔◌, [], ◌∷◌, Contains, IfOk, OnErr, OnOk, length};
ghost use Rattle.std.specs.List.{flat_map};
ghost use Rattle.std.specs.Option.{option_map};
ghost use Rattle.std.specs.List.Sorted.{IsStrictlySortedBy};
ghost use Rattle.jc_view.specs.declared.attribute_kind.Holder.TheVariants as holders;
ghost use Rattle.jc_view.specs.Lent.{handler_of};
ghost use Rattle.jc_code.specs.declared.code_fault.CodeFault.{CodeFault};
ghost use Rattle.jc_code.specs.declared.code_fault.CodeRule.TheVariants as rules;
ghost use Rattle.jc_code.specs.CodeFaults.{AreFaultsIfAny, AreFaultsOf, AreFaultsOfMethod};
ghost use Rattle.jc_code.specs.CodeFaults.{code_of_member, fault_at, faults_of, handler_breaks, scope_with};
ghost use Rattle.jc_code.specs.inside.FirstPass.{IsFirstPass, named_if, uses_if};
ghost use Rattle.jc_code.specs.inside.Found.{by_rule, faults_at, handler_faults, insn_faults};
ghost use Rattle.jc_code.specs.CodeFaultOrder.{fault_cmp};
ghost use Rattle.jc_code.specs.CodeViolations.{BreaksCode, ViolatesCode};
ghost use Rattle.jc_code.specs.InsnReading.{insns_of};
ghost use Rattle.jc_code.specs.MethodUses.{code_uses, uses_among};
ghost use Rattle.jc_code.specs.NamedConstants.{named_by_code};
ghost use Rattle.jc_code.specs.inside.Fronts.{BeginsWith};

use crate::code_fault::{CodeFault, CodeRule};
use crate::first_pass::{FirstPass, first_pass};
use crate::found::{add_if, by_rule};
use crate::insn::Insn;
use crate::insn_faults::add_insn_faults;
use crate::laws::{codes_are_read, instructions_are_apart};
use crate::method_use::MethodUse;
use crate::named_constants::push_catch_types;
use crate::numbers::as_bytes;
use crate::rules::handlers::{breaks_s23, breaks_s24};
use crate::scope::Scope;
use crate::starts::Starts;
use crate::text_sizes::TextSizes;
use jc_base::NoMemory;
use jc_view::{ClassView, Code, ConstantIndex, ExceptionHandler, Member};
use std::alloc::Global;

/// Returns all places of a method's code where a static constraint is broken, by rule and then by place (JVMS 4.7.3,
/// 4.9.1). `method` is the method's number.
///
/// If the code does not consist of instructions to its end, S1 is the only fault. A method without
/// exactly one well-formed `Code` has no fault, nor does a number without a method.
///
/// Returns `NoMemory` only when an allocation fails. To check all methods of a class, call [`faults_in`] with the code
/// of each. This function searches for the method and computes the text sizes of the class each time.
pub fn code_faults(
    alloc: Global,
    class: &ClassView,
    method: usize,
) -> Result<Vec<CodeFault>, NoMemory>
    ensures listed { IfOk result (λ found. AreFaultsOfMethod class.now method found.items) }
    ensures violated { IfOk result (λ found. (fault : CodeFault)
        → Contains found.items fault ↔ ViolatesCode fault.rule class.now method fault.place) }
    ensures rising { IfOk result (λ found. IsStrictlySortedBy fault_cmp found.items) }
{
    instructions_are_apart();
    list_method_faults(alloc, class, method)
}

/// Returns the faults of a method in their order, by the method's number.
fn list_method_faults(
    alloc: Global,
    class: &ClassView,
    method: usize,
) -> Result<Vec<CodeFault>, NoMemory>
    ensures { IfOk result (λ found. AreFaultsOfMethod class.now method found.items) }
{
    match class.methods().nth(method) {
        Some(member) => list_member_faults(alloc, class, &member),
        None => Ok(Vec::new(alloc)),
    }
}

/// Returns the faults of a method of the class, in their order.
fn list_member_faults(
    alloc: Global,
    class: &ClassView,
    member: &Member,
) -> Result<Vec<CodeFault>, NoMemory>
    requires class { member.now.class ≡ class.now }
    requires holder { member.now.member.holder ≡ holders.Method }
    ensures { IfOk result (λ found. AreFaultsIfAny class.now (code_of_member class.now member.now.member.member) found.items) }
{
    match method_code(member) {
        Some(code) => faults_alone(alloc, &TextSizes::of(alloc, class)?, &code),
        None => Ok(Vec::new(alloc)),
    }
}

/// Returns the code of a method, if it has exactly one well-formed `Code` (JVMS 4.7.3).
pub fn method_code<'v, 'a>(member: &Member<'v, 'a>) -> Option<Code<'v, 'a>>
    ensures { member.now.member.holder ≡ holders.Method
        → option_map (λ lent. lent.code) result ≡ code_of_member member.now.class member.now.member.member }
{
    let mut found = None;
    for attribute in member.attributes() {
        if let Some(code) = attribute.code() {
            if found.is_some() {
                return None;
            }
            found = Some(code);
        }
    }
    found
}

/// Returns the faults of the code of a method, in the order of [`code_faults`].
///
/// The sizes are those of the method's class. The caller can compute them once for all its methods. Returns
/// `NoMemory` only when an allocation fails.
pub fn faults_in(alloc: Global, sizes: &TextSizes, code: &Code) -> Result<Vec<CodeFault>, NoMemory>
    ensures listed { IfOk result (λ found. AreFaultsOf sizes.now code.now.code found.items) }
    ensures violated { IfOk result (λ found. (fault : CodeFault)
        → Contains found.items fault ↔ BreaksCode fault.rule sizes.now code.now.code fault.place) }
    ensures rising { IfOk result (λ found. IsStrictlySortedBy fault_cmp found.items) }
    ensures computed { IfOk result (λ found. found.items ≡ faults_of sizes.now code.now.code) }
{
    let _bytes = as_bytes(code.bytes());
    codes_are_read();
    instructions_are_apart();
    faults_alone(alloc, sizes, code)
}

/// Returns the faults of the code of a method, as [`faults_in`] does, and lists its uses and the constants it names.
///
/// Appends to `uses` what the instructions do with the references that they name, or nothing if the code has a
/// fault. In these uses the method has the number `method`. Appends to `names` the constants that the code names.
///
/// Returns `NoMemory` only when an allocation fails. Then both lists are as they were.
pub fn faults_and_uses(
    alloc: Global,
    sizes: &TextSizes,
    code: &Code,
    method: u16,
    uses: &mut Vec<MethodUse>,
    names: &mut Vec<ConstantIndex>,
) -> Result<Vec<CodeFault>, NoMemory>
    ensures faults { IfOk result (λ found. found.items ≡ faults_of sizes.now code.now.code) }
    ensures uses { OnOk result (uses.new.items ≡ uses.old.items ++ code_uses sizes.now method code.now.code) }
    ensures names { OnOk result (names.new.items ≡ names.old.items ++ named_by_code code.now.code) }
    ensures err { OnErr result ((uses.new.items ≡ uses.old.items) × (names.new.items ≡ names.old.items)) }
{
    let _bytes = as_bytes(code.bytes());
    codes_are_read();
    instructions_are_apart();
    let uses_before = uses.len();
    let names_before = names.len();
    match list_and_name(alloc, sizes, code, method, uses, names) {
        Ok(faults) => {
            if !faults.is_empty() {
                uses.truncate(uses_before);
            }
            Ok(faults)
        }
        Err(NoMemory) => {
            uses.truncate(uses_before);
            names.truncate(names_before);
            Err(NoMemory)
        }
    }
}

/// Returns the faults of the code of a method, in their order.
///
/// Appends all uses, and all constants that the code names.
fn list_and_name(
    alloc: Global,
    sizes: &TextSizes,
    code: &Code,
    method: u16,
    uses: &mut Vec<MethodUse>,
    names: &mut Vec<ConstantIndex>,
) -> Result<Vec<CodeFault>, NoMemory>
    ensures faults { IfOk result (λ found. AreFaultsOf sizes.now code.now.code found.items) }
    ensures uses { OnOk result (uses.new.items ≡ uses.old.items ++ uses_among method (insns_of code.now.code.code)) }
    ensures names { OnOk result (names.new.items ≡ names.old.items ++ named_by_code code.now.code) }
    ensures uses_kept { BeginsWith uses.new.items uses.old.items }
    ensures names_kept { BeginsWith names.new.items names.old.items }
{
    let faults = list_faults(alloc, sizes, code, method, true, uses, names)?;
    push_catch_types(names, code)?;
    Ok(faults)
}

/// Returns the faults of a code, in their order.
fn faults_alone(alloc: Global, sizes: &TextSizes, code: &Code) -> Result<Vec<CodeFault>, NoMemory>
    ensures { IfOk result (λ found. AreFaultsOf sizes.now code.now.code found.items) }
{
    let mut uses = Vec::new(alloc);
    let mut names = Vec::new(alloc);
    list_faults(alloc, sizes, code, 0, false, &mut uses, &mut names)
}

/// Returns the faults of the code of a method, in their order.
///
/// If they are wanted, appends all uses, and the constants that instructions name.
fn list_faults(
    alloc: Global,
    sizes: &TextSizes,
    code: &Code,
    method: u16,
    are_wanted: bool,
    uses: &mut Vec<MethodUse>,
    names: &mut Vec<ConstantIndex>,
) -> Result<Vec<CodeFault>, NoMemory>
    ensures faults { IfOk result (λ found. AreFaultsOf sizes.now code.now.code found.items) }
    ensures uses { OnOk result (uses.new.items ≡ uses.old.items ++ uses_if are_wanted method (insns_of code.now.code.code)) }
    ensures names { OnOk result (names.new.items ≡ names.old.items ++ named_if are_wanted (insns_of code.now.code.code)) }
    ensures uses_kept { BeginsWith uses.new.items uses.old.items }
    ensures names_kept { BeginsWith names.new.items names.old.items }
{
    let bare = scope_with(sizes, code, Starts::none(alloc));
    let pass = first_pass(alloc, &bare, code.bytes(), method, are_wanted, uses, names)?;
    list_passed(alloc, sizes, code, pass)
}

/// Returns the faults of a code, from the result of the pass over its instructions.
fn list_passed(
    alloc: Global,
    sizes: &TextSizes,
    code: &Code,
    pass: FirstPass,
) -> Result<Vec<CodeFault>, NoMemory>
    requires { IsFirstPass (scope_with sizes.now code.now.code []) code.now.code.code pass }
    ensures { IfOk result (λ found. AreFaultsOf sizes.now code.now.code found.items) }
{
    let FirstPass {
        starts,
        end,
        jumps,
        mut found,
    } = pass;
    let scope = scope_with(sizes, code, starts);
    list_all(alloc, &scope, code, end, &jumps, &mut found)
}

/// Returns the faults that were found, with the faults of the instructions with targets and of the handlers.
///
/// If the instructions end before the code does, S1 is the only fault.
fn list_all(
    alloc: Global,
    scope: &Scope,
    code: &Code,
    end: u32,
    jumps: &[(u32, Insn)],
    found: &mut Vec<CodeFault>,
) -> Result<Vec<CodeFault>, NoMemory>
    ensures cut { IfOk result (λ faults. end < length code.now.code.code → faults.items ≡ fault_at rules.S1 end ∷ []) }
    ensures whole { IfOk result (λ faults. length code.now.code.code ≤ end → faults.items
        ≡ by_rule (found.old.items ++ flat_map (insn_faults scope.now) jumps.now ++ handler_faults scope.now 0 code.now.code.handlers)) }
{
    if (end as usize) < code.bytes().len() {
        return only_s1(alloc, end);
    }
    add_jump_faults(found, scope, jumps)?;
    add_handler_faults(found, scope, code)?;
    by_rule(alloc, found)
}

/// Returns the fault of a code whose instructions end at a place before the end of the code.
fn only_s1(alloc: Global, place: u32) -> Result<Vec<CodeFault>, NoMemory>
    ensures { IfOk result (λ faults. faults.items ≡ fault_at rules.S1 place ∷ []) }
{
    let mut faults = Vec::new(alloc);
    add_if(&mut faults, true, CodeRule::S1, place)?;
    Ok(faults)
}

/// Returns the scope of the rules in a code, with these starts of instructions.
fn scope_with<'c, 'a>(sizes: &'c TextSizes<'c, 'a>, code: &Code, starts: Starts) -> Scope<'c, 'a>
    ensures { result ≡ scope_with sizes.now code.now.code starts }
{
    Scope {
        sizes,
        max_locals: code.max_locals(),
        size: code.bytes().len(),
        starts,
    }
}

/// Adds the faults of the instructions with targets.
fn add_jump_faults(
    found: &mut Vec<CodeFault>,
    scope: &Scope,
    jumps: &[(u32, Insn)],
) -> Result<(), NoMemory>
    ensures { OnOk result (found.new.items ≡ found.old.items ++ flat_map (insn_faults scope.now) jumps.now) }
{
    for jump in jumps {
        add_insn_faults(found, scope, jump.0, &jump.1)?;
    }
    Ok(())
}

/// Adds the faults of the exception handlers.
fn add_handler_faults(
    found: &mut Vec<CodeFault>,
    scope: &Scope,
    code: &Code,
) -> Result<(), NoMemory>
    ensures { OnOk result (found.new.items ≡ found.old.items ++ handler_faults scope.now 0 code.now.code.handlers) }
{
    for (place, handler) in code.handlers().enumerate() {
        add_of_handler(found, scope, place as u32, handler)?;
    }
    Ok(())
}

/// Adds the faults of the exception handler at the number `place`.
#[tactic(auto, unfolding(crate::specs::CodeFaults::handler_breaks))]
fn add_of_handler(
    found: &mut Vec<CodeFault>,
    scope: &Scope,
    place: u32,
    handler: ExceptionHandler,
) -> Result<(), NoMemory>
    ensures { OnOk result (found.new.items ≡ found.old.items ++ faults_at (λ rule. handler_breaks rule scope.now (handler_of handler)) place) }
{
    add_if(found, breaks_s23(scope, handler), CodeRule::S23, place)?;
    add_if(found, breaks_s24(scope, handler), CodeRule::S24, place)
}
