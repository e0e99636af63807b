//! The code of methods: its instructions, and the static constraints on them (JVMS 4.7.3, 4.9.1, 6).
#![tactic(auto)]

mod code_fault;
mod decoder;
mod fault_laws;
mod faults;
mod first_pass;
mod found;
mod insn;
mod insn_faults;
mod insns;
mod known_slots;
mod laws;
mod method_use;
mod named_constants;
mod numbers;
mod opcode;
mod rules;
mod scope;
mod starts;
mod switch;
mod text_sizes;

pub use code_fault::{CodeFault, CodeRule};
pub use fault_laws::faults_are_exact;
pub use faults::{code_faults, faults_and_uses, faults_in, method_code};
pub use insn::{Insn, LinkKind};
pub use insns::Insns;
pub use laws::{
    codes_are_read, decoding_examples, instructions_are_apart, opcode_table,
    switch_tables_lie_in_the_code,
};
pub use method_use::MethodUse;
pub use opcode::{Opcode, Operands};
pub use switch::{Case, Cases, LookupSwitch, TableSwitch, Targets};
pub use text_sizes::TextSizes;
