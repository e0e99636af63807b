//! Laws of the definitions: functions without a body, whose contracts are the laws.

ghost use Rattle.std.specs.Prelude.{◌≡◌, ℕ, List, ◌∷◌, length, IsTrue};
ghost use Rattle.jc_code.specs.declared.insn.Insn.{Insn};
ghost use Rattle.jc_code.specs.Switches.{LookupSwitch, TableSwitch};
ghost use Rattle.jc_code.specs.Opcodes.{groups, opcodes, begin_in_order, IsSized};
ghost use Rattle.jc_code.specs.Insns.{IsSpelling, Stands, IsCode, TargetsLieIn, CasesLieIn};
ghost use Rattle.jc_code.specs.InsnReading.{end_of, insns_of};
ghost use Rattle.jc_view.specs.Outcome.{AreBytes};
ghost use Rattle.jc_code.specs.Examples.{plain_code, plain_insns, cut_code, cut_insns, falling_code};
ghost use Rattle.jc_code.specs.Examples.{falling_insns, wide_code, wide_insns, switch_code, switch_insns};

/// States that a code has at most one instruction at each place. It has at most one list of instructions, which ends at
/// one place.
pub fn instructions_are_apart()
    ensures one { (code : List ℕ) (at : ℕ) (a b : Insn) → Stands code at a → Stands code at b → a ≡ b }
    ensures items { (code : List ℕ) (items more : List (ℕ × Insn)) (end last : ℕ)
        → IsCode code items end → IsCode code more last → items ≡ more }
    ensures end { (code : List ℕ) (items more : List (ℕ × Insn)) (end last : ℕ)
        → IsCode code items end → IsCode code more last → end ≡ last }
{}

/// States that `insns_of` and `end_of` return the instructions of a code and the place where they end.
pub fn codes_are_read()
    ensures { (code : List ℕ) → AreBytes code → IsCode code (insns_of code) (end_of code) }
{}

/// States that there are 202 opcodes. A group of opcodes begins at the number of opcodes in the groups before it. The
/// operands of an opcode other than a switch or `wide` have the number of bytes of their kind.
pub fn opcode_table()
    ensures count { length opcodes ≡ 202 }
    ensures groups { IsTrue (begin_in_order 0 groups) }
    ensures lengths { (at : ℕ) (insn : Insn) (opcode : ℕ) (s : List ℕ) → IsSpelling at insn (opcode ∷ s) → IsSized opcode s }
{}

/// States where the table of a switch is in the code: after the default target and the bounds, or after the default
/// target and the count. The default target is at the first multiple of four after the place of the switch (JVMS 6.5).
pub fn switch_tables_lie_in_the_code()
    ensures targets { (code : List ℕ) (at : ℕ) (switch : TableSwitch)
        → Stands code at (Insn.TableSwitch switch) → TargetsLieIn code at switch }
    ensures cases { (code : List ℕ) (at : ℕ) (switch : LookupSwitch)
        → Stands code at (Insn.LookupSwitch switch) → CasesLieIn code at switch }
{}

/// States the instructions of some codes, and where they end.
pub fn decoding_examples()
    ensures plain { IsCode plain_code plain_insns 5 }
    ensures cut { IsCode cut_code cut_insns 1 }
    ensures falling { IsCode falling_code falling_insns 1 }
    ensures wide { IsCode wide_code wide_insns 6 }
    ensures switch { IsCode switch_code switch_insns 25 }
{}
