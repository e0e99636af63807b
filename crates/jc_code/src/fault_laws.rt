//! Laws of code faults: functions without a body, whose contracts say what the definitions mean.

ghost use Rattle.std.specs.Prelude.{ℕ, List};
ghost use Rattle.jc_view.specs.Attributes.{Code};
ghost use Rattle.jc_view.specs.ClassFile.{ClassFile};
ghost use Rattle.jc_code.specs.declared.insn.Insn.{Insn};
ghost use Rattle.jc_code.specs.Insns.{IsCode};
ghost use Rattle.jc_code.specs.CodeViolations.{AreExact, AreInOrder};

/// The faults of a code are sorted by rule and then by place, without duplicates. They are exactly the
/// places where a rule is broken.
pub fn faults_are_exact()
    ensures rising { (c : ClassFile) (k : Code) (items : List (ℕ × Insn)) (end : ℕ) → IsCode k.code items end
        → AreInOrder c k items end }
    ensures exact { (c : ClassFile) (k : Code) (items : List (ℕ × Insn)) (end : ℕ) → IsCode k.code items end
        → AreExact c k items end }
{}
