//! Laws of the format faults: functions without an effect, whose contracts say what the tests of the rules mean.

ghost use Rattle.std.specs.Prelude.{◌≡◌, [], ◌∷◌, ◌↔◌, ℕ, Contains};
ghost use Rattle.jc_view.specs.declared.attribute_kind.AttributeKind.{AttributeKind};
ghost use Rattle.jc_view.specs.declared.attribute_kind.Holder.{Holder};
ghost use Rattle.jc_file.specs.declared.fault.FormatRule.{FormatRule};
ghost use Rattle.jc_view.specs.ClassFile.{ClassFile, layout};
ghost use Rattle.jc_view.specs.Outcome.{AreBytes};
ghost use Rattle.std.specs.List.Sorted.{IsStrictlySortedBy};
ghost use Rattle.jc_file.specs.declared.fault.Fault.{Fault};
ghost use Rattle.jc_file.specs.FaultOrder.{fault_cmp};
ghost use Rattle.jc_file.specs.Faults.{faults, places};
ghost use Rattle.jc_file.specs.Examples.{final_and_abstract, with_nameless_class, without_code};
ghost use Rattle.jc_view.specs.Examples.{class_a_data};
ghost use Rattle.jc_file.specs.Violations.{AreRecognised, Violates};

use jc_base::{descriptors_are_decided, texts_are_decided};
use jc_view::attributes_are_read;

/// States that the places of a rule are those where the rule is broken, in a class file whose bytes are below 256.
pub fn faults_are_violations()
    ensures { (c : ClassFile) (rule : FormatRule) (place : ℕ) → AreBytes (layout c)
        → Contains (places c rule) place ↔ Violates rule c place }
{
    texts_are_decided();
    descriptors_are_decided();
    attributes_are_read();
}

/// States that the attributes of a kind are those with its name, in a holder that the kind belongs to.
pub fn attributes_are_recognised()
    ensures { (c : ClassFile) (kind : AttributeKind) (holder : Holder) → AreRecognised c kind holder }
{}

/// States that the faults of a class file are sorted by rule, then by place, and that none is repeated. There is one
/// fault for each place of each rule.
pub fn faults_are_exact()
    ensures rising { (c : ClassFile) → IsStrictlySortedBy fault_cmp (faults c) }
    ensures exact { (c : ClassFile) (fault : Fault) → Contains (faults c) fault ↔ Contains (places c fault.rule) fault.place }
{}

/// States the faults of a class file of 53 bytes, and of three class files that differ a little from it.
pub fn fault_examples()
    ensures none { faults class_a_data ≡ [] }
    ensures nameless { faults with_nameless_class ≡ record { rule = FormatRule.F1; place = 5 } ∷ [] }
    ensures flags { faults final_and_abstract ≡ record { rule = FormatRule.F12; place = 0 } ∷ [] }
    ensures code { faults without_code ≡ record { rule = FormatRule.F23; place = 0 } ∷ [] }
{}
