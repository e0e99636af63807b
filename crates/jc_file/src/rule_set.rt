//! Sets of format rules.

ghost use Rattle.std.specs.Prelude.{◌≡◌, cond, true, false};
ghost use Rattle.jc_file.specs.declared.fault.FormatRule.{FormatRule};
ghost use Rattle.jc_file.specs.inside.RuleSets.{has, same_rule};

use crate::fault::FormatRule;

/// A set of format rules.
#[derive(Clone, Copy)]
pub(crate) struct RuleSet {
    bits: u32,
}

impl RuleSet {
    pub(crate) fn none() -> RuleSet
        ensures { (rule : FormatRule) → has result rule ≡ false }
    {
        RuleSet { bits: 0 }
    }

    /// Returns this set, with the rule if it is broken, or without the rule if it is not.
    pub(crate) fn with(self, rule: FormatRule, is_broken: bool) -> RuleSet
        ensures { (other : FormatRule) → has result other ≡ cond (same_rule rule other) is_broken (has self other) }
    {
        let bit = 1 << rule.number();
        RuleSet {
            bits: if is_broken {
                self.bits | bit
            } else {
                self.bits & !bit
            },
        }
    }

    pub(crate) fn has(self, rule: FormatRule) -> bool
        ensures { result ≡ has self rule }
    {
        self.bits >> rule.number() & 1 == 1
    }

    pub(crate) fn is_empty(self) -> bool
        ensures { result ≡ true → (rule : FormatRule) → has self rule ≡ false }
    {
        self.bits == 0
    }
}
