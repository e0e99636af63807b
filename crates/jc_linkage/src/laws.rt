//! Laws about the definitions only.

ghost use Rattle.jc_linkage.specs.Affected.{CountsAreBounded};

/// A law: an edit computes at most as many parts as it affects classes. It looks up at most as many names as the
/// reaches of these classes have together, plus two.
pub fn counts_are_bounded()
    ensures { CountsAreBounded }
{}
