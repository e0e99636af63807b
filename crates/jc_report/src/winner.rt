//! Which of two files wins a class.

ghost use Rattle.std.specs.Prelude.{◌≡◌};
ghost use Rattle.std.specs.Option.{option_copied};
ghost use Rattle.jc_report.specs.Winners.{wins};

use jc_classes::less;

/// Returns whether the file at the path wins a class that the file at the path `other` names too. The lesser path wins,
/// and a file without another wins. Does not allocate.
pub fn wins(path: &[u8], other: Option<&[u8]>) -> bool
    ensures { result ≡ wins path.now (option_copied other.entry) }
{
    match other {
        Some(other) => less(path, other),
        None => true,
    }
}
