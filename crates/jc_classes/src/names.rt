//! Comparison of names, by their bytes.

ghost use Rattle.std.specs.Prelude.{◌≡◌};
ghost use Rattle.jc_classes.specs.Names.{name_less, same_name};

/// Returns whether two names are the same.
pub fn same(a: &[u8], b: &[u8]) -> bool
    ensures { result ≡ same_name a.now b.now }
{
    a == b
}

/// Returns whether a name is less than another in the order of bytes.
pub fn less(a: &[u8], b: &[u8]) -> bool
    ensures { result ≡ name_less a.now b.now }
{
    a.cmp(b).is_lt()
}
