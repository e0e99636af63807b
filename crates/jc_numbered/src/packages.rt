//! Packages of names.

ghost use Rattle.std.specs.Prelude.{◌≡◌, map, IfOk};
ghost use Rattle.jc_numbered.specs.inside.Packages.{package_end};

use jc_base::NoMemory;
use jc_classes::Numbers;
use std::alloc::Global;

/// Returns the length of the package of each name (JVMS 5.3).
pub fn package_ends(alloc: Global, names: &Numbers) -> Result<Vec<usize>, NoMemory>
    ensures { IfOk result (λ ends. ends.items ≡ map package_end names.now) }
{
    let mut ends = Vec::with_capacity(alloc, names.len())?;
    for node in 0..names.len() {
        ends.push(package_end(names.name(node)))?;
    }
    Ok(ends)
}

/// Returns the length of the package of a name: the place of its last slash, and 0 if there is none (JVMS 5.3).
fn package_end(name: &[u8]) -> usize
    ensures { result ≡ package_end name.now }
{
    let mut end = name.len();
    while end > 0 {
        end -= 1;
        if name[end] == b'/' {
            return end;
        }
    }
    0
}
