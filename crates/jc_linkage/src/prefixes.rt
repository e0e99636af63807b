//! Changes of the outside prefixes.

ghost use Rattle.std.specs.Prelude.{◌≡◌, ◌≤◌, ◌||◌, IfOk, OnErr, OnOk};
ghost use Rattle.std.specs.FinMap as map;
ghost use Rattle.jc_classes.specs.NameLists.{has};
ghost use Rattle.jc_classes.specs.Names.{Name, names_of, same_name};
ghost use Rattle.jc_linkage.specs.Affected.{NoRepeat};
ghost use Rattle.jc_linkage.specs.Switches.{switches};
ghost use Rattle.jc_linkage.specs.inside.Holding.{IsCountedOver, IsHeld};
ghost use Rattle.jc_linkage.specs.inside.SwitchedNames.{HasEachUser, HasOnlyUsers, switches_by};

use crate::class_entry::ClassEntry;
use crate::dependants::Dependants;
use crate::new_parts::prepare;
use crate::replacement::commit;
use jc_base::{ByteMap, NoMemory};
use jc_classes::same;
use jc_link::{Meter, Outside, Table};
use std::alloc::Global;

/// Recomputes the parts of the classes whose reach has a name that becomes outside or inside. If an allocation fails,
/// the entries stay right for the old prefixes.
pub(crate) fn remake_switched(
    alloc: Global,
    table: &Table,
    old: &Outside,
    new: &Outside,
    kept: &mut ByteMap<ClassEntry>,
    dependants: &mut Dependants,
    meter: &mut Meter,
) -> Result<(), NoMemory>
    requires { IsHeld table.now old.now kept.old dependants.old }
    ensures ok { OnOk result (IsHeld table.now new.now kept.new dependants.new) }
    ensures err { OnErr result (IsHeld table.now old.now kept.new dependants.new) }
    ensures counted { OnOk result (IsCountedOver table.now new.now (switches table.now old.now new.now) meter.old meter.new) }
    ensures asks_rise { meter.old.asks ≤ meter.new.asks }
    ensures made_rise { meter.old.made ≤ meter.new.made }
{
    let names = users_of_switched(alloc, kept, dependants, old, new)?;
    let fresh = prepare(alloc, table, new, kept, dependants, &names, None, meter)?;
    commit(kept, dependants, fresh);
    Ok(())
}

/// Returns the classes whose reach has a name that becomes outside or inside, each once.
fn users_of_switched(
    alloc: Global,
    kept: &ByteMap<ClassEntry>,
    dependants: &Dependants,
    old: &Outside,
    new: &Outside,
) -> Result<Vec<Vec<u8>>, NoMemory>
    ensures sound { IfOk result (λ users. HasOnlyUsers (switches_by kept.now old.now new.now) dependants.now.reach (names_of users.items)) }
    ensures complete { IfOk result (λ users. HasEachUser (switches_by kept.now old.now new.now) dependants.now.reach (names_of users.items)) }
    ensures once { IfOk result (λ users. NoRepeat (names_of users.items)) }
{
    let mut found = ByteMap::new(alloc);
    for name in dependants.reach.keys() {
        if switches(kept, old, new, name) {
            add_all(alloc, &mut found, dependants.reach.users(name))?;
        }
    }
    found.into_keys(alloc)
}

/// Returns whether a name becomes outside or inside when the prefixes change.
fn switches(kept: &ByteMap<ClassEntry>, old: &Outside, new: &Outside, name: &[u8]) -> bool
    ensures { result ≡ switches_by kept.now old.now new.now name.now }
{
    old.covers(name) != new.covers(name)
        && !kept.contains_key(name)
        && !same(name, b"java/lang/Object")
}

/// Adds names to a set.
fn add_all(alloc: Global, found: &mut ByteMap<()>, names: &[Vec<u8>]) -> Result<(), NoMemory>
    ensures { OnOk result ((d : Name) → map.contains_key found.new d ≡ (map.contains_key found.old d || has (names_of names.now) d)) }
{
    for name in names {
        add(alloc, found, name)?;
    }
    Ok(())
}

fn add(alloc: Global, found: &mut ByteMap<()>, name: &[u8]) -> Result<(), NoMemory>
    ensures { OnOk result ((d : Name) → map.contains_key found.new d ≡ (map.contains_key found.old d || same_name d name.now)) }
{
    if !found.contains_key(name) {
        let name = Vec::from_slice(alloc, name)?;
        found.insert(name, ())?;
    }
    Ok(())
}
