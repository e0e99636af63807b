//! The classes that depend on a name, and the classes that require a row.

ghost use Rattle.std.specs.Prelude.{◌≡◌, OnErr, OnOk, false};
ghost use Rattle.jc_classes.specs.Names.{Name};
ghost use Rattle.jc_linkage.specs.inside.Kept.{Relation, linked};
ghost use Rattle.jc_linkage.specs.inside.LinkSets.{Adds, AddsSome, TakesOut, links_but, links_of};

use crate::class_entry::ClassEntry;
use crate::row_index::RowIndex;
use jc_base::NoMemory;
use jc_index::Index;
use std::alloc::Global;

/// For each name the classes whose reach has it, and for each row the classes that require it.
#[derive(Drop)]
pub(crate) struct Dependants {
    pub(crate) reach: Index,
    pub(crate) required: RowIndex,
}

impl Dependants {
    /// Returns an empty set of links. Does not allocate.
    pub(crate) fn new(alloc: Global) -> Dependants
        ensures { (r : Relation) (n d : Name) → linked r result n d ≡ false }
    {
        Dependants {
            reach: Index::new(alloc),
            required: RowIndex::new(alloc),
        }
    }

    /// Links a class to each name of its entry. If an allocation fails, some of these links may have been added.
    pub(crate) fn link(&mut self, class: &[u8], kept: &ClassEntry) -> Result<(), NoMemory>
        ensures ok { OnOk result (Adds (links_of class.now kept.now) self.old self.new) }
        ensures err { OnErr result (AddsSome (links_of class.now kept.now) self.old self.new) }
    {
        self.reach.link_all(&kept.reach, class)?;
        self.required.link_all(&kept.required, class)
    }

    /// Links a class to each name of its entry that another entry lacks. If an allocation fails, some of these links
    /// may have been added.
    pub(crate) fn link_but(
        &mut self,
        class: &[u8],
        kept: &ClassEntry,
        other: &ClassEntry,
    ) -> Result<(), NoMemory>
        ensures ok { OnOk result (Adds (links_but class.now kept.now other.now) self.old self.new) }
        ensures err { OnErr result (AddsSome (links_but class.now kept.now other.now) self.old self.new) }
    {
        self.reach.link_all_but(&kept.reach, &other.reach, class)?;
        self.required
            .link_all_but(&kept.required, &other.required, class)
    }

    /// Removes the links of a class to each name of an entry. Does not allocate.
    pub(crate) fn unlink(&mut self, class: &[u8], kept: &ClassEntry)
        ensures { TakesOut (links_of class.now kept.now) self.old self.new }
    {
        self.reach.unlink_all(&kept.reach, class);
        self.required.unlink_all(&kept.required, class);
    }

    /// Removes the links of a class to each name of an entry that another entry lacks. Does not allocate.
    pub(crate) fn unlink_but(&mut self, class: &[u8], kept: &ClassEntry, other: &ClassEntry)
        ensures { TakesOut (links_but class.now kept.now other.now) self.old self.new }
    {
        self.reach.unlink_all_but(&kept.reach, &other.reach, class);
        self.required
            .unlink_all_but(&kept.required, &other.required, class);
    }
}
