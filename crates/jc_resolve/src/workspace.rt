//! Working memory for look-up.

ghost use Rattle.std.specs.Prelude.{IfOk, IfSome};
ghost use Rattle.jc_resolve.specs.inside.Rooms.{IsRoom};

use jc_base::NoMemory;
use jc_graph::Seen;
use jc_numbered::{Above, Classes};
use std::alloc::Global;

/// Working memory for look-up, which all classes share.
#[derive(Drop)]
pub(crate) struct Workspace {
    /// The transitive supertypes of the class that was asked for last.
    pub(crate) above: Above,
    /// The classes in which a field was looked for, or the supertypes of the candidates in a choice among
    /// superinterfaces.
    pub(crate) covered: Seen,
    /// The classes in which a field is still to be looked for, the next one last.
    pub(crate) stack: Vec<usize>,
}

impl Workspace {
    /// Returns working memory that fits these classes.
    pub(crate) fn new(alloc: Global, classes: &Classes) -> Result<Workspace, NoMemory>
        ensures { IfOk result (IsRoom classes.now) }
    {
        Ok(Workspace {
            above: Above::new(alloc, classes.len())?,
            covered: Seen::new(alloc, classes.len())?,
            stack: Vec::new(alloc),
        })
    }

    /// Returns the working memory that was kept for these classes, or allocates it.
    pub(crate) fn of(
        alloc: Global,
        kept: Option<Workspace>,
        classes: &Classes,
    ) -> Result<Workspace, NoMemory>
        requires { IfSome kept (IsRoom classes.now) }
        ensures { IfOk result (IsRoom classes.now) }
    {
        match kept {
            Some(room) => Ok(room),
            None => Workspace::new(alloc, classes),
        }
    }
}
