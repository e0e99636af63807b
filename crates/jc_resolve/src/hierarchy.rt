//! The numbered classes of a class graph, with how each loads (JVMS 5.3.5), and the answers to their references (JVMS
//! 5.4.3).

ghost use Rattle.std.specs.Prelude.{◌≡◌, ◌<◌, ℕ, length, map, Some, IfOk};
ghost use Rattle.std.specs.Bool.{Decides};
ghost use Rattle.std.specs.List.{All, Contains};
ghost use Rattle.jc_classes.specs.Inheritance.{AreInherited};
ghost use Rattle.jc_classes.specs.Loading.{Load as Loads};
ghost use Rattle.jc_classes.specs.Names.{object as java_lang_object};
ghost use Rattle.jc_classes.specs.Numbers.{name_at};
ghost use Rattle.jc_classes.specs.Worlds.{World, Above};
ghost use Rattle.jc_resolve.specs.Answers.{loading_of};
ghost use Rattle.jc_numbered.specs.inside.Shown.{indexed_of};
ghost use Rattle.jc_classes.specs.Selection.{EachUnimplemented, IsNamed};
ghost use Rattle.jc_resolve.specs.Numbered.{links_at, node_name, numbered, references_at};
ghost use Rattle.jc_resolve.specs.Numbered.{Agrees, IsClosed, NumberReferences, TellsAnswers};
ghost use Rattle.jc_resolve.specs.inside.Resolved.{loading_of as loading_at};

use crate::all_answers::linked;
use crate::all_inheritance::inheritance_of_all;
use crate::inheritance::InheritanceErrors;
use crate::linked::Linked;
use crate::loaded::load_classes;
use crate::unimplemented::{Unimplemented, find_unimplemented};
use crate::workspace::Workspace;
use jc_base::NoMemory;
use jc_classes::{LinkageError, Numbers, Standing};
use jc_numbered::{Classes, Load};
use std::alloc::Global;
use std::marker::Model;

/// How a class loads (JVMS 5.3.5).
#[derive(Drop)]
pub enum Loading {
    /// The class loads.
    Loaded,
    /// The name is outside.
    Outside,
    /// The class does not load. The text is the name of the class at fault.
    Fails(LinkageError, Vec<u8>),
}

/// The numbered classes of a class graph, with how each of them loads. Its functions identify a class by its number.
#[derive(Drop)]
pub struct Hierarchy<'c, 't> {
    classes: Classes<'c, 't>,
    loads: Vec<Load>,
    circular: Vec<bool>,
    /// Working memory for look-up, if a class needed it before.
    room: Option<Workspace>,
    /// Working memory for `linked`: for each class whose name the answers list, the place of this name in their list.
    /// Other values, which earlier calls left, are ignored.
    places: Vec<usize>,
}

impl<'c, 't> Model for Hierarchy<'c, 't> {
    ghost use Rattle.jc_resolve.specs.Numbered.{Numbered, numbered};
    ghost use Rattle.jc_resolve.specs.inside.Rooms.{IsHeld};

    ghost Value = { Numbered };

    ghost view = { λ a. numbered a.classes.names.now a.classes.standing.now a.classes.supertypes.now };

    ghost invariant = { λ a. IsHeld a.classes a.loads.items a.circular.items a.room };
}

/// Returns how a class loads, with the name of the class at fault.
fn name_loading(alloc: Global, classes: &Classes, load: Load) -> Result<Loading, NoMemory>
    ensures { IfOk result (λ s. loading_of s ≡ loading_at (indexed_of classes.now) load) }
{
    match load {
        Load::Loaded => Ok(Loading::Loaded),
        Load::Outside => Ok(Loading::Outside),
        Load::Fails(error, node) => {
            let name = Vec::from_slice(alloc, classes.name(node))?;
            Ok(Loading::Fails(error, name))
        }
    }
}

impl<'c, 't> Hierarchy<'c, 't> {
    /// Finds how each of some numbered classes loads. For each number, `names` has the name, `standing` says what the
    /// name is, and `supertypes` has the numbers of its direct supertypes. `object` is the number of
    /// `java/lang/Object`.
    ///
    /// Returns `NoMemory` only when an allocation fails.
    pub fn new(
        alloc: Global,
        names: &'c Numbers,
        standing: &'c [Standing<'t>],
        supertypes: &'c [Vec<usize>],
        object: usize,
    ) -> Result<Hierarchy<'c, 't>, NoMemory>
        requires closed { IsClosed (numbered names.now standing.now supertypes.now) }
        requires object { object < length names.now }
        requires object_name { name_at names.now object ≡ java_lang_object }
        ensures { IfOk result (λ h. h ≡ numbered names.now standing.now supertypes.now) }
    {
        let places = vec![in alloc; 0usize; names.len()]?;
        let loaded = load_classes(alloc, names, standing, supertypes, object)?;
        Ok(Hierarchy {
            classes: loaded.classes,
            loads: loaded.loads,
            circular: loaded.circular,
            room: None,
            places,
        })
    }

    /// Returns whether a class is one of its own transitive supertypes. Does not allocate.
    pub fn is_circular(&self, class: usize) -> bool
        requires { class < length self.now.names }
        ensures { (m : World) → Agrees m self.now → Decides result (Above m (node_name self.now class) (node_name self.now class)) }
    {
        self.circular[class]
    }

    /// Returns how a class loads, with a copy of the name of the class at fault.
    ///
    /// Returns `NoMemory` only when an allocation fails.
    pub fn loading(&self, alloc: Global, class: usize) -> Result<Loading, NoMemory>
        requires { class < length self.now.names }
        ensures { IfOk result (λ l. (m : World) → Agrees m self.now → Loads m (node_name self.now class) (loading_of l)) }
    {
        name_loading(alloc, &self.classes, self.loads[class])
    }

    /// Returns the answers to the references of a class, in their order, and the errors of its instructions. For each
    /// reference, `nodes` has the number of the class that it names; for an array, of its innermost class, if it has
    /// one. The cost depends on what is looked up, not on the number of classes, except for working memory that is
    /// allocated once.
    ///
    /// Returns `NoMemory` when an allocation fails.
    pub fn linked(
        &mut self,
        alloc: Global,
        class: usize,
        nodes: &[Option<u32>],
    ) -> Result<Linked, NoMemory>
        requires class { class < length self.old.names }
        requires nodes { NumberReferences self.old.names nodes.now (references_at self.old class) }
        requires within { (v : ℕ) → Contains nodes.now (Some v) → v < length self.old.names }
        ensures answers { IfOk result (λ linked. TellsAnswers self.old class linked.answers) }
        ensures links { IfOk result (λ linked. linked.links ≡ links_at self.old class linked.answers) }
        ensures same { self.new ≡ self.old }
    {
        linked(
            alloc,
            &self.classes,
            self.loads.as_slice(),
            &mut self.room,
            self.places.as_mut_slice(),
            class,
            nodes,
        )
    }

    /// Finds the errors of inheritance of some classes, in the order of their numbers in `nodes` (JVMS 4.10). Takes time
    /// linear in the number of all classes and their methods, apart from look-up in maps.
    ///
    /// Returns `NoMemory` only when an allocation fails.
    pub fn inheritance_errors(
        &self,
        alloc: Global,
        nodes: &[usize],
    ) -> Result<Vec<InheritanceErrors>, NoMemory>
        requires { All (λ v. v < length self.now.names) nodes.now }
        ensures { IfOk result (λ es. (m : World) → Agrees m self.now
            → AreInherited m (map (node_name self.now) nodes.now) es.items) }
    {
        inheritance_of_all(alloc, &self.classes, self.loads.as_slice(), nodes)
    }

    /// Finds the ABSTRACT methods for which each of some classes has no body, in the order of their numbers in `nodes`
    /// (JVMS 6.5). A class that is ABSTRACT, an interface, or below an outside name has none.
    ///
    /// Takes time linear in the number of all classes and their methods, apart from look-up, if no class inherits many
    /// such methods. Returns `NoMemory` when an allocation fails, and when the lists of all classes have more than
    /// 2,097,152 entries.
    pub fn unimplemented(
        &self,
        alloc: Global,
        nodes: &[usize],
    ) -> Result<Unimplemented<'t>, NoMemory>
        requires { All (λ v. v < length self.now.names) nodes.now }
        ensures { IfOk result (λ u. (m : World) → Agrees m self.now → IsNamed m
            → EachUnimplemented m (map (node_name self.now) nodes.now) u) }
    {
        find_unimplemented(alloc, &self.classes, self.loads.as_slice(), nodes)
    }
}
