//! The part of a class: how it loads, whether it is circular, its faults, its answers, and the errors of its
//! instructions.

ghost use Rattle.std.specs.Prelude.{◌≡◌, ◌<◌, ◌≤◌, ℕ, [], length, Some, IfOk, OnErr, OnOk};
ghost use Rattle.std.specs.List.{Contains};
ghost use Rattle.jc_classes.specs.Lent.{stands_of};
ghost use Rattle.jc_classes.specs.LinkErrors.{links_of};
ghost use Rattle.jc_classes.specs.Loading.{Load as Loads};
ghost use Rattle.jc_classes.specs.Names.{Name};
ghost use Rattle.jc_classes.specs.Numbers.{name_at};
ghost use Rattle.jc_classes.specs.Parts.{IsPart};
ghost use Rattle.jc_classes.specs.Worlds.{World, code_faults_of, format_faults_of, references_of};
ghost use Rattle.jc_resolve.specs.Answers.{loading_of};
ghost use Rattle.jc_resolve.specs.Numbered.{Agrees, NumberReferences, TellsAnswers, standing_at};
ghost use Rattle.jc_link.specs.Closures.{IsClosure};
ghost use Rattle.jc_link.specs.Meters.{counted};
ghost use Rattle.jc_link.specs.inside.TheClass.{TellsCircular};
ghost use Rattle.std.specs.Option.{option_map_or};

use crate::closure::Closure;
use crate::meter::Meter;
use crate::part_maker::PartMaker;
use jc_base::NoMemory;
use jc_classes::{Faults, Standing};
use jc_code::CodeFault;
use jc_file::Fault;
use jc_resolve::{Answers, Hierarchy, LinkErrors, Linked, Loading};
use std::alloc::Global;
use std::marker::Model;
use std::rc::Rc;

/// What jclink finds out about a class. The part of a name without a class says only how the name loads: it has no
/// faults and no answers.
#[derive(Drop)]
pub struct Part {
    circular: bool,
    load: Loading,
    /// The faults of its facts, if the name has facts with faults.
    faults: Option<Rc<Faults>>,
    linked: Linked,
}

impl Model for Part {
    ghost use Rattle.jc_classes.specs.Parts as specs;

    ghost Value = { specs.Part };

    ghost use Rattle.jc_link.specs.inside.PartShown.{part_shown};

    ghost view = { part_shown };
}

impl Part {
    /// Returns whether the class is one of its own transitive supertypes.
    pub fn is_circular(&self) -> bool
        ensures { result ≡ self.now.circular }
    {
        self.circular
    }

    /// Returns how the class loads (JVMS 5.3.5).
    pub fn load(&self) -> &Loading
        ensures { loading_of result.now ≡ self.now.load }
    {
        &self.load
    }

    /// Returns the format faults of the class file, by rule and then by place.
    pub fn format_faults(&self) -> &[Fault]
        ensures { result.now ≡ self.now.format_faults }
    {
        match &self.faults {
            Some(faults) => faults.as_ref().format.as_slice(),
            None => &[],
        }
    }

    /// Returns the faults of the methods' code, each with the number of the method. They are sorted by method, then by
    /// rule and then by place.
    pub fn code_faults(&self) -> &[(usize, CodeFault)]
        ensures { result.now ≡ self.now.code_faults }
    {
        match &self.faults {
            Some(faults) => faults.as_ref().code.as_slice(),
            None => &[],
        }
    }

    /// Returns the answers to the references of the class, in the order of the references (JVMS 5.4.3). If the class
    /// does not load, each answer is `NotLoaded`.
    pub fn answers(&self) -> &Answers
        ensures { result.now ≡ self.now.answers }
    {
        self.linked.answers()
    }

    /// Returns the instructions that do not link although their references resolve, by method and then by offset (JVMS
    /// 6.5). Does not allocate.
    pub fn links(&self) -> LinkErrors<'_>
        ensures { result ≡ self.now.links }
    {
        self.linked.links()
    }
}

/// Computes the part of the class of a closure.
///
/// Returns `NoMemory` when an allocation fails. Then the meter counts no part.
pub fn make_part(alloc: Global, closure: &Closure, meter: &mut Meter) -> Result<Part, NoMemory>
    ensures part { (m : World) (d : Name) → IsClosure m d closure.now → IfOk result (λ p. IsPart m d p) }
    ensures made { OnOk result (meter.new.made ≡ counted meter.old.made 1) }
    ensures unmade { OnErr result (meter.new.made ≡ meter.old.made) }
    ensures made_rise { meter.old.made ≤ meter.new.made }
    ensures asks { meter.new.asks ≡ meter.old.asks }
{
    let mut maker = PartMaker::new(alloc, &closure.graph)?;
    maker.part(alloc, 0, meter)
}

/// Returns the part of a class of a hierarchy. The faults are those of `own`, and `references` has the numbers of the
/// classes that its references name.
pub(crate) fn part_of(
    alloc: Global,
    hierarchy: &mut Hierarchy,
    class: usize,
    own: Standing<'_>,
    references: &[Option<u32>],
) -> Result<Part, NoMemory>
    requires class { class < length hierarchy.old.names }
    requires nodes { NumberReferences hierarchy.old.names references.now (references_of (standing_at hierarchy.old class)) }
    requires within { (v : ℕ) → Contains references.now (Some v) → v < length hierarchy.old.names }
    ensures same { hierarchy.new ≡ hierarchy.old }
    ensures circular { IfOk result (λ p. TellsCircular hierarchy.old class p.circular) }
    ensures load { IfOk result (λ p. (m : World) → Agrees m hierarchy.old → Loads m (name_at hierarchy.old.names class) p.load) }
    ensures answers { IfOk result (λ p. TellsAnswers hierarchy.old class p.answers) }
    ensures links { IfOk result (λ p. p.links ≡ links_of (name_at hierarchy.old.names class) (standing_at hierarchy.old class) p.answers) }
    ensures format_faults { IfOk result (λ p. p.format_faults ≡ format_faults_of (stands_of own.entry)) }
    ensures code_faults { IfOk result (λ p. p.code_faults ≡ code_faults_of (stands_of own.entry)) }
{
    let faults = share_faults(own)?;
    let load = hierarchy.loading(alloc, class)?;
    let circular = hierarchy.is_circular(class);
    let linked = hierarchy.linked(alloc, class, references)?;
    Ok(Part {
        circular,
        load,
        faults,
        linked,
    })
}

/// Returns the faults of a class, shared. Other names have none.
fn share_faults(standing: Standing<'_>) -> Result<Option<Rc<Faults>>, NoMemory>
    ensures format { IfOk result (λ faults. option_map_or (λ f. f.value.format.items) faults []
        ≡ format_faults_of (stands_of standing.entry)) }
    ensures code { IfOk result (λ faults. option_map_or (λ f. f.value.code.items) faults []
        ≡ code_faults_of (stands_of standing.entry)) }
{
    match standing {
        Standing::Class(facts) => facts.shared_faults(),
        _ => Ok(None),
    }
}
