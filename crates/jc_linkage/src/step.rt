//! Edits of the class of one name.

ghost use Rattle.std.specs.Prelude.{◌≡◌, false, IfOk, IsSome, OnErr, OnOk};
ghost use Rattle.std.specs.FinMap as map;
ghost use Rattle.jc_classes.specs.Names.{Name};
ghost use Rattle.jc_link.specs.Tables.{class_at};
ghost use Rattle.jc_linkage.specs.Steps.{is_step, step_name};
ghost use Rattle.jc_linkage.specs.declared.step.Step.TheVariants.{Put, Remove};
ghost use Rattle.jc_linkage.specs.inside.Holding.{AreNamed};
ghost use Rattle.jc_linkage.specs.inside.Stepping.{Fills, IsBack, IsThere, MayVacate, stepped};

use jc_base::NoMemory;
use jc_classes::Facts;
use jc_link::Table;
use std::alloc::Global;

/// An edit of the class that files give for one name.
#[derive(Drop)]
pub enum Step {
    /// Puts this class at its name.
    Put(Facts),
    /// Removes the class of this name.
    Remove(Vec<u8>),
}

impl Step {
    /// Returns the name of the step. Does not allocate.
    pub fn name(&self) -> &[u8]
        ensures { result.now ≡ step_name self.now }
    {
        match self {
            Step::Put(facts) => facts.name(),
            Step::Remove(name) => name,
        }
    }
}

/// Makes a step, and returns the step that undoes it.
pub(crate) fn make_step(alloc: Global, table: &mut Table, step: Step) -> Result<Step, NoMemory>
    requires { AreNamed table.old }
    ensures ok { OnOk result ((n : Name) → class_at table.new n ≡ stepped step (class_at table.old) n) }
    ensures back { IfOk result (λ back. IsBack back step (class_at table.old)) }
    ensures there { OnOk result ((n : Name) → IsSome (map.get table.old n) → IsSome (map.get table.new n)) }
    ensures err { OnErr result (table.new ≡ table.old) }
    ensures taken { OnOk result (MayVacate (is_step step) table.old table.new) }
{
    match step {
        Step::Put(facts) => put(alloc, table, facts),
        Step::Remove(name) => Ok(vacate(table, name)),
    }
}

fn put(alloc: Global, table: &mut Table, facts: Facts) -> Result<Step, NoMemory>
    requires { AreNamed table.old }
    ensures ok { OnOk result ((n : Name) → class_at table.new n ≡ stepped (Put facts) (class_at table.old) n) }
    ensures back { IfOk result (λ back. IsBack back (Put facts) (class_at table.old)) }
    ensures there { OnOk result ((n : Name) → IsSome (map.get table.old n) → IsSome (map.get table.new n)) }
    ensures err { OnErr result (table.new ≡ table.old) }
    ensures taken { OnOk result (MayVacate (is_step (Put facts)) table.old table.new) }
{
    let name = Vec::from_slice(alloc, facts.name())?;
    match table.put(facts) {
        Ok(Some(before)) => Ok(Step::Put(before)),
        Ok(None) => Ok(Step::Remove(name)),
        Err(_) => Err(NoMemory),
    }
}

fn vacate(table: &mut Table, name: Vec<u8>) -> Step
    requires { AreNamed table.old }
    ensures ok { (n : Name) → class_at table.new n ≡ stepped (Remove name) (class_at table.old) n }
    ensures back { IsBack result (Remove name) (class_at table.old) }
    ensures there { (n : Name) → IsSome (map.get table.old n) → IsSome (map.get table.new n) }
    ensures taken { MayVacate (is_step (Remove name)) table.old table.new }
{
    match table.vacate(&name) {
        Some(before) => Step::Put(before),
        None => Step::Remove(name),
    }
}

/// Undoes a step. If the undoing puts a class, its name must have a place. Does not allocate.
pub(crate) fn take_back(table: &mut Table, back: Step)
    requires { IsThere back table.old }
    ensures ok { (n : Name) → class_at table.new n ≡ stepped back (class_at table.old) n }
    ensures there { (n : Name) → is_step back n ≡ false → IsSome (map.get table.old n) → IsSome (map.get table.new n) }
    ensures taken { Fills (is_step back) table.old table.new }
{
    match back {
        Step::Put(facts) => match table.put(facts) {
            Ok(_) => {}
            Err(_) => unreachable!(),
        },
        Step::Remove(name) => {
            table.remove(&name);
        }
    }
}
