//! Passes over the constants, interfaces, fields and methods, which collect the rules that they break.

ghost use Rattle.std.specs.Prelude.{◌≡◌, false, OnOk};
ghost use Rattle.std.specs.Option.{option_map_or};
ghost use Rattle.jc_view.specs.Attributes.{bootstrap_attributes};
ghost use Rattle.jc_view.specs.ClassFile.{constant_at};
ghost use Rattle.jc_file.specs.declared.fault.FormatRule.{FormatRule};
ghost use Rattle.jc_file.specs.inside.BootstrapsRead.{declared_by};
ghost use Rattle.jc_view.specs.Places.{fields_in, methods_in};
ghost use Rattle.jc_file.specs.inside.AttributePlaces.{places_of_members};
ghost use Rattle.jc_file.specs.inside.Broken.{AddsPlaces};
ghost use Rattle.jc_file.specs.inside.RuleSets.{has};
ghost use Rattle.jc_file.specs.inside.RuleTables.{breaks_in, constant_places, constant_tests, field_places, interface_places, method_places};

use crate::attributes::add_with_inner;
use crate::bootstraps::declared_methods;
use crate::broken::{Broken, add_broken};
use crate::classes::interface_rules;
use crate::constants::constant_rules;
use crate::fields::field_rules;
use crate::method_attributes::add_attributes_of;
use crate::methods::method_rules;
use crate::rule_set::RuleSet;
use crate::texts::Texts;
use jc_base::NoMemory;
use jc_view::ConstantIndex;

/// Adds the rules that constants break.
pub(crate) fn add_constants(broken: &mut Vec<Broken>, texts: &mut Texts) -> Result<(), NoMemory>
    ensures same { texts.new ≡ texts.old }
    ensures added { OnOk result (AddsPlaces (constant_places texts.old) broken.old.items broken.new.items) }
{
    let bootstraps = declared_methods(texts.class());
    for index in 1..texts.class().constant_count() {
        let rules = rules_at(texts, bootstraps, index);
        add_broken(broken, index as usize, rules)?;
    }
    Ok(())
}

/// Returns the rules that the constant at an index breaks, if there is one. A text that is known to be a name or a
/// descriptor breaks none.
fn rules_at(texts: &mut Texts, bootstraps: u16, index: u16) -> RuleSet
    requires { bootstraps ≡ declared_by (bootstrap_attributes texts.old) }
    ensures same { texts.new ≡ texts.old }
    ensures rules { (rule : FormatRule) → has result rule
        ≡ option_map_or (λ constant. breaks_in (constant_tests texts.old constant) rule) (constant_at texts.old (record { 0 = index })) false }
{
    if texts.is_name_or_descriptor(ConstantIndex(index)) {
        return RuleSet::none();
    }
    match texts.class().constant(index) {
        Some(constant) => constant_rules(texts, bootstraps, constant),
        None => RuleSet::none(),
    }
}

/// Adds the rules that interfaces break.
pub(crate) fn add_interfaces(broken: &mut Vec<Broken>, texts: &mut Texts) -> Result<(), NoMemory>
    ensures same { texts.new ≡ texts.old }
    ensures added { OnOk result (AddsPlaces (interface_places texts.old) broken.old.items broken.new.items) }
{
    for (place, index) in texts.class().interface_indexes().enumerate() {
        let rules = interface_rules(texts, index);
        add_broken(broken, place, rules)?;
    }
    Ok(())
}

/// Adds the rules that fields break, except the rule against repeated fields, and those that their attributes break.
pub(crate) fn add_fields(
    broken: &mut Vec<Broken>,
    attributes: &mut Vec<Broken>,
    texts: &mut Texts,
) -> Result<(), NoMemory>
    ensures same { texts.new ≡ texts.old }
    ensures added { OnOk result (AddsPlaces (field_places texts.old) broken.old.items broken.new.items) }
    ensures attributes { OnOk result (AddsPlaces (places_of_members (record { class = texts.old; left = fields_in texts.old })) attributes.old.items attributes.new.items) }
{
    for (place, field) in texts.class().fields().enumerate() {
        let rules = field_rules(texts, &field);
        add_broken(broken, place, rules)?;
        add_with_inner(attributes, field.attributes())?;
    }
    Ok(())
}

/// Adds the rules that methods break, except the rule against repeated methods, and those that their attributes break.
pub(crate) fn add_methods(
    broken: &mut Vec<Broken>,
    attributes: &mut Vec<Broken>,
    texts: &mut Texts,
) -> Result<(), NoMemory>
    ensures same { texts.new ≡ texts.old }
    ensures added { OnOk result (AddsPlaces (method_places texts.old) broken.old.items broken.new.items) }
    ensures attributes { OnOk result (AddsPlaces (places_of_members (record { class = texts.old; left = methods_in texts.old })) attributes.old.items attributes.new.items) }
{
    for (place, method) in texts.class().methods().enumerate() {
        let (codes, exceptions) = add_attributes_of(attributes, &method)?;
        let rules = method_rules(texts, &method, codes, exceptions);
        add_broken(broken, place, rules)?;
    }
    Ok(())
}
