//! The lines of errors of inheritance, and of methods without a body.

ghost use Rattle.std.specs.Prelude.{◌≡◌, [], cond, slice_index_or, unwrap_or};
ghost use Rattle.std.specs.List.{flat_map};
ghost use Rattle.jc_text.specs.Sends.{Sends};
ghost use Rattle.jc_report.specs.ErrorsText.{final_superclass_error, inheritance_errors, overridden_error, unimplemented_error};
ghost use Rattle.jc_resolve.specs.Methods.{inherited_of};

use crate::errors_text::write_front;
use crate::part_text::write_member;
use jc_base::Output;
use jc_classes::Facts;
use jc_resolve::{AbstractMethod, InheritanceErrors, Inherited, Unimplemented};
use jc_text::TextWriter;

/// Writes the lines of the class at a place: one if its superclass is FINAL, and one for each overridden FINAL method and
/// for each method without a body.
pub(crate) fn write_inheritance_errors<W: Output>(
    text: &mut TextWriter<'_, W>,
    facts: &Facts,
    errors: &InheritanceErrors,
    unimplemented: &Unimplemented<'_>,
    place: usize,
)
    ensures { Sends W.written W.failures text.old text.new (inheritance_errors facts.now errors.now (slice_index_or unimplemented.now place [])) }
{
    write_final_superclass(text, facts, errors);
    write_overridden(text, facts.name(), errors.overridden());
    write_unimplemented(text, facts.name(), unimplemented, place);
}

fn write_final_superclass<W: Output>(
    text: &mut TextWriter<'_, W>,
    facts: &Facts,
    errors: &InheritanceErrors,
)
    ensures { Sends W.written W.failures text.old text.new (cond errors.now.extends_final (final_superclass_error facts.now) []) }
{
    if errors.extends_final() {
        write_front(text, facts.name());
        text.text(b"extends FINAL ");
        text.shown(superclass_name(facts));
        text.text(b"\n");
    }
}

/// Returns the name of the superclass, or an empty name if there is none.
fn superclass_name(facts: &Facts) -> &[u8]
    ensures { result.now ≡ unwrap_or facts.now.superclass [] }
{
    match facts.superclass() {
        Some(name) => name,
        None => &[],
    }
}

fn write_overridden<W: Output>(text: &mut TextWriter<'_, W>, name: &[u8], overridden: &[Inherited])
    ensures { Sends W.written W.failures text.old text.new (flat_map (overridden_error name.now) overridden.now) }
{
    for method in overridden {
        write_overridden_error(text, name, method);
    }
}

fn write_overridden_error<W: Output>(text: &mut TextWriter<'_, W>, name: &[u8], method: &Inherited)
    ensures { Sends W.written W.failures text.old text.new (overridden_error name.now method.now) }
{
    let key = method.key();
    write_member(text, name, key.name, key.descriptor);
    text.text(b": overrides FINAL ");
    write_member(text, method.class(), key.name, key.descriptor);
    text.text(b"\n");
}

/// Writes the ABSTRACT methods for which the class at a place has no body.
fn write_unimplemented<W: Output>(
    text: &mut TextWriter<'_, W>,
    name: &[u8],
    unimplemented: &Unimplemented<'_>,
    place: usize,
)
    ensures { Sends W.written W.failures text.old text.new (flat_map (unimplemented_error name.now) (slice_index_or unimplemented.now place [])) }
{
    for number in 0..unimplemented.count(place) {
        match unimplemented.method(place, number) {
            Some(method) => write_unimplemented_error(text, name, method),
            None => return,
        }
    }
}

fn write_unimplemented_error<W: Output>(
    text: &mut TextWriter<'_, W>,
    name: &[u8],
    method: AbstractMethod<'_>,
)
    ensures { Sends W.written W.failures text.old text.new (unimplemented_error name.now (inherited_of method.entry)) }
{
    write_front(text, name);
    text.text(b"no body for ");
    write_member(text, method.class, method.name, method.descriptor);
    text.text(b"\n");
}
