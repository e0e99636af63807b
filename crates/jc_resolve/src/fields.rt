//! Look-up of fields.

ghost use Rattle.std.specs.Prelude.{◌≡◌, ◌<◌, length, IfOk, OnOk, true};
ghost use Rattle.std.specs.Option.{IfSome};
ghost use Rattle.jc_classes.specs.Lent.{key_lent, member_lent};
ghost use Rattle.jc_numbered.specs.inside.Indexed.{good_at};
ghost use Rattle.jc_numbered.specs.inside.Shown.{indexed_of};
ghost use Rattle.jc_resolve.specs.inside.Entries.{IsKeyed};
ghost use Rattle.jc_resolve.specs.inside.Found.{TellsField};

use jc_base::NoMemory;
use jc_classes::Key;
use jc_graph::Seen;
use jc_numbered::{Classes, FoundMember};

/// Finds the field that a class declares or inherits (JVMS 5.4.3.2). `stack` is working memory.
pub(crate) fn find_field<'a>(
    classes: &'a Classes,
    seen: &mut Seen,
    stack: &mut Vec<usize>,
    start: usize,
    key: Key,
) -> Result<Option<FoundMember<'a>>, NoMemory>
    requires start { start < length classes.now.standing.now }
    requires good { good_at (indexed_of classes.now) start ≡ true }
    requires seen { length seen.old.flags ≡ length classes.now.standing.now }
    ensures keyed { IfOk result (λ r. IfSome r (λ h. IsKeyed (key_lent key.entry) (member_lent h.member))) }
    ensures within { IfOk result (λ r. IfSome r (λ h. h.node < length classes.now.standing.now)) }
    ensures seen { OnOk result (length seen.new.flags ≡ length classes.now.standing.now) }
    ensures found { IfOk result (TellsField (indexed_of classes.now) (key_lent key.entry) start) }
{
    seen.clear();
    stack.clear();
    stack.push(start)?;
    while let Some(node) = stack.pop() {
        if !seen.has(node) {
            if let Some(member) = classes.field(node, key) {
                return Ok(Some(FoundMember { node, member }));
            }
            seen.add(node)?;
            classes.push_onward(node, stack)?;
        }
    }
    Ok(None)
}
