//! The listing of a class file.

ghost use Rattle.std.specs.Prelude.{◌≡◌, IfOk};
ghost use Rattle.jc_list.specs.FaultLines.{is_faulty};
ghost use Rattle.jc_list.specs.ListErrors.{CountsWrites, WritesListing};
ghost use Rattle.jc_list.specs.Listing.{listing};
ghost use Rattle.jc_list.specs.inside.Fronts.{Lists};

use crate::attributes::write_attributes;
use crate::class_lines::write_class_lines;
use crate::constants::write_constant_lines;
use crate::faults::{write_code_faults, write_format_faults};
use crate::list_error::ListError;
use crate::members::write_members;
use jc_base::{NoMemory, Output};
use jc_file::AccessFlag;
use jc_text::TextWriter;
use jc_view::ClassView;
use std::alloc::Global;

/// Writes the listing of a class file: its name, flags, version, supertypes and constants, its
/// members and attributes, the instructions of its methods, and last its faults.
///
/// Returns `Write` only if the output failed, and `NoMemory` only when an allocation fails. The output
/// then has a prefix of the listing.
pub fn write_listing<W: Output>(
    alloc: Global,
    class: &ClassView,
    out: &mut W,
) -> Result<(), ListError>
    ensures listing { WritesListing result (W.written out.old) (W.written out.new) (listing class.now) }
    ensures failures { CountsWrites result (W.failures out.old) (W.failures out.new) }
{
    list_class(alloc, class, out)?;
    Ok(())
}

/// Writes the listing of a class file, as [`write_listing`] does.
///
/// Returns whether it lists a fault of the format or of a method's code.
pub fn list_class<W: Output>(
    alloc: Global,
    class: &ClassView,
    out: &mut W,
) -> Result<bool, ListError>
    ensures faulty { IfOk result (λ faulty. faulty ≡ is_faulty class.now) }
    ensures listing { WritesListing result (W.written out.old) (W.written out.new) (listing class.now) }
    ensures failures { CountsWrites result (W.failures out.old) (W.failures out.new) }
{
    let mut text = TextWriter::new(out);
    let listed = write_lines(alloc, &mut text, class);
    if text.finish().is_err() {
        return Err(ListError::Write);
    }
    Ok(listed?)
}

/// Writes all lines. Returns whether a fault is among them.
fn write_lines<W: Output>(
    alloc: Global,
    out: &mut TextWriter<'_, W>,
    class: &ClassView,
) -> Result<bool, NoMemory>
    ensures lists { Lists W.written W.failures result out.old out.new (listing class.now) }
    ensures faulty { IfOk result (λ faulty. faulty ≡ is_faulty class.now) }
{
    write_class_lines(out, class);
    write_constant_lines(out, class);
    write_members(alloc, out, class.fields(), b"field", &AccessFlag::OF_FIELD)?;
    write_members(
        alloc,
        out,
        class.methods(),
        b"method",
        &AccessFlag::OF_METHOD,
    )?;
    write_attributes(alloc, out, class.attributes(), b"")?;
    let breaks_format = write_format_faults(alloc, out, class)?;
    let breaks_code = write_code_faults(alloc, out, class)?;
    Ok(breaks_format || breaks_code)
}
