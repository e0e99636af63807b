//! A line for each field and each method, with its attributes.

ghost use Rattle.std.specs.List.{flat_map};
ghost use Rattle.jc_text.specs.Sends.{Sends};
ghost use Rattle.jc_list.specs.MemberLines.{member_line, member_lines};
ghost use Rattle.jc_list.specs.inside.Fronts.{Lists};

use crate::attributes::write_attributes;
use crate::texts::{write_flags, write_text_behind};
use jc_base::{NoMemory, Output};
use jc_file::AccessFlag;
use jc_text::TextWriter;
use jc_view::{Member, Members};
use std::alloc::Global;

/// Writes the fields or the methods, in the order of the file.
///
/// `word` says which of both they are, and `flags` are the flags that have a meaning.
pub(crate) fn write_members<W: Output>(
    alloc: Global,
    out: &mut TextWriter<'_, W>,
    members: Members,
    word: &[u8],
    flags: &[AccessFlag],
) -> Result<(), NoMemory>
    ensures { Lists W.written W.failures result out.old out.new
        (flat_map (member_lines members.entry.class word.now flags.now) members.entry.left) }
{
    for member in members {
        write_member(alloc, out, &member, word, flags)?;
    }
    Ok(())
}

fn write_member<W: Output>(
    alloc: Global,
    out: &mut TextWriter<'_, W>,
    member: &Member,
    word: &[u8],
    flags: &[AccessFlag],
) -> Result<(), NoMemory>
    ensures { Lists W.written W.failures result out.old out.new (member_lines member.now.class word.now flags.now member.now.member) }
{
    write_member_line(out, member, word, flags);
    write_attributes(alloc, out, member.attributes(), b"  ")
}

fn write_member_line<W: Output>(
    out: &mut TextWriter<'_, W>,
    member: &Member,
    word: &[u8],
    flags: &[AccessFlag],
)
    ensures { Sends W.written W.failures out.old out.new (member_line member.now.class word.now flags.now member.now.member.member) }
{
    out.text(word);
    write_text_behind(out, b" ", member.name());
    write_text_behind(out, b" ", member.descriptor());
    out.text(b" ");
    write_flags(out, flags, member.flags());
    out.text(b"\n");
}
