//! The order in which members are searched. If there are many members, texts are ranked first and members are then
//! compared by rank, because many members may share a long text.

ghost use Rattle.std.specs.Prelude.{◌≡◌, ◌<◌, ◌^◌, List, length, map, slice_index, IfOk};
ghost use Rattle.std.specs.List.Sorted.{IsSorted};
ghost use Rattle.jc_classes.specs.MemberOrder.{IsOrder};
ghost use Rattle.jc_classes.specs.Names.{Name, name_cmp};
ghost use Rattle.jc_classes.specs.inside.FactsShown.{member_shown, text_at};
ghost use Rattle.jc_classes.specs.inside.Ranks.{AreBelow, AreRanks, AreSorted, IsRank, named_lent, number_of, placed_from, texts_lent};

use crate::facts::MemberEntry;
use crate::names::less;
use crate::text_list::TextList;
use jc_base::NoMemory;
use std::alloc::Global;

/// Fewer members than this are compared by their texts.
const FEW: usize = 256;

/// Returns the numbers of members in the order in which they are searched.
pub(crate) fn order_members(
    alloc: Global,
    texts: &TextList,
    members: &[MemberEntry],
) -> Result<Vec<u16>, NoMemory>
    requires few { length members.now < 2 ^ 16 }
    requires below { AreBelow (length texts.now) members.now }
    ensures { IfOk result (λ order. IsOrder (map (member_shown texts.now) members.now) order.items) }
{
    if members.len() < FEW {
        return order_by_texts(alloc, texts, members);
    }
    let ranks = rank_texts(alloc, texts)?;
    order_by_ranks(alloc, &ranks, members)
}

/// Sorts the members by the texts of names and descriptors.
fn order_by_texts(
    alloc: Global,
    texts: &TextList,
    members: &[MemberEntry],
) -> Result<Vec<u16>, NoMemory>
    requires few { length members.now < 2 ^ 16 }
    requires below { AreBelow (length texts.now) members.now }
    ensures { IfOk result (λ order. IsOrder (map (member_shown texts.now) members.now) order.items) }
{
    let mut named = name_members(alloc, texts, members)?;
    named.sort_unstable();
    let mut numbers = Vec::with_capacity(alloc, members.len())?;
    for (_, _, number) in &named {
        numbers.push(*number)?;
    }
    Ok(numbers)
}

/// Returns each member's name, descriptor and number.
fn name_members<'a>(
    alloc: Global,
    texts: &'a TextList,
    members: &[MemberEntry],
) -> Result<Vec<(&'a [u8], &'a [u8], u16)>, NoMemory>
    requires few { length members.now < 2 ^ 16 }
    requires below { AreBelow (length texts.now) members.now }
    ensures { IfOk result (λ named. map named_lent named.items ≡ placed_from (text_at texts.now) 0 members.now) }
{
    let mut named = Vec::with_capacity(alloc, members.len())?;
    for (number, entry) in members.iter().enumerate() {
        let name = texts.text(entry.name as usize);
        let descriptor = texts.text(entry.descriptor as usize);
        named.push((name, descriptor, number as u16))?;
    }
    Ok(named)
}

/// Returns the rank of each text by its bytes, at the text's number. Equal texts have the same rank.
pub(crate) fn rank_texts(alloc: Global, texts: &TextList) -> Result<Vec<usize>, NoMemory>
    ensures { IfOk result (λ ranks. AreRanks texts.now ranks.items) }
{
    let sorted = sort_texts(alloc, texts)?;
    let mut ranks = Vec::with_capacity(alloc, texts.len())?;
    for number in 0..texts.len() {
        ranks.push(rank(sorted.as_slice(), texts.text(number)))?;
    }
    Ok(ranks)
}

/// Returns the texts, sorted by their bytes.
fn sort_texts<'a>(alloc: Global, texts: &'a TextList) -> Result<Vec<&'a [u8]>, NoMemory>
    ensures { IfOk result (λ sorted. AreSorted texts.now (texts_lent sorted.items)) }
{
    let mut sorted = Vec::with_capacity(alloc, texts.len())?;
    for number in 0..texts.len() {
        sorted.push(texts.text(number))?;
    }
    sorted.sort_unstable();
    Ok(sorted)
}

/// Returns the number of these texts that are less than a text.
fn rank(sorted: &[&[u8]], text: &[u8]) -> usize
    requires { IsSorted name_cmp (texts_lent sorted.now) }
    ensures { IsRank (texts_lent sorted.now) text.now result }
{
    sorted.partition_point(|other| less(other, text))
}

/// Sorts the members by the ranks of their names and descriptors.
fn order_by_ranks(
    alloc: Global,
    ranks: &[usize],
    members: &[MemberEntry],
) -> Result<Vec<u16>, NoMemory>
    requires few { length members.now < 2 ^ 16 }
    requires below { AreBelow (length ranks.now) members.now }
    ensures { IfOk result (λ order. (texts : List Name) → AreRanks texts ranks.now
        → IsOrder (map (member_shown texts) members.now) order.items) }
{
    let mut ranked = rank_members(alloc, ranks, members)?;
    ranked.sort_unstable();
    numbers(alloc, ranked.as_slice())
}

/// Returns the ranks of each member's name and descriptor, and the member's number.
fn rank_members(
    alloc: Global,
    ranks: &[usize],
    members: &[MemberEntry],
) -> Result<Vec<(usize, usize, u16)>, NoMemory>
    requires few { length members.now < 2 ^ 16 }
    requires below { AreBelow (length ranks.now) members.now }
    ensures { IfOk result (λ ranked. ranked.items ≡ placed_from (slice_index ranks.now) 0 members.now) }
{
    let mut ranked = Vec::with_capacity(alloc, members.len())?;
    for (number, entry) in members.iter().enumerate() {
        let name = ranks[entry.name as usize];
        let descriptor = ranks[entry.descriptor as usize];
        ranked.push((name, descriptor, number as u16))?;
    }
    Ok(ranked)
}

/// Returns only the numbers.
fn numbers(alloc: Global, ranked: &[(usize, usize, u16)]) -> Result<Vec<u16>, NoMemory>
    ensures { IfOk result (λ numbers. numbers.items ≡ map number_of ranked.now) }
{
    let mut numbers = Vec::with_capacity(alloc, ranked.len())?;
    for (_, _, number) in ranked {
        numbers.push(*number)?;
    }
    Ok(numbers)
}
