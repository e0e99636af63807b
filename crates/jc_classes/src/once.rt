//! Removal of repeated names.

ghost use Rattle.std.specs.Prelude.{◌≡◌, ◌<◌, List, length, map, IfOk};
ghost use Rattle.std.specs.List.{All};
ghost use Rattle.jc_classes.specs.FactsOf.{once};
ghost use Rattle.jc_classes.specs.NameLists.{has};
ghost use Rattle.jc_classes.specs.Names.{Name};
ghost use Rattle.jc_classes.specs.inside.FactsShown.{text_at};
ghost use Rattle.jc_classes.specs.inside.Ranks.{AreRanks};

use crate::member_order::rank_texts;
use crate::names::same;
use crate::text_list::TextList;
use jc_base::NoMemory;
use std::alloc::Global;

/// Fewer names than this are compared with each other.
const FEW: usize = 16;

/// Returns the numbers of the names, each name once, where it occurs first.
pub(crate) fn once(alloc: Global, texts: &TextList, names: Vec<u16>) -> Result<Vec<u16>, NoMemory>
    requires { All (λ name. name < length texts.now) names.items }
    ensures below { IfOk result (λ kept. All (λ name. name < length texts.now) kept.items) }
    ensures once { IfOk result (λ kept. map (text_at texts.now) kept.items ≡ once (map (text_at texts.now) names.items)) }
{
    if names.len() < 2 {
        return Ok(names);
    }
    if names.len() < FEW {
        return once_in_turn(alloc, texts, &names);
    }
    let ranks = rank_texts(alloc, texts)?;
    once_by_ranks(alloc, &ranks, &names)
}

/// Compares each name with the names before it.
fn once_in_turn(alloc: Global, texts: &TextList, names: &[u16]) -> Result<Vec<u16>, NoMemory>
    requires { All (λ name. name < length texts.now) names.now }
    ensures below { IfOk result (λ kept. All (λ name. name < length texts.now) kept.items) }
    ensures once { IfOk result (λ kept. map (text_at texts.now) kept.items ≡ once (map (text_at texts.now) names.now)) }
{
    let mut kept = Vec::new(alloc);
    for name in names {
        if !has_text(texts, &kept, texts.text(*name as usize)) {
            kept.push(*name)?;
        }
    }
    kept.shrink_to_fit();
    Ok(kept)
}

/// Returns whether one of these names has this text.
fn has_text(texts: &TextList, names: &[u16], text: &[u8]) -> bool
    ensures { result ≡ has (map (text_at texts.now) names.now) text.now }
{
    for name in names {
        if same(text, texts.text(*name as usize)) {
            return true;
        }
    }
    false
}

/// Compares the ranks of the texts: equal texts have the same rank.
fn once_by_ranks(alloc: Global, ranks: &[usize], names: &[u16]) -> Result<Vec<u16>, NoMemory>
    requires names { All (λ name. name < length ranks.now) names.now }
    requires ranks { All (λ rank. rank < length ranks.now) ranks.now }
    ensures below { IfOk result (λ kept. All (λ name. name < length ranks.now) kept.items) }
    ensures once { IfOk result (λ kept. (texts : List Name) → AreRanks texts ranks.now
        → map (text_at texts) kept.items ≡ once (map (text_at texts) names.now)) }
{
    let mut seen = vec![in alloc; false; ranks.len()]?;
    let mut kept = Vec::new(alloc);
    for name in names {
        let rank = ranks[*name as usize];
        if seen[rank] {
            continue;
        }
        seen[rank] = true;
        kept.push(*name)?;
    }
    kept.shrink_to_fit();
    Ok(kept)
}
