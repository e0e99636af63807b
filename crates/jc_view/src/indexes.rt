//! Tables of indexes of the constant pool.

ghost use Rattle.jc_view.specs.Reading.{after, after_indexes, table_value};
ghost use Rattle.jc_view.specs.ConstantPool.{index_value};
ghost use Rattle.jc_view.specs.Moves.{Lends};

use crate::constant_pool::ConstantIndex;
use crate::constant_reader::read_index;
use crate::entries::Entries;
use crate::layout_reader::skip_indexes;
use jc_base::Cursor;
use std::marker::Model;

/// An iterator over a table of indexes, in its order. Its model is the list of those that are left.
#[derive(Drop)]
pub struct Indexes<'a> {
    pub(crate) table: Entries<'a>,
}

impl<'a> Model for Indexes<'a> {
    ghost use Rattle.std.specs.Prelude.{List};
    ghost use Rattle.jc_view.specs.declared.constant_pool.ConstantIndex.{ConstantIndex};

    ghost Value = { List ConstantIndex };

    ghost use Rattle.jc_view.specs.Reading.{after};
    ghost use Rattle.jc_view.specs.ConstantPool.{index_value};
    ghost use Rattle.jc_view.specs.inside.Tables.{entries, IsWhole};

    ghost view = { λ a. entries (after 2) index_value a.table };

    ghost invariant = { λ a. IsWhole (after 2) a.table };
}

impl<'a> Iterator for Indexes<'a> {
    ghost use Rattle.std.specs.Iterator.{YieldsFirstBy, item_count};

    type Item = ConstantIndex;

    ghost next_gives = { YieldsFirstBy (λ index. index) (λ left. left) };

    ghost remaining = { item_count (λ left. left) };

    fn next(&mut self) -> Option<ConstantIndex> {
        self.table.left = self.table.left.checked_sub(1)?;
        let index = read_index(&mut self.table.cursor)?;
        Some(index)
    }
}

/// Reads a table of indexes and its count, and returns an iterator over it. Returns `None` if the bytes end before the
/// table does.
pub fn read_indexes<'a>(cursor: &mut Cursor<'a>) -> Option<Indexes<'a>>
    ensures { Lends (λ left. left) after_indexes (table_value (after 2) index_value) cursor.old result cursor.new }
{
    let table = skip_indexes(cursor)?;
    Some(Indexes { table })
}
