//! The names of the direct superinterfaces of a class (JVMS 4.1).

use crate::constant_reader::read_index;
use crate::entries::Entries;
use crate::view::ClassView;
use std::marker::Model;

/// An iterator over the names of the direct superinterfaces of a class, in file order. It yields `None` for an index
/// that does not name a class. Its model is the class file and the list of the indexes that are left.
#[derive(Drop)]
pub struct Interfaces<'v, 'a> {
    pub(crate) class: &'v ClassView<'a>,
    pub(crate) table: Entries<'a>,
}

impl<'v, 'a> Model for Interfaces<'v, 'a> {
    ghost use Rattle.jc_view.specs.Lent.{InterfacesLeft};

    ghost Value = { InterfacesLeft };

    ghost use Rattle.jc_view.specs.Reading.{after};
    ghost use Rattle.jc_view.specs.ConstantPool.{index_value};
    ghost use Rattle.jc_view.specs.inside.Tables.{entries, IsWhole};

    ghost view = { λ a. record { class = a.class.now; left = entries (after 2) index_value a.table } };

    ghost invariant = { λ a. IsWhole (after 2) a.table };
}

impl<'v, 'a> Iterator for Interfaces<'v, 'a> {
    ghost use Rattle.std.specs.Iterator.{YieldsFirstBy, item_count};
    ghost use Rattle.std.specs.Option.{option_copied};
    ghost use Rattle.jc_view.specs.Lent.{interface_names};

    type Item = Option<&'a [u8]>;

    ghost next_gives = { YieldsFirstBy option_copied interface_names };

    ghost remaining = { item_count interface_names };

    fn next(&mut self) -> Option<Option<&'a [u8]>> {
        self.table.left = self.table.left.checked_sub(1)?;
        let index = read_index(&mut self.table.cursor)?;
        Some(self.class.class_text(index))
    }
}
