//! The rows of the files of a report.

ghost use Rattle.std.specs.Iterator.{YieldsFirstBy, item_count};
ghost use Rattle.jc_report.specs.FileRowView.{row_lent};

use crate::claims::{Claims, state};
use crate::file::File;
use jc_base::byte_map;
use jc_report::FileRow;
use std::marker::Model;

/// An iterator over the rows of the files of a report, in the order of the paths. Its model is the list of the rows
/// that are left.
#[derive(Drop)]
pub struct Rows<'a> {
    pub(crate) files: byte_map::Iter<'a, File>,
    pub(crate) claims: &'a Claims,
}

impl<'a> Model for Rows<'a> {
    ghost use Rattle.std.specs.Prelude.{List, map};
    ghost use Rattle.jc_report.specs.FileRows.{FileRow};
    ghost use Rattle.jc_edits.specs.inside.Claims.{claimed_row};

    ghost Value = { List FileRow };

    ghost view = { λ a. map (claimed_row a.claims.now) a.files };
}

impl<'a> Iterator for Rows<'a> {
    type Item = FileRow<'a>;

    ghost next_gives = { YieldsFirstBy row_lent (λ left. left) };

    ghost remaining = { item_count (λ left. left) };

    fn next(&mut self) -> Option<FileRow<'a>> {
        let (path, file) = self.files.next()?;
        let state = state(self.claims, file, path);
        Some(FileRow { path, state })
    }
}
