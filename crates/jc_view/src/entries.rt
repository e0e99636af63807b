//! Tables of a class file: a count, then that number of entries (JVMS 4.1).

ghost use Rattle.std.specs.Prelude.{◌≡◌, ◌<◌, ◌^◌};

use jc_base::Cursor;

/// The rest of a table: `left` entries remain, starting at the cursor.
#[derive(Drop)]
pub(crate) struct Entries<'a> {
    pub(crate) left: u16,
    pub(crate) cursor: Cursor<'a>,
}

impl<'a> Entries<'a> {
    /// Returns the same table again, for another pass over it.
    pub(crate) fn fork(&self) -> Entries<'a>
        ensures same { result ≡ self.now }
        ensures few { result.left < 2 ^ 16 }
    {
        let Entries { left, cursor } = self;
        Entries {
            left: *left,
            cursor: cursor.fork(),
        }
    }
}
