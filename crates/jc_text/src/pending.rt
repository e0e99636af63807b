//! A buffer of bytes that are not written yet.

ghost use Rattle.std.specs.Prelude.{◌≡◌, ◌++◌, [], true, false};

use std::marker::Model;

/// The size of the buffer in bytes.
const ROOM: usize = 4096;

/// A buffer of bytes that are not written yet. Its model is the list of these bytes.
#[derive(Drop)]
pub(crate) struct Pending {
    buffer: [u8; ROOM],
    len: usize,
}

impl Model for Pending {
    ghost use Rattle.std.specs.Prelude.{◌≤◌, List, ℕ, take};

    ghost Value = { List ℕ };

    ghost view = { λ a. take a.len a.buffer };

    ghost invariant = { λ a. a.len ≤ 4096 };
}

impl Pending {
    pub(crate) fn new() -> Pending
        ensures { result ≡ [] }
    {
        Pending {
            buffer: [0; ROOM],
            len: 0,
        }
    }

    pub(crate) fn bytes(&self) -> &[u8]
        ensures { result.now ≡ self.now }
    {
        &self.buffer[..self.len]
    }

    pub(crate) fn clear(&mut self)
        ensures { self.new ≡ [] }
    {
        self.len = 0;
    }

    /// Appends bytes if there is room for them, and returns whether there was.
    #[inline]
    pub(crate) fn keep(&mut self, bytes: &[u8]) -> bool
        ensures kept { result ≡ true → self.new ≡ self.old ++ bytes.now }
        ensures full { result ≡ false → self.new ≡ self.old }
    {
        if bytes.len() > ROOM - self.len {
            return false;
        }
        let end = self.len + bytes.len();
        self.buffer[self.len..end].copy_from_slice(bytes);
        self.len = end;
        true
    }
}
