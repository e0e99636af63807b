//! A writer of text with a buffer before an output.

ghost use Rattle.std.specs.Prelude.{◌≡◌, OnOk, OnErr, false, true, []};
ghost use Rattle.jc_text.specs.Sends.{IsFresh, Sends};

use crate::pending::Pending;
use jc_base::{DeviceFault, Output, write_all};

/// A writer of text with a buffer of 4 KiB before an output. Does not allocate. Text stays in the buffer until
/// `finish`, or until there is no room for more. A writer that is dropped does not write it.
///
/// After a write fails, nothing more is written, and later text is dropped. The output then has a prefix of the text,
/// and `finish` returns an error.
#[derive(Drop)]
pub struct TextWriter<'w, W> {
    out: &'w mut W,
    pending: Pending,
    failed: bool,
}

impl<'w, W: Output> TextWriter<'w, W> {
    /// Creates a writer without pending text.
    pub fn new(out: &'w mut W) -> TextWriter<'w, W>
        ensures fresh { IsFresh result }
        ensures same_reference { result.out.ghost_name ≡ out.entry.ghost_name }
        ensures unchanged { result.out.now ≡ out.old }
    {
        TextWriter {
            out,
            pending: Pending::new(),
            failed: false,
        }
    }

    /// Writes bytes as they are.
    #[inline]
    pub fn text(&mut self, bytes: &[u8])
        ensures { Sends W.written W.failures self.old self.new bytes.now }
    {
        if !self.pending.keep(bytes) {
            self.text_without_room(bytes);
        }
    }

    /// Returns whether a write has failed, after which nothing more is written.
    pub(crate) fn has_failed(&self) -> bool
        ensures { result ≡ self.now.failed }
    {
        self.failed
    }

    /// Writes the pending text. Returns an error if this or an earlier write failed.
    pub fn finish(&mut self) -> Result<(), DeviceFault>
        ensures sends { Sends W.written W.failures self.old self.new [] }
        ensures ok { OnOk result (IsFresh self.new) }
        ensures err { OnErr result (self.new.failed ≡ true) }
    {
        self.flush();
        if self.failed {
            Err(DeviceFault)
        } else {
            Ok(())
        }
    }

    /// Writes the pending text. Then keeps the bytes, or writes them too if the buffer is too small.
    #[cold]
    #[inline(never)]
    fn text_without_room(&mut self, bytes: &[u8])
        ensures { Sends W.written W.failures self.old self.new bytes.now }
    {
        self.flush();
        if !self.pending.keep(bytes) {
            self.send(bytes);
        }
    }

    /// Writes the pending text, or drops it if a write has failed.
    fn flush(&mut self)
        ensures sends { Sends W.written W.failures self.old self.new [] }
        ensures empty { self.new.pending ≡ [] }
    {
        if self.failed {
            self.pending.clear();
            return;
        }
        self.failed = write_all(self.out, self.pending.bytes()).is_err();
        self.pending.clear();
    }

    /// Writes bytes at once, or drops them if a write has failed.
    fn send(&mut self, bytes: &[u8])
        requires { self.old.pending ≡ [] }
        ensures { Sends W.written W.failures self.old self.new bytes.now }
    {
        if !self.failed {
            self.failed = write_all(self.out, bytes).is_err();
        }
    }
}
