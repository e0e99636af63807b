//! Names, texts and paths as printable ASCII.

ghost use Rattle.std.specs.Prelude.{◌≡◌, ◌≤◌, length, take, drop};
ghost use Rattle.std.specs.List.{flat_map, list_all, prefix_len};
ghost use Rattle.jc_base.specs.CodeUnits.{units_before};
ghost use Rattle.jc_text.specs.Sends.{Sends};
ghost use Rattle.jc_text.specs.Escapes.{is_plain, path_byte_text, path_text, shown, unit_text};

use crate::text_writer::TextWriter;
use jc_base::{Output, Units, check_units};

impl<'w, W: Output> TextWriter<'w, W> {
    /// Writes a text by its code units (JVMS 4.4.7).
    ///
    /// Printable ASCII is written as it is, except that a backslash is doubled. Other units are written as `\uNNNN`. A
    /// text that is not modified UTF-8 is written as `!` and two hexadecimal digits for each byte.
    pub fn shown(&mut self, text: &[u8])
        ensures { Sends W.written W.failures self.old self.new (shown text.now) }
    {
        // After a failed write nothing more is written, so no text is read.
        if self.has_failed() {
            return;
        }
        if are_plain(text) {
            self.text(text);
        } else {
            self.shown_escaped(text);
        }
    }

    /// Writes a text that is not plain, which is rare.
    #[cold]
    #[inline(never)]
    fn shown_escaped(&mut self, text: &[u8])
        ensures { Sends W.written W.failures self.old self.new (shown text.now) }
    {
        if check_units(text).is_ok() {
            self.units(text);
        } else {
            self.text(b"!");
            self.hexadecimal(text);
        }
    }

    /// Writes a path.
    ///
    /// Printable ASCII is written as it is, except that a backslash is doubled. Other bytes are written as `\xNN`.
    pub fn path(&mut self, path: &[u8])
        ensures { Sends W.written W.failures self.old self.new (path_text path.now) }
    {
        let mut left = path;
        loop {
            let (plain, escaped) = split_plain(left);
            self.text(plain);
            let Some((byte, rest)) = escaped.split_first() else {
                return;
            };
            self.path_byte(*byte);
            left = rest;
        }
    }

    // Writes the units before the first bytes that encode no unit.
    fn units(&mut self, text: &[u8])
        ensures { Sends W.written W.failures self.old self.new (flat_map unit_text (units_before text.now)) }
    {
        let mut left = text;
        loop {
            let (plain, escaped) = split_plain(left);
            self.text(plain);
            let mut units = Units::new(escaped);
            let Some(unit) = units.next() else {
                return;
            };
            self.unit(unit);
            left = units.rest();
        }
    }

    fn path_byte(&mut self, byte: u8)
        ensures { Sends W.written W.failures self.old self.new (path_byte_text byte) }
    {
        if is_plain(u16::from(byte)) {
            self.text(&[byte]);
        } else if byte == b'\\' {
            self.text(b"\\\\");
        } else {
            self.text(b"\\x");
            self.hexadecimal(&[byte]);
        }
    }

    fn unit(&mut self, unit: u16)
        ensures { Sends W.written W.failures self.old self.new (unit_text unit) }
    {
        if is_plain(unit) {
            self.text(&[unit as u8]);
        } else if unit == u16::from(b'\\') {
            self.text(b"\\\\");
        } else {
            self.text(b"\\u");
            self.hexadecimal(&unit.to_be_bytes());
        }
    }
}

// Splits the bytes after the plain bytes at their front.
fn split_plain(bytes: &[u8]) -> (&[u8], &[u8])
    ensures plain { result.0.now ≡ take (prefix_len is_plain bytes.now) bytes.now }
    ensures escaped { result.1.now ≡ drop (prefix_len is_plain bytes.now) bytes.now }
{
    bytes.split_at(plain_len(bytes))
}

// Returns whether all bytes are plain. The loop has no early exit, so that many bytes can be tested in one step.
fn are_plain(text: &[u8]) -> bool
    ensures { result ≡ list_all is_plain text.now }
{
    let mut plain = true;
    for byte in text {
        plain &= is_plain(u16::from(*byte));
    }
    plain
}

// Returns the number of plain bytes at the front.
fn plain_len(bytes: &[u8]) -> usize
    ensures length { result ≡ prefix_len is_plain bytes.now }
    ensures within { result ≤ length bytes.now }
{
    bytes
        .iter()
        .take_while(|byte| is_plain(u16::from(**byte)))
        .count()
}

// Returns whether a unit is printable ASCII and not a backslash.
fn is_plain(unit: u16) -> bool
    ensures { result ≡ is_plain unit }
{
    0x20 <= unit && unit <= 0x7e && unit != 0x5c
}
