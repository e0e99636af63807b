//! Numbers as text.

ghost use Rattle.std.specs.Prelude.{◌≡◌, ◌<◌};
ghost use Rattle.jc_text.specs.Sends.{Sends};
ghost use Rattle.jc_text.specs.Numbers.{hex_digit, hexadecimal};

use crate::text_writer::TextWriter;
use itoa::{Buffer, Integer};
use jc_base::Output;

impl<'w, W: Output> TextWriter<'w, W> {
    /// Writes a number in decimal digits, with a minus sign if it is negative.
    pub fn decimal<I: Integer>(&mut self, number: I)
        ensures { Sends W.written W.failures self.old self.new (I.text number) }
    {
        let mut buffer = Buffer::new();
        self.text(buffer.format(number).as_bytes());
    }

    /// Writes two hexadecimal digits for each byte, in lower case.
    pub fn hexadecimal(&mut self, bytes: &[u8])
        ensures { Sends W.written W.failures self.old self.new (hexadecimal bytes.now) }
    {
        for byte in bytes {
            self.text(&[hex_digit(byte / 16), hex_digit(byte % 16)]);
        }
    }
}

fn hex_digit(digit: u8) -> u8
    requires { digit < 16 }
    ensures { result ≡ hex_digit digit }
{
    if digit < 10 {
        b'0' + digit
    } else {
        b'a' + (digit - 10)
    }
}
