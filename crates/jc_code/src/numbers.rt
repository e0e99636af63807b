//! Numbers in the code (JVMS 6.5).

ghost use Rattle.std.specs.Prelude.{◌≡◌, ◌+◌, ◌≤◌, ◌<◌, ◌^◌, pos, ◌+ℤ◌, length, drop};
ghost use Rattle.jc_base.specs.Endian.{big_number};
ghost use Rattle.jc_view.specs.Reading.{after};
ghost use Rattle.jc_view.specs.Moves.{Lends};
ghost use Rattle.jc_view.specs.Outcome.{AreBytes};
ghost use Rattle.jc_code.specs.InsnReading.{byte_value, short_value, int_value};
ghost use Rattle.jc_code.specs.inside.Decoding.{same};

use byteorder::{BigEndian, ByteOrder};
use jc_base::Cursor;

/// Reads a signed number of one byte.
pub(crate) fn read_byte(cursor: &mut Cursor) -> Option<i8>
    ensures { Lends same (after 1) byte_value cursor.old result cursor.new }
{
    Some(cursor.u1()?.cast_signed())
}

/// Reads a signed number of two bytes.
pub(crate) fn read_short(cursor: &mut Cursor) -> Option<i16>
    ensures { Lends same (after 2) short_value cursor.old result cursor.new }
{
    Some(cursor.u2()?.cast_signed())
}

/// Reads a signed number of four bytes.
pub(crate) fn read_int(cursor: &mut Cursor) -> Option<i32>
    ensures { Lends same (after 4) int_value cursor.old result cursor.new }
{
    Some(cursor.u4()?.cast_signed())
}

/// Returns the number of four bytes at an index.
pub(crate) fn word_at(bytes: &[u8], at: usize) -> u32
    requires { at + 4 ≤ length bytes.now }
    ensures { result ≡ big_number 4 (drop at bytes.now) }
{
    let (_, rest) = bytes.split_at(at);
    BigEndian::read_u32(rest)
}

/// Returns the signed number of four bytes at an index.
pub(crate) fn int_at(bytes: &[u8], at: usize) -> i32
    requires { at + 4 ≤ length bytes.now }
    ensures { result ≡ int_value (drop at bytes.now) }
{
    word_at(bytes, at).cast_signed()
}

/// Returns the target of an instruction at a place, from the offset in its operands.
pub(crate) fn target(place: u32, offset: i32) -> i64
    ensures { result ≡ pos place +ℤ offset }
{
    i64::from(place) + i64::from(offset)
}

/// Returns the same slice, with a clause that each byte is below 256.
pub(crate) fn as_bytes(bytes: &[u8]) -> &[u8]
    ensures same { result.now ≡ bytes.now }
    ensures bytes { AreBytes result.now }
{
    bytes
}
