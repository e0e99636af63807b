//! The instructions of a method's code, one after another (JVMS 4.9.1).

ghost use Rattle.std.specs.Prelude.{◌≡◌, ◌<◌, ◌^◌, [], length};
ghost use Rattle.jc_code.specs.Insns.{IsCode};
ghost use Rattle.jc_code.specs.InsnReading.{end_of, insns_of};

use crate::decoder::read_insn;
use crate::insn::Insn;
use jc_base::Cursor;
use std::marker::Model;

/// An iterator over the instructions of a code, each with its offset from the start of the code.
///
/// It ends at the end of the code, or at the first offset without an instruction. Its model has the
/// instructions that are left, the offset reached, and the offset where the instructions end.
///
/// For example (`crates/jc_rows/src/code_answers.rt`):
///
/// ```
/// let mut insns = Insns::new(code);
/// while let Some((place, insn)) = insns.next() {
///     out.decimal(place);
///     out.text(b" ");
///     out.text(insn.mnemonic().as_bytes());
///     ..
/// }
/// ..
/// out.decimal(insns.rest());
/// ```
#[derive(Drop)]
pub struct Insns<'a> {
    cursor: Cursor<'a>,
}

impl<'a> Model for Insns<'a> {
    ghost use Rattle.jc_code.specs.InsnsLeft.{InsnsLeft};

    ghost Value = { InsnsLeft };

    ghost use Rattle.std.specs.Prelude.{◌+◌, ◌<◌, ◌^◌, length};
    ghost use Rattle.jc_code.specs.inside.Decoding.{insns_left};

    ghost view = { λ a. insns_left a.cursor.place a.cursor.rest };

    ghost invariant = { λ a. a.cursor.place + length a.cursor.rest < 2 ^ 16 };
}

impl<'a> Insns<'a> {
    /// Returns an iterator over the instructions of a code of at most 65,535 bytes.
    pub fn new(code: &'a [u8]) -> Insns<'a>
        requires { length code.now < 2 ^ 16 }
        ensures code { IsCode code.now result.left result.end }
        ensures read { result ≡ record { place = 0; left = insns_of code.now; end = end_of code.now } }
    {
        Insns {
            cursor: Cursor::new(code),
        }
    }

    /// Returns the offset of the next instruction. If none is left, it is where the instructions end.
    pub fn rest(&self) -> u32
        ensures place { result ≡ self.now.place }
        ensures ended { self.now.left ≡ [] → result ≡ self.now.end }
    {
        self.cursor.place() as u32
    }
}

impl<'a> Iterator for Insns<'a> {
    ghost use Rattle.std.specs.Iterator.{item_count};
    ghost use Rattle.jc_code.specs.InsnsLeft.{GivesInsn};

    type Item = (u32, Insn<'a>);

    ghost next_gives = { GivesInsn };

    ghost remaining = { item_count (λ it. it.left) };

    fn next(&mut self) -> Option<(u32, Insn<'a>)> {
        let place = self.cursor.place() as u32;
        let mut ahead = self.cursor.fork();
        let insn = read_insn(&mut ahead)?;
        self.cursor = ahead;
        Some((place, insn))
    }
}
