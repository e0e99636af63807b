//! Modified UTF-8, the encoding of texts in class files (JVMS 4.4.7).

ghost use Rattle.std.specs.Prelude.{◌≡◌, ℕ, ◌+◌, ◌*◌, ◌<◌, ◌≤◌, ◌↔◌, List, [], ◌∷◌, ◌++◌};
ghost use Rattle.std.specs.Prelude.{◌&&◌, nat_lt, length, take, All, Contains, IsOk, IfOk, IfErr, IfSome, OnSome, is_ok, is_some};
ghost use Rattle.std.specs.List.{list_all};
ghost use Rattle.jc_base.specs.declared.modified_utf8.UnitsError.TheVariants.{NoMemory};
ghost use Rattle.jc_base.specs.ModifiedUtf8.{IsUnit, spelling, spelled, Spells, IsWellSpelled, IsLongestFront};
ghost use Rattle.jc_base.specs.TextTests.{units_of};
ghost use Rattle.jc_base.specs.FirstUnit.{six_bits, two_byte_unit, three_byte_unit, first_unit};

use std::alloc::{AllocError, Global};

/// Checks that `text` is modified UTF-8 (JVMS 4.4.7). If it is not, returns the length in bytes of its longest prefix
/// that is.
///
/// A surrogate does not need its pair. Each unit has one encoding, and an overlong encoding is an error. Does not
/// allocate.
pub fn check_units(text: &[u8]) -> Result<(), usize>
    ensures ok { IsOk result ↔ IsWellSpelled text.now }
    ensures computed { is_ok result ≡ is_some (units_of text.now) }
    ensures place { IfErr result (IsLongestFront text.now) }
{
    if is_plain(text) {
        return Ok(());
    }
    let mut place = 0;
    while place < text.len() {
        match unit_at(&text[place..]) {
            Some((_, size)) => place += size,
            None => return Err(place),
        }
    }
    Ok(())
}

// Returns whether each byte is a unit by itself, which is true of most texts.
fn is_plain(text: &[u8]) -> bool
    ensures { result ≡ list_all (λ byte. nat_lt 0 byte && nat_lt byte 0x80) text.now }
{
    let mut plain = true;
    for byte in text {
        plain &= is_plain_byte(*byte);
    }
    plain
}

fn is_plain_byte(byte: u8) -> bool
    ensures { result ≡ (nat_lt 0 byte && nat_lt byte 0x80) }
{
    0 < byte && byte < 0x80
}

/// Returns the UTF-16 code units that `text` encodes.
///
/// Returns `Bad` whenever the text is not modified UTF-8: it is checked before anything is allocated. Returns
/// `NoMemory` only when an allocation fails.
pub fn units(alloc: Global, text: &[u8]) -> Result<Vec<u16>, UnitsError>
    ensures ok { IfOk result (λ units. Spells units.items text.now) }
    ensures bad { (place : ℕ) →
        (result ≡ Err (UnitsError.Bad place)) ↔ IsLongestFront text.now place }
    ensures empty { text.now ≡ [] → IsOk result }
{
    if let Err(place) = check_units(text) {
        return Err(UnitsError::Bad(place));
    }
    Ok(spelled_units(alloc, text)?)
}

fn spelled_units(alloc: Global, text: &[u8]) -> Result<Vec<u16>, AllocError>
    requires { IsWellSpelled text.now }
    ensures ok { IfOk result (λ units. Spells units.items text.now) }
    ensures empty { text.now ≡ [] → IsOk result }
{
    let mut units = Vec::new(alloc);
    let mut rest = text;
    while let Some((unit, size)) = unit_at(rest) {
        units.push(unit)?;
        rest = &rest[size..];
    }
    Ok(units)
}

/// The reason why a text has no units.
#[derive(Clone, Copy, Debug, PartialEq, Eq)]
pub enum UnitsError {
    /// The text is not modified UTF-8. The number is the length in bytes of its longest prefix that is.
    Bad(usize),
    /// An allocation failed.
    NoMemory,
}

impl UnitsError {
    ghost use Rattle.jc_base.specs.ModifiedUtf8.{units_error_code};

    /// Returns the number of the error: 1 for `Bad`, 2 for `NoMemory`.
    pub fn code(&self) -> u8
        ensures { result ≡ units_error_code self.now }
    {
        match self {
            UnitsError::Bad(_) => 1,
            UnitsError::NoMemory => 2,
        }
    }
}

impl From<AllocError> for UnitsError {
    ghost from_gives = { λ _ error. error ≡ NoMemory };

    fn from(_refused: AllocError) -> UnitsError {
        UnitsError::NoMemory
    }
}

// Returns the unit at the front of `text`, and the number of bytes that encode it.
#[tactic(auto, unfolding(crate::specs::FirstUnit::first_unit))]
pub(crate) fn unit_at(text: &[u8]) -> Option<(u16, usize)>
    ensures value { result ≡ first_unit text.now }
    ensures within { IfSome result (λ found. (0 < found.1) × (found.1 ≤ length text.now)) }
{
    let first = *text.first()?;
    match first {
        0x01..=0x7f => Some((u16::from(first), 1)),
        0xc0..=0xdf => Some((two_byte_unit(first, text)?, 2)),
        0xe0..=0xef => Some((three_byte_unit(first, text)?, 3)),
        _ => None,
    }
}

// Returns the unit that `110xxxxx 10xxxxxx` encodes, unless it has a shorter encoding.
#[tactic(auto, unfolding(crate::specs::FirstUnit::two_byte_unit))]
fn two_byte_unit(first: u8, text: &[u8]) -> Option<u16>
    ensures value { result ≡ two_byte_unit first text.now }
    ensures within { OnSome result (2 ≤ length text.now) }
{
    let unit = with_six_bits(u16::from(first & 0x1f), six_bits(text, 1)?);
    if unit == 0 || unit >= 0x80 {
        Some(unit)
    } else {
        None
    }
}

// Returns the unit that `1110xxxx 10xxxxxx 10xxxxxx` encodes, unless it has a shorter encoding.
#[tactic(auto, unfolding(crate::specs::FirstUnit::three_byte_unit))]
fn three_byte_unit(first: u8, text: &[u8]) -> Option<u16>
    ensures value { result ≡ three_byte_unit first text.now }
    ensures within { OnSome result (3 ≤ length text.now) }
{
    let high = with_six_bits(u16::from(first & 0x0f), six_bits(text, 1)?);
    let unit = with_six_bits(high, six_bits(text, 2)?);
    if unit >= 0x800 { Some(unit) } else { None }
}

// Returns the six bits that the byte `10xxxxxx` at `place` adds to a unit.
#[tactic(auto, unfolding(crate::specs::FirstUnit::six_bits))]
fn six_bits(text: &[u8], place: usize) -> Option<u16>
    ensures value { result ≡ six_bits text.now place }
    ensures small { IfSome result (λ bits. bits < 64) }
    ensures within { OnSome result (place < length text.now) }
{
    match *text.get(place)? {
        byte @ 0x80..=0xbf => Some(u16::from(byte & 0x3f)),
        _ => None,
    }
}

// Returns `high` with six more bits after its own.
fn with_six_bits(high: u16, low: u16) -> u16
    requires high { high < 1024 }
    requires low { low < 64 }
    ensures { result ≡ high * 64 + low }
{
    (high << 6) | low
}

/// States that `first_unit` returns the unit at the front and the number of bytes that encode it, and `None` only if
/// there is no unit.
pub fn first_unit_is_spelled()
    ensures found { (bytes : List ℕ) (u n : ℕ) → first_unit bytes ≡ Some (u, n) →
        IsUnit u × (take n bytes ≡ spelling u) × (n ≡ length (spelling u)) }
    ensures finds { (u : ℕ) (rest : List ℕ) → IsUnit u →
        first_unit (spelling u ++ rest) ≡ Some (u, length (spelling u)) }
{}

/// States that bytes encode at most one list of units. A text has at most one longest prefix that is modified UTF-8.
pub fn units_are_determined()
    ensures units { (us vs bytes : List ℕ) → Spells us bytes → Spells vs bytes → us ≡ vs }
    ensures fronts { (bytes : List ℕ) (m n : ℕ) →
        IsLongestFront bytes m → IsLongestFront bytes n → m ≡ n }
{}

/// States that the bytes of modified UTF-8 are from 0x01 to 0xef (JVMS 4.4.7).
pub fn bytes_are_in_range()
    ensures { (bytes : List ℕ) → IsWellSpelled bytes → All (λ b. (0 < b) × (b < 0xf0)) bytes }
{}

/// States that a text contains a character from 0x01 to 0x7f if and only if its bytes contain that byte.
pub fn ascii_stands_for_itself()
    ensures { (us bytes : List ℕ) (c : ℕ) →
        Spells us bytes → 0 < c → c < 0x80 → (Contains us c ↔ Contains bytes c) }
{}

/// States the bytes of some texts, and that some bytes are not modified UTF-8.
pub fn spelling_examples()
    ensures capital_a { spelled (0x41 ∷ []) ≡ 0x41 ∷ [] }
    ensures zero { spelled (0 ∷ []) ≡ 0xc0 ∷ 0x80 ∷ [] }
    ensures last_of_one { spelled (0x7f ∷ 0x80 ∷ []) ≡ 0x7f ∷ 0xc2 ∷ 0x80 ∷ [] }
    ensures last_of_two { spelled (0x7ff ∷ 0x800 ∷ []) ≡ 0xdf ∷ 0xbf ∷ 0xe0 ∷ 0xa0 ∷ 0x80 ∷ [] }
    ensures last_of_three { spelled (0xffff ∷ []) ≡ 0xef ∷ 0xbf ∷ 0xbf ∷ [] }
    ensures surrogates { spelled (0xd83d ∷ 0xde00 ∷ [])
        ≡ 0xed ∷ 0xa0 ∷ 0xbd ∷ 0xed ∷ 0xb8 ∷ 0x80 ∷ [] }

    ensures overlong_two { ¬ IsWellSpelled (0xc1 ∷ 0x81 ∷ []) }
    ensures overlong_three { ¬ IsWellSpelled (0xe0 ∷ 0x80 ∷ 0x80 ∷ []) }
    ensures four_bytes { ¬ IsWellSpelled (0xf0 ∷ 0x9f ∷ 0x98 ∷ 0x80 ∷ []) }
    ensures zero_byte { ¬ IsWellSpelled (0 ∷ []) }
    ensures lone_continuation { ¬ IsWellSpelled (0x80 ∷ []) }
    ensures cut_short { ¬ IsWellSpelled (0xe2 ∷ 0x82 ∷ []) }
    ensures second_is_wrong { IsLongestFront (0x41 ∷ 0xc1 ∷ 0x81 ∷ []) 1 }
{}
