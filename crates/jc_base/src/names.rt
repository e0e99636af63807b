//! Tests of the names of classes, interfaces, fields and methods (JVMS 4.2).

ghost use Rattle.std.specs.Prelude.{◌≡◌, ◌↔◌, ◌<◌, true, ℕ, List, Some, Contains, IsTrue, codes};
ghost use Rattle.std.specs.List.{list_all};
ghost use Rattle.jc_base.specs.Names.{Lacks, name_stops, method_name_stops, IsUnqualifiedName};
ghost use Rattle.jc_base.specs.Names.{IsSpecialMethodName, IsMethodName, IsClassName};
ghost use Rattle.jc_base.specs.ModifiedUtf8.{IsWellSpelled, Spells};
ghost use Rattle.jc_base.specs.inside.PlainNames.{are_plain_parts, is_plain_byte, place_behind};
ghost use Rattle.jc_base.specs.TextTests.{units_of, is_unqualified_text, is_method_name_text, is_class_text};

use crate::modified_utf8::check_units;

/// Returns whether `text` is an unqualified name, for example of a field or a local variable (JVMS 4.2.2). Such a name
/// is modified UTF-8. It has at least one character, and none of `.`, `;`, `[` and `/`. Does not allocate.
pub fn is_unqualified(text: &[u8]) -> bool
    ensures name { IsTrue result ↔ IsUnqualifiedName text.now }
    ensures computed { result ≡ is_unqualified_text text.now }
{
    is_plain_name(text) || is_spelled_name(text)
}

// Returns whether `text` is an unqualified name, by its code units.
fn is_spelled_name(text: &[u8]) -> bool
    ensures name { IsTrue result ↔ IsUnqualifiedName text.now }
    ensures computed { result ≡ is_unqualified_text text.now }
{
    !text.is_empty() && check_units(text).is_ok() && lacks_name_stops(text)
}

// Returns whether `text` is an unqualified name whose characters are below 0x80, as most are.
fn is_plain_name(text: &[u8]) -> bool
    ensures { IsTrue result → IsUnqualifiedName text.now }
{
    !text.is_empty() && are_plain(text)
}

fn are_plain(text: &[u8]) -> bool
    ensures { result ≡ list_all is_plain_byte text.now }
{
    let mut are_plain = true;
    for byte in text {
        are_plain &= is_plain_byte(*byte);
    }
    are_plain
}

// Returns whether the byte is a character below 0x80 that an unqualified name may contain.
fn is_plain_byte(byte: u8) -> bool
    ensures { result ≡ is_plain_byte byte }
{
    place_behind(BEGINS, byte) == WITHIN
}

/// Returns whether `text` is the name of a method (JVMS 4.2.2): `<init>`, `<clinit>` or an unqualified name without `<`
/// and `>`. Does not allocate.
pub fn is_method_name(text: &[u8]) -> bool
    ensures name { IsTrue result ↔ IsMethodName text.now }
    ensures computed { result ≡ is_method_name_text text.now }
{
    is_special_method_name(text) || (is_unqualified(text) && lacks_method_name_stops(text))
}

/// Returns whether `text` is a class or interface name in its internal form (JVMS 4.2.1). Such a name is one or more
/// unqualified names, separated by `/`, for example `java/lang/Object`. Does not allocate.
pub fn is_class_name(text: &[u8]) -> bool
    ensures name { IsTrue result ↔ IsClassName text.now }
    ensures computed { result ≡ is_class_text text.now }
{
    is_plain_class_name(text) || text.split(|byte| *byte == b'/').all(is_unqualified)
}

// Returns whether `text` is a class name whose characters are below 0x80, as most are.
fn is_plain_class_name(text: &[u8]) -> bool
    ensures { result ≡ are_plain_parts true text.now }
{
    let mut place = BEGINS;
    for byte in text {
        place = place_behind(place, *byte);
    }
    place == WITHIN
}

// The states of a pass over a class name whose characters are below 0x80. In state 0 a part begins, and state 1 is
// within a part. State 2 follows bytes with which no such name begins.
const BEGINS: u8 = 0;

const WITHIN: u8 = 1;

// Returns the state after a byte.
fn place_behind(place: u8, byte: u8) -> u8
    requires { place < 3 }
    ensures { result ≡ place_behind place byte }
{
    PLACES[place as usize][byte as usize]
}

// For each state, the state after each byte.
#[rattlefmt::skip]
static PLACES: [[u8; 256]; 3] = [
    [
        2, 1, 1, 1, 1, 1, 1, 1, 1, 1, 1, 1, 1, 1, 1, 1, 1, 1, 1, 1, 1, 1, 1, 1, 1, 1, 1, 1, 1, 1, 1, 1,
        1, 1, 1, 1, 1, 1, 1, 1, 1, 1, 1, 1, 1, 1, 2, 2, 1, 1, 1, 1, 1, 1, 1, 1, 1, 1, 1, 2, 1, 1, 1, 1,
        1, 1, 1, 1, 1, 1, 1, 1, 1, 1, 1, 1, 1, 1, 1, 1, 1, 1, 1, 1, 1, 1, 1, 1, 1, 1, 1, 2, 1, 1, 1, 1,
        1, 1, 1, 1, 1, 1, 1, 1, 1, 1, 1, 1, 1, 1, 1, 1, 1, 1, 1, 1, 1, 1, 1, 1, 1, 1, 1, 1, 1, 1, 1, 1,
        2, 2, 2, 2, 2, 2, 2, 2, 2, 2, 2, 2, 2, 2, 2, 2, 2, 2, 2, 2, 2, 2, 2, 2, 2, 2, 2, 2, 2, 2, 2, 2,
        2, 2, 2, 2, 2, 2, 2, 2, 2, 2, 2, 2, 2, 2, 2, 2, 2, 2, 2, 2, 2, 2, 2, 2, 2, 2, 2, 2, 2, 2, 2, 2,
        2, 2, 2, 2, 2, 2, 2, 2, 2, 2, 2, 2, 2, 2, 2, 2, 2, 2, 2, 2, 2, 2, 2, 2, 2, 2, 2, 2, 2, 2, 2, 2,
        2, 2, 2, 2, 2, 2, 2, 2, 2, 2, 2, 2, 2, 2, 2, 2, 2, 2, 2, 2, 2, 2, 2, 2, 2, 2, 2, 2, 2, 2, 2, 2,
    ],
    [
        2, 1, 1, 1, 1, 1, 1, 1, 1, 1, 1, 1, 1, 1, 1, 1, 1, 1, 1, 1, 1, 1, 1, 1, 1, 1, 1, 1, 1, 1, 1, 1,
        1, 1, 1, 1, 1, 1, 1, 1, 1, 1, 1, 1, 1, 1, 2, 0, 1, 1, 1, 1, 1, 1, 1, 1, 1, 1, 1, 2, 1, 1, 1, 1,
        1, 1, 1, 1, 1, 1, 1, 1, 1, 1, 1, 1, 1, 1, 1, 1, 1, 1, 1, 1, 1, 1, 1, 1, 1, 1, 1, 2, 1, 1, 1, 1,
        1, 1, 1, 1, 1, 1, 1, 1, 1, 1, 1, 1, 1, 1, 1, 1, 1, 1, 1, 1, 1, 1, 1, 1, 1, 1, 1, 1, 1, 1, 1, 1,
        2, 2, 2, 2, 2, 2, 2, 2, 2, 2, 2, 2, 2, 2, 2, 2, 2, 2, 2, 2, 2, 2, 2, 2, 2, 2, 2, 2, 2, 2, 2, 2,
        2, 2, 2, 2, 2, 2, 2, 2, 2, 2, 2, 2, 2, 2, 2, 2, 2, 2, 2, 2, 2, 2, 2, 2, 2, 2, 2, 2, 2, 2, 2, 2,
        2, 2, 2, 2, 2, 2, 2, 2, 2, 2, 2, 2, 2, 2, 2, 2, 2, 2, 2, 2, 2, 2, 2, 2, 2, 2, 2, 2, 2, 2, 2, 2,
        2, 2, 2, 2, 2, 2, 2, 2, 2, 2, 2, 2, 2, 2, 2, 2, 2, 2, 2, 2, 2, 2, 2, 2, 2, 2, 2, 2, 2, 2, 2, 2,
    ],
    [
        2, 2, 2, 2, 2, 2, 2, 2, 2, 2, 2, 2, 2, 2, 2, 2, 2, 2, 2, 2, 2, 2, 2, 2, 2, 2, 2, 2, 2, 2, 2, 2,
        2, 2, 2, 2, 2, 2, 2, 2, 2, 2, 2, 2, 2, 2, 2, 2, 2, 2, 2, 2, 2, 2, 2, 2, 2, 2, 2, 2, 2, 2, 2, 2,
        2, 2, 2, 2, 2, 2, 2, 2, 2, 2, 2, 2, 2, 2, 2, 2, 2, 2, 2, 2, 2, 2, 2, 2, 2, 2, 2, 2, 2, 2, 2, 2,
        2, 2, 2, 2, 2, 2, 2, 2, 2, 2, 2, 2, 2, 2, 2, 2, 2, 2, 2, 2, 2, 2, 2, 2, 2, 2, 2, 2, 2, 2, 2, 2,
        2, 2, 2, 2, 2, 2, 2, 2, 2, 2, 2, 2, 2, 2, 2, 2, 2, 2, 2, 2, 2, 2, 2, 2, 2, 2, 2, 2, 2, 2, 2, 2,
        2, 2, 2, 2, 2, 2, 2, 2, 2, 2, 2, 2, 2, 2, 2, 2, 2, 2, 2, 2, 2, 2, 2, 2, 2, 2, 2, 2, 2, 2, 2, 2,
        2, 2, 2, 2, 2, 2, 2, 2, 2, 2, 2, 2, 2, 2, 2, 2, 2, 2, 2, 2, 2, 2, 2, 2, 2, 2, 2, 2, 2, 2, 2, 2,
        2, 2, 2, 2, 2, 2, 2, 2, 2, 2, 2, 2, 2, 2, 2, 2, 2, 2, 2, 2, 2, 2, 2, 2, 2, 2, 2, 2, 2, 2, 2, 2,
    ],
];

const INSTANCE_INITIALIZER: &[u8] = b"<init>";

const CLASS_INITIALIZER: &[u8] = b"<clinit>";

fn is_special_method_name(text: &[u8]) -> bool
    ensures { IsTrue result ↔ IsSpecialMethodName text.now }
{
    text == INSTANCE_INITIALIZER || text == CLASS_INITIALIZER
}

fn lacks_name_stops(text: &[u8]) -> bool
    ensures { IsTrue result ↔ Lacks text.now name_stops }
{
    text.iter().all(is_name_byte)
}

fn lacks_method_name_stops(text: &[u8]) -> bool
    ensures { IsTrue result ↔ Lacks text.now method_name_stops }
{
    text.iter().all(is_method_name_byte)
}

fn is_name_byte(byte: &u8) -> bool
    ensures { IsTrue result ↔ (¬ Contains name_stops byte.now) }
{
    !matches!(*byte, b'.' | b';' | b'[' | b'/')
}

fn is_method_name_byte(byte: &u8) -> bool
    ensures { IsTrue result ↔ (¬ Contains method_name_stops byte.now) }
{
    !matches!(*byte, b'<' | b'>')
}

/// States that names are modified UTF-8.
pub fn names_are_well_spelled()
    ensures class { (b : List ℕ) → IsClassName b → IsWellSpelled b }
    ensures method { (b : List ℕ) → IsMethodName b → IsWellSpelled b }
{}

/// States that the functions of `specs/TextTests.antt` decide what the definitions of names and of modified UTF-8 say.
pub fn texts_are_decided()
    ensures units { (b us : List ℕ) → (units_of b ≡ Some us) ↔ Spells us b }
    ensures unqualified { (b : List ℕ) → IsTrue (is_unqualified_text b) ↔ IsUnqualifiedName b }
    ensures method { (b : List ℕ) → IsTrue (is_method_name_text b) ↔ IsMethodName b }
    ensures class { (b : List ℕ) → IsTrue (is_class_text b) ↔ IsClassName b }
{}

/// States that some texts are names, and that some are not.
pub fn name_examples()
    ensures word { IsUnqualifiedName (codes "word") }
    ensures bracketed { IsUnqualifiedName (codes "<x>") }
    ensures empty { ¬ IsUnqualifiedName (codes "") }
    ensures array { ¬ IsUnqualifiedName (codes "[I") }
    ensures path { ¬ IsUnqualifiedName (codes "a/b") }
    ensures closed { IsUnqualifiedName (codes "a>b") }
    ensures parted { ¬ IsUnqualifiedName (codes "a;b") }

    ensures method { IsMethodName (codes "main") }
    ensures constructor { IsMethodName (codes "<init>") }
    ensures bracketed_method { ¬ IsMethodName (codes "<x>") }
    ensures closed_method { ¬ IsMethodName (codes "a>b") }
    ensures parted_method { ¬ IsMethodName (codes "a;b") }

    ensures class { IsClassName (codes "java/lang/Object") }
    ensures one_part { IsClassName (codes "Main") }
    ensures no_part { ¬ IsClassName (codes "") }
    ensures empty_part { ¬ IsClassName (codes "a//b") }
    ensures empty_first { ¬ IsClassName (codes "/a") }
    ensures empty_last { ¬ IsClassName (codes "a/") }
    ensures array_class { ¬ IsClassName (codes "[Ljava/lang/Object;") }
    ensures closed_class { IsClassName (codes "a>b") }
    ensures parted_class { ¬ IsClassName (codes "a;b") }
{}
