//! Descriptors of fields and methods (JVMS 4.3).

ghost use Rattle.std.specs.Prelude.{◌≡◌, ◌≢◌, ◌∷◌, [], ◌+◌, ◌<◌, ◌≤◌, ◌++◌, ◌↔◌};
ghost use Rattle.std.specs.Prelude.{◌==◌, ◌||◌, ℕ, List, All, Option, Some, replicate, slice_index, position};
ghost use Rattle.std.specs.Prelude.{Contains, length, codes, sum_by, IsTrue, IsSome, IfSome, IfNone, MatchOption};
ghost use Rattle.std.specs.Option.{option_copied};
ghost use Rattle.std.specs.List.{list_any};
ghost use Rattle.jc_base.specs.Descriptors.{base_types, IsBaseType, IsClassType, IsElementType, IsField, IsFieldDescriptor};
ghost use Rattle.jc_base.specs.Descriptors.{field_text, slots_of, IsMethod, IsMethodDescriptor, FieldType, MethodType};
ghost use Rattle.jc_base.specs.DescriptorTests.{field_type_of, method_type_of};
ghost use Rattle.jc_base.specs.Bytes.{same_bytes};
ghost use Rattle.jc_base.specs.ModifiedUtf8.{IsWellSpelled};
ghost use Rattle.jc_base.specs.FieldsInFront.{element_len, field_len, fields_of};
ghost use Rattle.jc_base.specs.inside.MethodParts.{HasInFront, AreParams, ReadsParams, IsResult};

use crate::names::is_class_name;
use std::marker::Model;

const MOST_DIMS: usize = 255;

/// A parsed field descriptor: the type of a field, a local variable or a parameter (JVMS 4.3.2).
#[derive(Drop)]
pub struct FieldDesc<'a> {
    dims: u8,
    element: &'a [u8],
}

impl<'a> Model for FieldDesc<'a> {
    ghost use Rattle.jc_base.specs.Descriptors.{FieldType, IsElementType};

    ghost Value = { FieldType };

    ghost view = { λ f. record { dims = f.dims; element = f.element.now } };

    ghost invariant = { λ f. IsElementType f.element.now };
}

impl<'a> FieldDesc<'a> {
    /// Parses the whole text as a field descriptor. Returns `None` if it is not one; a field descriptor has at most 255
    /// dimensions.
    pub fn read(text: &'a [u8]) -> Option<FieldDesc<'a>>
        ensures some { IsSome result ↔ IsFieldDescriptor text.now }
        ensures tree { IfSome result (IsField text.now) }
        ensures computed { result ≡ field_type_of text.now }
    {
        let (dims, element) = split_dims(text);
        if dims > MOST_DIMS {
            return None;
        }
        let dims = dims as u8;
        if is_element(element) {
            Some(FieldDesc { dims, element })
        } else {
            None
        }
    }

    /// Returns the number of dimensions, which is 0 if the type is not an array.
    pub fn dims(&self) -> u8
        ensures { result ≡ self.now.dims }
    {
        self.dims
    }

    /// Returns the descriptor without its `[`: the letter of a primitive type, or `L`, a class name and `;`.
    pub fn element(&self) -> &'a [u8]
        ensures element { result.now ≡ self.now.element }
        ensures no_array { IsElementType result.now }
    {
        self.element
    }

    /// Returns the number of slots that a parameter of this type takes: two for a `long` or a `double`, otherwise one.
    pub fn slots(&self) -> u8
        ensures { result ≡ slots_of (field_text self.now) }
    {
        if self.dims == 0 && is_wide(self.element) {
            2
        } else {
            1
        }
    }
}

/// A parsed method descriptor: the types of the parameters and of the result of a method (JVMS 4.3.3).
#[derive(Drop)]
pub struct MethodDesc<'a> {
    params: &'a [u8],
    result: Option<&'a [u8]>,
    slots: u8,
}

impl<'a> Model for MethodDesc<'a> {
    ghost use Rattle.std.specs.Option.{option_copied};
    ghost use Rattle.jc_base.specs.Descriptors.{MethodType};
    ghost use Rattle.jc_base.specs.FieldsInFront.{fields_of};
    ghost use Rattle.jc_base.specs.inside.MethodParts.{AreParts};

    ghost Value = { MethodType };

    ghost view = { λ m. record { params = fields_of m.params.now; result = option_copied m.result } };

    ghost invariant = { λ m. AreParts m.params.now (option_copied m.result) m.slots };
}

impl<'a> MethodDesc<'a> {
    ghost use Rattle.jc_base.specs.Params.{params_left};

    /// Parses the whole text as a method descriptor. Returns `None` if it is not one; the parameters of a method
    /// descriptor take at most 255 slots.
    pub fn read(text: &'a [u8]) -> Option<MethodDesc<'a>>
        ensures some { IsSome result ↔ IsMethodDescriptor text.now }
        ensures tree { IfSome result (IsMethod text.now) }
        ensures computed { result ≡ method_type_of text.now }
    {
        let inner = text.strip_prefix(b"(")?;
        let (slots, rest) = read_params(inner)?;
        let result = read_result(rest.strip_prefix(b")")?)?;
        let params = &inner[..inner.len() - rest.len()];
        Some(MethodDesc {
            params,
            result,
            slots,
        })
    }

    /// Returns the field descriptors of the parameters, from left to right.
    pub fn params(&self) -> Params<'a>
        ensures items { params_left result ≡ self.now.params }
        ensures each { All IsFieldDescriptor self.now.params }
        ensures few { length self.now.params ≤ 255 }
    {
        Params { rest: self.params }
    }

    /// Returns the field descriptor of the result, or `None` for `V`.
    pub fn result(&self) -> Option<&'a [u8]>
        ensures value { option_copied result ≡ self.now.result }
        ensures field { IfSome result (λ b. IsFieldDescriptor b.now) }
    {
        self.result
    }

    /// Returns the number of slots that the parameters take, without the receiver of an instance method.
    pub fn slots(&self) -> u8
        ensures { result ≡ sum_by slots_of self.now.params }
    {
        self.slots
    }
}

/// An iterator over the field descriptors of the parameters of a method.
#[derive(Clone, Copy)]
pub struct Params<'a> {
    rest: &'a [u8],
    // Each parameter takes at least one slot.
    pub ghost few: { length (fields_of rest.now) ≤ 255 },
}

impl<'a> Iterator for Params<'a> {
    ghost use Rattle.std.specs.Iterator.{YieldsFirstBy, item_count};
    ghost use Rattle.jc_base.specs.Params.{params_left};

    type Item = &'a [u8];

    ghost next_gives = { YieldsFirstBy (λ b. b.now) params_left };

    ghost remaining = { item_count params_left };

    fn next(&mut self) -> Option<&'a [u8]> {
        let (param, rest) = split_field(self.rest)?;
        self.rest = rest;
        Some(param)
    }
}

/// States that a text is the descriptor of at most one type.
pub fn descriptors_are_determined()
    ensures field { (b : List ℕ) (t u : FieldType) → IsField b t → IsField b u → t ≡ u }
    ensures method { (b : List ℕ) (t u : MethodType) → IsMethod b t → IsMethod b u → t ≡ u }
{}

/// States that `field_type_of` and `method_type_of` return the type of each descriptor, and `None` for any other text.
pub fn descriptors_are_decided()
    ensures field { (b : List ℕ) (t : FieldType) → (field_type_of b ≡ Some t) ↔ IsField b t }
    ensures method { (b : List ℕ) (t : MethodType) → (method_type_of b ≡ Some t) ↔ IsMethod b t }
{}

/// States that descriptors are modified UTF-8.
pub fn descriptors_are_well_spelled()
    ensures field { (b : List ℕ) → IsFieldDescriptor b → IsWellSpelled b }
    ensures method { (b : List ℕ) → IsMethodDescriptor b → IsWellSpelled b }
{}

/// States the types of some descriptors, and that some texts are not descriptors.
pub fn descriptor_examples()
    ensures array { IsField (codes "[[Ljava/lang/String;")
        (record { dims = 2; element = codes "Ljava/lang/String;" }) }
    ensures most_dims { IsFieldDescriptor (replicate 255 91 ++ codes "I") }
    ensures too_many_dims { ¬ IsFieldDescriptor (replicate 256 91 ++ codes "I") }
    ensures void_field { ¬ IsFieldDescriptor (codes "V") }
    ensures no_name { ¬ IsFieldDescriptor (codes "L;") }
    ensures empty_part { ¬ IsFieldDescriptor (codes "La//b;") }

    ensures method { IsMethod (codes "(IJ[[Ljava/lang/String;)V")
        (record { params = codes "I" ∷ codes "J" ∷ codes "[[Ljava/lang/String;" ∷ []; result = None }) }
    ensures closed_name { IsMethod (codes "(La)b;)V")
        (record { params = codes "La)b;" ∷ []; result = None }) }
    ensures no_result { ¬ IsMethodDescriptor (codes "()") }
    ensures void_param { ¬ IsMethodDescriptor (codes "(V)V") }

    ensures long { slots_of (codes "J") ≡ 2 }
    ensures longs { slots_of (codes "[J") ≡ 1 }
{}

const VOID: &[u8] = b"V";

const LONG: &[u8] = b"J";

const DOUBLE: &[u8] = b"D";

// Reads the field descriptors at the front of the text, and returns their slots and the text after them. Returns `None`
// if one is not a field descriptor, or if they take more than 255 slots.
fn read_params(text: &[u8]) -> Option<(u8, &[u8])>
    ensures found { IfSome result (λ r. ReadsParams text.now r.0 r.1.now) }
    ensures none { IfNone result (¬ AreParams (fields_of text.now)) }
{
    let mut slots: u8 = 0;
    let mut rest = text;
    while let Some((param, after)) = split_field(rest) {
        slots = slots.checked_add(FieldDesc::read(param)?.slots())?;
        rest = after;
    }
    Some((slots, rest))
}

// Returns the descriptor of the result: `Some(None)` for `V`.
fn read_result(text: &[u8]) -> Option<Option<&[u8]>>
    ensures found { IfSome result (λ r. IsResult text.now (option_copied r)) }
    ensures none { IfNone result ((r : Option (List ℕ)) → ¬ IsResult text.now r) }
{
    if text == VOID {
        return Some(None);
    }
    FieldDesc::read(text)?;
    Some(Some(text))
}

// Splits the text after the field descriptor at its front. The name in the descriptor is not tested.
fn split_field(text: &[u8]) -> Option<(&[u8], &[u8])>
    ensures found { IfSome result (λ r. HasInFront text.now r.0.now r.1.now) }
    ensures none { IfNone result (field_len text.now ≡ None) }
{
    let len = field_len(text)?;
    Some(text.split_at(len))
}

fn field_len(text: &[u8]) -> Option<usize>
    ensures value { result ≡ field_len text.now }
    ensures within { IfSome result (λ n. (0 < n) × (n ≤ length text.now)) }
{
    let (dims, element) = split_dims(text);
    let len = element_len(element)?;
    Some(dims + len)
}

#[tactic(auto, unfolding(crate::specs::FieldsInFront::element_len))]
fn element_len(text: &[u8]) -> Option<usize>
    ensures value { result ≡ element_len text.now }
    ensures within { IfSome result (λ n. (0 < n) × (n ≤ length text.now)) }
{
    let first = *text.first()?;
    if first == b'L' {
        Some(2 + semicolon(&text[1..])?)
    } else if is_base_letter(first) {
        Some(1)
    } else {
        None
    }
}

// Returns the place of the first `;`.
fn semicolon(text: &[u8]) -> Option<usize>
    ensures value { result ≡ position (λ c. c == 59) text.now }
    ensures within { IfSome result (λ place. place < length text.now) }
{
    text.iter().position(|byte| *byte == b';')
}

// Returns the number of `[` at the front of the text, and the text after them.
fn split_dims(text: &[u8]) -> (usize, &[u8])
    ensures text { text.now ≡ replicate result.0 91 ++ result.1.now }
    ensures all { slice_index result.1.now 0 ≢ 91 }
{
    let mut dims = 0;
    while dims < text.len() && text[dims] == b'[' {
        dims += 1;
    }
    (dims, &text[dims..])
}

fn is_element(text: &[u8]) -> bool
    ensures { IsTrue result ↔ IsElementType text.now }
{
    is_base_type(text) || is_class_type(text)
}

fn is_base_type(text: &[u8]) -> bool
    ensures { IsTrue result ↔ IsBaseType text.now }
{
    text.len() == 1 && is_base_letter(text[0])
}

fn is_class_type(text: &[u8]) -> bool
    ensures { IsTrue result ↔ IsClassType text.now }
{
    match name_within(text) {
        Some(name) => is_class_name(name),
        None => false,
    }
}

// Returns the text between `L` at the front and `;` at the end.
fn name_within(text: &[u8]) -> Option<&[u8]>
    ensures { MatchOption result
        ((name : List ℕ) → text.now ≢ codes "L" ++ name ++ codes ";")
        (λ name. text.now ≡ codes "L" ++ name.now ++ codes ";") }
{
    text.strip_prefix(b"L")?.strip_suffix(b";")
}

pub(crate) fn is_base_letter(letter: u8) -> bool
    ensures test { result ≡ list_any (λ b. b == letter) base_types }
    ensures base { IsTrue result ↔ Contains base_types letter }
{
    b"BCDFIJSZ".contains(&letter)
}

fn is_wide(text: &[u8]) -> bool
    ensures { result ≡ (same_bytes text.now (codes "J") || same_bytes text.now (codes "D")) }
{
    text == LONG || text == DOUBLE
}
