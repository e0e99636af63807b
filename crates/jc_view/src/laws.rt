//! Laws of the definitions: functions without a body, whose contracts are the laws.

ghost use Rattle.std.specs.Prelude.{◌≡◌, ◌↔◌, ◌++◌, [], ◌∷◌, ℕ, List, Ok, Err, take, codes};
ghost use Rattle.jc_view.specs.Examples.{class_a, class_a_data, head, constants, tail};
ghost use Rattle.jc_view.specs.declared.parse_error.ParseError.{ParseError};
ghost use Rattle.jc_view.specs.ClassFile.{AreApart, ClassFile, layout, FitsClassFile};
ghost use Rattle.jc_view.specs.Refusal.{Applies, IsLayoutOf, IsReadable, IsRefusal};
ghost use Rattle.jc_view.specs.Attributes.{IsCodeOf, AreExceptionsOf, AreBootstrapsOf};
ghost use Rattle.jc_view.specs.AttributeReading.{ReadsExactly, code_in, exceptions_in, bootstraps_in};
ghost use Rattle.jc_view.specs.Lent.{TextsLieIn, ClassTextsLieIn, InstructionsLieIn, AttributesLieIn};
ghost use Rattle.jc_view.specs.Outcome.{AreBytes, IsReadAs, NamesClass, class_named, class_read};

use jc_base::texts_are_decided;

/// States that the functions `class_named` and `class_read` agree with the definitions of class files, names and
/// refusals.
pub fn outcomes_are_exact()
    ensures read { (b : List ℕ) (c : ClassFile) (name : List ℕ) → AreBytes b → IsReadAs b c name }
    ensures unread { (b : List ℕ) (e : ParseError) → AreBytes b → IsRefusal b e → class_read b ≡ Err e }
    ensures named { (b name : List ℕ) → AreBytes b → (class_named b ≡ Ok name) ↔ NamesClass b name }
    ensures refused { (b : List ℕ) (e : ParseError) → AreBytes b → (class_named b ≡ Err e) ↔ IsRefusal b e }
{
    texts_are_decided();
}

/// States that the contents read from a `Code`, an `Exceptions` or a `BootstrapMethods` attribute are the only
/// well-formed contents of its bytes.
pub fn attributes_are_read()
    ensures code { ReadsExactly code_in IsCodeOf }
    ensures exceptions { ReadsExactly exceptions_in AreExceptionsOf }
    ensures bootstraps { ReadsExactly bootstraps_in AreBootstrapsOf }
{}

/// States where in the file the texts, attributes and instructions are.
///
/// - The text of a `Utf8` constant is the part of the file at the place of the constant.
/// - The text of a `Class` constant is that of the `Utf8` constant that it names.
/// - The contents of an attribute, even inside a `Code`, follow its `attribute_name_index` and `attribute_length`.
/// - The instructions of a `Code` follow `max_stack`, `max_locals` and `code_length`.
pub fn texts_lie_in_the_layout()
    ensures texts { (c : ClassFile) → FitsClassFile c → TextsLieIn c }
    ensures class_texts { (c : ClassFile) → FitsClassFile c → ClassTextsLieIn c }
    ensures codes { (c : ClassFile) → FitsClassFile c → InstructionsLieIn c }
    ensures attributes { (c : ClassFile) → FitsClassFile c → AttributesLieIn c }
{}

/// States that layouts and refusals are unique. No class file is a proper prefix of another, and bytes are the layout
/// of at most one class file. At most one refusal is the first that applies, and none applies to readable bytes.
pub fn layouts_are_apart()
    ensures fronts { (c d : ClassFile) → FitsClassFile c → FitsClassFile d → AreApart c d }
    ensures one_record { (b : List ℕ) (c d : ClassFile) → IsLayoutOf c b → IsLayoutOf d b → c ≡ d }
    ensures refusals { (b : List ℕ) (e f : ParseError) → IsRefusal b e → IsRefusal b f → e ≡ f }
    ensures readable { (b : List ℕ) (e : ParseError) → IsReadable b → ¬ Applies e b }
{}

/// States the layout of a class file of 53 bytes, and how similar bytes are refused.
pub fn parsing_examples()
    ensures layout { layout class_a_data ≡ class_a }
    ensures named { NamesClass class_a (codes "A") }
    ensures empty { IsRefusal [] ParseError.Short }
    ensures cut { IsRefusal (take 52 class_a) ParseError.Short }
    ensures more { IsRefusal (class_a ++ 0 ∷ []) (ParseError.Trailing 53) }
    ensures magic { IsRefusal (0xca ∷ 0xfe ∷ 0xba ∷ 0xbf ∷ []) ParseError.Magic }
    ensures version { IsRefusal (0xca ∷ 0xfe ∷ 0xba ∷ 0xbe ∷ 0 ∷ 0 ∷ 0 ∷ 0x3d ∷ []) ParseError.Version }
    ensures count { IsRefusal (head 0 ++ constants ++ tail 1) ParseError.Count }
    ensures tag { IsRefusal (head 6 ++ constants ++ tail 1) (ParseError.Tag 39) }
    ensures fewer { IsRefusal (head 4 ++ constants ++ tail 1) ParseError.Short }
    ensures wide { IsRefusal (head 2 ++ 5 ∷ []) (ParseError.Wide 10) }
    ensures no_tag { IsRefusal (head 2 ++ 2 ∷ []) (ParseError.Tag 10) }
    ensures no_name { IsRefusal (head 5 ++ constants ++ tail 2) ParseError.NoName }
{
    outcomes_are_exact();
}
