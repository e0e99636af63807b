//! The kinds of attributes that are recognised, and their holders (JVMS 4.7).

ghost use Rattle.std.specs.Prelude.{◌≡◌};
ghost use Rattle.jc_base.specs.Bytes.{same_bytes};
ghost use Rattle.jc_view.specs.Attributes.{attribute_name, belongs_to, is_kind};

/// The element of a class file that an attribute belongs to.
#[derive(Clone, Copy)]
pub enum Holder {
    Class,
    Field,
    Method,
    /// The `Code` attribute of a method.
    Code,
}

/// A kind of attribute that is recognised in its holder (JVMS 4.7, table 4.7-C).
#[derive(Clone, Copy)]
pub enum AttributeKind {
    ConstantValue,
    Code,
    Exceptions,
    BootstrapMethods,
    SourceFile,
    EnclosingMethod,
    Signature,
    Synthetic,
    Deprecated,
}

/// All kinds of attributes, the most frequent ones first.
const KINDS: [AttributeKind; 9] = [
    AttributeKind::Code,
    AttributeKind::Signature,
    AttributeKind::Exceptions,
    AttributeKind::ConstantValue,
    AttributeKind::SourceFile,
    AttributeKind::EnclosingMethod,
    AttributeKind::Synthetic,
    AttributeKind::Deprecated,
    AttributeKind::BootstrapMethods,
];

impl AttributeKind {
    /// Returns the name of attributes of this kind.
    pub fn name(self) -> &'static [u8]
        ensures { result.now ≡ attribute_name self }
    {
        match self {
            AttributeKind::ConstantValue => b"ConstantValue",
            AttributeKind::Code => b"Code",
            AttributeKind::Exceptions => b"Exceptions",
            AttributeKind::BootstrapMethods => b"BootstrapMethods",
            AttributeKind::SourceFile => b"SourceFile",
            AttributeKind::EnclosingMethod => b"EnclosingMethod",
            AttributeKind::Signature => b"Signature",
            AttributeKind::Synthetic => b"Synthetic",
            AttributeKind::Deprecated => b"Deprecated",
        }
    }

    /// Returns whether attributes of this kind are recognised in this holder. In a `Code`, none are.
    pub fn belongs_to(self, holder: Holder) -> bool
        ensures { result ≡ belongs_to self holder }
    {
        match self {
            AttributeKind::ConstantValue => matches!(holder, Holder::Field),
            AttributeKind::Code | AttributeKind::Exceptions => matches!(holder, Holder::Method),
            AttributeKind::BootstrapMethods
            | AttributeKind::SourceFile
            | AttributeKind::EnclosingMethod => matches!(holder, Holder::Class),
            AttributeKind::Signature | AttributeKind::Synthetic | AttributeKind::Deprecated => {
                !matches!(holder, Holder::Code)
            }
        }
    }
}

/// Returns the kind of attributes with this name.
#[tactic(auto, using(crate::proofs::kinds::KindNames::named, crate::proofs::kinds::KindNames::not_named))]
pub(crate) fn kind_named(name: &[u8]) -> Option<AttributeKind>
    ensures { (kind : AttributeKind) → same_bytes name.now (attribute_name kind) ≡ is_kind kind result }
{
    for kind in KINDS {
        if name == kind.name() {
            return Some(kind);
        }
    }
    None
}
