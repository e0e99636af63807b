//! A file of a session.

ghost use Rattle.std.specs.Prelude.{◌≡◌, []};
ghost use Rattle.jc_view.specs.Outcome.{class_named};
ghost use Rattle.jc_edits.specs.inside.HeldFile.{class_held, class_lent};
ghost use Rattle.jc_report.specs.FileRows.{names};

use jc_view::ParseError;
use std::alloc::Global;
use std::marker::Model;

/// The bytes of a file, and the name of its class, or why it cannot be read as a class file.
#[derive(Drop)]
pub(crate) struct File {
    bytes: Vec<u8>,
    class: Result<Vec<u8>, ParseError>,
}

impl Model for File {
    ghost use Rattle.std.specs.Prelude.{◌≡◌, ℕ, List};

    ghost Value = { List ℕ };

    ghost use Rattle.jc_view.specs.Outcome.{class_named};
    ghost use Rattle.jc_edits.specs.inside.HeldFile.{class_held};

    ghost view = { λ file. file.bytes.items };

    ghost invariant = { λ file. class_held file.class ≡ class_named file.bytes.items };
}

impl File {
    /// Returns a file without bytes. Does not allocate.
    pub(crate) fn empty(alloc: Global) -> File
        ensures { result ≡ [] }
    {
        File {
            bytes: Vec::new(alloc),
            class: Err(ParseError::Short),
        }
    }

    /// Returns a file with these bytes, which have this class or this refusal.
    pub(crate) fn of(bytes: Vec<u8>, class: Result<Vec<u8>, ParseError>) -> File
        requires { class_held class ≡ class_named bytes.items }
        ensures { result ≡ bytes.items }
    {
        File { bytes, class }
    }

    pub(crate) fn bytes(&self) -> &[u8]
        ensures { result.now ≡ self.now }
    {
        &self.bytes
    }

    /// Returns the name of the class, or the first refusal that applies.
    pub(crate) fn class(&self) -> Result<&[u8], ParseError>
        ensures { class_lent result ≡ class_named self.now }
    {
        match &self.class {
            Ok(name) => Ok(name),
            Err(refusal) => Err(*refusal),
        }
    }

    /// Returns whether the file has the class of this name.
    pub(crate) fn names(&self, name: &[u8]) -> bool
        ensures { result ≡ names self.now name.now }
    {
        match self.class() {
            Ok(named) => named == name,
            Err(_) => false,
        }
    }
}
