//! The class that a file has.

ghost use Rattle.std.specs.Prelude.{◌≡◌, IfOk};
ghost use Rattle.jc_report.specs.inside.Outcomes.{outcome_lent};

use jc_base::NoMemory;
use jc_view::{ClassView, ParseError};
use std::alloc::Global;
use std::marker::Model;

/// The name of the class that a file has, or why the file cannot be read.
#[derive(Drop)]
pub(crate) struct FileOutcome {
    class: Result<Vec<u8>, ParseError>,
}

impl Model for FileOutcome {
    ghost use Rattle.std.specs.Prelude.{List, Result, ℕ};
    ghost use Rattle.jc_view.specs.declared.parse_error.ParseError.{ParseError};
    ghost use Rattle.jc_report.specs.inside.Outcomes.{outcome_held};

    ghost Value = { Result (List ℕ) ParseError };

    ghost view = { λ outcome. outcome_held outcome.class };
}

impl FileOutcome {
    /// Copies the name of a class.
    pub(crate) fn named(alloc: Global, name: &[u8]) -> Result<FileOutcome, NoMemory>
        ensures { IfOk result (λ outcome. outcome ≡ Ok name.now) }
    {
        let class = Ok(Vec::from_slice(alloc, name)?);
        Ok(FileOutcome { class })
    }

    /// Returns the outcome of a file that cannot be read.
    pub(crate) fn refused(refusal: ParseError) -> FileOutcome
        ensures { result ≡ Err refusal }
    {
        FileOutcome {
            class: Err(refusal),
        }
    }

    pub(crate) fn class(&self) -> Result<&[u8], ParseError>
        ensures { outcome_lent result ≡ self.now }
    {
        match &self.class {
            Ok(name) => Ok(name),
            Err(refusal) => Err(*refusal),
        }
    }
}
