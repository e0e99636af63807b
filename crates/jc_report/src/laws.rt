//! Laws of the definitions: functions without a body, whose contracts are the laws.

ghost use Rattle.std.specs.Prelude.{◌≡◌, ◌↔◌, ℕ, List, Some, None};
ghost use Rattle.jc_report.specs.Files.{Files};
ghost use Rattle.jc_report.specs.FileRows.{winner};
ghost use Rattle.jc_report.specs.ReportLaws.{ErrorsAreTold, ReferencesAreByIndex, ReportIsOne, WrongAmongAll};
ghost use Rattle.jc_report.specs.RowKeyLaws.{KeysKeepOrder};
ghost use Rattle.jc_report.specs.Winners.{NamesAt, IsWinner};

/// States that the winner of a name is the file with the least path of all files that have a class of this name. A name
/// has no winner exactly if no file has a class of this name.
pub fn winners_are_least()
    ensures least { (f : Files) (name path : List ℕ) → (winner f name ≡ Some path) ↔ IsWinner f name path }
    ensures none { (f : Files) (name : List ℕ) → (winner f name ≡ None) ↔ ((path : List ℕ) → ¬ NamesAt f path name) }
{}

/// States that the files and the outside prefixes determine the report.
pub fn report_is_one()
    ensures { ReportIsOne }
{}

/// States when the text of the errors that are asked for is empty.
///
/// - It is empty exactly if nothing that is asked for is wrong, and no class that is asked for has an error of
///   inheritance or no body for a method.
/// - If all errors are asked for, something is wrong exactly if the report is wrong.
pub fn errors_are_told()
    ensures told { ErrorsAreTold }
    ensures all { WrongAmongAll }
{}

/// States that two rows compare as the bytes of their keys do.
pub fn keys_keep_order()
    ensures { KeysKeepOrder }
{}

/// States that the references of a class from a file are in ascending order of the indexes of their constants.
pub fn references_are_by_index()
    ensures { ReferencesAreByIndex }
{}
