//! A law of the definitions of a run.
ghost use Rattle.jc_session.specs.Answers.{OneRun};

/// States that a list of lines has at most one run.
///
/// A run is the text of the answers, the files, prefixes and answers of the source after them, and how the lines end.
pub fn one_run()
    ensures { OneRun }
{}
