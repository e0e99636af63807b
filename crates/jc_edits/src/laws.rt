//! Laws of the definitions. A law is a function that does nothing, and its contract is the statement.
ghost use Rattle.jc_edits.specs.Touched.{AffectedEitherWay, EditsDiffer, ReachStays, TouchedAreTaken};

/// An edit changes the world only at the names that it touches.
pub fn edits_differ()
    ensures { EditsDiffer }
{}

/// The reach of a class has a touched name before an edit if and only if it has one after the edit.
pub fn affected_either_way()
    ensures { AffectedEitherWay }
{}

/// If an edit of a file touches a name, the class of the name is taken from that file before or after the edit.
pub fn touched_are_taken()
    ensures { TouchedAreTaken }
{}

/// The reach of a class does not depend on the outside prefixes.
pub fn reach_stays()
    ensures { ReachStays }
{}
