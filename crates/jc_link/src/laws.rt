//! Laws of the definitions. A law is a function that does nothing, and its contract is the statement.

ghost use Rattle.jc_link.specs.TableLaws.{PlacesChange, PrefixesDiffer, ReachStays, WorldsDiffer};

/// A law: putting or removing a place of a table changes the class of its own name, and of no other name.
pub fn places_change()
    ensures { PlacesChange }
{}

/// A law: an edit of files changes the world only at the names that it touches.
pub fn worlds_differ()
    ensures { WorldsDiffer }
{}

/// A law: an edit of the outside prefixes changes the world only at names without a class that become outside or
/// inside.
pub fn prefixes_differ()
    ensures { PrefixesDiffer }
{}

/// A law: the reach of a class does not depend on the outside prefixes.
pub fn reach_stays()
    ensures { ReachStays }
{}
