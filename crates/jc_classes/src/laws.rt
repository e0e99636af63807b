//! Laws of the definitions: functions without a body, whose contracts are the laws.
ghost use Rattle.jc_classes.specs.Laws.{PartIsOne, Locality, AffectedByEither};
ghost use Rattle.jc_classes.specs.LinkLaws.{LinksAreExact, LinksAreInOrder, NoLinksUnlessLoaded};
ghost use Rattle.jc_classes.specs.UserLaws.{UsersAreUsed};

/// States that a class has at most one part.
pub fn part_is_one()
    ensures { PartIsOne }
{}

/// States that if the reach of a class has no touched name, an edit changes neither its reach nor its part.
pub fn locality()
    ensures { Locality }
{}

/// States that if the reach of a class has a touched name before an edit, it has one after the edit.
pub fn affected_by_either()
    ensures { AffectedByEither }
{}

/// States that the errors of a class's instructions are those of the instructions that do not link. They are sorted by
/// method and then by offset, and each instruction has at most one. A class that does not load has none.
pub fn links_are_exact()
    ensures exact { LinksAreExact }
    ensures rising { LinksAreInOrder }
    ensures unless_loaded { NoLinksUnlessLoaded }
{}

/// States that a constant has a user if and only if it is one of the used constants of the class file.
pub fn users_are_used()
    ensures { UsersAreUsed }
{}
