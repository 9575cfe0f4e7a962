// The laws that bind the definitions of the listed assignments.
ghost use Rattle.listing.specs.Settings.{AdmittedAscending, TrueLiterals};

// The settings are exactly the admitted assignments, ascending, each once.
pub fn settings_are_admitted()
    ensures { AdmittedAscending }
{}

// The literals of a complete assignment are one for each atom, true there.
pub fn literals_are_true()
    ensures { TrueLiterals }
{}
