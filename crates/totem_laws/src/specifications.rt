//! Laws of each specification. Each is the contract of an empty function.
ghost use Rattle.totem_laws.specs.Laws.{BrokenIsNotMet, FaultsAreNotMet, EachIsMet, InstalledBreaksWithSafety};

/// A run in which places break a specification does not meet it.
pub fn broken_is_not_met()
    ensures { BrokenIsNotMet }
{}

/// A run that gets a no meets none of the specifications that its faults name.
pub fn faults_are_not_met()
    ensures { FaultsAreNotMet }
{}

/// A run meets specifications 1 to 7 exactly if it meets each specification that a fault can name.
pub fn each_is_met()
    ensures { EachIsMet }
{}

/// If 2.2 holds, 7.2 is never broken alone: what breaks 7.2 breaks 7.1 too.
pub fn installed_breaks_with_safety()
    ensures { InstalledBreaksWithSafety }
{}
