//! Laws of the definitions, each a call that does nothing.

ghost use Rattle.adder_check.specs.AdderLaws.{LawsDetermineAddition};
ghost use Rattle.adder_check.specs.Admission.{FaultsExclude};
ghost use Rattle.adder_check.specs.OneAnswer.{AdmissionHasOneAnswer};
ghost use Rattle.endless.specs.LanguageLaws.{LawsDetermineSystems};

/// A relation of three numbers is addition if and only if it meets the laws of zero and of the successor.
pub fn laws_determine_addition()
    ensures { LawsDetermineAddition }
{}

/// The language of an automaton is that of a numeration system if and only if leading zeros keep its words and it has
/// no end.
pub fn laws_determine_systems()
    ensures { LawsDetermineSystems }
{}

/// Where a law does not hold of a system or its adder, the two are not a numeration system and its
/// addition.
pub fn faults_exclude()
    ensures { FaultsExclude }
{}

/// What admission answers is one, with the same steps and lines, unless memory runs out.
pub fn admission_has_one_answer()
    ensures { AdmissionHasOneAnswer }
{}
