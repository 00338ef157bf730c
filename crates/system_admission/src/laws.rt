//! Laws of the definitions, each a call that does nothing.

ghost use Rattle.system_admission.specs.AdmissionLaws.{AdmissionsAddSteps, AdmissionsHaveOneOutcome, AdmittedSystemsAreMeant};

/// Names are admitted in one way, or refused by one fault, with the same steps, unless memory runs out.
pub fn admissions_have_one_outcome()
    ensures { AdmissionsHaveOneOutcome }
{}

/// What is admitted under a name is the system that the name means.
pub fn admitted_systems_are_meant()
    ensures { AdmittedSystemsAreMeant }
{}

/// The steps of admissions come after those that were there, under the same limit.
pub fn admissions_add_steps()
    ensures { AdmissionsAddSteps }
{}
