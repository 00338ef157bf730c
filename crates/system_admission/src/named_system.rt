//! The system of a name that is not built in.

ghost use Rattle.std.specs.Prelude.{◌≡◌, ◌∷◌, ◌⊎◌, [], Err, IfOk, OnOk, MatchResult};
ghost use Rattle.digit_tuple.specs.Letters.{IsAlphabet};
ghost use Rattle.digit_tuple.specs.declared.step_fault.StepFault.TheVariants.{Memory};
ghost use Rattle.dfa_loading.specs.Places.{HasRead};
ghost use Rattle.system_names.specs.Names.{IsBuiltInName};
ghost use Rattle.system_files.specs.SystemFiles.{Custom};
ghost use Rattle.system_files.specs.SystemTexts.{Agrees, HasFound};
ghost use Rattle.system_admission.specs.Admissions.{IsSystemIn};
ghost use Rattle.system_admission.specs.NameAdmissions.{AdmitsUnder, FailsName, IsNamedSystem, SealsFiles, as_loading};
ghost use Rattle.system_admission.specs.SystemSteps.{fault_of};
ghost use Rattle.system_admission.specs.declared.system_fault.SystemFault.TheVariants as faults;

use crate::admission::admit_files;
use crate::kept::KeptSystems;
use crate::pair::{pair_of, read_pair};
use crate::system_fault::SystemFault;
use adder_check::admit_fault::AdmitFault;
use adder_check::user_system::UserSystem;
use dfa_loading::LoadFault;
use digit_tuple::direction::Direction;
use digit_tuple::name::Name;
use digit_tuple::step_fault::StepFault;
use digit_tuple::steps::Steps;
use num_system::seal::seal_built_in;
use num_system::sealed::is_sealed;
use num_system::system::System;
use std::alloc::Global;
use std::rc::Rc;
use system_files::{SystemFiles, SystemTexts, load_system};
use system_names::user_name;
use wal_outside::{Folder, Store};

/// The system of a name that is not built in, sealed: its files are read from the store, each that was not
/// read before, and it is admitted by the next steps. The texts grow by what was read. What was read and
/// what was admitted before stay as they are; no text of the store is changed. The costs are those of
/// reading the texts, and of parsing them, of the steps and of sealing, which are not done again where the files are those of a kept system,
/// under the same limit and in the same direction. Otherwise the system is kept, unless 64 are, or memory runs out.
///
/// # Errors
/// `Load` with `Unknown` where no user's system may have the name, or where the language or its adder is
/// missing; with `File` where one of them breaks the format; and with `Store` where the store failed. Then
/// `NotAdmitted` with the first law that does not hold, and `Step` with the first step that passes a
/// limit. `Memory` may come at any time, also where 2^32 - 1 states are not enough.
pub fn admit_system<T: Store>(
    alloc: Global,
    name: &Name,
    kept: &mut KeptSystems,
    texts: &mut SystemTexts,
    store: &mut T,
    steps: &mut Steps,
) -> Result<Rc<System>, SystemFault>
    requires { ¬ IsBuiltInName name.now }
    ensures gives { (custom : Custom) → Agrees custom texts.new → MatchResult result (λ system. IsNamedSystem custom name.now steps.old steps.new system.value) (FailsName custom name.now steps.old steps.new) }
    ensures found { HasFound texts.old (T.view store.old) texts.new }
    ensures read { HasRead (T.view store.old) (as_loading result) (T.view store.new) }
{
    let Some(user) = user_name(name.as_str()) else {
        let missing = name.copy(alloc)?;
        return Err(SystemFault::Load(LoadFault::Unknown(Folder::Bases, missing)));
    };
    let reversed = read_pair(alloc, &user, kept, texts, store)?;
    let pair = pair_of(alloc, &user, reversed, texts);
    if let Some(system) = kept.admit(pair, steps)? {
        return Ok(system);
    }
    let files = load_system(alloc, &user, texts, store)?;
    let first = steps.count();
    let system = sealed_system(alloc, name, &files, user.direction, steps)?;
    texts.are_in_some_folder();
    if let Some(pair) = pair_of(alloc, &user, reversed, texts) {
        kept.keep(alloc, &pair, first, steps, &system);
    }
    Ok(system)
}

// The system that the files define, sealed. A fault of its admission is that of the system of this name.
fn sealed_system(
    alloc: Global,
    name: &Name,
    files: &SystemFiles,
    direction: Direction,
    steps: &mut Steps,
) -> Result<Rc<System>, SystemFault>
    ensures { MatchResult result (λ system. SealsFiles direction files.now steps.old steps.new system.value) (λ fault. AdmitsUnder name.now direction files.now steps.old steps.new (Err fault)) }
{
    let admitted = admit_named(alloc, name, files, direction, steps)?;
    let sealed = seal_built_in(alloc, &admitted)?;
    is_sealed(&sealed);
    let shared = Rc::new(alloc, sealed)?;
    Ok(shared)
}

// The system that the files define. A fault of its admission is that of the system of this name.
fn admit_named(
    alloc: Global,
    name: &Name,
    files: &SystemFiles,
    direction: Direction,
    steps: &mut Steps,
) -> Result<UserSystem, SystemFault>
    ensures steps { AdmitsUnder name.now direction files.now steps.old steps.new result }
    ensures defined { IfOk result (IsSystemIn direction files.now) }
    ensures fits { OnOk result (IsAlphabet (files.now.digits ∷ files.now.digits ∷ files.now.digits ∷ [])) }
{
    match admit_files(alloc, files, direction, steps) {
        Ok(user) => Ok(user),
        Err(fault) => Err(named_fault(alloc, name, fault)),
    }
}

// The fault of the admission of the system of this name.
fn named_fault(alloc: Global, name: &Name, fault: AdmitFault) -> SystemFault
    ensures { (result ≡ faults.Step Memory) ⊎ (result ≡ fault_of name.now fault) }
{
    match fault {
        AdmitFault::NotAdmitted(law) => match name.copy(alloc) {
            Ok(system) => SystemFault::NotAdmitted(system, law),
            Err(_) => SystemFault::Step(StepFault::Memory),
        },
        AdmitFault::Letters(step) => SystemFault::Step(StepFault::Letters(step)),
        AdmitFault::States(step) => SystemFault::Step(StepFault::States(step)),
        AdmitFault::Memory => SystemFault::Step(StepFault::Memory),
    }
}
