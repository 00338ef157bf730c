//! The systems of users among some names.

ghost use Rattle.std.specs.Prelude.{◌≡◌, IfOk};
ghost use Rattle.std.specs.Str.{bytes_eq};
ghost use Rattle.formula_resolve.specs.FirstMentions.{each_once};
ghost use Rattle.system_names.specs.Names.{IsBuiltInName};
ghost use Rattle.system_admission.specs.UserSystems.{AdmitsUsers, AdmitsUser};

use crate::kept::KeptSystems;
use crate::named_system::admit_system;
use crate::system_fault::SystemFault;
use digit_tuple::faults::OutOfMemory;
use digit_tuple::name::Name;
use digit_tuple::steps::Steps;
use formula_resolve::{Headers, Mention, first_systems};
use named_systems::NamedSystems;
use std::alloc::Global;
use system_files::SystemTexts;
use system_names::built_in;
use wal_outside::Store;

/// The systems of users among some names, by the texts that were read of them, and the steps so far.
#[derive(Drop)]
pub struct UserSystems {
    /// The systems, each under its name.
    pub named: NamedSystems,
    /// The texts, each read once.
    texts: SystemTexts,
    /// The steps.
    pub steps: Steps,
}

impl UserSystems {
    /// Those of these names, each once, that are not built in: their files are read and admitted, one system after another, by
    /// the first steps under a limit; a kept system is used where its files are the same.
    ///
    /// # Errors
    /// Why the first one is not admitted: `Load` with `Unknown` and the name of the missing file, or the name itself where it is
    /// none of a user's system, with `File` or `Store`; `NotAdmitted`; `Step` with `Letters` or `States`. `Memory` may come at any
    /// time. No text is changed.
    pub fn admitted<T: Store>(
        alloc: Global,
        limit: u32,
        names: &[Name],
        kept: &mut KeptSystems,
        store: &mut T,
    ) -> Result<Self, SystemFault>
        ensures { AdmitsUsers limit names.now (T.view store.old) result (T.view store.new) }
    {
        let mut users = UserSystems {
            named: NamedSystems::new(alloc),
            texts: SystemTexts::new(alloc),
            steps: Steps::new(alloc, limit),
        };
        users.steps.show_on(kept.monitor());
        for name in names {
            if built_in(name.as_bytes()).is_none() {
                users.admit(alloc, name, kept, store)?;
            }
        }
        Ok(users)
    }

    /// Admits one more, whose name is none of a built-in system.
    fn admit<T: Store>(
        &mut self,
        alloc: Global,
        name: &Name,
        kept: &mut KeptSystems,
        store: &mut T,
    ) -> Result<(), SystemFault>
        requires { ¬ IsBuiltInName name.now }
        ensures { AdmitsUser name.now self.old (T.view store.old) result self.new (T.view store.new) }
    {
        let system = admit_system(alloc, name, kept, &mut self.texts, store, &mut self.steps);
        self.texts.are_in_some_folder();
        self.named.add(alloc, name, system?)?;
        Ok(())
    }
}

/// Names in the order in which they come first, each once.
pub fn names_once(alloc: Global, names: &[Name]) -> Result<Vec<Name>, OutOfMemory>
    ensures { IfOk result (λ once. once.items ≡ each_once bytes_eq names.now) }
{
    let mut marks = Vec::new(alloc);
    for name in names {
        marks.push(Mention::Marked(name.copy(alloc)?))?;
    }
    first_systems(alloc, &marks, &Headers::new(alloc))
}
