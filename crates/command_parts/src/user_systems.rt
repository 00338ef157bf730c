//! The systems of users that a command names.

ghost use Rattle.command_parts.specs.StoreReads.{FromTexts};
ghost use Rattle.command_parts.specs.UserSystems.{AdmitsUsers};

use crate::fault::Fault;
use crate::kept::Kept;
use digit_tuple::name::Name;
use std::alloc::Global;
use system_admission::UserSystems;
use wal_outside::Store;

/// Those of these names, each once, that are not built in: their files are read and admitted, one system after another, by the
/// first steps of a command. A system that is kept with the same files is used again.
///
/// # Errors
/// Why the first one is not admitted: `SystemUnknown` with the name of the missing file, or the name itself where it is none of a
/// user's system; `File`, `NotAdmitted`, `Letters`, `States`, `Store` or `Memory`. No text is changed.
pub fn admitted<T: Store>(
    alloc: Global,
    limit: u32,
    names: &[Name],
    kept: &mut Kept,
    store: &mut T,
) -> Result<UserSystems, Fault>
    ensures { FromTexts (AdmitsUsers limit names.now) (T.view store.old) result (T.view store.new) }
{
    Ok(UserSystems::admitted(alloc, limit, names, &mut kept.systems, store)?)
}
