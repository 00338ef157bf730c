//! The files of a user's system, read without being listed.

ghost use Rattle.std.specs.Prelude.{◌≡◌, ⊤};
ghost use Rattle.system_names.specs.UserNames.{adder_name as name_of_adder};
ghost use Rattle.system_files.specs.SystemFiles.{is_reversed};
ghost use Rattle.system_files.specs.SystemLoading.{FailsFiles};
ghost use Rattle.system_files.specs.Looks.{FailsLook, Loads};

use crate::looking::look;
use crate::taking::take;
use crate::texts::SystemTexts;
use dfa_loading::LoadFault;
use digit_tuple::name::Name;
use std::alloc::Global;
use system_names::{UserName, adder_name};
use wal_outside::Store;

/// Whether the language that a name takes is the one under its name in the other direction, since none is under its own. The texts
/// under these names are read, unless they were read before.
///
/// # Errors
/// `Unknown` with the name where no language is there in either direction; `Store` where the store failed; or `Memory`.
pub fn find_language<T: Store>(
    alloc: Global,
    user: &UserName<'_>,
    texts: &mut SystemTexts,
    store: &mut T,
) -> Result<bool, LoadFault>
    ensures { Loads (λ custom found reversed. reversed ≡ is_reversed custom user.now.direction user.now.part.now) (λ custom fault. FailsFiles custom user.now.direction user.now.part.now fault) texts.old (T.view store.old) result texts.new (T.view store.new) }
{
    let taken = take(alloc, user, texts, store)?;
    Ok(taken.reversed)
}

/// Reads what is under the name of the adder beside a language, unless it was read before.
///
/// # Errors
/// `Store` where the store failed; or `Memory`.
pub fn find_adder<T: Store>(
    alloc: Global,
    language: &Name,
    texts: &mut SystemTexts,
    store: &mut T,
) -> Result<(), LoadFault>
    ensures { Loads (λ custom found read. ⊤) (λ custom fault. FailsLook (name_of_adder language.now) fault) texts.old (T.view store.old) result texts.new (T.view store.new) }
{
    let name = adder_name(alloc, language)?;
    look(alloc, name, texts, store)?;
    Ok(())
}
