//! The language that a name takes.

ghost use Rattle.std.specs.Prelude.{◌<◌, length, IfOk};
ghost use Rattle.dfa_reading.specs.SystemFiles.{IsLanguageListed};
ghost use Rattle.system_files.specs.SystemLoading.{FailsFiles};
ghost use Rattle.system_files.specs.Looks.{Loads};
ghost use Rattle.system_files.specs.Taking.{IsTaken, IsTakenLanguage};

use crate::looking::{listed_in, look};
use crate::texts::SystemTexts;
use dfa_loading::LoadFault;
use dfa_reading::{Listed, SystemPart};
use digit_tuple::name::Name;
use std::alloc::Global;
use system_names::UserName;
use wal_outside::{Folder, Store};

/// The place of the text of the language that is taken, and whether it is the one of the other direction.
#[derive(Clone, Copy)]
pub(crate) struct Taken {
    pub place: usize,
    pub reversed: bool,
}

/// The language that is taken, under its name.
#[derive(Drop)]
pub(crate) struct TakenLanguage {
    pub name: Name,
    pub reversed: bool,
    pub language: Listed,
}

/// The language of the files that a name takes: the one of its direction, or, where none is there, the one of the other.
///
/// # Errors
/// `Unknown` with the name where neither is there; `File` where its text is no language; `Store`; or `Memory`.
pub(crate) fn take_language<T: Store>(
    alloc: Global,
    user: &UserName<'_>,
    texts: &mut SystemTexts,
    store: &mut T,
) -> Result<TakenLanguage, LoadFault>
    ensures loads { Loads (IsTakenLanguage user.now.direction user.now.part.now) (λ custom fault. FailsFiles custom user.now.direction user.now.part.now fault) texts.old (T.view store.old) result texts.new (T.view store.new) }
    ensures listed { IfOk result (λ taken. IsLanguageListed taken.language) }
{
    let Taken { place, reversed } = take(alloc, user, texts, store)?;
    let found = texts.at(place);
    let language = listed_in(alloc, SystemPart::Language, found)?;
    let name = found.name.copy(alloc)?;
    Ok(TakenLanguage {
        name,
        reversed,
        language,
    })
}

/// The place of the text of the language that is taken.
pub(crate) fn take<T: Store>(
    alloc: Global,
    user: &UserName<'_>,
    texts: &mut SystemTexts,
    store: &mut T,
) -> Result<Taken, LoadFault>
    ensures at { IfOk result (λ taken. taken.place < length texts.new) }
    ensures loads { Loads (IsTaken user.now.direction user.now.part.now) (λ custom fault. FailsFiles custom user.now.direction user.now.part.now fault) texts.old (T.view store.old) result texts.new (T.view store.new) }
{
    let place = look(alloc, user.name(alloc)?, texts, store)?;
    if texts.at(place).is_there() {
        return Ok(Taken {
            place,
            reversed: false,
        });
    }
    let place = look(alloc, user.opposite().name(alloc)?, texts, store)?;
    if texts.at(place).is_there() {
        return Ok(Taken {
            place,
            reversed: true,
        });
    }
    Err(LoadFault::Unknown(Folder::Bases, user.name(alloc)?))
}
