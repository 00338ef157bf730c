//! The files of a user's system, loaded from a store.

ghost use Rattle.system_files.specs.SystemLoading.{AreFilesLoaded};

use crate::files::SystemFiles;
use crate::looking::{digits_on, load_part};
use crate::taking::{TakenLanguage, take_language};
use crate::texts::SystemTexts;
use dfa_loading::LoadFault;
use dfa_reading::SystemPart;
use std::alloc::Global;
use system_names::{UserName, adder_name};
use wal_outside::Store;

/// What the files of a user's system list: the language under the system's name, or, where none is there, the one under its name
/// in the other direction; and the adder beside that language. They are in the folder of users' systems. A text that was read
/// before is not read again. The time is in proportion to the bytes of the texts, and the number of texts read.
///
/// # Errors
/// `Unknown` with the system's name where no language is there in either direction, and with the adder's where that is missing;
/// `File` where a text is too long, breaks the format or has other digits; `Store` where the store failed; or `Memory`. The
/// language is read and checked before its adder is looked for. What was read is kept in every case.
pub fn load_system<T: Store>(
    alloc: Global,
    user: &UserName<'_>,
    texts: &mut SystemTexts,
    store: &mut T,
) -> Result<SystemFiles, LoadFault>
    ensures { AreFilesLoaded user.now.direction user.now.part.now texts.old (T.view store.old) result texts.new (T.view store.new) }
{
    let TakenLanguage {
        name,
        reversed,
        language,
    } = take_language(alloc, user, texts, store)?;
    let digits = digits_on(language.header());
    let adder = adder_name(alloc, &name)?;
    let adder = load_part(alloc, SystemPart::Adder(digits), adder, texts, store)?;
    Ok(SystemFiles::new(digits, reversed, language, adder))
}
