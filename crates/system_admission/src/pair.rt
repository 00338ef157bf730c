//! The files of a user's system, as their texts are.

ghost use Rattle.std.specs.Prelude.{◌≡◌, IfOk, IfSome, IsTrue};
ghost use Rattle.system_files.specs.Looks.{Loads};
ghost use Rattle.system_files.specs.SystemFiles.{Custom, is_reversed, taken_name as name_taken};
ghost use Rattle.system_files.specs.SystemLoading.{FailsFiles};
ghost use Rattle.system_files.specs.SystemTexts.{Agrees};
ghost use Rattle.system_admission.specs.KeptSystems.{HasLanguageText, IsPairOf};
ghost use Rattle.system_admission.specs.KeptViews.{pair_view};

use crate::kept::KeptSystems;
use dfa_loading::LoadFault;
use digit_tuple::direction::Direction;
use digit_tuple::faults::OutOfMemory;
use digit_tuple::name::Name;
use std::alloc::Global;
use system_files::{SystemTexts, find_adder, find_language};
use system_names::{UserName, adder_name};
use wal_outside::Store;

/// The files of a system, and the direction in which it is read.
#[derive(Drop)]
pub(crate) struct SystemPair<'a> {
    /// The direction.
    pub(crate) direction: Direction,
    /// The name of the language.
    pub(crate) name: Name,
    /// The text of the language.
    pub(crate) language: &'a [u8],
    /// The text of the adder beside it.
    pub(crate) adder: &'a [u8],
}

/// Reads the language that a name takes, and its adder too if the language is that of a kept system: then it needs not be parsed to
/// know that the adder is looked for. Gives whether the files are those of the other direction.
///
/// # Errors
/// `Unknown` with the name where no language is there in either direction; `Store` where the store failed; or `Memory`.
pub(crate) fn read_pair<T: Store>(
    alloc: Global,
    user: &UserName<'_>,
    kept: &KeptSystems,
    texts: &mut SystemTexts,
    store: &mut T,
) -> Result<bool, LoadFault>
    ensures { Loads (λ custom found reversed. reversed ≡ is_reversed custom user.now.direction user.now.part.now) (λ custom fault. FailsFiles custom user.now.direction user.now.part.now fault) texts.old (T.view store.old) result texts.new (T.view store.new) }
{
    let reversed = find_language(alloc, user, texts, store)?;
    let language = taken_name(alloc, user, reversed)?;
    if !is_kept_language(kept, &language, texts) {
        return Ok(reversed);
    }
    find_adder(alloc, &language, texts, store)?;
    Ok(reversed)
}

// Whether the text that was found under the name is the language of a kept system.
fn is_kept_language(kept: &KeptSystems, name: &Name, texts: &SystemTexts) -> bool
    ensures { IsTrue result → HasLanguageText texts.now name.now }
{
    match texts.text(name) {
        Some(text) => kept.has_language(text),
        None => false,
    }
}

/// The files of a user's system among the texts that were read, those of the other direction if they are `reversed`. None where they were
/// not read, or memory runs out.
pub(crate) fn pair_of<'a>(
    alloc: Global,
    user: &UserName<'_>,
    reversed: bool,
    texts: &'a SystemTexts,
) -> Option<SystemPair<'a>>
    ensures direction { IfSome result (λ pair. pair.direction ≡ user.now.direction) }
    ensures pair { IfSome result (λ pair. (custom : Custom) → Agrees custom texts.now → reversed ≡ is_reversed custom user.now.direction user.now.part.now → IsPairOf custom user.now.part.now (pair_view pair)) }
{
    let name = taken_name(alloc, user, reversed).ok()?;
    let adder = adder_name(alloc, &name).ok()?;
    let language = texts.text(&name)?;
    let adder = texts.text(&adder)?;
    Some(SystemPair {
        direction: user.direction,
        name,
        language,
        adder,
    })
}

// The name of the language that is taken.
fn taken_name(alloc: Global, user: &UserName<'_>, reversed: bool) -> Result<Name, OutOfMemory>
    ensures { IfOk result (λ name. (custom : Custom) → reversed ≡ is_reversed custom user.now.direction user.now.part.now → name ≡ name_taken custom user.now.direction user.now.part.now) }
{
    if reversed {
        user.opposite().name(alloc)
    } else {
        user.name(alloc)
    }
}
