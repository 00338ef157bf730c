//! Texts of users' systems, looked up by their names, and what they list.

ghost use Rattle.std.specs.Prelude.{◌≡◌, length, IfOk, IfSome, MatchResult};
ghost use Rattle.wal_outside.specs.Files.{Files};
ghost use Rattle.wal_outside.specs.declared.folder.Folder.TheVariants.{Bases};
ghost use Rattle.dfa_loading.specs.Places.{HasRead};
ghost use Rattle.dfa_reading.specs.HeaderViews.{header_view};
ghost use Rattle.system_files.specs.SystemTexts.{IsFoundAs};
ghost use Rattle.system_files.specs.TextViews.{found_view};
ghost use Rattle.system_files.specs.Looks.{IsAt, CanBeFound, Loads, FailsLook, ListsPart, ListsNoPart, IsListedPart, IsPartAt, FailsPart, digits_on as count_of_digits};

use crate::texts::{Finding, FoundText, SystemTexts};
use dfa_loading::{FileFlaw, LoadFault};
use dfa_reading::{FileFault, FileHeader, Listed, SystemPart, read_system};
use digit_tuple::name::Name;
use std::alloc::Global;
use wal_outside::{Folder, Found, Store};

/// The place of what is under a name, which is read where it was not.
///
/// # Errors
/// `Store` where the store failed, or `Memory`.
pub(crate) fn look<T: Store>(
    alloc: Global,
    name: Name,
    texts: &mut SystemTexts,
    store: &mut T,
) -> Result<usize, LoadFault>
    ensures at { IfOk result (IsAt texts.new name) }
    ensures loads { Loads (λ custom found place. IsAt found name place) (λ custom fault. FailsLook name fault) texts.old (T.view store.old) result texts.new (T.view store.new) }
{
    if let Some(place) = texts.place_of(&name) {
        return Ok(place);
    }
    let found = read(alloc, name, store)?;
    Ok(texts.add(found)?)
}

/// What is under a name, read from the store.
fn read<T: Store>(alloc: Global, name: Name, store: &mut T) -> Result<FoundText, LoadFault>
    ensures gives { MatchResult result (λ found. (found.name ≡ name) × CanBeFound (found_view found).finding) (FailsLook name) }
    ensures reported { IfOk result (λ found. IfSome (T.view store.old).files (λ (files : Files). IsFoundAs (files Bases name) (found_view found).finding)) }
    ensures has_read { HasRead (T.view store.old) result (T.view store.new) }
{
    let mut text = Vec::new(alloc);
    match store.read(Folder::Bases, name.as_str(), &mut text) {
        Found::Found => Ok(FoundText {
            name,
            finding: Finding::Text(text),
        }),
        Found::Absent => Ok(FoundText {
            name,
            finding: Finding::Absent,
        }),
        Found::TooLong => Ok(FoundText {
            name,
            finding: Finding::TooLong,
        }),
        Found::Failed => Err(LoadFault::Store(Folder::Bases, name)),
        Found::Memory => Err(LoadFault::Memory),
    }
}

/// What the text under a name lists as a part of a system.
///
/// # Errors
/// `Unknown` where nothing is there, `File` where the text is too long or breaks the format, `Store`, or `Memory`.
pub(crate) fn load_part<T: Store>(
    alloc: Global,
    part: SystemPart,
    name: Name,
    texts: &mut SystemTexts,
    store: &mut T,
) -> Result<Listed, LoadFault>
    ensures listed { IfOk result (IsListedPart part) }
    ensures loads { Loads (λ custom found listed. IsPartAt part custom name listed) (λ custom fault. FailsPart part custom name fault) texts.old (T.view store.old) result texts.new (T.view store.new) }
{
    let place = look(alloc, name, texts, store)?;
    listed_in(alloc, part, texts.at(place))
}

/// What was found lists, as a part of a system.
pub(crate) fn listed_in(
    alloc: Global,
    part: SystemPart,
    found: &FoundText,
) -> Result<Listed, LoadFault>
    ensures { MatchResult result (ListsPart part (found_view found.now).finding) (ListsNoPart part (found_view found.now)) }
{
    let flaw = match &found.finding {
        Finding::Absent => {
            return Err(LoadFault::Unknown(Folder::Bases, found.name.copy(alloc)?));
        }
        Finding::TooLong => FileFlaw::TooLong,
        Finding::Text(text) => match read_system(alloc, part, text) {
            Ok(listed) => return Ok(listed),
            Err(FileFault::File(line)) => FileFlaw::Line(line),
            Err(FileFault::Memory) => return Err(LoadFault::Memory),
        },
    };
    Err(LoadFault::File(Folder::Bases, found.name.copy(alloc)?, flaw))
}

/// How many digits the only track has; 0 where there is another header.
pub(crate) fn digits_on(header: &FileHeader) -> u32
    ensures { result ≡ count_of_digits (header_view header.now) }
{
    let FileHeader::Sets(sets) = header else {
        return 0;
    };
    match sets.as_slice() {
        [set] => set.len(),
        _ => 0,
    }
}
