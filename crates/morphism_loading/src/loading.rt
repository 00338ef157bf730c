//! The morphism of a text, and of a name.

ghost use Rattle.std.specs.Prelude.{◌≡◌, ◌≤◌, length, MatchResult, Ok};
ghost use Rattle.wal_outside.specs.declared.folder.Folder.TheVariants.{Morphisms};
ghost use Rattle.wal_outside.specs.declared.store.TheConstants.{TEXT_LIMIT};
ghost use Rattle.dfa_loading.specs.declared.fault.FileFlaw.TheVariants.{Line};
ghost use Rattle.dfa_loading.specs.declared.fault.LoadFault.TheVariants as faults;
ghost use Rattle.morph_words.specs.Faults.{Parses};
ghost use Rattle.morphism_loading.specs.MorphismFiles.{IsLoadedMorphism, IsNoMorphism};

use crate::lines::line_at;
use dfa_loading::{FileFlaw, LoadFault};
use digit_tuple::name::Name;
use morph_words::{Morphism, RulesFault};
use std::alloc::Global;
use wal_outside::{Folder, Found, Store};

/// The morphism of the text under a name in the folder of morphisms. The time is that of reading the rules.
///
/// # Errors
/// `Unknown` where nothing is there; `File` where the text has more than `TEXT_LIMIT` bytes, or breaks the grammar of rules, and
/// then with the line of the first faulty byte; `Store` where the store failed, each with the folder and the name; or `Memory`. No
/// text is changed.
pub fn load_morphism<T: Store>(
    alloc: Global,
    name: &Name,
    store: &mut T,
) -> Result<Morphism, LoadFault>
    ensures { IsLoadedMorphism name.now (T.view store.old) result (T.view store.new) }
{
    let copy = name.copy(alloc)?;
    read_morphism(alloc, copy, store)
}

/// The morphism under a name, which is let go.
fn read_morphism<T: Store>(alloc: Global, name: Name, store: &mut T) -> Result<Morphism, LoadFault>
    ensures { IsLoadedMorphism name (T.view store.old) result (T.view store.new) }
{
    let mut text = Vec::new(alloc);
    match store.read(Folder::Morphisms, name.as_str(), &mut text) {
        Found::Found => morphism_in(alloc, name, &text),
        Found::Absent => Err(LoadFault::Unknown(Folder::Morphisms, name)),
        Found::TooLong => Err(LoadFault::File(Folder::Morphisms, name, FileFlaw::TooLong)),
        Found::Failed => Err(LoadFault::Store(Folder::Morphisms, name)),
        Found::Memory => Err(LoadFault::Memory),
    }
}

/// The morphism of a text, which is under this name.
fn morphism_in(alloc: Global, name: Name, text: &[u8]) -> Result<Morphism, LoadFault>
    requires { length text.now ≤ TEXT_LIMIT }
    ensures { MatchResult result (λ rules. Parses text.now (Ok rules)) (IsNoMorphism name text.now) }
{
    match Morphism::parse(alloc, text) {
        Ok(morphism) => Ok(morphism),
        Err(RulesFault::Syntax(at)) => Err(broken(name, line_at(text, at))),
        Err(RulesFault::Number(at)) => Err(broken(name, line_at(text, at))),
        Err(RulesFault::Memory) => Err(LoadFault::Memory),
    }
}

/// The fault of the morphism of this name, whose text breaks the grammar in this line.
fn broken(name: Name, line: u64) -> LoadFault
    ensures { result ≡ faults.File Morphisms name (Line line) }
{
    LoadFault::File(Folder::Morphisms, name, FileFlaw::Line(line))
}
