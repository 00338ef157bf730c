//! The tables of the files that a command mentions, and what the names of their systems mean. Each command that reads files of
//! automata or words begins so: it makes its mentions, loads their tables by `load_mentioned`, and seals their systems by `names_of`.

ghost use Rattle.command_parts.specs.MentionedTables.{GivesNames, LoadsMentioned};
ghost use Rattle.command_parts.specs.StoreReads.{FromFiles, FromTexts};

use crate::fault::Fault;
use crate::kept::Kept;
use crate::user_systems::admitted;
use dfa_loading::{Loaded, headers_of, load};
use digit_tuple::steps::Steps;
use formula_build::Names;
use formula_resolve::{Mention, first_files, first_systems};
use std::alloc::Global;
use system_admission::UserSystems;
use wal_outside::Store;

/// What a command mentions, and the tables of the files.
#[derive(Drop)]
pub struct MentionedTables {
    /// The mentions.
    pub mentions: Vec<Mention>,
    /// The tables, each once, in the order in which their files are mentioned first.
    pub tables: Vec<Loaded>,
}

/// The tables of the files that are mentioned, each read once, in the order in which they are mentioned first.
///
/// # Errors
/// `Unknown`, `File` or `Store` with the first file that is not loaded, or `Memory`. No text is changed.
pub fn load_mentioned<T: Store>(
    alloc: Global,
    mentions: Vec<Mention>,
    store: &mut T,
) -> Result<MentionedTables, Fault>
    ensures { FromFiles (LoadsMentioned mentions.items) (T.view store.old) result (T.view store.new) }
{
    let files = first_files(alloc, &mentions)?;
    let tables = load(alloc, &files, store)?;
    Ok(MentionedTables { mentions, tables })
}

/// What the names of the systems of mentioned tables mean, and the steps so far.
#[derive(Drop)]
pub struct SealedNames {
    /// The headers of the tables, and the systems.
    pub names: Names,
    /// The steps.
    pub steps: Steps,
}

/// The systems that are mentioned, those of the tables' headers among them, sealed, each under its name. Those of users are read
/// and admitted by the first steps of the command; built-in ones are kept.
///
/// # Errors
/// Why the first one is not known or not admitted, or `Memory`. No text is changed.
pub fn names_of<T: Store>(
    alloc: Global,
    limit: u32,
    mentioned: &MentionedTables,
    kept: &mut Kept,
    store: &mut T,
) -> Result<SealedNames, Fault>
    ensures { FromTexts (GivesNames limit mentioned.now.mentions.items mentioned.now.tables.items) (T.view store.old) result (T.view store.new) }
{
    let headers = headers_of(alloc, &mentioned.tables)?;
    let named = first_systems(alloc, &mentioned.mentions, &headers)?;
    let users = admitted(alloc, limit, &named, kept, store)?;
    let UserSystems {
        named: mut systems,
        steps,
        ..
    } = users;
    kept.built_in.add_all(alloc, &named, &mut systems)?;
    let names = Names { headers, systems };
    Ok(SealedNames { names, steps })
}
