//! The commands `macro` and `morphism`: a text, and the printed rules of a morphism.

ghost use Rattle.std.specs.Prelude.{ℕ, Bool, List};
ghost use Rattle.definitions.specs.Trees.{Ledger, custom_of};
ghost use Rattle.system_files.specs.SystemFiles.{Custom};
ghost use Rattle.command_parts.specs.FileChanges.{Makes, ChangesFile};
ghost use Rattle.session_cli.specs.TextOutcomes.{after_rules_head, macro_checks, morphism_checks};
ghost use Rattle.command_parts.specs.TextChanges.{StoresText};

use command_head::{NamedParts, named_parts};
use command_parts::fault::Fault;
use command_parts::file_change::{FileChange, Made};
use command_parts::printed::Printed;
use command_parts::refusal::Refusal;
use command_parts::text_refusal::TextRefusal;
use morph_words::Morphism;
use std::alloc::Global;
use wal_outside::{Folder, TEXT_LIMIT};

/// What a `macro` stores, or the first of its checks that refuses it: the shape of its head, and the length of the text to store.
/// It makes no step.
pub(crate) fn macro_change(alloc: Global, text: &[u8]) -> Result<FileChange, Fault>
    ensures { (ledger : Ledger) (shown : Bool) → ChangesFile (custom_of ledger) (macro_checks ledger text.now) shown result }
{
    match named_parts(alloc, b"macro", text) {
        Ok(NamedParts { name, body }) => match text_made(alloc, body) {
            Ok(made) => Ok(FileChange {
                folder: Folder::Macros,
                name,
                made,
            }),
            Err(fault) => Err(fault),
        },
        Err(fault) => Err(Fault::from(fault)),
    }
}

/// What a `morphism` stores, or the first of its checks that refuses it: the shape of its head, its rules, and the length of the
/// text to store. It makes no step.
pub(crate) fn morphism_change(alloc: Global, text: &[u8]) -> Result<FileChange, Fault>
    ensures { (ledger : Ledger) (shown : Bool) → ChangesFile (custom_of ledger) (morphism_checks ledger text.now) shown result }
{
    match named_parts(alloc, b"morphism", text) {
        Ok(NamedParts { name, body }) => match rules_made(alloc, body) {
            Ok(made) => Ok(FileChange {
                folder: Folder::Morphisms,
                name,
                made,
            }),
            Err(fault) => Err(fault),
        },
        Err(fault) => Err(Fault::from(fault)),
    }
}

/// What is made of a quoted text that is stored as it is.
fn text_made(alloc: Global, body: &[u8]) -> Result<Made, Fault>
    ensures { StoresText body.now result }
{
    let stored = Vec::from_slice(alloc, body)?;
    stored_text(alloc, stored)
}

/// What is made of the rules in a quoted text, whatever the command's name.
fn rules_made(alloc: Global, body: &[u8]) -> Result<Made, Fault>
    ensures { (custom : Custom) (name : List ℕ) (shown : Bool) → Makes custom (after_rules_head custom (record { name = name; body = body.now })) shown result }
{
    let morphism = Morphism::parse(alloc, body)?;
    let stored = morphism.print(alloc)?;
    stored_text(alloc, stored)
}

/// A text to store, of which nothing is printed, unless it is too long.
fn stored_text(alloc: Global, stored: Vec<u8>) -> Result<Made, Fault>
    ensures { StoresText stored.items result }
{
    if stored.len() > TEXT_LIMIT {
        return Err(Fault::Refused(Refusal::Text(TextRefusal::Long(TEXT_LIMIT))));
    }
    Ok(Made {
        stored,
        printed: Printed::new(alloc),
    })
}
