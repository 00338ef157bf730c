//! What is to be done for a command, done over a store.
ghost use Rattle.command_parts.specs.declared.file_change.Action.TheVariants.{Write};
ghost use Rattle.store_writes.specs.Writes.{DoesAction, WritesChange};

use command_parts::fault::Fault;
use command_parts::file_change::{Action, FileChange};
use command_parts::printed::Printed;
use digit_tuple::name::Name;
use wal_outside::{Folder, Store, WriteFault};

/// Does what is to be done for a command, and gives what is printed.
///
/// # Errors
/// As `write_text`, where something is stored.
pub fn do_action<T: Store>(action: Action, store: &mut T) -> Result<Printed, Fault>
    ensures { DoesAction (T.view store.old) action result (T.view store.new) }
{
    match action {
        Action::Write(change) => written(change, store),
        Action::Print(printed) => Ok(printed),
    }
}

/// Stores the text of a change, and gives what is printed.
///
/// # Errors
/// As `write_text`.
fn written<T: Store>(change: FileChange, store: &mut T) -> Result<Printed, Fault>
    ensures { DoesAction (T.view store.old) (Write change) result (T.view store.new) }
{
    let FileChange { folder, name, made } = change;
    write_text(folder, name, &made.stored, store)?;
    Ok(made.printed)
}

/// Stores a text under a name in a folder.
///
/// # Errors
/// `Store` where the store failed, and `Memory` where it had none; the store's texts are as before.
fn write_text<T: Store>(folder: Folder, name: Name, text: &[u8], store: &mut T) -> Result<(), Fault>
    ensures { WritesChange (T.view store.old) (folder, name) text.now result (T.view store.new) }
{
    match store.write(folder, name.as_str(), text) {
        Ok(()) => Ok(()),
        Err(WriteFault::Failed) => Err(Fault::Store(folder, name)),
        Err(WriteFault::Memory) => Err(Fault::Memory),
    }
}
