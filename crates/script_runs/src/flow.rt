use wal_outside::WriteFault;

/// What a run does after an item, or after a file that it loaded.
#[derive(Clone, Copy)]
pub(crate) enum Flow {
    /// The next item comes.
    GoesOn,
    /// It ends with an item.
    Ends,
    /// The sink stopped it.
    Stopped(WriteFault),
    /// There was no memory to cut the next command of a file.
    WantsMemory,
}
