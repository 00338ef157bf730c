// The folders of a store.
ghost use Rattle.std.specs.Prelude.{◌≡◌};
ghost use Rattle.wal_outside.specs.Folders.{folder_text};

/// A folder of a store. A store has these and no other.
#[derive(Clone, Copy, Debug, PartialEq, Eq)]
pub enum Folder {
    Automata,
    Words,
    Bases,
    Macros,
    Morphisms,
    Transducers,
    Results,
    Commands,
}

impl Folder {
    /// The folder's name, as users see it and as a disk has it.
    pub fn name(self) -> &'static str
        ensures { result.now ≡ folder_text self }
    {
        match self {
            Folder::Automata => "Automata Library",
            Folder::Words => "Word Automata Library",
            Folder::Bases => "Custom Bases",
            Folder::Macros => "Macro Library",
            Folder::Morphisms => "Morphism Library",
            Folder::Transducers => "Transducer Library",
            Folder::Results => "Result",
            Folder::Commands => "Command Files",
        }
    }
}
