//! Files and systems in the order of their first mention, each once.

ghost use Rattle.std.specs.Prelude.{◌≡◌, [], ◌∷◌, IfOk};
ghost use Rattle.std.specs.List.{fold};
ghost use Rattle.std.specs.Str.{bytes_eq};
ghost use Rattle.formula_resolve.specs.FirstMentions.{is_same_file, with_new, file_key as file_key_of, mentioned_files, first_files as first_files_of, mentioned_systems, first_systems as first_systems_of};

use crate::file::File;
use crate::headers::Headers;
use crate::mention::Mention;
use digit_tuple::faults::OutOfMemory;
use digit_tuple::name::Name;
use digit_tuple::numbering::Numbering;
use std::alloc::Global;
use std::marker::Model;

/// Names, each once, in the order in which they came first.
#[derive(Drop)]
struct FirstNames {
    seen: Numbering,
    names: Vec<Name>,
}

impl Model for FirstNames {
    ghost use Rattle.std.specs.Prelude.{◌≡◌, List};
    ghost use Rattle.formula_parse.specs.Tokens.{Name as NameOf};

    ghost Value = { List NameOf };

    ghost view = { λ a. a.names.items };

    ghost invariant = { λ a. a.seen ≡ a.names.items };
}

impl FirstNames {
    /// No name.
    fn new(alloc: Global) -> FirstNames
        ensures { result ≡ [] }
    {
        FirstNames {
            seen: Numbering::new(alloc),
            names: Vec::new(alloc),
        }
    }

    /// With one more, unless it is there.
    fn with(self, alloc: Global, name: &Name) -> Result<FirstNames, OutOfMemory>
        ensures { IfOk result (λ more. more ≡ with_new bytes_eq self name.now) }
    {
        let FirstNames {
            mut seen,
            mut names,
        } = self;
        let key = key_of(alloc, name)?;
        if seen.number_of(&key)? == names.len() {
            names.push(name.copy(alloc)?)?;
        }
        Ok(FirstNames { seen, names })
    }

    /// With more of them.
    fn with_all(self, alloc: Global, names: &[Name]) -> Result<FirstNames, OutOfMemory>
        ensures { IfOk result (λ more. more ≡ fold (with_new bytes_eq) self names.now) }
    {
        let mut firsts = self;
        for name in names {
            firsts = firsts.with(alloc, name)?;
        }
        Ok(firsts)
    }

    /// With the systems of a mention.
    fn with_mention(
        self,
        alloc: Global,
        mention: &Mention,
        headers: &Headers,
    ) -> Result<FirstNames, OutOfMemory>
        ensures { IfOk result (λ more. more ≡ fold (with_new bytes_eq) self (mentioned_systems headers.now mention.now)) }
    {
        match mention {
            Mention::Marked(system) => self.with(alloc, system),
            Mention::Called(name, _) => self.with_all(alloc, headers.automaton_tracks(name)),
            Mention::Indexed(name, _) => self.with_all(alloc, headers.word_tracks(name)),
        }
    }

    /// The names.
    fn into_names(self) -> Vec<Name>
        ensures { result.items ≡ self }
    {
        self.names
    }
}

/// Files, each once, in the order in which they came first.
#[derive(Drop)]
struct FirstFiles {
    seen: Numbering,
    files: Vec<File>,
}

impl Model for FirstFiles {
    ghost use Rattle.std.specs.Prelude.{◌≡◌, List, map};
    ghost use Rattle.formula_resolve.specs.FirstMentions.{file_key};
    ghost use Rattle.formula_resolve.specs.declared.file.File.{File as FileOf};

    ghost Value = { List FileOf };

    ghost view = { λ a. a.files.items };

    ghost invariant = { λ a. a.seen ≡ map file_key a.files.items };
}

impl FirstFiles {
    /// No file.
    fn new(alloc: Global) -> FirstFiles
        ensures { result ≡ [] }
    {
        FirstFiles {
            seen: Numbering::new(alloc),
            files: Vec::new(alloc),
        }
    }

    /// With one more, unless it is there.
    fn with(self, alloc: Global, file: File) -> Result<FirstFiles, OutOfMemory>
        ensures { IfOk result (λ more. more ≡ with_new is_same_file self file) }
    {
        let FirstFiles {
            mut seen,
            mut files,
        } = self;
        let key = file_key(alloc, &file)?;
        if seen.number_of(&key)? != files.len() {
            return Ok(FirstFiles { seen, files });
        }
        files.push(file)?;
        Ok(FirstFiles { seen, files })
    }

    /// With the file of a mention.
    fn with_mention(self, alloc: Global, mention: &Mention) -> Result<FirstFiles, OutOfMemory>
        ensures { IfOk result (λ more. more ≡ fold (with_new is_same_file) self (mentioned_files mention.now)) }
    {
        match mention {
            Mention::Marked(_) => Ok(self),
            Mention::Called(name, _) => self.with(alloc, File::Automaton(name.copy(alloc)?)),
            Mention::Indexed(name, _) => self.with(alloc, File::Word(name.copy(alloc)?)),
        }
    }

    /// The files.
    fn into_files(self) -> Vec<File>
        ensures { result.items ≡ self }
    {
        self.files
    }
}

/// What distinguishes a file, as a key.
fn file_key(alloc: Global, file: &File) -> Result<Vec<u32>, OutOfMemory>
    ensures { IfOk result (λ key. key.items ≡ file_key_of file.now) }
{
    let (folder, name) = match file {
        File::Automaton(name) => (0, name),
        File::Word(name) => (1, name),
    };
    let mut key = Vec::new(alloc);
    key.push(folder)?;
    for byte in name.as_bytes() {
        key.push(u32::from(*byte))?;
    }
    Ok(key)
}

/// The bytes of a name, as a key.
fn key_of(alloc: Global, name: &Name) -> Result<Vec<u32>, OutOfMemory>
    ensures { IfOk result (λ key. key.items ≡ name.now) }
{
    let mut key = Vec::new(alloc);
    for byte in name.as_bytes() {
        key.push(u32::from(*byte))?;
    }
    Ok(key)
}

/// The systems that are mentioned, each once, in the order of their first mention: a mark's own, and
/// those of a file's header, track by track. It takes time in the number of the mentions and tracks.
pub fn first_systems(
    alloc: Global,
    mentions: &[Mention],
    headers: &Headers,
) -> Result<Vec<Name>, OutOfMemory>
    ensures { IfOk result (λ systems. systems.items ≡ first_systems_of headers.now mentions.now) }
{
    let mut firsts = FirstNames::new(alloc);
    for mention in mentions {
        firsts = firsts.with_mention(alloc, mention, headers)?;
    }
    Ok(firsts.into_names())
}

/// The files that are mentioned, each once, in the order of their first mention. It takes time in the
/// length of the mentions.
pub fn first_files(alloc: Global, mentions: &[Mention]) -> Result<Vec<File>, OutOfMemory>
    ensures { IfOk result (λ files. files.items ≡ first_files_of mentions.now) }
{
    let mut firsts = FirstFiles::new(alloc);
    for mention in mentions {
        firsts = firsts.with_mention(alloc, mention)?;
    }
    Ok(firsts.into_files())
}
