//! The systems of the tracks of automata and words, by their names.

ghost use Rattle.std.specs.Prelude.{◌≡◌, OnOk, OnErr, IfOk, None, Some};
ghost use Rattle.formula_resolve.specs.Headers.{no_headers, with_automaton, with_word, automaton_tracks, word_tracks, is_plain as is_plain_of};

use digit_tuple::faults::OutOfMemory;
use digit_tuple::name::Name;
use std::alloc::Global;
use std::collections::BTreeMap;
use std::marker::Model;

/// What the tracks of automata and words are over: for each name that was added the systems of its tracks, or that an
/// automaton is over sets. A search takes the logarithm of the number of names.
#[derive(Drop)]
pub struct Headers {
    alloc: Global,
    automata: BTreeMap<Vec<u8>, Option<Vec<Name>>>,
    words: BTreeMap<Vec<u8>, Vec<Name>>,
}

impl Model for Headers {
    ghost use Rattle.formula_resolve.specs.Headers.{Headers, headers_code};

    ghost Value = { Headers };

    ghost coded = { headers_code };

    ghost use Rattle.formula_resolve.specs.HeaderViews.{automata_view, words_view};

    ghost view = { λ a. record { automata = automata_view a.automata.entries; words = words_view a.words.entries } };
}

impl Headers {
    /// No headers. It takes no memory.
    pub fn new(alloc: Global) -> Headers
        ensures { result ≡ no_headers }
    {
        Headers {
            alloc,
            automata: BTreeMap::new(alloc),
            words: BTreeMap::new(alloc),
        }
    }

    /// Adds the automaton of this name, whose tracks are over the systems of these names, in place of
    /// one that may have been added. A sentence is over no system.
    ///
    /// # Errors
    /// Where there is no memory for it, the headers are as before.
    pub fn add_automaton(&mut self, name: &Name, systems: &[Name]) -> Result<(), OutOfMemory>
        ensures ok { OnOk result (self.new ≡ with_automaton self.old name.now (Some systems.now)) }
        ensures err { OnErr result (self.new ≡ self.old) }
    {
        let key = Vec::from_slice(self.alloc, name.as_bytes())?;
        let tracks = copied(self.alloc, systems)?;
        self.automata.insert(key, Some(tracks))?;
        Ok(())
    }

    /// Adds the automaton of this name, whose tracks are over sets, in place of one that may have been
    /// added.
    ///
    /// # Errors
    /// Where there is no memory for it, the headers are as before.
    pub fn add_plain(&mut self, name: &Name) -> Result<(), OutOfMemory>
        ensures ok { OnOk result (self.new ≡ with_automaton self.old name.now None) }
        ensures err { OnErr result (self.new ≡ self.old) }
    {
        let key = Vec::from_slice(self.alloc, name.as_bytes())?;
        self.automata.insert(key, None)?;
        Ok(())
    }

    /// Adds the word of this name, whose tracks are over the systems of these names, in place of one
    /// that may have been added.
    ///
    /// # Errors
    /// Where there is no memory for it, the headers are as before.
    pub fn add_word(&mut self, name: &Name, systems: &[Name]) -> Result<(), OutOfMemory>
        ensures ok { OnOk result (self.new ≡ with_word self.old name.now systems.now) }
        ensures err { OnErr result (self.new ≡ self.old) }
    {
        let key = Vec::from_slice(self.alloc, name.as_bytes())?;
        let tracks = copied(self.alloc, systems)?;
        self.words.insert(key, tracks)?;
        Ok(())
    }

    /// The systems of the tracks of the automaton of this name; none where it is over sets, or no
    /// header of the name was added.
    pub fn automaton_tracks(&self, name: &Name) -> &[Name]
        ensures { result.now ≡ automaton_tracks self.now name.now }
    {
        let Some(tracks) = self.automata.get(name.as_bytes()) else {
            return &[];
        };
        match tracks {
            Some(systems) => systems,
            None => &[],
        }
    }

    /// The systems of the tracks of the word of this name; none where no header of the name was added.
    pub fn word_tracks(&self, name: &Name) -> &[Name]
        ensures { result.now ≡ word_tracks self.now name.now }
    {
        match self.words.get(name.as_bytes()) {
            Some(tracks) => tracks,
            None => &[],
        }
    }

    /// Whether the automaton of this name is over sets.
    pub fn is_plain(&self, name: &Name) -> bool
        ensures { result ≡ is_plain_of self.now name.now }
    {
        match self.automata.get(name.as_bytes()) {
            Some(tracks) => tracks.is_none(),
            None => false,
        }
    }
}

/// The names once more.
fn copied(alloc: Global, names: &[Name]) -> Result<Vec<Name>, OutOfMemory>
    ensures { IfOk result (λ copies. copies.items ≡ names.now) }
{
    let mut copies = Vec::with_capacity(alloc, names.len())?;
    for name in names {
        copies.push(name.copy(alloc)?)?;
    }
    Ok(copies)
}
