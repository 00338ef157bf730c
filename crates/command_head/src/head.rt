ghost use Rattle.std.specs.Prelude.{◌≡◌, ◌<◌, ◌+◌, ◌^◌};
ghost use Rattle.command_head.specs.Values.{value_at as value_of};

use digit_tuple::name::Name;
use digit_tuple::sets::Sets;
use place_text::Place;

/// What the tracks of a `reg` are over.
#[derive(Drop)]
pub enum Alphabets {
    /// A set for each track.
    Sets(Sets),
    /// A system for each track, by its name.
    Systems(Vec<Name>),
}

/// The parts of a head that is a word, a name and a quoted text.
#[derive(Drop)]
pub struct NamedParts<'a> {
    /// The name.
    pub name: Name,
    /// What is in the quotes.
    pub body: &'a [u8],
}

/// The parts of a `reg`.
#[derive(Drop)]
pub struct RegParts<'a> {
    /// The name of the automaton.
    pub name: Name,
    /// A set or a system for each track.
    pub alphabets: Alphabets,
    /// The expression: what is in the quotes.
    pub body: &'a [u8],
}

/// The parts of a `promote`.
#[derive(Drop)]
pub struct PromoteParts {
    /// The name of the new word.
    pub word: Name,
    /// The name of the morphism.
    pub morphism: Name,
}

/// The parts of a head that maps a word.
#[derive(Drop)]
pub struct ImageParts {
    /// The name of the new word.
    pub word: Name,
    /// The name of what maps the letters: a morphism or a transducer.
    pub mapping: Name,
    /// The name of the old word.
    pub old: Name,
}

/// The parts of a `convert`.
#[derive(Drop)]
pub struct ConvertParts {
    /// The name of the new word.
    pub word: Name,
    /// The name of the new word's system.
    pub system: Name,
    /// The name of the old word.
    pub old: Name,
}

/// The name of an automaton, and the value that is given with it.
#[derive(Drop)]
pub struct ValuedName {
    /// The name.
    pub name: Name,
    /// The value after `=`, where one is given.
    pub value: Option<i32>,
}

impl ValuedName {
    /// The value of the automaton, which is at this place of its list, counted from 0: the one that is given, or the
    /// place counted from 1.
    pub fn value_at(&self, place: usize) -> i32
        requires { place + 1 < 2 ^ 31 }
        ensures { result ≡ value_of place self.now.value }
    {
        match self.value {
            Some(value) => value,
            None => (place + 1) as i32,
        }
    }
}

/// The parts of a `combine`.
#[derive(Drop)]
pub struct CombineParts {
    /// The name of the new word.
    pub word: Name,
    /// The automata in the order in which they are listed, one at least.
    pub automata: Vec<ValuedName>,
}

/// The parts of a head that makes a language of others.
#[derive(Drop)]
pub struct LanguagesParts {
    /// The name of the new automaton.
    pub name: Name,
    /// The names of the automata of the others in the order in which they are listed, one at least.
    pub languages: Vec<Name>,
}

/// The parts of a `test`.
#[derive(Drop)]
pub struct TestParts {
    /// The name of the automaton.
    pub name: Name,
    /// How many words are listed.
    pub count: u64,
    /// The place after which they are listed, where one is given.
    pub place: Option<Place>,
}
