//! What the automata and words that a command names are refused for.

use crate::word_systems::WordSystems;
use digit_tuple::name::Name;

/// Why an automaton or a word that a command names is none that the command can be done with.
#[derive(Drop)]
pub enum ShapeRefusal {
    /// F13: the automaton or word of this name has so many tracks, and so many terms are given.
    Arity(Name, u32, u32),
    /// F21: the automaton of this name is over sets.
    Plain(Name),
    /// F24: the first listed automaton, and the first later one that has other systems; the first twice where it has no track.
    CombineShape(Name, Name),
    /// F29: the automaton of this name is not over sets.
    NotPlain(Name),
    /// F30: the first named automaton, and the first later one that is over other sets.
    LangShape(Name, Name),
    /// F32: the place that is given is no word over the tracks of the automaton of this name.
    Place(Name),
    /// F33: the word of this name has these systems of tracks, where it is to have one track, over a base.
    BaseNeeded(Name, WordSystems),
    /// F34: the word's system, and the one that is asked for: not both are bases that are powers of one integer.
    NotRelated(Name, Name),
}
