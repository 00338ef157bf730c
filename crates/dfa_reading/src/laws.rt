//! Laws of the definitions, each a call that does nothing.

ghost use Rattle.dfa_reading.specs.Branching.{BranchingAcceptsListed};
ghost use Rattle.dfa_reading.specs.Conflicts.{SharedTuplesAreTaken};
ghost use Rattle.dfa_reading.specs.WordFiles.{WordFilesListWords};
ghost use Rattle.dfa_reading.specs.ListedTable.{TableMovesAlong};
ghost use Rattle.dfa_reading.specs.SystemFiles.{LanguageFilesListLanguages, AdderFilesListAdders};

/// The branching automaton of what a file lists accepts the word of the letters of some tuples if and only if the file accepts
/// the word of tuples.
pub fn branching_accepts_listed()
    ensures { BranchingAcceptsListed }
{}

/// Two lists of digits, of which any may be `*`, share a tuple if and only if there is a tuple that both take.
pub fn shared_tuples_are_taken()
    ensures { SharedTuplesAreTaken }
{}

/// What a word's file lists has tracks of systems, at least one, and leads from a state by a tuple to one state at most.
pub fn word_files_list_words()
    ensures { WordFilesListWords }
{}

/// The deterministic automaton of a list leads by the word of the letters of some tuples as the listed transitions lead by the
/// tuples.
pub fn table_moves_along()
    ensures { TableMovesAlong }
{}

/// What the file of a user's language lists has one track, of some digits from 0 on, and a state.
pub fn language_files_list_languages()
    ensures { LanguageFilesListLanguages }
{}

/// What the file of an adder lists has three tracks, of so many digits from 0 on, and a state.
pub fn adder_files_list_adders()
    ensures { AdderFilesListAdders }
{}
