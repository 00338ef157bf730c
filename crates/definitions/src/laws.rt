//! Laws of definitions, each a call that does nothing.

ghost use Rattle.definitions.specs.Laws.{OneText, TextsMeanTheirTrees, WordTextsMeanTheirTrees, LanguageTextsMeanTheirTrees, BindingsMatterByMeaning, FilesBindAsTheirLedger, CustomTextsAreFiles};

/// An entry has at most one text.
pub fn one_text()
    ensures { OneText }
{}

/// The text of a definition that may be among automata, read as a file, holds of the numbers of which the definition holds.
pub fn texts_mean_their_trees()
    ensures { TextsMeanTheirTrees }
{}

/// The text of a definition that may be among words, read as a word's file, has the letters of the definition.
pub fn word_texts_mean_their_trees()
    ensures { WordTextsMeanTheirTrees }
{}

/// The text of a definition that may be among automata, read as a file over sets, accepts the words of the definition.
pub fn language_texts_mean_their_trees()
    ensures { LanguageTextsMeanTheirTrees }
{}

/// A formula holds of the same numbers where its names are bound to what holds of the same numbers, and those of words to what has
/// the same letters.
pub fn bindings_matter_by_meaning()
    ensures { BindingsMatterByMeaning }
{}

/// Names mean the same in a ledger and in the files that are its texts.
pub fn files_bind_as_their_ledger()
    ensures { FilesBindAsTheirLedger }
{}

/// The texts of users' systems are those of the files, and what is entered elsewhere leaves them as they are.
pub fn custom_texts_are_files()
    ensures { CustomTextsAreFiles }
{}
