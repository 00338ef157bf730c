//! What holds of all expansions by the macros of files.

ghost use Rattle.macro_loading.specs.MacroFiles.{ExpansionsByFilesHaveOneAnswer};

/// The expansion of a text by the same files has one answer, where memory is left and the store does not fail.
pub fn expansions_by_files_have_one_answer()
    ensures { ExpansionsByFilesHaveOneAnswer }
{}
