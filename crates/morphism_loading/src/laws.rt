//! Laws of the files of morphisms, each a call that does nothing.

ghost use Rattle.morphism_loading.specs.MorphismFiles.{MorphismFilesHaveOneAnswer};

use morph_words::laws::one_answer;

/// One file has one morphism, or one refusal, and not both.
pub fn morphism_files_have_one_answer()
    ensures { MorphismFilesHaveOneAnswer }
{
    one_answer();
}
