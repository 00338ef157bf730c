//! Laws of the definitions, each a call that does nothing.

ghost use Rattle.word_transduce.specs.Laws.{TransductionsHaveOneOutcome};
ghost use Rattle.word_transduce.specs.LetterRuns.{TransductionsAreRuns};
ghost use Rattle.word_transduce.specs.TransducedWords.{TransductionsMakeWords};

use base_k::laws::rank_is_positional;

/// The step has one outcome, unless memory runs out.
pub fn transductions_have_one_outcome()
    ensures { TransductionsHaveOneOutcome }
{}

/// The step makes at each position the output of the run over the letters of all positions before and of this one.
pub fn transductions_are_runs()
    ensures { TransductionsAreRuns }
{}

/// The letters that the step gives to the reversed words of an automatic word over a base are those of an automatic word:
/// at each position the output of the run over the old word's letters.
pub fn transductions_make_words()
    ensures { TransductionsMakeWords }
{
    rank_is_positional();
}
