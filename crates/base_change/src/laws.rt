//! Laws of the change of bases, each a call that does nothing.

ghost use Rattle.base_change.specs.Conversions.{ConversionsHaveOneOutcome, ConversionsKeepLetters};
ghost use Rattle.base_change.specs.Digits.{ExpansionsKeepValues, WordsArePaddedGroups};
ghost use Rattle.base_change.specs.Laws.{JoinHasOneOutcome, JoinsKeepPlaces, OneJoinWidth, OneSplitWidth, SplitHasOneOutcome, SplitsKeepPlaces};
ghost use Rattle.base_change.specs.Roots.{BasesAreRelatedInOneWay};

use base_k::laws::rank_is_positional;
use letter_reversal::laws::letter_reversals_have_one_outcome;

/// Two bases have one least root, and one exponent of it each.
pub fn bases_are_related_in_one_way()
    ensures { BasesAreRelatedInOneWay }
{}

/// A word over a power of a base has the value that it has digit by digit expanded.
pub fn expansions_keep_values()
    ensures { ExpansionsKeepValues }
{}

/// Each word over a base is expanded from one over a power of it, but for zeros that its last group of digits wants.
pub fn words_are_padded_groups()
    ensures { WordsArePaddedGroups }
{}

/// By the step `split` the letter at each position stays: that of the words over the base whose positional value is the
/// position.
pub fn splits_keep_places()
    ensures { SplitsKeepPlaces }
{}

/// So it does by the step `join`.
pub fn joins_keep_places()
    ensures { JoinsKeepPlaces }
{}

/// The step `split` has one width and one outcome, unless memory runs out.
pub fn split_has_one_outcome()
    ensures width { OneSplitWidth }
    ensures outcome { SplitHasOneOutcome }
{}

/// The step `join` has one width and one outcome, unless memory runs out.
pub fn join_has_one_outcome()
    ensures width { OneJoinWidth }
    ensures outcome { JoinHasOneOutcome }
{}

/// A conversion of a word gives one that has the same letter at each position.
pub fn conversions_keep_letters()
    ensures { ConversionsKeepLetters }
{
    rank_is_positional();
}

/// A conversion has one outcome, unless memory runs out.
pub fn conversions_have_one_outcome()
    ensures { ConversionsHaveOneOutcome }
{
    letter_reversals_have_one_outcome();
}
