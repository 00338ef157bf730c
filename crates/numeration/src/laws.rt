//! Laws of the definitions, each a call that does nothing.

ghost use Rattle.numeration.specs.Words.{ZerosKeepTheRank, RanksDetermineWords, RanksAreInOrder};
ghost use Rattle.numeration.specs.Systems.{NumbersHaveWords, NumbersDetermineWords};
ghost use Rattle.numeration.specs.Representation.{TuplesHaveRepresentations, RepresentationsArePaddings};

/// Leading zeros do not change the rank of a word.
pub fn zeros_keep_the_rank()
    ensures { ZerosKeepTheRank }
{}

/// Words of one rank differ in leading zeros alone.
pub fn ranks_determine_words()
    ensures { RanksDetermineWords }
{}

/// Ranks of words of one length are in the order of the words.
pub fn ranks_are_in_order()
    ensures { RanksAreInOrder }
{}

/// Each number is the rank of a word without leading zero.
pub fn numbers_have_words()
    ensures { NumbersHaveWords }
{}

/// Each number is the rank of one word without leading zero alone.
pub fn numbers_determine_words()
    ensures { NumbersDetermineWords }
{}

/// Each tuple of numbers has a representation.
pub fn tuples_have_representations()
    ensures { TuplesHaveRepresentations }
{}

/// The representations of a tuple differ in leading zeros alone.
pub fn representations_are_paddings()
    ensures { RepresentationsArePaddings }
{}
