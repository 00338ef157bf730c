//! Laws of base k.

ghost use Rattle.base_k.specs.Positional.{RankIsPositional};

/// In base k the rank of a word is its positional value: the sum of its digits, each times the power
/// of k by the number of digits after it.
pub fn rank_is_positional()
    ensures { RankIsPositional }
{}
