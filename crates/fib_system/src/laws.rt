//! Laws of the Fibonacci system, each a call that does nothing.

ghost use Rattle.fib_system.specs.Fibonacci.{RankIsWeightSum, WordsAreWithout11};

/// The words of the system are those over the digits 0 and 1 in which no 1 comes next to another.
pub fn words_are_without_11()
    ensures { WordsAreWithout11 }
{}

/// The rank of a word is the sum of its digits, each times the weight of its place. The weights are 1, 2, 3,
/// 5, .. from the least significant digit on.
pub fn rank_is_weight_sum()
    ensures { RankIsWeightSum }
{}
