//! Laws of fixed points, each a call that does nothing.

ghost use Rattle.fixed_points.specs.Laws.{FixedPointsAreFixed, FixedPointsHaveLetters, FixedPointsHaveOneLetter, MorphismsArePromotedOrRefused, MorphismsHaveOneKind, PromotionsHaveOneOutcome};

use base_k::laws::rank_is_positional;

/// A fixed point has a letter at each position, and one alone.
pub fn fixed_points_have_letters()
    ensures some { FixedPointsHaveLetters }
    ensures one { FixedPointsHaveOneLetter }
{
    rank_is_positional();
}

/// A fixed point is its own image.
pub fn fixed_points_are_fixed()
    ensures { FixedPointsAreFixed }
{}

/// A morphism has a fixed point in one base, or is refused as one kind, and not both.
pub fn morphisms_have_one_kind()
    ensures some { MorphismsArePromotedOrRefused }
    ensures one { MorphismsHaveOneKind }
{}

/// The promotion of a morphism has one outcome, unless memory runs out.
pub fn promotions_have_one_outcome()
    ensures { PromotionsHaveOneOutcome }
{
    rank_is_positional();
}
