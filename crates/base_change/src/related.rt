//! The least root of two bases.

ghost use Rattle.std.specs.Prelude.{◌≡◌, ◌≢◌, ◌≤◌, ◌<◌, ◌^◌, ℕ, MatchOption};
ghost use Rattle.base_change.specs.Roots.{HaveNoRoot, IsLeastRoot};

/// Two bases as powers of one integer.
#[derive(Clone, Copy, PartialEq, Eq)]
pub struct CommonRoot {
    /// The least integer of which both bases are powers.
    pub root: u32,
    /// The exponent of the root that gives the old base.
    pub old_power: u32,
    /// The exponent of the root that gives the new base.
    pub new_power: u32,
}

/// The least root of the old and the new base, each of which is at least 2 and at most 40, with the exponents. None if
/// and only if the bases are not powers of one integer. It takes no memory, and time that follows the old base.
pub fn related(old: u32, new: u32) -> Option<CommonRoot>
    requires old { (2 ≤ old) × (old ≤ 40) }
    requires new { (2 ≤ new) × (new ≤ 40) }
    ensures { MatchOption result (HaveNoRoot old new) (IsLeastRoot old new) }
{
    for root in 2..old + 1 {
        if let Some(common) = related_by(old, new, root) {
            return Some(common);
        }
    }
    None
}

// Both bases as powers of the root, if they are such.
fn related_by(old: u32, new: u32, root: u32) -> Option<CommonRoot>
    requires root { (2 ≤ root) × (root ≤ 40) }
    requires old { old ≤ 40 }
    requires new { new ≤ 40 }
    ensures { MatchOption result ((b a : ℕ) → old ≡ root ^ b → new ≡ root ^ a → ⊥) (λ common. (common.root ≡ root) × (old ≡ root ^ common.old_power) × (new ≡ root ^ common.new_power)) }
{
    let old_power = exponent_of(old, root)?;
    let new_power = exponent_of(new, root)?;
    Some(CommonRoot {
        root,
        old_power,
        new_power,
    })
}

// The exponent of the root that gives the number, if there is one.
fn exponent_of(number: u32, root: u32) -> Option<u32>
    requires root { (2 ≤ root) × (root ≤ 40) }
    requires number { number ≤ 40 }
    ensures { MatchOption result ((exponent : ℕ) → number ≢ root ^ exponent) (λ exponent. number ≡ root ^ exponent) }
{
    let mut power = 1;
    let mut exponent = 0;
    while power < number {
        power *= root;
        exponent += 1;
    }
    if power == number {
        Some(exponent)
    } else {
        None
    }
}
