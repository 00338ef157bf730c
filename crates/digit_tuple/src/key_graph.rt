//! Graphs of keys, which an exploration walks.

ghost use Rattle.std.specs.Prelude.{◌≡◌, ℕ, ◌<◌, Bool, List, [], Option, IfOk, OnOk, MatchOption, ⊤};
ghost use Rattle.digit_tuple.specs.Keys.{AreKeyTransitions};

use crate::faults::OutOfMemory;
use crate::key_transitions::KeyTransitions;
use std::alloc::Global;

/// Keys that letters lead to, each a list of numbers.
pub trait KeyGraph {
    /// How many letters there are.
    ghost letters: { Self → ℕ };

    /// Which graphs may be explored.
    ghost is_graph: { Self → Type 0 };

    /// Which keys may come.
    ghost is_key: { Self → List ℕ → Type 0 };

    /// The key that the empty word leads to.
    ghost start: { Self → List ℕ };

    /// Where a letter leads from a key, unless it leads to no key.
    ghost after: { Self → List ℕ → ℕ → Option (List ℕ) };

    /// Whether a key accepts.
    ghost accepts: { Self → List ℕ → Bool };

    /// The key that the empty word leads to.
    fn first_key(&self, alloc: Global) -> Result<Vec<u32>, OutOfMemory>
        requires { is_graph self.now }
        ensures { IfOk result (λ key. key.items ≡ start self.now) };

    /// Writes the transitions from a key, by letter. A letter that leads to no key has none.
    fn transitions(
        &self,
        alloc: Global,
        key: &[u32],
        out: &mut KeyTransitions,
    ) -> Result<(), OutOfMemory>
        requires graph { is_graph self.now }
        requires key { is_key self.now key.now }
        requires empty { out.old ≡ [] }
        ensures { OnOk result (AreKeyTransitions (letters self.now) (after self.now key.now) out.new) };

    /// Whether a key accepts.
    fn is_accepting(&self, key: &[u32]) -> bool
        requires graph { is_graph self.now }
        requires key { is_key self.now key.now }
        ensures { result ≡ accepts self.now key.now };

    ghost start_is_key: { (s : Self) → is_graph s → is_key s (start s) };

    ghost after_is_key: { (s : Self) (key : List ℕ) (letter : ℕ) → is_graph s → is_key s key → letter < letters s → MatchOption (after s key letter) ⊤ (is_key s) };
}
