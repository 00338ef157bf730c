//! Tables of deterministic automata, whatever form they are kept in.

ghost use Rattle.std.specs.Prelude.{◌≡◌, ℕ, ◌<◌, Bool, Option, IfSome};
ghost use Rattle.digit_tuple.specs.Tables.{run_accepts};

/// A table: from each state each letter leads to one state or nowhere, and a state accepts or not. A table means the
/// words that lead from state 0 to a state that accepts, as `accepts_by` decides.
pub trait Table {
    /// How many letters there are.
    ghost letter_count: { Self → ℕ };

    /// How many states there are.
    ghost state_count: { Self → ℕ };

    /// Where a letter leads from a state, unless it leads nowhere.
    ghost target: { Self → ℕ → ℕ → Option ℕ };

    /// Whether a state accepts.
    ghost accepts: { Self → ℕ → Bool };

    /// How many letters there are.
    fn letters(&self) -> u32
        ensures { result ≡ letter_count self.now };

    /// How many states there are. There is a state.
    fn states(&self) -> u32
        ensures value { result ≡ state_count self.now }
        ensures initial { 0 < state_count self.now };

    /// Where a letter leads from a state, unless it leads nowhere. It leads to a state.
    fn step(&self, q: u32, letter: u32) -> Option<u32>
        requires { q < state_count self.now }
        ensures target { result ≡ target self.now q letter }
        ensures in_range { IfSome result (λ next. next < state_count self.now) };

    /// Whether a state accepts.
    fn accepting(&self, q: u32) -> bool
        requires { q < state_count self.now }
        ensures { result ≡ accepts self.now q };
}

/// Whether the word leads from state 0 to a state that accepts. It takes no memory.
pub fn accepts_by<T: Table>(table: &T, word: &[u32]) -> bool
    ensures { result ≡ run_accepts (T.target table.now) (T.accepts table.now) 0 word.now }
{
    // That there is a state 0.
    let _states = table.states();
    let mut state = 0;
    for letter in word {
        match table.step(state, *letter) {
            Some(next) => state = next,
            None => return false,
        }
    }
    table.accepting(state)
}
