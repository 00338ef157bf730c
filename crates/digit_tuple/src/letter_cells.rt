//! How many digits a row takes as decisions by tracks.

ghost use Rattle.std.specs.Prelude.{◌≡◌, ℕ, ◌+◌, ◌-◌, ◌*◌, ◌<◌, ◌≤◌, ◌^◌, length, map, take, drop};
ghost use Rattle.std.specs.List.{All, AllPairs};
ghost use Rattle.digit_tuple.specs.CellCounts.{cells_of};
ghost use Rattle.digit_tuple.specs.Letters.{product};
ghost use Rattle.digit_tuple.specs.Reversed.{transition_to};

/// How many digits a row by ascending letters takes as decisions by tracks of these sizes, which have so many
/// letters: on each track one for each run of letters that begin alike. The base is taken from each letter. To
/// count them takes no memory.
pub(crate) fn letter_cells(sizes: &[u32], count: u32, base: u32, letters: &[u16]) -> u64
    requires count { product sizes.now ≡ count }
    requires some { 0 < count }
    requires in_range { All (λ letter. (base ≤ letter) × (letter < base + count)) letters.now }
    requires ascending { AllPairs (λ l m. l < m) letters.now }
    requires narrow { base + count ≤ 2 ^ 16 }
    requires fits { length sizes.now * length letters.now < 2 ^ 64 }
    ensures { result ≡ cells_of sizes.now (map (λ letter. transition_to (letter - base) 0) letters.now) }
{
    match sizes {
        [] => 0,
        [_] => letters.len() as u64,
        [size, later @ ..] => {
            let weight = count / *size;
            let mut cells = 0;
            let mut start = 0;
            while start < letters.len() {
                let rest = &letters[start..];
                let low = base + (u32::from(rest[0]) - base) / weight * weight;
                let run = letters_below(rest, low + weight);
                cells += 1 + letter_cells(later, weight, low, &rest[..run]);
                start += run;
            }
            cells
        }
    }
}

// How many of the first letters are below the bound.
fn letters_below(letters: &[u16], bound: u32) -> usize
    requires { AllPairs (λ l m. l < m) letters.now }
    ensures within { result ≤ length letters.now }
    ensures below { All (λ letter. letter < bound) (take result letters.now) }
    ensures later { All (λ letter. bound ≤ letter) (drop result letters.now) }
{
    for place in 0..letters.len() {
        if u32::from(letters[place]) >= bound {
            return place;
        }
    }
    letters.len()
}
