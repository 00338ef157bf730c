//! The runs of some of the tracks.

ghost use Rattle.std.specs.Prelude.{◌≡◌, ◌+◌, ◌<◌, ◌^◌, ℕ, length, drop, IfOk, OnOk};
ghost use Rattle.std.specs.List.{All};
ghost use Rattle.digit_tuple.specs.Letters.{product};
ghost use Rattle.digit_tuple.specs.Parts.{picked};
ghost use Rattle.track_parts.specs.Runs.{AreRuns, IsPositive, run_part, sum_of_runs};

use crate::run::Run;
use digit_tuple::alphabet::Alphabet;
use digit_tuple::faults::OutOfMemory;
use std::alloc::Global;

/// The runs of the tracks at these places, counted from 0, whose alphabet is `own`.
pub fn runs_at(
    alloc: Global,
    alphabet: &Alphabet,
    places: &[u32],
    own: &Alphabet,
) -> Result<Vec<Run>, OutOfMemory>
    requires places { All (λ place. place < length alphabet.now) places.now }
    requires own { own.now ≡ picked places.now alphabet.now }
    ensures { IfOk result (λ runs. AreRuns alphabet.now places.now runs.items) }
{
    let mut runs = Vec::new(alloc);
    if alphabet.letters() == 0 {
        return Ok(runs);
    }
    let mut factor = own.letters();
    for place in places {
        let size = alphabet.size(*place);
        factor /= size;
        let divisor = weight(alphabet, *place);
        add_run(
            &mut runs,
            Run {
                divisor,
                size,
                factor,
            },
        )?;
    }
    Ok(runs)
}

/// How many letters the tracks after a place have.
fn weight(alphabet: &Alphabet, place: u32) -> u32
    requires place { place < length alphabet.now }
    requires some { 0 < product alphabet.now }
    ensures { result ≡ product (drop (place + 1) alphabet.now) }
{
    let mut weight = alphabet.letters();
    for track in 0..place + 1 {
        weight /= alphabet.size(track);
    }
    weight
}

// Adds a run, as one with the last where they follow one another.
fn add_run(runs: &mut Vec<Run>, run: Run) -> Result<(), OutOfMemory>
    requires positive { IsPositive run }
    requires before { All IsPositive runs.old.items }
    ensures sum { OnOk result ((letter : ℕ) → sum_of_runs runs.new.items letter ≡ sum_of_runs runs.old.items letter + run_part letter run) }
    ensures positive { OnOk result (All IsPositive runs.new.items) }
{
    if let Some(last) = runs.pop() {
        if let Some(both) = last.joined(run) {
            runs.push(both)?;
            return Ok(());
        }
        runs.push(last)?;
    }
    runs.push(run)?;
    Ok(())
}

/// The part of a letter by its runs.
pub fn part_by(runs: &[Run], letter: u32) -> u32
    requires positive { All IsPositive runs.now }
    requires small { sum_of_runs runs.now letter < 2 ^ 32 }
    ensures { result ≡ sum_of_runs runs.now letter }
{
    let mut part = 0;
    for run in runs {
        part += run.part(letter);
    }
    part
}
