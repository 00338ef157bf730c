//! The parts of letters on some of their tracks, and the letters of a part, found when they are asked for.
#![tactic(auto)]

/// Digits of letters that follow one another in their parts too.
pub mod run;

/// The runs of some of the tracks.
mod run_list;

/// The digits that letters with a part have on a track.
pub mod span;

/// The digits that letters with a part have on each track.
mod span_list;

/// Letters whose digits are in spans.
mod letters_in;

/// The parts of letters, and the letters of each part.
pub mod track_parts;
