//! Rows that are decided by whole letters, and the same rows by tracks.

ghost use Rattle.std.specs.Prelude.{◌≡◌, ◌<◌, ◌↔◌, length, IfOk, IsTrue};
ghost use Rattle.digit_tuple.specs.Decisions.{rows_in, sizes_in};
ghost use Rattle.digit_tuple.specs.Letters.{product};
ghost use Rattle.digit_tuple.specs.SparseRows.{AreOver};

use crate::alphabet::Alphabet;
use crate::decisions::Decisions;
use crate::faults::OutOfMemory;
use std::alloc::Global;

/// Whether rows by letters of several tracks are decided on one track, that of the whole letter.
pub(crate) fn is_whole(tracks: &Alphabet, rows: &Decisions) -> bool
    requires { AreOver tracks.now rows.now }
    ensures { IsTrue result ↔ ((1 < length tracks.now) × (0 < product tracks.now) × (length (sizes_in rows.now) ≡ 1)) }
{
    tracks.tracks() > 1 && tracks.letters() > 0 && rows.only_digits().is_some()
}

/// The same rows, each decided by all tracks.
pub(crate) fn by_tracks(
    alloc: Global,
    tracks: &Alphabet,
    rows: &Decisions,
) -> Result<Decisions, OutOfMemory>
    requires over { AreOver tracks.now rows.now }
    requires some { 0 < length tracks.now }
    requires letters { 0 < product tracks.now }
    ensures over { IfOk result (AreOver tracks.now) }
    ensures rows { IfOk result (λ parted. rows_in parted ≡ rows_in rows.now) }
{
    let mut parted = Decisions::bare(alloc, tracks.sizes(), tracks.letters())?;
    let mut row = Vec::new(alloc);
    for place in 0..rows.len() {
        row.clear();
        rows.row_into(place, 0, &mut row)?;
        parted.add_row(0, &row)?;
    }
    Ok(parted)
}
