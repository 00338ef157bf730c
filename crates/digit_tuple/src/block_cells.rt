//! How many digits rows take as decisions by tracks, in whichever way they are kept.

ghost use Rattle.std.specs.Prelude.{◌≡◌, ◌*◌, ◌<◌, ◌^◌, length, sum_by};
ghost use Rattle.digit_tuple.specs.CellCounts.{cells_of};
ghost use Rattle.digit_tuple.specs.Decisions.{rows_in, sizes_in};
ghost use Rattle.digit_tuple.specs.Letters.{product};
ghost use Rattle.digit_tuple.specs.SparseRows.{AreOver};

use crate::alphabet::Alphabet;
use crate::by_tracks::is_whole;
use crate::decisions::Decisions;
use crate::letter_cells::letter_cells;

/// How many digits the rows take as decisions by all tracks.
pub(crate) fn block_cells(tracks: &Alphabet, rows: &Decisions) -> u64
    requires over { AreOver tracks.now rows.now }
    requires some { 0 < length tracks.now }
    requires few { length tracks.now * sum_by length (rows_in rows.now) < 2 ^ 64 }
    ensures { result ≡ sum_by (cells_of tracks.now) (rows_in rows.now) }
{
    if is_whole(tracks, rows) {
        whole_cells(tracks, rows)
    } else {
        rows.cells()
    }
}

// How many digits rows that are decided by whole letters take by all tracks.
fn whole_cells(tracks: &Alphabet, rows: &Decisions) -> u64
    requires over { AreOver tracks.now rows.now }
    requires letters { 0 < product tracks.now }
    requires whole { length (sizes_in rows.now) ≡ 1 }
    requires few { length tracks.now * sum_by length (rows_in rows.now) < 2 ^ 64 }
    ensures { result ≡ sum_by (cells_of tracks.now) (rows_in rows.now) }
{
    let mut cells = 0;
    if let Some(letters) = rows.only_digits() {
        for place in 0..letters.len() {
            cells += letter_cells(tracks.sizes(), tracks.letters(), 0, letters.list(place));
        }
    }
    cells
}
