// `find_next_bullseye_horizontal` of detector.rs. White is skipped by whole words, and what was read is marked by whole words, once.
#![tactic(auto)]

ghost use Rattle.std.specs.Prelude.{◌≡◌, ◌+◌, ◌-◌, ◌*◌, max};
ghost use Rattle.bit_runs.specs.BitRuns.{row_bit, FirstBlack};
ghost use Rattle.detector_first_window.specs.FirstWindowClauses.{read_to};
ghost use Rattle.detector_rows.specs.RowsClauses.{next_bullseye};
ghost use Rattle.bit_matrix.specs.ImageClauses.{RanOn};

use bit_matrix::{BitMatrix, Unmarked};
use detector_window::Bullseye;

// The first black column from `start` on, or the last that is looked at, the limit.
fn skip_white(image: &Unmarked, row: u32, start: u32, limit: u32) -> u32
    ensures { FirstBlack (row_bit image.now.words.now (row * image.now.shape.row_words)) start (max start limit) result }
{
    let first = detector_first_window::first_word(image.shape, row);
    bit_runs::first_black(
        image.words,
        first,
        start as usize,
        start.max(limit) as usize,
    ) as u32
}

// The column after the last that a sweep read: it read the one that closed the window.
fn read_to(found: Option<Bullseye>, limit: u32) -> usize
    ensures { result ≡ read_to limit found }
{
    match found {
        Some(eye) => eye.center as usize + eye.radius as usize + 1,
        None => limit as usize,
    }
}

// The first window of a row from a column on.
pub fn find_next_bullseye_horizontal(
    image: &mut BitMatrix,
    row: u32,
    start_column: u32,
) -> Option<Bullseye>
    ensures { RanOn (next_bullseye image.old.shape row start_column) image.old result image.new }
{
    let limit = image.shape.width - 6;
    let unmarked = image.unmarked();
    let from = skip_white(&unmarked, row, start_column, limit);
    let found = detector_first_window::sweep(&unmarked, row, from, limit);
    let to = (from as usize + 1).max(read_to(found, limit));
    bit_runs::mark_range(
        image.marks,
        detector_first_window::first_word(image.shape, row),
        start_column as usize,
        to,
    );
    found
}
