// The first window of a row, for `find_next_bullseye_horizontal` of detector.rs, run by run: where the colour changes is found by whole words.
#![tactic(auto)]

ghost use Rattle.std.specs.Prelude.{◌≡◌, ◌+◌, ◌-◌, ◌*◌, ◌%◌, ◌^◌, ◌≤◌, ◌<◌, min};
ghost use Rattle.bit_matrix.specs.ShapeClauses.{Limits};
ghost use Rattle.detector_first_window.specs.FirstWindowClauses.{Swept};

use bit_matrix::{Shape, Unmarked};
use detector_window::{Bullseye, Ring};

// The first word of a row. A row's words after it fit too.
pub fn first_word(shape: Shape, row: u32) -> usize
    requires { Limits shape }
    ensures { (result ≡ row * shape.row_words) × (result + 2 ^ 26 < 2 ^ 64) }
{
    (row as usize) * shape.row_words
}

// The column after the last of a column's word, or the limit.
fn word_end(column: u32, limit: u32) -> u32
    requires { column + 64 < 2 ^ 32 }
    ensures { result ≡ min (column - column % 64 + 64) limit }
{
    (column - column % 64 + 64).min(limit)
}

// The first window from column `from` on, past the white. Nothing is marked. `changes` has the changes of colour from `column` to before `stop`.
pub fn sweep(image: &Unmarked, row: u32, from: u32, limit: u32) -> Option<Bullseye>
    requires { limit ≤ image.now.shape.width }
    ensures { Swept image.now.words.now image.now.shape row from limit result }
{
    if limit <= from {
        return None;
    }
    let first = first_word(image.shape, row);
    let mut ring = Ring::new(from);
    let mut column = from;
    let mut stop = word_end(from, limit);
    let mut changes = bit_runs::changes(image.words, first, from as usize, true);
    loop {
        let n = changes.trailing_zeros();
        let end = column + n;
        if end < stop {
            if let Some(buckets) = ring.closed_by(end) {
                return Some(detector_window::get_bullseye_metadata(buckets, end));
            }
            ring.push(end);
            changes = changes >> n >> 1;
            column = end + 1;
        } else {
            if limit <= stop {
                return None;
            }
            let black = ring.is_black();
            changes = bit_runs::changes(image.words, first, stop as usize, black);
            column = stop;
            stop = word_end(stop, limit);
        }
    }
}
