// The steps of the sweep, and a row's pixels one by one.
ghost use Rattle.std.specs.Prelude.{◌≡◌};
ghost use Rattle.reads.specs.RunsClauses.{Ran};
ghost use Rattle.bit_matrix.specs.ShapeClauses.{Image};
ghost use Rattle.bit_matrix.specs.ImageClauses.{RanOn};
ghost use Rattle.detector_candidates.specs.Candidates.{concentric_circles};
ghost use Rattle.detector_candidates.specs.CandidatesClauses.{Room, Listed};
ghost use Rattle.step_exports.specs.Row.{black_from};
ghost use Rattle.step_exports.specs.Steps.{Guarded, refused_answer, number_in, shape_in};

use crate::guards::{REFUSED, is_image};
use bit_matrix::BitMatrix;

// How many of a row's first columns are black.
fn count_row(image: &mut BitMatrix, row: u32, columns: u32) -> u32
    ensures { RanOn (black_from image.old.shape row columns 0 0) image.old result image.new }
{
    let mut count = 0u32;
    for x in 0..columns {
        count += u32::from(image.get(x, row));
    }
    count
}

// A row's pixels read one by one. The numbers: width, height, row, columns.
#[unsafe(no_mangle)]
pub extern "C" fn step_count_row(words: &[u64], marks: &mut [u64], numbers: &[u32; 4]) -> u32
    ensures { Guarded
        (Image (shape_in numbers.now) words.now marks.old)
        (Ran (black_from (shape_in numbers.now) (number_in numbers.now 2) (number_in numbers.now 3) 0 0)
        words.now marks.old result marks.new)
        ((result ≡ refused_answer) × (marks.new ≡ marks.old)) }
{
    let [width, height, row, columns] = *numbers;
    let shape = crop_sizes::shape_of(width, height);
    if !is_image(words, marks, shape) {
        return REFUSED;
    }
    let mut image = BitMatrix {
        words,
        marks,
        shape,
    };
    count_row(&mut image, row, columns)
}

// The candidates of an image. The numbers: width, height, capacity.
#[unsafe(no_mangle)]
pub extern "C" fn step_find_concentric_circles(
    words: &[u64],
    marks: &mut [u64],
    records: &mut [u32],
    numbers: &[u32; 3],
) -> usize
    ensures { Guarded
        (Image (shape_in numbers.now) words.now marks.old × Room (number_in numbers.now 2) records.old 0)
        (Listed (concentric_circles (shape_in numbers.now) (number_in numbers.now 2)) (number_in numbers.now 2)
        words.now marks.old records.old result marks.new records.new)
        ((result ≡ refused_answer) × (marks.new ≡ marks.old) × (records.new ≡ records.old)) }
{
    let [width, height, capacity] = *numbers;
    let shape = crop_sizes::shape_of(width, height);
    if !is_image(words, marks, shape) {
        return REFUSED as usize;
    }
    if capacity > records::capacity_of(records.len()) as u32 {
        return REFUSED as usize;
    }
    let mut image = BitMatrix {
        words,
        marks,
        shape,
    };
    detector_candidates::find_concentric_circles(&mut image, records, capacity as usize)
}
