// The vertical check of detector.rs: the runs of a column up and down from a row, and whether they are as wide as a bull's-eye's.
#![tactic(auto)]

ghost use Rattle.std.specs.Prelude.{◌≡◌, ◌+◌, ◌^◌, ◌≤◌, ◌<◌, get_or};
ghost use Rattle.detector_columns.specs.Columns.{pointer_after, row_after, column_vector, potential_bullseye_array};
ghost use Rattle.detector_columns.specs.ColumnsClauses.{try_column, verify_bullseye_vertical};
ghost use Rattle.bit_matrix.specs.ImageClauses.{RanOn};

use bit_matrix::BitMatrix;

// The way of a walk along a column: up to higher rows, or down.
#[derive(Clone, Copy)]
pub enum Direction {
    Up,
    Down,
}

impl Direction {
    // The row looked at after this one.
    fn next(self, row: u32) -> u32
        requires { (0 < row) × (row + 1 < 2 ^ 32) }
        ensures { result ≡ row_after row self }
    {
        match self {
            Direction::Up => row + 1,
            Direction::Down => row - 1,
        }
    }
}

// The run that a pixel belongs to: the present one, or the next where the colour changes.
fn next_pointer(pointer: usize, local_bit: bool, last_color: bool) -> usize
    requires { pointer ≤ 5 }
    ensures { result ≡ pointer_after pointer local_bit last_color }
{
    if local_bit == last_color {
        pointer
    } else {
        pointer + 1
    }
}

// Six runs of one colour each, white first, along a column from a row on. Row 0 is never looked at.
pub fn get_column_vector(
    image: &mut BitMatrix,
    column: u32,
    start_row: u32,
    direction: Direction,
) -> [u32; 6]
    ensures { RanOn (column_vector image.old.shape column start_row direction) image.old result image.new }
{
    let mut buckets = [0; 6];
    let mut row = start_row;
    let mut last_color = false;
    let mut pointer = 0;
    // A while: a count of the rows, beside the row, is one number more in the loop, and slower.
    while row > 0 && row < image.shape.height {
        let local_bit = image.get(column, row);
        pointer = next_pointer(pointer, local_bit, last_color);
        if pointer > 5 {
            break;
        }
        buckets[pointer] += 1;
        last_color = local_bit;
        row = direction.next(row);
    }
    buckets
}

// The runs of the first vector backwards and then those of the second, whose first runs are one.
pub fn build_potential_bullsey_array(vector_1: &[u32; 6], vector_2: &[u32; 6]) -> [u32; 11]
    requires { get_or vector_1.now 0 0 + get_or vector_2.now 0 0 < 2 ^ 32 }
    ensures { result ≡ potential_bullseye_array vector_1.now vector_2.now }
{
    let [a0, a1, a2, a3, a4, a5] = *vector_1;
    let [b0, b1, b2, b3, b4, b5] = *vector_2;
    [a5, a4, a3, a2, a1, a0 + b0, b1, b2, b3, b4, b5]
}

// The check of one column: its eleven runs, Ok if they pass.
fn try_column(image: &mut BitMatrix, row: u32, column: u32) -> Result<[u32; 11], [u32; 11]>
    ensures { RanOn (try_column image.old.shape row column) image.old result image.new }
{
    let up_vector = get_column_vector(image, column, row, Direction::Up);
    let down_vector = get_column_vector(image, column, row, Direction::Down);
    let potential_bullseye = build_potential_bullsey_array(&down_vector, &up_vector);
    if detector_widths::validate_bullseye_widths(&potential_bullseye) {
        Ok(potential_bullseye)
    } else {
        Err(potential_bullseye)
    }
}

// A column is tried, then the next, then the one before, until one passes: its eleven runs, or, if none passes, those of the last one tried.
pub fn verify_bullseye_vertical(
    image: &mut BitMatrix,
    row: u32,
    column: u32,
) -> Result<[u32; 11], [u32; 11]>
    requires { (0 < column) × (column + 1 < 2 ^ 32) }
    ensures { RanOn (verify_bullseye_vertical image.old.shape row column) image.old result image.new }
{
    let mut last = [0; 11];
    for column in [column, column + 1, column - 1] {
        match try_column(image, row, column) {
            Ok(buckets) => return Ok(buckets),
            Err(buckets) => last = buckets,
        }
    }
    Err(last)
}
