// read_bits of detector.rs: the 33 rows of 30 cells of a symbol that fills the image. Bit c of a row's word is its column c. Nothing is marked here.
#![tactic(auto)]

ghost use Rattle.std.specs.Prelude.{◌≡◌, ◌<◌, length};
ghost use Rattle.bit_matrix.specs.ShapeClauses.{Inside};
ghost use Rattle.detector_points.specs.Orientation.{matrix_height};
ghost use Rattle.bit_matrix_rectangle.specs.Rectangle.{black_at};
ghost use Rattle.bit_matrix_rectangle.specs.RectangleClauses.{ImageAccepted, Within};
ghost use Rattle.detector_cells.specs.Cells.{cell_word, cells_of, cells_run, read_answer, read_bits};

use bit_matrix::Unmarked;
use bit_matrix_rectangle::Rectangle;
use detector_points::{MATRIX_HEIGHT, MATRIX_WIDTH};

// `get` of bit_matrix.rs without a mark: the pixel at column x of row y, which lies inside.
// Apart from that `get`: it marks what it reads, and the entries of cells are lent no marks.
fn get(image: &Unmarked, x: u32, y: u32) -> bool
    requires { Inside image.now.shape x y }
    ensures { result ≡ black_at image.now.shape image.now.words.now x y }
{
    let offset = bit_matrix::get_offset(image.shape, y, x);
    image.words[offset] >> (x % 64) & 1 != 0
}

// The cells of row y, all of one pixel row. Odd rows lie half a cell further right.
fn read_row(image: &Unmarked, rectangle: Rectangle, y: u32) -> u32
    requires { Within image.now.shape.width image.now.shape.height rectangle × (y < matrix_height) }
    ensures { result ≡ cell_word (black_at image.now.shape image.now.words.now) rectangle y }
{
    let width = rectangle.width;
    let height = rectangle.height;
    let iy = (rectangle.top + (y * height + height / 2) / MATRIX_HEIGHT).min(height - 1);
    let half = y % 2 * width / 2;
    let mut cells = 0u32;
    for x in 0..MATRIX_WIDTH {
        let ix = rectangle.left + ((x * width + width / 2 + half) / MATRIX_WIDTH).min(width - 1);
        cells |= u32::from(get(image, ix, iy)) << x;
    }
    cells
}

// The cells of every row.
fn read_rows(image: &Unmarked, rectangle: Rectangle, cells: &mut [u32])
    requires { Within image.now.shape.width image.now.shape.height rectangle × (length cells.old ≡ matrix_height) }
    ensures { cells.new ≡ cells_of (black_at image.now.shape image.now.words.now) rectangle }
{
    for (y, row) in cells.iter_mut().enumerate() {
        *row = read_row(image, rectangle, y as u32);
    }
}

// No pixel of an image is black. The C entries answer 10.
#[derive(Clone, Copy, Debug, PartialEq, Eq)]
pub struct Blank;

// The cells of an image. Where no pixel is black they stay as they were.
pub fn read_bits(image: &Unmarked, cells: &mut [u32]) -> Result<(), Blank>
    requires { ImageAccepted image.now.shape image.now.words.now × (length cells.old ≡ matrix_height) }
    ensures { cells_run (read_answer result) cells.new ≡ read_bits image.now.shape image.now.words.now cells.old }
{
    let rectangle = bit_matrix_rectangle::get_enclosing_rectangle(image).ok_or(Blank)?;
    read_rows(image, rectangle, cells);
    Ok(())
}
