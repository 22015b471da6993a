// try_get_area of bit_matrix.rs: the pixels about a pixel, one by one, or by the words that hold them.
#![tactic(auto)]

ghost use Rattle.std.specs.Prelude.{◌≡◌, ◌+◌, ◌-◌, ◌^◌, ◌≤◌, ◌<◌};
ghost use Rattle.bit_matrix.specs.ImageClauses.{RanOn};
ghost use Rattle.bit_matrix_area.specs.Area.{column, box, count_black, try_get_area};

use bit_matrix::BitMatrix;

// `black`, and one more for each black pixel of column x from row `from` up to, not including, row `to`. The first that lies outside ends it.
fn count_column(image: &mut BitMatrix, x: u32, from: u32, to: u32, black: u32) -> Option<u32>
    requires { black + (to - from) < 2 ^ 32 }
    ensures { RanOn (count_black image.old.shape (column x from to) black) image.old result image.new }
{
    let mut count = black;
    for y in from..to {
        count += image.try_get(x, y)? as u32;
    }
    Some(count)
}

// The black pixels of a box of at most 3 by 3, column after column.
fn count_box(image: &mut BitMatrix, left: u32, right: u32, from: u32, to: u32) -> Option<u32>
    requires { (right ≤ left + 3) × (to ≤ from + 3) }
    ensures { RanOn (count_black image.old.shape (box left right from to) 0) image.old result image.new }
{
    let mut black = 0;
    for x in left..right {
        black = count_column(image, x, from, to, black)?;
    }
    Some(black)
}

// The area of `try_get_area`, pixel by pixel.
fn area_by_pixels(image: &mut BitMatrix, x: u32, y: u32) -> Option<bool>
    requires { (x ≤ 2048) × (y ≤ 2048) }
    ensures { RanOn (try_get_area image.old.shape x y) image.old result image.new }
{
    let left = x.saturating_sub(1);
    let from = y.saturating_sub(1);
    let black = count_box(image, left, x + 2, from, y + 2)?;
    Some(2 * black >= (x + 2 - left) * (y + 2 - from))
}

// The pixels about (x, y), cut at 0, with box size 3: black when at least half of them are. Past the width or height the first of them is outside already.
pub fn try_get_area(image: &mut BitMatrix, x: u32, y: u32) -> Option<bool>
    ensures { RanOn (try_get_area image.old.shape x y) image.old result image.new }
{
    if bit_matrix_nine::in_words(image.shape, x, y) {
        return Some(bit_matrix_nine::half_of_nine(image, x - 1, y - 1));
    }
    if x > image.shape.width || y > image.shape.height {
        return None;
    }
    area_by_pixels(image, x, y)
}
