// The padding of an image's rows, in a file and in words.
#![tactic(auto)]

ghost use Rattle.std.specs.Prelude.{◌≡◌, ◌<◌, length};
ghost use Rattle.bit_matrix.specs.ShapeClauses.{Limits};
ghost use Rattle.crop_sizes.specs.Sizes.{file_length};
ghost use Rattle.crop_padding.specs.Padding.{file_padded, words_row, words_padded};

use bit_matrix::{Shape, Unmarked};

// A crop file as long as an image of its shape needs.
#[derive(Clone, Copy)]
pub struct CropFile<'a> {
    pub bytes: &'a [u8],
    pub shape: Shape,
    pub ghost limits: { Limits shape },
    pub ghost sized: { length bytes.now ≡ file_length shape.width shape.height },
}

// Whether a padding bit of a file's rows is 1: those are the lowest of a row's last byte.
// The place of that byte goes along with the rows: `any` of a test of row y takes up to two thirds more time.
pub fn file_padded(file: &CropFile) -> bool
    ensures { result ≡ file_padded file.now.bytes.now file.now.shape.width file.now.shape.height }
{
    let width = file.shape.width as usize;
    let row = (width + 7) / 8;
    let unit = 1u8 << (row * 8 - width);
    let mut last = 3 + row;
    for _y in 0..file.shape.height {
        if file.bytes[last] % unit != 0 {
            return true;
        }
        last += row;
    }
    false
}

// Whether a padding bit of row y of an image is 1: those are the highest of the row's last word. Apart from a file's: a shift of a word, and there the
// remainder of a byte.
fn is_words_row_padded(image: &Unmarked, y: usize) -> bool
    requires { y < image.now.shape.height }
    ensures { result ≡ words_row image.now.words.now image.now.shape.width y }
{
    let width = image.shape.width as usize;
    let row = image.shape.row_words;
    let used = width - (row - 1) * 64;
    image.words[y * row + (row - 1)] >> (used - 1) >> 1 != 0
}

// Whether a padding bit of an image's rows is 1.
pub fn words_padded(image: &Unmarked) -> bool
    ensures { result ≡ words_padded image.now.words.now image.now.shape.width image.now.shape.height }
{
    (0..image.shape.height as usize).any(|y| is_words_row_padded(image, y))
}
