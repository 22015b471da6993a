// The sizes of an image, in words and in a file, and why a size or more of an image is refused.
#![tactic(auto)]

ghost use Rattle.std.specs.Prelude.{false, ◌≡◌};
ghost use Rattle.bit_matrix.specs.Shape.{row_words, shape_of, size};
ghost use Rattle.crop_sizes.specs.Sizes.{file_length, outside, image_refusal};
ghost use Rattle.crop_sizes.specs.Refusals.{number_of, answer_of};

use bit_matrix::Shape;

// Why an image, in words or in a file, is refused, by the numbers that the C entries answer.
#[derive(Clone, Copy, Debug, PartialEq, Eq)]
pub enum Refusal {
    // Under four bytes, another kind of file, or last header bits that are not 0.
    Header = 1,
    // A side outside the least one to 2,048.
    Side = 2,
    // More than 8,000 words.
    Words = 3,
    // Another length than the one needed.
    Length = 4,
    // A padding bit that is 1.
    Padding = 5,
    // What is lent does not fit.
    Lent = 6,
}

impl From<Refusal> for u32 {
    ghost from_gives = { λ refusal number. number ≡ number_of refusal };

    fn from(refusal: Refusal) -> u32 {
        refusal as u32
    }
}

// The least side of an image.
pub const LEAST: u32 = 33;

// The shape of an image with these dimensions.
pub fn shape_of(width: u32, height: u32) -> Shape
    ensures { result ≡ shape_of width height }
{
    Shape {
        row_words: (width as usize + 63) / 64,
        width,
        height,
    }
}

// The words of an image.
// The fact about its rows is asked here, and is no ghost field of `Shape`: `file_length` takes a shape without it.
pub fn image_words(shape: Shape) -> usize
    requires { shape.row_words ≡ row_words shape.width }
    ensures { result ≡ size shape }
{
    shape.row_words * (shape.height as usize)
}

// The bytes of a file with an image of this shape.
pub fn file_length(shape: Shape) -> usize
    ensures { result ≡ file_length shape.width shape.height }
{
    4 + (shape.width as usize + 7) / 8 * (shape.height as usize)
}

// Whether a side lies outside the least one to 2,048.
fn is_outside(least: u32, side: u32) -> bool
    ensures { result ≡ outside least side }
{
    side < least || 2048 < side
}

// Refuses a shape, or a length given that is not the one needed.
pub fn size_refusal(shape: Shape, least: u32, given: usize, needed: usize) -> Result<(), Refusal>
    requires { shape.row_words ≡ row_words shape.width }
    ensures { answer_of result ≡ image_refusal least shape given needed false false }
{
    if is_outside(least, shape.width) || is_outside(least, shape.height) {
        return Err(Refusal::Side);
    }
    if 8000 < image_words(shape) {
        return Err(Refusal::Words);
    }
    if given != needed {
        return Err(Refusal::Length);
    }
    Ok(())
}
