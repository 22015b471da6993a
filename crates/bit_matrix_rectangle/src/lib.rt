// getEnclosingRectangle of bit_matrix.rs: the enclosing rectangle of an image's black pixels, by whole words. Its definition, `enclosing_rectangle`, goes
// by pixels.
#![tactic(auto)]

ghost use Rattle.std.specs.Prelude.{ℕ, MatchOption, ◌≡◌, ◌<◌, ◌^◌, length, get_or};
ghost use Rattle.bit_matrix_rectangle.specs.Rectangle.{black_at, least_below, greatest_below, black_column, enclosing_rectangle};
ghost use Rattle.bit_matrix_rectangle.specs.RectangleClauses.{ImageAccepted, is_set, Rows, ColumnWord};

use bit_matrix::{Shape, Unmarked};

// A rectangle of pixels: its first column and row, and how many of each.
#[derive(Clone, Copy)]
pub struct Rectangle {
    pub left: u32,
    pub top: u32,
    pub width: u32,
    pub height: u32,
}

// The first word that is not 0. Of a slice that is an argument the check knows that each word has 64 bits; of one in a struct it does not, so `fits` tells
// the caller.
fn first_set(words: &[u64]) -> Option<usize>
    ensures first { MatchOption result (least_below (is_set words.now) (length words.now) ≡ length words.now)
        (λ i. (i ≡ least_below (is_set words.now) (length words.now)) × (i < length words.now)) }
    ensures fits { (i : ℕ) → get_or words.now i 0 < 2 ^ 64 }
{
    words.iter().position(|word| *word != 0)
}

// The last word that is not 0.
fn last_set(words: &[u64]) -> Option<usize>
    ensures { MatchOption result (least_below (is_set words.now) (length words.now) ≡ length words.now)
        (λ i. i ≡ greatest_below (is_set words.now) (length words.now)) }
{
    words.iter().rposition(|word| *word != 0)
}

// The rows of an image from the first to the last with a black pixel.
#[derive(Clone, Copy)]
struct BlackRows<'a> {
    words: &'a [u64],
    shape: Shape,
    top: usize,
    bottom: usize,
    ghost accepted: { ImageAccepted shape words.now },
    ghost rows: { Rows shape words.now top bottom },
}

impl BlackRows<'_> {
    // Word x of the rows, put together: a bit for each of its columns that has a black pixel.
    fn column_word(&self, x: usize) -> u64
        requires { x < self.now.shape.row_words }
        ensures { ColumnWord self.now.shape self.now.words.now x result }
    {
        let mut word = 0;
        for y in self.top..self.bottom + 1 {
            word |= self.words[y * self.shape.row_words + x];
        }
        word
    }

    // The first column with a black pixel, or the width.
    // Apart from `right`: one function of both would be told the order of the words, the bit of a word, and what there is without one.
    fn left(&self) -> u32
        ensures { result ≡ least_below (black_column (black_at self.now.shape self.now.words.now) self.now.shape.height) self.now.shape.width }
    {
        for x in 0..self.shape.row_words {
            let word = self.column_word(x);
            if word != 0 {
                return (x * 64) as u32 + word.trailing_zeros();
            }
        }
        self.shape.width
    }

    // The last column with a black pixel, or 0.
    fn right(&self) -> u32
        ensures { result ≡ greatest_below (black_column (black_at self.now.shape self.now.words.now) self.now.shape.height) self.now.shape.width }
    {
        for x in (0..self.shape.row_words).rev() {
            let word = self.column_word(x);
            if word != 0 {
                return (x * 64 + 63) as u32 - word.leading_zeros();
            }
        }
        0
    }
}

// The enclosing rectangle of an image's black pixels, or none where all are white. The first and the last word that is not 0 lie in its first and
// last row.
pub fn get_enclosing_rectangle(image: &Unmarked) -> Option<Rectangle>
    requires { ImageAccepted image.now.shape image.now.words.now }
    ensures { result ≡ enclosing_rectangle (black_at image.now.shape image.now.words.now) image.now.shape.width image.now.shape.height }
{
    let Unmarked { words, shape } = *image;
    let top = first_set(words)? / shape.row_words;
    let bottom = last_set(words)? / shape.row_words;
    let rows = BlackRows {
        words,
        shape,
        top,
        bottom,
    };
    let left = rows.left();
    let right = rows.right();
    Some(Rectangle {
        left,
        top: top as u32,
        width: right - left + 1,
        height: (bottom - top + 1) as u32,
    })
}
