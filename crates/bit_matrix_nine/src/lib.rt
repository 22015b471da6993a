// The nine pixels of try_get_area of bit_matrix.rs, where each row of three lies in one stored word.
#![tactic(auto)]

ghost use Rattle.std.specs.Prelude.{true, ◌≡◌, ◌+◌, ◌*◌, ◌%◌, ◌≤◌, ◌<◌, leb, length};
ghost use Rattle.reads.specs.Bits.{range};
ghost use Rattle.bit_matrix.specs.ShapeClauses.{Limits};
ghost use Rattle.bit_matrix.specs.ImageClauses.{Kept};
ghost use Rattle.bit_matrix.specs.Pixels.{offset};
ghost use Rattle.bit_matrix_nine.specs.AreaWords.{ones, TakenBits, HalfBlack, nine_of, InWords};

use bit_matrix::{BitMatrix, Shape};

// Whether the nine pixels about (x, y) lie inside, and in each row the three in one stored word.
pub fn in_words(shape: Shape, x: u32, y: u32) -> bool
    requires { Limits shape }
    ensures { result ≡ true → InWords shape x y }
{
    if x < 1 || y < 1 || x >= shape.width - 1 || y >= shape.height - 1 {
        return false;
    }
    (x - 1) % 64 <= 61
}

// Three bits of a word from bit `shift` on, as a number. They are marked.
fn take_three(image: &mut BitMatrix, offset: usize, shift: u32) -> u64
    requires { («offset» < length image.old.words.now) × (3 + shift ≤ 64) }
    ensures kept { Kept image.old image.new }
    ensures taken { TakenBits image.old.words.now image.old.marks.now (range («offset» * 64 + shift) 3) result image.new.marks.now }
{
    image.marks[offset] |= 7u64 << shift;
    image.words[offset] >> shift & 7
}

// Bit odd + 8 * pairs is set where the digits of `odd` and twice those of `pairs` come to five or more.
const FIVE_OF_NINE: u64 = 0xfffe_fe80_fe80_8000;

// Whether at least five of nine pixels are black, given as three rows of three digits. `odd` has a digit for each column with one or three black pixels,
// `pairs` for each with two or three.
fn five_of_nine(a: u64, b: u64, c: u64) -> bool
    requires { (a < 8) × (b < 8) × (c < 8) }
    ensures { result ≡ leb 9 (2 * (ones a + ones b + ones c)) }
{
    let odd = a ^ b ^ c;
    let pairs = a & b | (a ^ b) & c;
    FIVE_OF_NINE >> (odd + 8 * pairs) & 1 != 0
}

// Whether at least half of the pixels of columns x to x + 2 and rows y to y + 2 are black. They are marked.
pub fn half_of_nine(image: &mut BitMatrix, x: u32, y: u32) -> bool
    requires { (3 + x % 64 ≤ 64) × (offset image.old.shape x (y + 2) < length image.old.words.now) }
    ensures kept { Kept image.old image.new }
    ensures half { HalfBlack image.old.words.now image.old.marks.now (nine_of image.old.shape x y) result image.new.marks.now }
{
    let shift = x % 64;
    let offset = bit_matrix::get_offset(image.shape, y, x);
    let row_words = image.shape.row_words;
    let first = take_three(image, offset, shift);
    let second = take_three(image, offset + row_words, shift);
    let third = take_three(image, offset + 2 * row_words, shift);
    five_of_nine(first, second, third)
}
