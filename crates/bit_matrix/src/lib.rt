// bit_matrix.rs: the pixels of an image of 64-bit words, true for black, with a mark set for each stored bit that is read.
// What is read is the definition `pixel`. Bit c % 64 of word c / 64 of a row is its column c.
#![tactic(auto)]

ghost use Rattle.std.specs.Prelude.{◌≡◌, length};
ghost use Rattle.bit_matrix.specs.Shape.{size};
ghost use Rattle.bit_matrix.specs.ShapeClauses.{Limits, Image};
ghost use Rattle.bit_matrix.specs.Pixels.{offset, pixel, out_of_range, try_get};

// An image's rows, of `row_words` words each, and how many columns and rows it has.
#[derive(Clone, Copy)]
pub struct Shape {
    pub row_words: usize,
    pub width: u32,
    pub height: u32,
}

// The word that holds column x of row y.
pub fn get_offset(shape: Shape, y: u32, x: u32) -> usize
    requires { Limits shape }
    ensures { result ≡ offset shape x y }
{
    (y as usize) * shape.row_words + (x as usize) / 64
}

// An image in lent words, and a mark for each bit of them.
#[derive(Drop)]
pub struct BitMatrix<'a> {
    pub words: &'a [u64],
    pub marks: &'a mut [u64],
    pub shape: Shape,
    pub ghost is_image: { Image shape words.now marks.now },
}

// An image in words whose reads nobody marks.
#[derive(Clone, Copy)]
pub struct Unmarked<'a> {
    pub words: &'a [u64],
    pub shape: Shape,
    pub ghost limits: { Limits shape },
    pub ghost stored: { length words.now ≡ size shape },
}

impl Unmarked<'_> {
    // True when the pixel lies OUT of range, past the last word.
    pub fn check_in_bounds(&self, x: u32, y: u32) -> bool
        ensures { result ≡ out_of_range self.now.shape x y }
    {
        get_offset(self.shape, y, x) >= self.words.len()
    }
}

impl BitMatrix<'_> {
    ghost use Rattle.bit_matrix.specs.ImageClauses.{RanOn};

    // The same words and shape, for what marks nothing.
    pub fn unmarked(&self) -> Unmarked<'_>
        ensures words { result.words.now ≡ self.now.words.now }
        ensures shape { result.shape ≡ self.now.shape }
    {
        Unmarked {
            words: self.words,
            shape: self.shape,
        }
    }

    // The pixel at column x of row y. Its bit is marked, unless it lies past the last word: then it is white, and unread.
    pub fn get(&mut self, x: u32, y: u32) -> bool
        ensures { RanOn (pixel self.old.shape x y) self.old result self.new }
    {
        let offset = get_offset(self.shape, y, x);
        if offset >= self.words.len() {
            return false;
        }
        let shift = x % 64;
        self.marks[offset] |= 1u64 << shift;
        self.words[offset] >> shift & 1 != 0
    }

    // The pixel at column x of row y, or none outside the width or height, where nothing is read.
    pub fn try_get(&mut self, x: u32, y: u32) -> Option<bool>
        ensures { RanOn (try_get self.old.shape x y) self.old result self.new }
    {
        if x >= self.shape.width || y >= self.shape.height {
            return None;
        }
        Some(self.get(x, y))
    }
}
