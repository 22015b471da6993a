// What several steps test.
ghost use Rattle.std.specs.Prelude.{◌≡◌, ◌*◌, ◌≤◌, ◌<◌, T, length};
ghost use Rattle.bit_matrix.specs.Shape.{row_words};
ghost use Rattle.bit_matrix.specs.ShapeClauses.{Limits, Image, Inside};
ghost use Rattle.records.specs.Records.{capacity_of};
ghost use Rattle.detector_size.specs.SizeClauses.{is_scale};
ghost use Rattle.detector_boundary.specs.BoundaryClauses.{Centered};
ghost use Rattle.detector_walks.specs.WalksClauses.{Lent};
ghost use Rattle.step_exports.specs.Steps.{Decides, SmallTo};

use bit_matrix::Shape;
use rxing_result_point::PointU;

// The answer to what does not fit: C reads a number, so there is no `Err` here.
pub const REFUSED: u32 = u32::MAX;

// Whether the first n words are below 2 ^ 16. A for with a return takes three instructions a word, `all` over an iterator five.
pub fn all_small(words: &[u32], n: usize) -> bool
    requires { n ≤ length words.now }
    ensures { Decides result (SmallTo n words.now) }
{
    for word in &words[..n] {
        if *word >= 65536 {
            return false;
        }
    }
    true
}

// Whether records have room for that many candidates, and the words of those are below 2 ^ 16.
pub fn are_candidates(records: &[u32], found: u32) -> bool
    ensures { Decides result ((found ≤ capacity_of (length records.now)) × SmallTo (40 * found) records.now) }
{
    let count = found as usize;
    count <= records::capacity_of(records.len()) && all_small(records, 40 * count)
}

// Whether a shape is within the limits of an image, by the check of images.
fn is_limited(shape: Shape) -> bool
    requires { shape.row_words ≡ row_words shape.width }
    ensures { Decides result (Limits shape) }
{
    crop_sizes::size_refusal(shape, crop_sizes::LEAST, 0, 0).is_ok()
}

// Whether words and marks are an image of a shape.
// Callers make the image: an Option<BitMatrix> was tried, and the proof that the marks, a slice, stay as they were at None did not close.
pub fn is_image(words: &[u64], marks: &[u64], shape: Shape) -> bool
    requires { shape.row_words ≡ row_words shape.width }
    ensures { Decides result (Image shape words.now marks.now) }
{
    is_limited(shape) && words.len() == crop_sizes::image_words(shape) && marks.len() == words.len()
}

fn is_inside(shape: Shape, center: PointU) -> bool
    ensures { Decides result (Inside shape center.x center.y) }
{
    center.x < shape.width && center.y < shape.height
}

// Whether a centre lies in an image of a shape, whatever its words.
pub fn is_centered(shape: Shape, center: PointU) -> bool
    requires { shape.row_words ≡ row_words shape.width }
    ensures { Decides result (Centered shape center) }
{
    is_limited(shape) && is_inside(shape, center)
}

// Whether words and marks are an image of a shape, with the centre inside.
pub fn is_lent(words: &[u64], marks: &[u64], shape: Shape, center: PointU) -> bool
    requires { shape.row_words ≡ row_words shape.width }
    ensures { Decides result (Lent shape words.now marks.now center) }
{
    is_image(words, marks, shape) && is_inside(shape, center)
}

// Whether a circle may have that radius.
pub fn is_radius(radius: u32) -> bool
    ensures { Decides result ((6 ≤ radius) × (radius < 2048)) }
{
    6 <= radius && radius < 2048
}

// Whether a symbol's boundary may be asked for that scale.
pub fn is_scale(scale: f64) -> bool
    ensures { Decides result (T (is_scale scale)) }
{
    0.0625 <= scale && scale <= 0.08
}
