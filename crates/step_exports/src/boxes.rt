// The steps that read an image about a pixel or a centre, up to a symbol's box and turn.
ghost use Rattle.std.specs.Prelude.{false, ◌≡◌};
ghost use Rattle.reads.specs.RunsClauses.{Ran};
ghost use Rattle.bit_matrix.specs.ShapeClauses.{Image};
ghost use Rattle.bit_matrix.specs.ImageClauses.{RanOn};
ghost use Rattle.bit_matrix_area.specs.Area.{try_get_area};
ghost use Rattle.detector_walks.specs.Walks.{find_width_at_degree};
ghost use Rattle.detector_walks.specs.WalksClauses.{Lent};
ghost use Rattle.detector_center.specs.Center.{corrected};
ghost use Rattle.detector_turn.specs.ScalesClauses.{LentCircle, InsideCircle};
ghost use Rattle.detector_box.specs.Boxes.{symbol_at};
ghost use Rattle.detector_symbol.specs.Symbols.{with_symbol};
ghost use Rattle.step_exports.specs.Steps.{Guarded, refused_answer, number_in, shape_in, pixel_in, circle_in, through, sample_number, width_words, pixel_words};

use crate::guards::{REFUSED, is_image, is_lent, is_radius};
use bit_matrix::BitMatrix;
use detector_circle::Circle;
use rxing_result_point::PointU;
use sines::Sines;

fn sample_number(sample: Option<bool>) -> u32
    ensures { result ≡ sample_number sample }
{
    sample.map_or(2, u32::from)
}

// The colour about a pixel: 0 white, 1 black, 2 outside. The numbers: width, height, the pixel's column and row.
#[unsafe(no_mangle)]
pub extern "C" fn step_try_get_area(words: &[u64], marks: &mut [u64], numbers: &[u32; 4]) -> u32
    ensures { Guarded
        (Image (shape_in numbers.now) words.now marks.old)
        (Ran (through sample_number (try_get_area (shape_in numbers.now) (number_in numbers.now 2) (number_in numbers.now 3)))
        words.now marks.old result marks.new)
        ((result ≡ refused_answer) × (marks.new ≡ marks.old)) }
{
    let [width, height, x, y] = *numbers;
    let shape = crop_sizes::shape_of(width, height);
    if !is_image(words, marks, shape) {
        return REFUSED;
    }
    let mut image = BitMatrix {
        words,
        marks,
        shape,
    };
    let sample = bit_matrix_area::try_get_area(&mut image, x, y);
    sample_number(sample)
}

// The length of the walks to the left and to the right at a degree, and their ends. The numbers: width, height, the centre's column and row.
#[unsafe(no_mangle)]
pub extern "C" fn step_find_width_at_degree(
    words: &[u64],
    marks: &mut [u64],
    numbers: &[u32; 4],
    degree: u32,
    out: &mut [u32; 5],
) -> u32
    ensures { Guarded
        (Lent (shape_in numbers.now) words.now marks.old (pixel_in numbers.now 2))
        ((result ≡ 0) × Ran (through width_words (find_width_at_degree (shape_in numbers.now) (pixel_in numbers.now 2) degree))
        words.now marks.old out.new marks.new)
        ((result ≡ refused_answer) × (marks.new ≡ marks.old) × (out.new ≡ out.old)) }
{
    let [width, height, x, y] = *numbers;
    let shape = crop_sizes::shape_of(width, height);
    let center = PointU { x, y };
    if !is_lent(words, marks, shape, center) {
        return REFUSED;
    }
    let sines = Sines::new();
    let mut image = BitMatrix {
        words,
        marks,
        shape,
    };
    let width = detector_walks::find_width_at_degree(&mut image, center, &sines, degree);
    let left = width.left;
    let right = width.right;
    *out = [
        width.length,
        std::num::f32_to_bits_with_nan(left.x),
        std::num::f32_to_bits_with_nan(left.y),
        std::num::f32_to_bits_with_nan(right.x),
        std::num::f32_to_bits_with_nan(right.y),
    ];
    0
}

// The corrected centre. The numbers: width, height, the centre's column and row.
#[unsafe(no_mangle)]
pub extern "C" fn step_corrected_center(
    words: &[u64],
    marks: &mut [u64],
    numbers: &[u32; 4],
    out: &mut [u32; 2],
) -> u32
    ensures { Guarded
        (Lent (shape_in numbers.now) words.now marks.old (pixel_in numbers.now 2))
        ((result ≡ 0) × Ran (through pixel_words (corrected (shape_in numbers.now) (pixel_in numbers.now 2)))
        words.now marks.old out.new marks.new)
        ((result ≡ refused_answer) × (marks.new ≡ marks.old) × (out.new ≡ out.old)) }
{
    let [width, height, x, y] = *numbers;
    let shape = crop_sizes::shape_of(width, height);
    let center = PointU { x, y };
    if !is_lent(words, marks, shape, center) {
        return REFUSED;
    }
    let sines = Sines::new();
    let mut image = BitMatrix {
        words,
        marks,
        shape,
    };
    let found = detector_center::corrected_center(&mut image, center, &sines);
    *out = [found.x, found.y];
    0
}

// A symbol's words in a record, with the table made for it; the ellipse check is off.
fn boxed(image: &mut BitMatrix, fields: [u32; 40], circle: Circle) -> [u32; 40]
    requires { InsideCircle image.old.shape circle }
    ensures { RanOn (through (with_symbol fields) (symbol_at false image.old.shape circle)) image.old result image.new }
{
    let sines = Sines::new();
    let symbol = detector_box::box_symbol(image, circle, &sines, false);
    let mut out = fields;
    detector_symbol::symbol_fields(&mut out, symbol);
    out
}

// A symbol's words 26 to 39 in a record, with the ellipse check off. The numbers: width, height, the centre's column and row, radius.
#[unsafe(no_mangle)]
pub extern "C" fn step_box_symbol(
    words: &[u64],
    marks: &mut [u64],
    fields: &mut [u32; 40],
    numbers: &[u32; 5],
) -> u32
    ensures { Guarded
        (LentCircle (shape_in numbers.now) words.now marks.old (circle_in numbers.now 2))
        ((result ≡ 0) × Ran (through (with_symbol fields.old) (symbol_at false (shape_in numbers.now) (circle_in numbers.now 2)))
        words.now marks.old fields.new marks.new)
        ((result ≡ refused_answer) × (marks.new ≡ marks.old) × (fields.new ≡ fields.old)) }
{
    let [width, height, x, y, radius] = *numbers;
    let shape = crop_sizes::shape_of(width, height);
    let center = PointU { x, y };
    if !is_lent(words, marks, shape, center) {
        return REFUSED;
    }
    if !is_radius(radius) {
        return REFUSED;
    }
    let before = *fields;
    let mut image = BitMatrix {
        words,
        marks,
        shape,
    };
    *fields = boxed(&mut image, before, Circle { center, radius });
    0
}
