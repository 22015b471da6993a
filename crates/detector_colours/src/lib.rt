// The test of a degree in `attempt_rotation_box` of detector.rs: eighteen points about the centre, turned by an angle, each with its colour.
#![tactic(auto)]

ghost use Rattle.std.specs.Prelude.{◌≡◌, ◌<◌};
ghost use Rattle.detector_colours.specs.Colours.{right_colour, test_degree};
ghost use Rattle.detector_colours.specs.Looks.{look_past, look_offset};
ghost use Rattle.bit_matrix.specs.ImageClauses.{RanOn};

use bit_matrix::BitMatrix;
use rxing_result_point::Point;
use sines::Angle;

// A digit for each point, the first the lowest, 1 for black: group 0 is black, group 1 white, the others black, white, black.
const BLACK_POINTS: u32 = 0b101_101_101_101_000_111;

// Whether a colour, true for black, is the right one at point k.
fn right_colour(k: usize, black: bool) -> bool
    requires { «k» < 18 }
    ensures { result ≡ right_colour «k» black }
{
    black == (BLACK_POINTS >> k & 1 != 0)
}

// The colour about the point that lies `offset` past the centre, turned about it. The operations are those of `get_point`, in its order.
fn look(image: &mut BitMatrix, center: Point, angle: Angle, offset: Point) -> Option<bool>
    ensures { RanOn (look_past image.old.shape center angle offset) image.old result image.new }
{
    let sin = angle.sin;
    let cos = angle.cos;
    let u = offset.x;
    let v = offset.y;
    let x = ieee::abs_f32_to_u32(cos * u - sin * v + center.x);
    let y = ieee::abs_f32_to_u32(sin * u + cos * v + center.y);
    bit_matrix_area::try_get_area(image, x, y)
}

// Whether all eighteen points have the right colour; the first that has not ends it. None where a point's area passes the last column or row.
pub fn test_degree(
    image: &mut BitMatrix,
    center: Point,
    offsets: &[Point; 18],
    angle: Angle,
) -> Option<bool>
    ensures { RanOn (test_degree (look_offset image.old.shape center offsets.now angle)) image.old result image.new }
{
    for (k, offset) in offsets.iter().enumerate() {
        let black = look(image, center, angle, *offset)?;
        if !right_colour(k, black) {
            return Some(false);
        }
    }
    Some(true)
}
