// `calculate_high_accuracy_center` of detector.rs: the centre of the circle through three ends of walks, as a pixel. Each stored bit that the walks read is
// marked.
#![tactic(auto)]

ghost use Rattle.std.specs.Prelude.{◌≡◌};
ghost use Rattle.detector_center.specs.Center.{find_center, corrected};
ghost use Rattle.bit_matrix.specs.ImageClauses.{RanOn};
ghost use Rattle.bit_matrix.specs.ShapeClauses.{Inside};

use bit_matrix::BitMatrix;
use rxing_result_point::{Point, PointU};
use sines::Sines;

// The centre of the circle through three points. The quotients are NaN or infinite where no circle goes through them.
pub fn find_center(p1: Point, p2: Point, p3: Point) -> Point
    ensures { result ≡ find_center p1 p2 p3 }
{
    let x1 = p1.x;
    let y1 = p1.y;
    let x2 = p2.x;
    let y2 = p2.y;
    let x3 = p3.x;
    let y3 = p3.y;
    let a = x1 * (y2 - y3) - y1 * (x2 - x3) + (x2 * y3 - x3 * y2);
    let bx = (x1 * x1 + y1 * y1) * (y3 - y2)
        + (x2 * x2 + y2 * y2) * (y1 - y3)
        + (x3 * x3 + y3 * y3) * (y2 - y1);
    let by = (x1 * x1 + y1 * y1) * (x2 - x3)
        + (x2 * x2 + y2 * y2) * (x3 - x1)
        + (x3 * x3 + y3 * y3) * (x1 - x2);
    Point {
        x: ieee::abs_f32(bx / (2.0 * a)),
        y: ieee::abs_f32(by / (2.0 * a)),
    }
}

// The corrected centre. It may lie outside the image.
pub fn corrected_center(image: &mut BitMatrix, center: PointU, sines: &Sines) -> PointU
    requires { Inside image.old.shape center.x center.y }
    ensures { RanOn (corrected image.old.shape center) image.old result image.new }
{
    let first = detector_walks::find_width_at_degree(image, center, sines, 7);
    let second = detector_walks::find_width_at_degree(image, center, sines, 97);
    let found = find_center(first.left, first.right, second.left);
    rxing_result_point::round_to_point_u(found)
}
