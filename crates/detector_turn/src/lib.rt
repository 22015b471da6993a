// The loop over `ACCEPTED_SCALES` in `box_symbol` of detector.rs, and `attempt_rotation_box` for one of them. Each scale first replaces the centre by the
// corrected one. Each stored bit that is read is marked.
#![tactic(auto)]

ghost use Rattle.std.specs.Prelude.{◌≡◌, T};
ghost use Rattle.detector_size.specs.SizeClauses.{is_scale};
ghost use Rattle.detector_turn.specs.Scales.{is_outside, attempt_rotation_box, try_scales};
ghost use Rattle.detector_turn.specs.ScalesClauses.{InsideCircle};
ghost use Rattle.bit_matrix.specs.ImageClauses.{RanOn};

use bit_matrix::{BitMatrix, Shape};
use detector_circle::Circle;
use detector_outcome::{Outcome, Turn};
use rxing_result_point::PointU;
use sines::Sines;

const ACCEPTED_SCALES: [f64; 5] = [0.065, 0.069, 0.07, 0.075, 0.08];

// Whether a point lies outside the image.
#[tactic(auto, unfolding(crate::specs::Scales::is_outside))]
fn is_outside(shape: Shape, p: PointU) -> bool
    ensures { result ≡ is_outside shape p }
{
    p.x >= shape.width || p.y >= shape.height
}

// One scale, about the corrected centre. What the source does before and after it, the centre's correction and the corners' turn, is left to the callers.
pub fn attempt_rotation_box(
    image: &mut BitMatrix,
    circle: Circle,
    scale: f64,
    sines: &Sines,
) -> Option<u32>
    requires { InsideCircle image.old.shape circle × T (is_scale scale) }
    ensures { RanOn (attempt_rotation_box image.old.shape circle scale) image.old result image.new }
{
    let center = circle.center;
    let boundary = detector_boundary::scaled_boundary(image.shape, center, circle.radius, scale);
    let points = detector_points::adjusted_orientation_points(boundary);
    detector_degrees::try_degrees(image, center, points, sines)
}

// The scales in order. The corrected centre of one is where the next starts; one outside the image ends them.
pub fn try_scales(image: &mut BitMatrix, circle: Circle, sines: &Sines) -> Turn
    requires { InsideCircle image.old.shape circle }
    ensures { RanOn (try_scales image.old.shape circle) image.old result image.new }
{
    let mut circle = circle;
    for (i, percent) in ACCEPTED_SCALES.iter().enumerate() {
        let scale = i as u32 + 1;
        let center = circle.center;
        circle.calculate_high_accuracy_center(image, sines);
        if is_outside(image.shape, circle.center) {
            return Turn {
                outcome: Outcome::LostCentre,
                degree: 0,
                scale,
                center,
            };
        }
        let rotation = attempt_rotation_box(image, circle, *percent, sines);
        if let Some(degree) = rotation {
            return Turn {
                outcome: Outcome::Turned(std::num::nearest_u32_to_f32(degree)),
                degree,
                scale,
                center: circle.center,
            };
        }
    }
    Turn {
        outcome: Outcome::NoTurn,
        degree: 0,
        scale: 0,
        center: circle.center,
    }
}
