// The corners of a symbol's box in `box_symbol` of detector.rs: plain, or turned about the corrected centre; zeros for an ellipse, which has no box.
#![tactic(auto)]

ghost use Rattle.std.specs.Prelude.{◌≡◌};
ghost use Rattle.detector_boundary.specs.BoundaryClauses.{Placed};
ghost use Rattle.detector_corners.specs.Corners.{corner_by, corners_of};

use detector_boundary::Boundary;
use detector_outcome::{Outcome, Turn};
use rxing_result_point::{Point, PointU};
use sines::Sines;

// A corner by a symbol's turn: turned about the turn's centre, plain, or none. The source casts one that is turned to f32 and back, which changes none up
// to 2,048.
// Its column and row, and no `PointU`: no plainer, since each of the four calls would then lay one out over four lines.
fn corner_by(turn: Turn, x: u32, y: u32, sines: &Sines) -> Point
    ensures { result ≡ corner_by turn x y }
{
    let corner = PointU { x, y };
    match turn.outcome {
        Outcome::Turned(_) => {
            rxing_result_point::get_point(turn.center, corner, sines, turn.degree)
        }
        Outcome::NoTurn | Outcome::LostCentre => Point::from(corner),
        Outcome::Ellipse => Point::from(PointU { x: 0, y: 0 }),
    }
}

// The corners of a symbol by its turn, in the order of the source's `naive_box`.
pub fn corners_of(b: Boundary, turn: Turn, sines: &Sines) -> [Point; 4]
    requires { Placed b }
    ensures { result ≡ corners_of b turn }
{
    [
        corner_by(turn, b.left, b.bottom, sines),
        corner_by(turn, b.left, b.top, sines),
        corner_by(turn, b.right, b.bottom, sines),
        corner_by(turn, b.right, b.top, sines),
    ]
}
