// `box_symbol` of detector.rs: with the option on the ellipse check, then the scales, the plain box of the first centre, and the box turned about the
// corrected centre where a scale finds a turn.
#![tactic(auto)]

ghost use Rattle.bit_matrix.specs.ImageClauses.{RanOn};
ghost use Rattle.detector_turn.specs.ScalesClauses.{InsideCircle};
ghost use Rattle.detector_box.specs.Boxes.{turn_at, symbol_at};
ghost use Rattle.detector_box.specs.BoxesClauses.{FlankedWhen};

use bit_matrix::BitMatrix;
use detector_circle::Circle;
use detector_outcome::{Outcome, Turn};
use detector_symbol::Symbol;
use sines::Sines;

// A candidate's turn. With the option on an ellipse has none, and its centre is not corrected.
fn turn_of(image: &mut BitMatrix, circle: Circle, sines: &Sines, ellipse: bool) -> Turn
    requires { InsideCircle image.old.shape circle × FlankedWhen ellipse image.old.shape image.old.words.now circle.center }
    ensures { RanOn (turn_at ellipse image.old.shape circle) image.old result image.new }
{
    if ellipse && detector_ellipse::detect_ellipse(image, circle.center, sines) {
        return Turn {
            outcome: Outcome::Ellipse,
            degree: 0,
            scale: 0,
            center: circle.center,
        };
    }
    detector_turn::try_scales(image, circle, sines)
}

// A candidate's symbol. Each stored bit that is read is marked.
pub fn box_symbol(image: &mut BitMatrix, circle: Circle, sines: &Sines, ellipse: bool) -> Symbol
    requires { InsideCircle image.old.shape circle × FlankedWhen ellipse image.old.shape image.old.words.now circle.center }
    ensures { RanOn (symbol_at ellipse image.old.shape circle) image.old result image.new }
{
    let turn = turn_of(image, circle, sines, ellipse);
    let boundary = detector_boundary::plain_boundary(image.shape, circle.center, circle.radius);
    let corners = detector_corners::corners_of(boundary, turn, sines);
    let class = detector_outcome::class_of(turn);
    Symbol {
        turn,
        corners,
        class: u32::from(class),
    }
}
