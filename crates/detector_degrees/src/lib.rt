// The loop over degrees in `attempt_rotation_box` of detector.rs: eighteen points about the centre, turned degree by degree, until each has its colour.
#![tactic(auto)]

ghost use Rattle.std.specs.Prelude.{◌≡◌, ℕ};
ghost use Rattle.bit_matrix.specs.ImageClauses.{RanOn};
ghost use Rattle.detector_colours.specs.Looks.{look_offset};
ghost use Rattle.detector_degrees.specs.Degrees.{point_of, degrees_from, try_degrees};
ghost use Rattle.detector_degrees.specs.Offsets.{offset_past, EachPoint};

use bit_matrix::BitMatrix;
use rxing_result_point::{Point, PointU};
use sines::Sines;

// How far a pixel lies past the centre.
fn offset_past(center: Point, p: PointU) -> Point
    ensures { result ≡ offset_past center p }
{
    let point = Point::from(p);
    Point {
        x: point.x - center.x,
        y: point.y - center.y,
    }
}

// The offsets of all eighteen points. Made once, they serve all degrees.
fn offsets_past(center: Point, groups: [[PointU; 3]; 6]) -> [Point; 18]
    ensures { EachPoint (λ (k : ℕ). offset_past center (point_of groups k)) result }
{
    std::array::from_fn(|k| offset_past(center, groups[k / 3][k % 3]))
}

// The degrees 0, 2, .. 348 in order. A point whose area passes the last column or row ends them.
fn try_offsets(
    image: &mut BitMatrix,
    center: Point,
    offsets: &[Point; 18],
    sines: &Sines,
) -> Option<u32>
    ensures { RanOn (degrees_from (look_offset image.old.shape center offsets.now) 175 0) image.old result image.new }
{
    for i in 0..175 {
        let degree = i * 2;
        let angle = sines.angle(degree);
        match detector_colours::test_degree(image, center, offsets, angle) {
            Some(true) => return Some(degree),
            Some(false) => {}
            None => return None,
        }
    }
    None
}

// The first degree at which the points of the six groups, turned about the centre, have their colours. The groups come by value: they are made for this
// call, and a reference to them would be no plainer.
pub fn try_degrees(
    image: &mut BitMatrix,
    center: PointU,
    groups: [[PointU; 3]; 6],
    sines: &Sines,
) -> Option<u32>
    ensures { RanOn (try_degrees image.old.shape center groups) image.old result image.new }
{
    let center = Point::from(center);
    let offsets = offsets_past(center, groups);
    try_offsets(image, center, &offsets, sines)
}
