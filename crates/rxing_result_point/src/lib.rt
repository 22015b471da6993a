// Points of rxing_result_point.rs, and a point turned about a centre (`get_point` of detector.rs), each operation rounded
// once and in the source's order.
#![tactic(auto)]

ghost use Rattle.std.specs.Prelude.{◌≡◌};
ghost use Rattle.rxing_result_point.specs.Points.{point_at, turned, get_point, rounded};

use sines::{Angle, Sines};

// A pair of f32 coordinates: a corner, a walk's end, a circle's centre.
#[derive(Clone, Copy, Default)]
pub struct Point {
    pub x: f32,
    pub y: f32,
}

// A pixel's column and row. Two structs, as in the source: a generic one of both would have no method of its own.
#[derive(Clone, Copy)]
pub struct PointU {
    pub x: u32,
    pub y: u32,
}

// A pixel as a point.
impl From<PointU> for Point {
    ghost from_gives = { λ pixel point. point ≡ point_at pixel };

    fn from(pixel: PointU) -> Point {
        Point {
            x: std::num::nearest_u32_to_f32(pixel.x),
            y: std::num::nearest_u32_to_f32(pixel.y),
        }
    }
}

// `original` turned about `center` by an angle.
pub fn turn(center: PointU, original: PointU, angle: Angle) -> Point
    ensures { result ≡ turned center original angle }
{
    let center = Point::from(center);
    let original = Point::from(original);
    let sin = angle.sin;
    let cos = angle.cos;
    let u = original.x - center.x;
    let v = original.y - center.y;
    Point {
        x: ieee::abs_f32(cos * u - sin * v + center.x),
        y: ieee::abs_f32(sin * u + cos * v + center.y),
    }
}

// `original` turned about `center` by whole degrees.
pub fn get_point(center: PointU, original: PointU, sines: &Sines, degree: u32) -> Point
    ensures { result ≡ get_point center original degree }
{
    turn(center, original, sines.angle(degree))
}

// The pixel of a point: Rust's `round`, and then the conversion to PointU. No `From`, which would not say that it rounds.
pub fn round_to_point_u(p: Point) -> PointU
    ensures { result ≡ rounded p }
{
    PointU {
        x: ieee::round_floor_f32_to_u32(p.x),
        y: ieee::round_floor_f32_to_u32(p.y),
    }
}
