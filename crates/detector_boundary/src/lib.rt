// A symbol's boundaries about a centre: `calculate_simple_boundary` of detector.rs.
#![tactic(auto)]

ghost use Rattle.std.specs.Prelude.{◌≡◌, ◌<◌, ◌≤◌, T, unsigned_abs};
ghost use Rattle.detector_size.specs.SizeClauses.{is_scale};
ghost use Rattle.detector_boundary.specs.Boundary.{clamped, boundary_of, plain_boundary, scaled_boundary};
ghost use Rattle.detector_boundary.specs.BoundaryClauses.{Centered, Range};

use bit_matrix::Shape;
use detector_size::Size;
use rxing_result_point::PointU;

// The four boundaries of a symbol, in the source's words: top is the larger row. That they are `Placed` stands in clauses and not in the
// type, since definitions and step_exports make boundaries of any numbers.
#[derive(Clone, Copy)]
pub struct Boundary {
    pub left: u32,
    pub right: u32,
    pub top: u32,
    pub bottom: u32,
}

// Rust's `z.clamp(low, high) as u32`.
fn clamp(z: i32, low: i32, high: i32) -> u32
    requires { Range low high }
    ensures { result ≡ clamped z (unsigned_abs low) (unsigned_abs high) }
{
    z.clamp(low, high) as u32
}

const LEFT_SHIFT_PERCENT_ADJUST: f32 = 0.03;

const RIGHT_SHIFT_PERCENT_ADJUST: f32 = 0.03;

// The boundaries of a symbol of that size about a centre. No sum leaves i32, since a size is at most 32,768.
fn calculate_simple_boundary(shape: Shape, center: PointU, size: Size) -> Boundary
    requires { Centered shape center × (size.width ≤ 32768) × (size.height ≤ 32768) }
    ensures { result ≡ boundary_of shape center size }
{
    let up_down_shift = size.height as i32 / 2;
    let symbol_width = std::num::nearest_u32_to_f32(size.width);
    let left_shift = ieee::saturating_f32_to_i32(
        symbol_width / 2.0 - symbol_width * LEFT_SHIFT_PERCENT_ADJUST,
    );
    let right_shift = ieee::saturating_f32_to_i32(
        symbol_width / 2.0 + symbol_width * RIGHT_SHIFT_PERCENT_ADJUST,
    );
    Boundary {
        left: clamp(center.x as i32 - left_shift, 0, shape.width as i32 - 33),
        right: clamp(center.x as i32 + right_shift, 33, shape.width as i32),
        top: clamp(center.y as i32 + up_down_shift, 33, shape.height as i32),
        bottom: clamp(center.y as i32 - up_down_shift, 0, shape.height as i32 - 30),
    }
}

// The plain box's boundaries. Shape and centre go side by side: a type that says that one lies in the other would be taken apart by each callee.
pub fn plain_boundary(shape: Shape, center: PointU, radius: u32) -> Boundary
    requires { Centered shape center × (radius < 2048) }
    ensures { result ≡ plain_boundary shape center radius }
{
    calculate_simple_boundary(shape, center, detector_size::guess_barcode_size(radius))
}

// The boundaries of a scale.
pub fn scaled_boundary(shape: Shape, center: PointU, radius: u32, scale: f64) -> Boundary
    requires { Centered shape center × (radius < 2048) × T (is_scale scale) }
    ensures { result ≡ scaled_boundary shape center radius scale }
{
    calculate_simple_boundary(
        shape,
        center,
        detector_size::guess_barcode_size_general(radius, 0.05, scale, 0.95),
    )
}
