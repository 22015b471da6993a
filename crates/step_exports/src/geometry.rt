// The steps that read no pixel, of a symbol's size, boundaries and points.
ghost use Rattle.std.specs.Prelude.{◌≡◌, ◌≤◌, ◌<◌, T};
ghost use Rattle.std.specs.Float.{binary64};
ghost use Rattle.std.specs.Float.Ieee.{of_bits};
ghost use Rattle.rxing_result_point.specs.Points.{get_point};
ghost use Rattle.detector_size.specs.Size.{guessed_size};
ghost use Rattle.detector_size.specs.SizeClauses.{is_scale};
ghost use Rattle.detector_boundary.specs.BoundaryClauses.{Centered};
ghost use Rattle.detector_points.specs.Orientation.{adjusted_point};
ghost use Rattle.detector_points.specs.OrientationClauses.{is_cell};
ghost use Rattle.detector_center.specs.Center.{find_center};
ghost use Rattle.step_exports.specs.Steps.{
  Guarded,
  Decides,
  refused_answer,
  number_in,
  shape_in,
  pixel_in,
  boundary_in,
  point_in,
  point_by_bits,
  size_words,
  boundary_words,
  pixel_words,
  point_words,
};

use crate::guards::{REFUSED, is_centered, is_radius, is_scale};
use rxing_result_point::{Point, PointU};
use sines::Sines;

// Width and height of a symbol, by a radius and the three percentages.
#[unsafe(no_mangle)]
pub extern "C" fn step_guess_barcode_size_general(
    radius: u32,
    height_adjust: u64,
    circle_area: u64,
    height_final_adjust: u64,
    out: &mut [u32; 2],
) -> u32
    ensures { Guarded
        (radius < 65536)
        ((result ≡ 0) × (out.new ≡ size_words (guessed_size radius (of_bits binary64 height_adjust) (of_bits binary64 circle_area)
        (of_bits binary64 height_final_adjust))))
        ((result ≡ refused_answer) × (out.new ≡ out.old)) }
{
    if radius >= 65536 {
        return REFUSED;
    }
    let adjust = std::num::f64_from_bits_with_nan(height_adjust);
    let area = std::num::f64_from_bits_with_nan(circle_area);
    let last = std::num::f64_from_bits_with_nan(height_final_adjust);
    let size = detector_size::guess_barcode_size_general(radius, adjust, area, last);
    *out = [size.width, size.height];
    0
}

// Left, right, top and bottom of a scale. The numbers: width, height, the centre's column and row, radius.
#[unsafe(no_mangle)]
pub extern "C" fn step_scaled_boundary(numbers: &[u32; 5], scale: u64, out: &mut [u32; 4]) -> u32
    ensures { Guarded
        (Centered (shape_in numbers.now) (pixel_in numbers.now 2) × (number_in numbers.now 4 < 2048)
        × T (is_scale (of_bits binary64 scale)))
        ((result ≡ 0) × (out.new ≡ boundary_words (boundary_in numbers.now scale)))
        ((result ≡ refused_answer) × (out.new ≡ out.old)) }
{
    let [width, height, x, y, radius] = *numbers;
    let shape = crop_sizes::shape_of(width, height);
    let center = PointU { x, y };
    if !is_centered(shape, center) {
        return REFUSED;
    }
    if radius >= 2048 {
        return REFUSED;
    }
    let percent = std::num::f64_from_bits_with_nan(scale);
    if !is_scale(percent) {
        return REFUSED;
    }
    let b = detector_boundary::scaled_boundary(shape, center, radius, percent);
    *out = [b.left, b.right, b.top, b.bottom];
    0
}

// Whether a cell lies in a symbol's grid.
fn is_cell(cell: PointU) -> bool
    ensures { Decides result (T (is_cell cell)) }
{
    cell.x < 30 && cell.y < 33
}

// A cell of a scale's grid as a pixel. The numbers: width, height, the centre's column and row, radius, the cell's column and row.
#[unsafe(no_mangle)]
pub extern "C" fn step_adjust_point_alternate(
    numbers: &[u32; 7],
    scale: u64,
    out: &mut [u32; 2],
) -> u32
    ensures { Guarded
        (Centered (shape_in numbers.now) (pixel_in numbers.now 2)
        × ((6 ≤ number_in numbers.now 4) × (number_in numbers.now 4 < 2048)) × T (is_scale (of_bits binary64 scale))
        × T (is_cell (pixel_in numbers.now 5)))
        ((result ≡ 0) × (out.new ≡ pixel_words (adjusted_point (boundary_in numbers.now scale) (pixel_in numbers.now 5))))
        ((result ≡ refused_answer) × (out.new ≡ out.old)) }
{
    let [width, height, x, y, radius, column, row] = *numbers;
    let shape = crop_sizes::shape_of(width, height);
    let center = PointU { x, y };
    let cell = PointU { x: column, y: row };
    let percent = std::num::f64_from_bits_with_nan(scale);
    if !is_centered(shape, center) {
        return REFUSED;
    }
    if !is_radius(radius) {
        return REFUSED;
    }
    if !is_scale(percent) {
        return REFUSED;
    }
    if !is_cell(cell) {
        return REFUSED;
    }
    let boundary = detector_boundary::scaled_boundary(shape, center, radius, percent);
    let pixel = detector_points::adjust_point_alternate(cell, boundary);
    *out = [pixel.x, pixel.y];
    0
}

// A point turned about a centre by whole degrees. The numbers: column and row of the centre, then of the point, and the degree.
#[unsafe(no_mangle)]
pub extern "C" fn step_get_point(numbers: &[u32; 5], out: &mut [u32; 2])
    ensures { out.new ≡
        point_words (get_point (pixel_in numbers.now 0) (pixel_in numbers.now 2) (number_in numbers.now 4)) }
{
    let [center_x, center_y, x, y, degree] = *numbers;
    let center = PointU {
        x: center_x,
        y: center_y,
    };
    let original = PointU { x, y };
    let point = rxing_result_point::get_point(center, original, &Sines::new(), degree);
    *out = [
        std::num::f32_to_bits_with_nan(point.x),
        std::num::f32_to_bits_with_nan(point.y),
    ];
}

// A point by the bits of its coordinates.
fn point_of(x: u32, y: u32) -> Point
    ensures { result ≡ point_by_bits x y }
{
    Point {
        x: std::num::f32_from_bits_with_nan(x),
        y: std::num::f32_from_bits_with_nan(y),
    }
}

// The centre of the circle through three points. The numbers: the bits of each point's x and y.
#[unsafe(no_mangle)]
pub extern "C" fn step_find_center(numbers: &[u32; 6], out: &mut [u32; 2])
    ensures { out.new ≡
        point_words (find_center (point_in numbers.now 0) (point_in numbers.now 2) (point_in numbers.now 4)) }
{
    let [x1, y1, x2, y2, x3, y3] = *numbers;
    let first = point_of(x1, y1);
    let second = point_of(x2, y2);
    let third = point_of(x3, y3);
    let point = detector_center::find_center(first, second, third);
    *out = [
        std::num::f32_to_bits_with_nan(point.x),
        std::num::f32_to_bits_with_nan(point.y),
    ];
}
