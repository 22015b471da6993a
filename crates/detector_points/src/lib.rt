// The orientation points of a symbol as pixels: `adjust_point_alternate` and `get_adjusted_points` of detector.rs. They take a
// boundary and nothing of the circle or the scale that it comes from.
#![tactic(auto)]

ghost use Rattle.std.specs.Prelude.{◌≡◌, T};
ghost use Rattle.detector_boundary.specs.BoundaryClauses.{Placed};
ghost use Rattle.detector_points.specs.Orientation.{adjusted_point, adjusted_points, orientation_points};
ghost use Rattle.detector_points.specs.OrientationClauses.{is_cell, are_cells};

use detector_boundary::Boundary;
use rxing_result_point::PointU;

// The symbol's columns and rows, of maxi_code_reader.rs.
pub const MATRIX_WIDTH: u32 = 30;

pub const MATRIX_HEIGHT: u32 = 33;

// A cell as a pixel. The row is capped after the bottom is added, the column before the left is, as the source has it.
pub fn adjust_point_alternate(point: PointU, boundary: Boundary) -> PointU
    requires { T (is_cell point) × Placed boundary }
    ensures { result ≡ adjusted_point boundary point }
{
    let top = boundary.top;
    let bottom = boundary.bottom;
    let height = top - bottom;
    let width = boundary.right - boundary.left;
    let y = point.y;
    let x = point.x;
    let iy = (bottom + (y * height + height / 2) / MATRIX_HEIGHT).min(height - 1);
    let ix = boundary.left
        + ((x * width + width / 2 + y % 2 * width / 2) / MATRIX_WIDTH).min(width - 1);
    PointU { x: ix, y: iy }
}

// Three points by name: `origin.map` would owe a proof that each call may be made, of a closure and an iterator's steps.
pub fn get_adjusted_points(origin: [PointU; 3], boundary: Boundary) -> [PointU; 3]
    requires { T (are_cells origin) × Placed boundary }
    ensures { result ≡ adjusted_points boundary origin }
{
    [
        adjust_point_alternate(origin[0], boundary),
        adjust_point_alternate(origin[1], boundary),
        adjust_point_alternate(origin[2], boundary),
    ]
}

const TOP_LEFT_ORIENTATION_POS: [PointU; 3] = [
    PointU { x: 10, y: 9 },
    PointU { x: 11, y: 9 },
    PointU { x: 11, y: 10 },
];

const TOP_RIGHT_ORIENTATION_POS: [PointU; 3] = [
    PointU { x: 17, y: 9 },
    PointU { x: 17, y: 10 },
    PointU { x: 18, y: 10 },
];

const LEFT_ORIENTATION_POS: [PointU; 3] = [
    PointU { x: 7, y: 15 },
    PointU { x: 7, y: 16 },
    PointU { x: 8, y: 16 },
];

const RIGHT_ORIENTATION_POS: [PointU; 3] = [
    PointU { x: 20, y: 16 },
    PointU { x: 21, y: 16 },
    PointU { x: 20, y: 17 },
];

const BOTTOM_LEFT_ORIENTATION_POS: [PointU; 3] = [
    PointU { x: 10, y: 22 },
    PointU { x: 11, y: 22 },
    PointU { x: 10, y: 23 },
];

const BOTTOM_RIGHT_ORIENTATION_POS: [PointU; 3] = [
    PointU { x: 17, y: 22 },
    PointU { x: 16, y: 23 },
    PointU { x: 17, y: 23 },
];

// The six groups of three points, in the order in which they are tested. A line for each, since each has a name.
pub fn adjusted_orientation_points(boundary: Boundary) -> [[PointU; 3]; 6]
    requires { Placed boundary }
    ensures { result ≡ orientation_points boundary }
{
    [
        get_adjusted_points(TOP_LEFT_ORIENTATION_POS, boundary),
        get_adjusted_points(TOP_RIGHT_ORIENTATION_POS, boundary),
        get_adjusted_points(LEFT_ORIENTATION_POS, boundary),
        get_adjusted_points(RIGHT_ORIENTATION_POS, boundary),
        get_adjusted_points(BOTTOM_LEFT_ORIENTATION_POS, boundary),
        get_adjusted_points(BOTTOM_RIGHT_ORIENTATION_POS, boundary),
    ]
}
