// `find_width_at_degree` of detector.rs: the walks from a centre to the left and to the right, column by column of the centre's row, each
// point turned about the centre, until one is black or lies past the image's last word. Each stored bit that is read is marked.
#![tactic(auto)]

ghost use Rattle.std.specs.Prelude.{true, false, ◌≡◌, ◌+◌, ◌^◌, ◌≤◌, ◌<◌};
ghost use Rattle.bit_matrix.specs.ShapeClauses.{Inside};
ghost use Rattle.bit_matrix.specs.ImageClauses.{Kept, RanOn};
ghost use Rattle.ieee.specs.Sign.{abs};
ghost use Rattle.ieee.specs.BetweenLaws.{Between};
ghost use Rattle.detector_walks.specs.Walks.{walk_point, white_pixel, white_point, left_from, width_of, find_width_at_degree};
ghost use Rattle.detector_walks.specs.WalksClauses.{OfDegree, Along, column, Taken, rest};
ghost use Rattle.detector_walks.specs.StepsLaws.{steps_right};

use bit_matrix::BitMatrix;
use rxing_result_point::{Point, PointU};
use sines::{Angle, Sines};

// What the two walks at a degree come to: how many steps they took together, and the points where they end.
#[derive(Clone, Copy, Default)]
pub struct Width {
    pub length: u32,
    pub left: Point,
    pub right: Point,
}

// The line on which a walk goes: from a centre, at an angle.
#[derive(Clone, Copy)]
struct Ray {
    center: PointU,
    angle: Angle,
    ghost of_degree: { ∥ OfDegree angle ∥₁ },
}

impl Ray {
    // The point that a walk is at in column x.
    fn walk_point(self, x: u32) -> Point
        ensures { result ≡ walk_point self.center self.angle x }
    {
        let y = self.center.y;
        rxing_result_point::turn(self.center, PointU { x, y }, self.angle)
    }

    // The width between the columns where the walks end.
    fn width_of(self, left: u32, right: u32) -> Width
        requires { (left ≤ self.center.x) × (self.center.x < right) }
        ensures { result ≡ width_of self.center self.angle left right }
    {
        Width {
            length: self.center.x - left + (right - (self.center.x + 1)),
            left: self.walk_point(left),
            right: self.walk_point(right),
        }
    }
}

// Whether a pixel lies in a word of the image and is white.
fn is_white(image: &mut BitMatrix, x: u32, y: u32) -> bool
    ensures { RanOn (white_pixel image.old.shape x y) image.old result image.new }
{
    if image.unmarked().check_in_bounds(x, y) {
        return false;
    }
    !image.get(x, y)
}

// Whether the walk goes on from column x. The operations are those of `get_point`, in its order, without the products with the distance from the
// centre's row, which is zero; written out, so that what the centre alone decides can be taken out of the loop. Up to column 2 ^ 21 a coordinate
// is small enough for the cast without tests.
fn goes_on(image: &mut BitMatrix, ray: Ray, x: u32) -> bool
    requires { Inside image.old.shape ray.center.x ray.center.y × (x ≤ 2 ^ 21) }
    ensures { RanOn (white_point image.old.shape (walk_point ray.center ray.angle x)) image.old result image.new }
{
    let sin = ray.angle.sin;
    let cos = ray.angle.cos;
    let cx = ray.center.x as f32;
    let cy = ray.center.y as f32;
    let u = x as f32 - cx;
    let column = ieee::abs_below_f32_to_u32(cos * u + cx);
    let row = ieee::abs_below_f32_to_u32(sin * u + cy);
    is_white(image, column, row)
}

// The column where the walk to the left from column `first` on ends. Column 0 is looked at too, before the test that ends the walk there. A while: the end
// is not a count.
fn back(image: &mut BitMatrix, ray: Ray, first: u32) -> u32
    requires { Inside image.old.shape ray.center.x ray.center.y × (first ≤ 2 ^ 21) }
    ensures { RanOn (left_from image.old.shape ray.center ray.angle first) image.old result image.new }
{
    let mut x = first;
    while goes_on(image, ray, x) {
        if x == 0 {
            return x;
        }
        x -= 1;
    }
    x
}

// The column i steps from column x on.
fn column<const LEFT: bool>(x: u32, i: u32) -> u32
    requires { (LEFT ≡ true → i ≤ x) × (x + i < 2 ^ 32) }
    ensures { result ≡ column LEFT x i }
{
    if LEFT { x - i } else { x + i }
}

// How many of 16 steps from column x the walk takes, one by one.
fn step<const LEFT: bool>(image: &mut BitMatrix, ray: Ray, x: u32) -> u32
    requires { Inside image.old.shape ray.center.x ray.center.y × (LEFT ≡ true → 16 ≤ x) × (x < 2 ^ 20 + 2 ^ 12) }
    ensures kept { Kept image.old image.new }
    ensures taken { Taken LEFT image.old.shape ray.center ray.angle 16 x image.old.words.now image.old.marks.now result image.new.marks.now }
{
    for i in 0..16 {
        let at = column::<LEFT>(x, i);
        if !goes_on(image, ray, at) {
            return i;
        }
    }
    16
}

// Where the points of the 32 columns from x on lie along one axis: whole columns with the cosine and the centre's column as its place, whole rows with the
// sine and the centre's row. Nothing is read in between, so that they are worked out side by side. The remainder changes no column; it tells the compiler
// that each is below 2 ^ 21, so that the cast to f32 is one operation.
fn along<const LEFT: bool>(factor: f32, center_x: u32, place: u32, x: u32) -> [u32; 32]
    requires { Between 0 1 (abs factor) × (center_x < 2 ^ 11) × (place < 2 ^ 11) × (LEFT ≡ true → 32 ≤ x) × (x < 2 ^ 20 + 2 ^ 12) }
    ensures { Along LEFT factor center_x place x 32 result }
{
    let cx = center_x as f32;
    let p = place as f32;
    let mut cells = [0u32; 32];
    for i in 0..32 {
        let at = column::<LEFT>(x, i as u32);
        let u = (at % 0x20_0000) as f32 - cx;
        cells[i] = ieee::abs_small_f32_to_u32(factor * u + p);
    }
    cells
}

// How many of 32 steps from column x the walk takes.
fn stride<const LEFT: bool>(image: &mut BitMatrix, ray: Ray, x: u32) -> u32
    requires { Inside image.old.shape ray.center.x ray.center.y × (LEFT ≡ true → 32 ≤ x) × (x < 2 ^ 20 + 2 ^ 12) }
    ensures kept { Kept image.old image.new }
    ensures taken { Taken LEFT image.old.shape ray.center ray.angle 32 x image.old.words.now image.old.marks.now result image.new.marks.now }
{
    let columns = along::<LEFT>(ray.angle.cos, ray.center.x, ray.center.x, x);
    let rows = along::<LEFT>(ray.angle.sin, ray.center.x, ray.center.y, x);
    for i in 0..32 {
        if !is_white(image, columns[i], rows[i]) {
            return i as u32;
        }
    }
    32
}

// The column where a walk from column `first` on ends, by strides; to the left one by one where there is no room for a stride. To the right the sine
// tells where it has ended at the latest.
fn strides<const LEFT: bool>(image: &mut BitMatrix, ray: Ray, first: u32) -> u32
    requires { Inside image.old.shape ray.center.x ray.center.y × (first ≤ ray.center.x + steps_right image.old.shape ray.angle) }
    ensures { RanOn (rest LEFT image.old.shape ray.center ray.angle first) image.old result image.new }
{
    let mut x = first;
    loop {
        if LEFT && x < 32 {
            return back(image, ray, x);
        }
        let taken = stride::<LEFT>(image, ray, x);
        x = column::<LEFT>(x, taken);
        if taken < 32 {
            return x;
        }
    }
}

// The column where a walk from column `first` on ends: a few steps one by one, then strides; to the left from below column 16 one by one alone.
fn walk<const LEFT: bool>(image: &mut BitMatrix, ray: Ray, first: u32) -> u32
    requires { Inside image.old.shape ray.center.x ray.center.y × (first ≤ ray.center.x + steps_right image.old.shape ray.angle) }
    ensures { RanOn (rest LEFT image.old.shape ray.center ray.angle first) image.old result image.new }
{
    if LEFT && first < 16 {
        return back(image, ray, first);
    }
    let taken = step::<LEFT>(image, ray, first);
    let x = column::<LEFT>(first, taken);
    if taken < 16 {
        return x;
    }
    strides::<LEFT>(image, ray, x)
}

// Both walks. They end at every degree.
pub fn find_width_at_degree(
    image: &mut BitMatrix,
    center: PointU,
    sines: &Sines,
    degree: u32,
) -> Width
    requires { Inside image.old.shape center.x center.y }
    ensures { RanOn (find_width_at_degree image.old.shape center degree) image.old result image.new }
{
    let ray = Ray {
        center,
        angle: sines.angle(degree),
    };
    let left = walk::<true>(image, ray, center.x);
    let right = walk::<false>(image, ray, center.x + 1);
    ray.width_of(left, right)
}
