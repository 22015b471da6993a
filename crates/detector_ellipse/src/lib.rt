// `detect_ellipse` of detector.rs: whether the ends of 72 walks from a centre lie in an ellipse about it. Each stored bit that the walks read is marked.
// The walks that the source repeats at its end are left out: they read nothing new, and nobody uses their ends.
#![tactic(auto)]

ghost use Rattle.std.specs.Prelude.{◌≡◌, ◌<◌, ◌≤◌};
ghost use Rattle.reads.specs.Bits.{bit_at};
ghost use Rattle.bit_matrix.specs.FlankedClauses.{Flanked};
ghost use Rattle.detector_ellipse.specs.Ellipse.{widths_about, longest, shortest, check_ellipse_point, in_ellipse, good_points, is_ellipse, detect_ellipse};
ghost use Rattle.bit_matrix.specs.ImageClauses.{RanOn};
ghost use Rattle.bit_matrix.specs.ShapeClauses.{Inside};

use bit_matrix::BitMatrix;
use detector_walks::Width;
use rxing_result_point::{Point, PointU};
use sines::Sines;

// The widths at the multiples of 5 degrees, in order.
fn widths_about(image: &mut BitMatrix, center: PointU, sines: &Sines) -> [Width; 72]
    requires { Inside image.old.shape center.x center.y }
    ensures { RanOn (widths_about image.old.shape center) image.old result image.new }
{
    let mut widths = [Width::default(); 72];
    for (i, width) in widths.iter_mut().enumerate() {
        let degree = 5 * i as u32;
        *width = detector_walks::find_width_at_degree(image, center, sines, degree);
    }
    widths
}

// The longest length.
fn longest_of(widths: &[Width; 72]) -> u32
    ensures { result ≡ longest widths.now }
{
    widths.iter().map(|width| width.length).max().unwrap_or(0)
}

// The shortest length: none is above the longest.
fn shortest_of(widths: &[Width; 72], longest: u32) -> u32
    ensures { result ≡ shortest longest widths.now }
{
    widths
        .iter()
        .fold(longest, |least, width| least.min(width.length))
}

// An ellipse about a centre, the longer half axis along x.
#[derive(Clone, Copy)]
struct Ellipse {
    center: PointU,
    semi_major_axis: u32,
    semi_minor_axis: u32,
}

impl Ellipse {
    // Where a point lies: above 1 outside. A zero by a zero is NaN.
    fn check_ellipse_point(self, point: Point) -> f64
        ensures { result ≡ check_ellipse_point self.center point self.semi_major_axis self.semi_minor_axis }
    {
        let x = std::num::f32_to_f64_with_nan(point.x) - (self.center.x as f64);
        let y = std::num::f32_to_f64_with_nan(point.y) - (self.center.y as f64);
        let a = self.semi_major_axis as f64;
        let b = self.semi_minor_axis as f64;
        x * x / (a * a) + y * y / (b * b)
    }

    // Whether a point is not outside. A NaN is not above 1.
    fn passes(self, point: Point) -> bool
        ensures { result ≡ in_ellipse self.center self.semi_major_axis self.semi_minor_axis point }
    {
        !(self.check_ellipse_point(point) > 1.0)
    }

    // How many of the 144 ends pass.
    fn good_points_of(self, widths: &[Width; 72]) -> u32
        ensures { (result ≡ good_points self.center self.semi_major_axis self.semi_minor_axis widths.now) × (result ≤ 144) }
    {
        let mut good = 0u32;
        for width in widths {
            good += u32::from(self.passes(width.left));
            good += u32::from(self.passes(width.right));
        }
        good
    }
}

// Whether these widths are an ellipse's: the halves of the longest and the shortest length differ, and four fifths of the ends lie in the ellipse of
// the two halves.
fn is_ellipse(center: PointU, widths: &[Width; 72]) -> bool
    requires { longest widths.now < 50000 }
    ensures { result ≡ is_ellipse center widths.now }
{
    let longest = longest_of(widths);
    let shortest = shortest_of(widths, longest);
    let major = longest / 2;
    let minor = shortest / 2;
    let linear_eccentricity = (major * major - minor * minor).isqrt();
    if linear_eccentricity == 0 {
        return false;
    }
    let ellipse = Ellipse {
        center,
        semi_major_axis: major,
        semi_minor_axis: minor,
    };
    5 * ellipse.good_points_of(widths) >= 576
}

// From a centre between black pixels of its row, as every one found is, no length is 50,000 or more, and the squares stay in 32 bits.
pub fn detect_ellipse(image: &mut BitMatrix, center: PointU, sines: &Sines) -> bool
    requires { Inside image.old.shape center.x center.y × Flanked image.old.shape (bit_at image.old.words.now) center.x center.y }
    ensures { RanOn (detect_ellipse image.old.shape center) image.old result image.new }
{
    let widths = widths_about(image, center, sines);
    is_ellipse(center, &widths)
}
