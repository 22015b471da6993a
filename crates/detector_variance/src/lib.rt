// `calculate_circle_variance` of detector.rs: how far a candidate's runs are from even, in f32. The helpers over floats
// ask nothing of their argument, so no function's proof needs a float's range.
#![tactic(auto)]

ghost use Rattle.std.specs.Prelude.{◌≡◌, ◌<◌};
ghost use Rattle.detector_variance.specs.Variance.{width_to, further, variance_to, expected_area, area_variance, circle_variance};
ghost use Rattle.detector_variance.specs.VarianceClauses.{Short};

// That runs are `Short` stands in clauses: a type for it would be made of two slices by one caller, and taken apart here.

// Which runs a sum takes, by 1: the even ones; of the odd ones all but the middle one; all but the first and the middle one. As `bool`s they would be no
// plainer: the definition `takes` reads numbers, so that each clause would first turn them into these.
const EVENS: [u8; 11] = [1, 0, 1, 0, 1, 0, 1, 0, 1, 0, 1];

const ODDS: [u8; 11] = [0, 1, 0, 1, 0, 0, 0, 1, 0, 1, 0];

const OTHERS: [u8; 11] = [0, 1, 1, 1, 1, 0, 1, 1, 1, 1, 1];

// The width of those that t takes, row and column. Put in place, as the sum below: of a list that is known the tests go away.
#[inline(always)]
fn total_width(t: &[u8; 11], h: &[u32], v: &[u32]) -> u32
    requires { Short h.now × Short v.now }
    ensures { result ≡ width_to t.now h.now v.now 11 }
{
    let mut width = 0;
    for i in 0..11 {
        if t[i] == 1 {
            width += h[i] + v[i];
        }
    }
    width
}

// acc, and how far the run n is from what is expected.
#[inline(always)]
fn further_by(expected: f32, acc: f32, n: u32) -> f32
    ensures { result ≡ further expected acc n }
{
    acc + ieee::abs_f32(expected - std::num::nearest_u32_to_f32(n))
}

// How far the row runs that t takes are from what is expected, added in their order.
#[inline(always)]
fn total_variance(t: &[u8; 11], h: &[u32], expected: f32) -> f32
    requires { Short h.now }
    ensures { result ≡ variance_to t.now h.now expected 11 }
{
    let mut variance = 0.0;
    for i in 0..11 {
        if t[i] == 1 {
            variance = further_by(expected, variance, h[i]);
        }
    }
    variance
}

// The area of a circle as wide as the run n.
fn expected_area(n: u32) -> f32
    requires { n < 65536 }
    ensures { result ≡ expected_area n }
{
    std::num::nearest_u32_to_f32((n / 2) * (n / 2)) * std::f32::consts::PI
}

// How far two areas are from their mean.
fn circle_area_variance(horizontal: f32, vertical: f32) -> f32
    ensures { result ≡ area_variance horizontal vertical }
{
    let mean = (horizontal + vertical) / 2.0;
    ieee::abs_f32(horizontal - mean) + ieee::abs_f32(vertical - mean)
}

// The variance of row runs h and column runs v.
pub fn calculate_circle_variance(h: &[u32], v: &[u32]) -> f32
    requires { Short h.now × Short v.now }
    ensures { result ≡ circle_variance h.now v.now }
{
    let module_even = std::num::nearest_u32_to_f32(total_width(&EVENS, h, v)) / 10.0;
    let module_odd = std::num::nearest_u32_to_f32(total_width(&ODDS, h, v)) / 10.0;
    let even = total_variance(&EVENS, h, module_even);
    let odd = total_variance(&OTHERS, h, module_odd);
    let horizontal = expected_area(v[5]);
    let vertical = expected_area(h[5]);
    (even + odd + circle_area_variance(horizontal, vertical)) / 3.0
}
