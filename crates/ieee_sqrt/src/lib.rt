// The square root, correctly rounded (`RootOf`, specs/CorrectlyRounded.antt).
#![tactic(auto)]

ghost use Rattle.std.specs.Prelude.{◌≡◌};
ghost use Rattle.std.specs.Float.{binary64};
ghost use Rattle.ieee_sqrt.specs.Sqrt.{sqrt};

// Rust's `x.sqrt()`: a zero gives itself, and anything else that is not positive a NaN.
pub fn sqrt_f64(x: f64) -> f64
    ensures { result ≡ sqrt binary64 x }
{
    x.sqrt()
}
