// What Rust has on floats: abs, floor and round to an integer, and casts, which go toward zero, to the nearest
// end of the integer's range where the float is out of it, and to 0 at a NaN. Two casts more are for small numbers
// only, and faster. Each contract is one equation with a definition, of the logic's account of IEEE 754 (`lib.Ieee`)
// or of specs/, for every float, NaNs too; of those two for every float that they ask for.
#![tactic(auto)]

ghost use Rattle.std.specs.Prelude.{◌≡◌, false, T, pos};
ghost use Rattle.std.specs.Float.Ieee as Ieee;
ghost use Rattle.std.specs.Float.{fin, binary32, binary64, NotNan};
ghost use Rattle.ieee.specs.Sign.{abs};
ghost use Rattle.ieee.specs.Integral.{floor, round_ties_to_away};

// Rust's `x.abs()`.
pub fn abs_f32(x: f32) -> f32
    ensures { result ≡ abs x }
{
    x.abs()
}

// Rust's `x as i32`.
pub fn saturating_f32_to_i32(x: f32) -> i32
    ensures { result ≡ Ieee.to_signed 31 x }
{
    std::num::saturating_f32_to_i32(x)
}

// Rust's `x.floor() as u32`.
pub fn floor_f64_to_u32(x: f64) -> u32
    ensures { result ≡ Ieee.to_unsigned 32 (floor binary64 x) }
{
    std::num::saturating_f64_to_u32(x.floor())
}

// Rust's `x.round().floor() as u32`, halves away from zero.
pub fn round_floor_f32_to_u32(x: f32) -> u32
    ensures { result ≡ Ieee.to_unsigned 32 (floor binary32 (round_ties_to_away binary32 x)) }
{
    std::num::saturating_f32_to_u32(x.round().floor())
}

// `x.abs()` with no test on the way: the sign is cleared in the bit pattern.
fn cleared(x: f32) -> f32
    requires { NotNan x }
    ensures { result ≡ abs x }
{
    f32::from_bits(x.to_bits() % 0x8000_0000)
}

// Rust's `x.abs() as u32` of an x below 2 ^ 28 in size, with no test on the way. From 2 ^ 28 to
// 2 ^ 29 an f64's pattern counts 2 ^ -24, which every f32 from 1 / 2 on is a multiple of: so 2 ^ 28
// more than the size has its whole part in the digits 24 to 51.
pub fn abs_below_f32_to_u32(x: f32) -> u32
    requires { T (Ieee.lt (abs x) (fin false 1 (pos 28))) }
    ensures { result ≡ Ieee.to_unsigned 32 (abs x) }
{
    let size = cleared(x);
    let bits = (size as f64 + 268435456.0).to_bits();
    (bits / 0x100_0000 % 0x1000_0000) as u32
}

// Rust's `x.abs() as u32` of an x below 2 ^ 22 in size, by operations of f32 alone, so that several go side by side
// in vectors. From 2 ^ 23 to 2 ^ 24 the values of f32 are the whole numbers: the sum of the size and 2 ^ 23 is rounded
// to 2 ^ 23 more than the whole part, or to one above that. In the second case the sum less 2 ^ 23 exceeds the size,
// and one is taken off.
pub fn abs_small_f32_to_u32(x: f32) -> u32
    requires { T (Ieee.lt (abs x) (fin false 1 (pos 22))) }
    ensures { result ≡ Ieee.to_unsigned 32 (abs x) }
{
    let size = cleared(x);
    let nearest = size + 8388608.0;
    let above = nearest - 8388608.0 > size;
    nearest.to_bits() % 0x80_0000 - (above as u32)
}

// Rust's `x.abs() as u32`, with a faster cast of the sizes below 2 ^ 28.
pub fn abs_f32_to_u32(x: f32) -> u32
    ensures { result ≡ Ieee.to_unsigned 32 (abs x) }
{
    let size = x.abs();
    if size < 268435456.0 {
        abs_below_f32_to_u32(x)
    } else {
        std::num::saturating_f32_to_u32(size)
    }
}
