// The size of a symbol guessed from the radius of its bull's-eye: `guess_barcode_size_general` and `guess_barcode_size` of detector.rs.
#![tactic(auto)]

ghost use Rattle.std.specs.Prelude.{◌≡◌, ◌<◌};
ghost use Rattle.detector_size.specs.Size.{guessed_size, plain_size};

// A symbol's width and height in pixels.
#[derive(Clone, Copy)]
pub struct Size {
    pub width: u32,
    pub height: u32,
}

pub fn guess_barcode_size_general(
    radius: u32,
    height_adjust_percent: f64,
    circle_area_percent: f64,
    height_final_adjust_percent: f64,
) -> Size
    requires { radius < 65536 }
    ensures { result ≡ guessed_size radius height_adjust_percent circle_area_percent height_final_adjust_percent }
{
    let circle_area = std::f64::consts::PI * ((radius * radius) as f64);
    let ideal_symbol_area = circle_area / circle_area_percent / (1.0 - height_adjust_percent);
    let ideal_symbol_side = ieee_sqrt::sqrt_f64(ideal_symbol_area);
    Size {
        width: ieee::floor_f64_to_u32(ideal_symbol_side),
        height: ieee::floor_f64_to_u32(ideal_symbol_side * height_final_adjust_percent),
    }
}

pub fn guess_barcode_size(radius: u32) -> Size
    requires { radius < 65536 }
    ensures { result ≡ plain_size radius }
{
    guess_barcode_size_general(radius, 0.03, 0.066, 1.0)
}
