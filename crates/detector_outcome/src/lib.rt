// What `box_symbol` of detector.rs comes to: one of four outcomes, its words in a record, and the class of a symbol.
#![tactic(auto)]

ghost use Rattle.std.specs.Prelude.{◌≡◌, ◌<◌};
ghost use Rattle.detector_outcome.specs.Outcomes.{outcome_number, degree_of, scale_of, rotation_bits, class_number, quarter_of, class_of};

use rxing_result_point::PointU;

// What the scales come to, or an ellipse, for which none is tried. With a turn its degrees, as f32.
#[derive(Clone, Copy)]
pub enum Outcome {
    Turned(f32),
    NoTurn,
    LostCentre,
    Ellipse,
}

impl Outcome {
    // The word for the rotation in a record: its bits.
    pub fn rotation_bits(self) -> u32
        ensures { result ≡ rotation_bits self }
    {
        match self {
            Outcome::Turned(rotation) => std::num::f32_to_bits_with_nan(rotation),
            Outcome::NoTurn | Outcome::LostCentre | Outcome::Ellipse => 0,
        }
    }
}

// The word for an outcome in a record.
impl From<Outcome> for u32 {
    ghost from_gives = { λ outcome n. n ≡ outcome_number outcome };

    fn from(outcome: Outcome) -> u32 {
        match outcome {
            Outcome::Turned(_) => 1,
            Outcome::NoTurn => 0,
            Outcome::LostCentre => 2,
            Outcome::Ellipse => 3,
        }
    }
}

// What was found: the degree of the turn (0 without one), the scale that turned or lost the centre (0 without), and the last centre inside the image.
#[derive(Clone, Copy)]
pub struct Turn {
    pub outcome: Outcome,
    pub degree: u32,
    pub scale: u32,
    pub center: PointU,
}

impl Turn {
    // The scale that turned or lost the centre, 0 without one. Of every turn that a search comes to it is the field: `scale_word` (detector_turn).
    pub fn scale(self) -> u32
        ensures { result ≡ scale_of self }
    {
        match self.outcome {
            Outcome::Turned(_) | Outcome::LostCentre => self.scale,
            Outcome::NoTurn | Outcome::Ellipse => 0,
        }
    }
}

// The handling class: a turn in quarters, to the nearest, or that there is none. By the word for it in a record.
#[derive(Clone, Copy)]
pub enum Class {
    Upright = 0,
    QuarterTurn = 1,
    HalfTurn = 2,
    ThreeQuarterTurn = 3,
    WithoutTurn = 4,
}

impl From<Class> for u32 {
    ghost from_gives = { λ class n. n ≡ class_number class };

    fn from(class: Class) -> u32 {
        class as u32
    }
}

// The class of a turn by so many degrees.
#[tactic(auto, unfolding(crate::specs::Outcomes::quarter_of))]
pub fn quarter_of(degree: u32) -> Class
    requires { degree < 360 }
    ensures { class_number result ≡ quarter_of degree }
{
    match degree {
        45..=134 => Class::QuarterTurn,
        135..=224 => Class::HalfTurn,
        225..=314 => Class::ThreeQuarterTurn,
        _ => Class::Upright,
    }
}

// The class of a symbol. Without a turn no degree is looked at.
pub fn class_of(turn: Turn) -> Class
    requires { degree_of turn < 360 }
    ensures { class_number result ≡ class_of turn }
{
    match turn.outcome {
        Outcome::Turned(_) => quarter_of(turn.degree),
        Outcome::NoTurn | Outcome::LostCentre | Outcome::Ellipse => Class::WithoutTurn,
    }
}

#[cfg(test)]
mod tests {
    use super::*;

    // A turn with that outcome and degree, and scale 5. 400 is a degree that no turn has: without a turn it is not looked at.
    fn beside(outcome: Outcome, degree: u32) -> Turn
        ensures { (result.outcome ≡ outcome) × (result.degree ≡ degree) }
    {
        let center = PointU { x: 17, y: 23 };
        Turn {
            outcome,
            degree,
            scale: 5,
            center,
        }
    }

    #[test]
    fn scales(rt: HostRuntime) {
        assert_eq!(rt; beside(Outcome::Turned(90.0), 90).scale(), 5);
        assert_eq!(rt; beside(Outcome::LostCentre, 400).scale(), 5);
        assert_eq!(rt; beside(Outcome::NoTurn, 400).scale(), 0);
        assert_eq!(rt; beside(Outcome::Ellipse, 400).scale(), 0);
    }

    #[test]
    fn classes(rt: HostRuntime) {
        let turned = class_of(beside(Outcome::Turned(90.0), 90));
        let lost = class_of(beside(Outcome::LostCentre, 400));
        let not_turned = class_of(beside(Outcome::NoTurn, 400));
        let ellipse = class_of(beside(Outcome::Ellipse, 400));
        assert_eq!(rt; u32::from(turned), 1);
        assert_eq!(rt; u32::from(lost), 4);
        assert_eq!(rt; u32::from(not_turned), 4);
        assert_eq!(rt; u32::from(ellipse), 4);
    }
}
