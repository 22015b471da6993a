// `calculate_high_accuracy_center` of detector.rs: the corrected centre, written into a circle that is lent.
#![tactic(auto)]

ghost use Rattle.bit_matrix.specs.ShapeClauses.{Inside};
ghost use Rattle.bit_matrix.specs.ImageClauses.{RanOn};
ghost use Rattle.detector_circle.specs.Circle.{corrected_circle};

use bit_matrix::BitMatrix;
use rxing_result_point::PointU;
use sines::Sines;

// What the centre's correction has of the source's circle; the image is lent beside it, and the runs have no part in it.
#[derive(Clone, Copy)]
pub struct Circle {
    pub center: PointU,
    pub radius: u32,
}

impl Circle {
    // The centre is replaced, and the radius stays.
    pub fn calculate_high_accuracy_center(&mut self, image: &mut BitMatrix, sines: &Sines)
        requires { Inside image.old.shape self.old.center.x self.old.center.y }
        ensures { RanOn (corrected_circle image.old.shape self.old) image.old self.new image.new }
    {
        self.center = detector_center::corrected_center(image, self.center, sines);
    }
}
