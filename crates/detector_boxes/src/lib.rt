// The box and turn of each kept record, in rank order: `box_symbol` of detector.rs for each circle that `detect` keeps.
#![tactic(auto)]

ghost use Rattle.bit_matrix.specs.ImageClauses.{Kept, RanOn};
ghost use Rattle.records.specs.Records.{rows};
ghost use Rattle.detector_boxes.specs.Boxing.{boxed, boxed_all};
ghost use Rattle.detector_boxes.specs.BoxingClauses.{Boxable, AllBoxable, Boxed};

use bit_matrix::BitMatrix;
use detector_circle::Circle;
use rxing_result_point::PointU;
use sines::Sines;

// A kept record gets the words of its symbol.
fn box_record(image: &mut BitMatrix, fields: &mut [u32; 40], sines: &Sines, ellipse: bool)
    requires { Boxable image.old.shape image.old.words.now fields.old }
    ensures { RanOn (boxed ellipse image.old.shape fields.old) image.old fields.new image.new }
{
    let x = fields[records::CENTER_X];
    let y = fields[records::CENTER_Y];
    let radius = fields[records::RADIUS];
    let center = PointU { x, y };
    let circle = Circle { center, radius };
    let symbol = detector_box::box_symbol(image, circle, sines, ellipse);
    detector_symbol::symbol_fields(fields, symbol);
}

// The kept records, each with the words of its symbol, one after another; the table of sines is made once. Loaded and stored: no contract says what a
// buffer is after its records were lent from it one by one (`as_chunks_mut`).
pub fn box_kept(image: &mut BitMatrix, records: &mut [u32], kept: usize, ellipse: bool)
    requires { AllBoxable image.old.shape image.old.words.now kept records.old }
    ensures kept { Kept image.old image.new }
    ensures boxed { Boxed (boxed_all ellipse image.old.shape (rows kept records.old)) kept
        image.old.words.now image.old.marks.now records.old image.new.marks.now records.new }
{
    let sines = Sines::new();
    for i in 0..kept {
        let mut fields = records::load(records, i);
        box_record(image, &mut fields, &sines, ellipse);
        records::store(records, i, &fields);
    }
}
