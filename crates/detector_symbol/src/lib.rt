// A symbol, and its words in a record.
#![tactic(auto)]

ghost use Rattle.std.specs.Prelude.{◌≡◌, ◌<◌, length};
ghost use Rattle.std.proofs.lemmas.List.Edits.{sets};
ghost use Rattle.detector_symbol.specs.Symbols.{corner_words, with_symbol};

use detector_outcome::Turn;
use rxing_result_point::Point;

// A symbol's turn, its corners (left, bottom), (left, top), (right, bottom), (right, top), and its class.
#[derive(Clone, Copy)]
pub struct Symbol {
    pub turn: Turn,
    pub corners: [Point; 4],
    pub class: u32,
}

// A corner's two words, from that index on.
fn store_corner(fields: &mut [u32; 40], at: usize, p: Point)
    requires { at < 39 }
    ensures { fields.new ≡ sets fields.old at (corner_words p) }
{
    fields[at] = std::num::f32_to_bits_with_nan(p.x);
    fields[at + 1] = std::num::f32_to_bits_with_nan(p.y);
}

// A symbol's words in a record, from its outcome on.
pub fn symbol_fields(fields: &mut [u32; 40], symbol: Symbol)
    requires { length fields.old ≡ 40 }
    ensures { fields.new ≡ with_symbol fields.old symbol }
{
    let turn = symbol.turn;
    let outcome = turn.outcome;
    let center = turn.center;
    fields[records::OUTCOME] = u32::from(outcome);
    fields[records::SCALE] = turn.scale;
    fields[records::ROTATION] = outcome.rotation_bits();
    fields[records::LAST_CENTER_X] = center.x;
    fields[records::LAST_CENTER_Y] = center.y;
    for (i, corner) in symbol.corners.iter().enumerate() {
        store_corner(fields, records::CORNERS + 2 * i, *corner);
    }
    fields[records::CLASS] = symbol.class;
}
