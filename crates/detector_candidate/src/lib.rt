// One search of a row in `find_concentric_circles` of detector.rs: a candidate's record, and where the next search starts.
#![tactic(auto)]

ghost use Rattle.std.specs.Prelude.{◌≡◌, ◌+◌, ◌^◌, ◌≤◌, ◌<◌};
ghost use Rattle.detector_candidate.specs.Candidate.{candidate_of, passed, failed};
ghost use Rattle.detector_candidate.specs.CandidateClauses.{Searchable, search_from};
ghost use Rattle.bit_matrix.specs.ImageClauses.{RanOn};

use bit_matrix::BitMatrix;
use detector_window::Bullseye;

// What one search of a row gives: the record of a bull's-eye that passed, and where the next search of the row starts, unless the row ends.
#[derive(Clone, Copy)]
pub struct Searched {
    pub candidate: Option<[u32; 40]>,
    pub next: Option<u32>,
}

// A candidate's record. Two for loops: `copy_from_slice` moves several runs at once, soon after they were stored one by one, which is slower.
fn candidate_of(row: u32, eye: Bullseye, vertical: [u32; 11]) -> [u32; 40]
    ensures { result ≡ candidate_of row eye vertical }
{
    let mut fields = [0; 40];
    fields[records::CENTER_X] = eye.center;
    fields[records::CENTER_Y] = row;
    fields[records::RADIUS] = eye.radius;
    for k in 0..11 {
        fields[records::ROW_RUNS + k] = eye.buckets[k];
    }
    for k in 0..11 {
        fields[records::COLUMN_RUNS + k] = vertical[k];
    }
    fields
}

// A bull's-eye: the next search starts at the column that closed its window.
fn bullseye_passed(row: u32, eye: Bullseye, vertical: [u32; 11]) -> Searched
    requires { eye.center + eye.radius < 2 ^ 32 }
    ensures { result ≡ passed row eye vertical }
{
    Searched {
        candidate: Some(candidate_of(row, eye, vertical)),
        next: Some(eye.center + eye.radius),
    }
}

// A window and no bull's-eye: the next search starts about a quarter of the radius into the window, and where this one started there too, the row ends.
fn bullseye_failed(column: u32, eye: Bullseye) -> Searched
    requires { eye.radius ≤ eye.center }
    ensures { result ≡ failed column eye }
{
    let next = eye.center - eye.radius + eye.radius / 4;
    Searched {
        candidate: None,
        next: if next == column { None } else { Some(next) },
    }
}

// One search of a row, from a column on: a window, and whether its column passes too. With no window the row ends.
pub fn search_from(image: &mut BitMatrix, row: u32, column: u32) -> Searched
    requires { Searchable image.old.shape row column }
    ensures { RanOn (search_from image.old.shape row column) image.old result image.new }
{
    let found = detector_rows::find_next_bullseye_horizontal(image, row, column);
    let Some(eye) = found else {
        return Searched {
            candidate: None,
            next: None,
        };
    };
    match detector_columns::verify_bullseye_vertical(image, row, eye.center) {
        Ok(vertical) => bullseye_passed(row, eye, vertical),
        Err(_) => bullseye_failed(column, eye),
    }
}
