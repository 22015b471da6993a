// `detect` of detector.rs up to the box, in three parts: the sweep, the verdict on its candidates, and the box and turn of each kept record, with the
// ellipse check on or off.
#![tactic(auto)]

ghost use Rattle.std.specs.Prelude.{◌≡◌};
ghost use Rattle.bit_matrix.specs.ShapeClauses.{Image};
ghost use Rattle.detector_candidates.specs.CandidatesClauses.{Room};
ghost use Rattle.detector_verdict.specs.Verdict.{numbers_of};
ghost use Rattle.detector_search.specs.Search.{search_at};
ghost use Rattle.detector_search.specs.SearchClauses.{Sought};

use bit_matrix::{BitMatrix, Shape};
use detector_verdict::Counts;

// What a search is told: the image's shape, how many records there is room for, and whether ellipses are told from circles.
#[derive(Clone, Copy)]
pub struct Setting {
    pub shape: Shape,
    pub capacity: usize,
    pub ellipse: bool,
}

// The search of an image, whose marks the caller has cleared: the records of the kept candidates into the buffer, with their boxes and turns.
pub fn search(words: &[u64], marks: &mut [u64], records: &mut [u32], setting: Setting) -> Counts
    requires { Image setting.shape words.now marks.old × Room setting.capacity records.old 0 }
    ensures { Sought (search_at setting) setting.capacity words.now marks.old records.old (numbers_of result) marks.new
        records.new }
{
    let mut image = BitMatrix {
        words,
        marks,
        shape: setting.shape,
    };
    let capacity = setting.capacity;
    let found = detector_candidates::find_concentric_circles(&mut image, records, capacity);
    let counts = detector_verdict::verdict(records, found, capacity);
    let kept = counts.kept as usize;
    if kept == 0 {
        return counts;
    }
    detector_boxes::box_kept(&mut image, records, kept, setting.ellipse);
    counts
}
